// Constants are folded in a function, and in a module.
ghost use Rattle.std.specs.Prelude.{◌≡◌, IfOk, map, true};
ghost use Rattle.sc_opt_fold.specs.Folded as spec;
ghost use Rattle.sc_opt_fold.specs.Settled.{is_settled};

use crate::copies::{blocks_copied, declared_copied, objects_copied};
use crate::statements::fold_statement;
use sc_base::{Duplicate, Items, NoMemory, Shared};
use sc_core::{Core, Fun};
use std::alloc::Global;

/// A function with the numbers that operators, casts and conversions of numbers give. Its objects and what its frame costs
/// stay as they are.
///
/// # Errors
///
/// `NoMemory` alone.
pub fn fold_function(alloc: Global, f: &Fun) -> Result<Fun, NoMemory>
    ensures { IfOk result (λ g. g ≡ spec.folded_function f.now) }
{
    let name = f.name.copy(alloc)?;
    let of = f.of.copy(alloc)?;
    let blocks = blocks_copied(alloc, f.blocks.as_slice())?;
    let body = fold_statement(alloc, f.body.get())?;
    let body = Shared::new(alloc, body)?;
    Ok(Fun {
        name,
        external: f.external,
        line: f.line,
        of,
        blocks,
        cost: f.cost,
        body,
    })
}

fn folded_functions(alloc: Global, funs: &[Shared<Fun>]) -> Result<Items<Shared<Fun>>, NoMemory>
    ensures { IfOk result (λ gs. gs ≡ map spec.folded_function funs.now) }
{
    let mut all = Items::new(alloc);
    for f in funs {
        let f = fold_function(alloc, f.get())?;
        all.push(Shared::new(alloc, f)?)?;
    }
    Ok(all)
}

/// A module with the numbers that operators, casts and conversions of numbers give: the same functions, objects, types,
/// lines, slots and costs, and no operator, cast or conversion left that gives a number (`is_settled`).
///
/// # Errors
///
/// `NoMemory` alone.
#[tactic(auto, using(crate::proofs::Settled::core_settled))]
pub fn fold(alloc: Global, core: &Core) -> Result<Core, NoMemory>
    ensures value { IfOk result (λ c. c ≡ spec.folded_core core.now) }
    ensures settled { IfOk result (λ c. is_settled c ≡ true) }
{
    let name = core.name.copy(alloc)?;
    let funs = folded_functions(alloc, core.funs.as_slice())?;
    let objects = objects_copied(alloc, core.objects.as_slice())?;
    let literals = core.literals.copy(alloc)?;
    let births = core.births.copy(alloc)?;
    let structs = core.structs.copy(alloc)?;
    let declared = declared_copied(alloc, core.declared.as_slice())?;
    Ok(Core {
        name,
        funs,
        objects,
        literals,
        births,
        structs,
        declared,
    })
}
