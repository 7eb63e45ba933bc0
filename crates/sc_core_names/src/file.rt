// The names of the file, and the functions that it defines.
ghost use Rattle.std.specs.Prelude.{◌≡◌, ◌++◌, length, OnOk, IfOk};
ghost use Rattle.sc_core_names.specs.Scopes as spec;

use crate::blocks::function_blocks;
use crate::names::{put_declarator, put_in_file, put_specifiers};
use crate::table::{DeclaredName, Entity, FunctionScopes, Scopes};
use sc_base::{Duplicate, Items, NoMemory};
use sc_tree::{External, Function, Unit};
use std::alloc::Global;

fn put_function(
    functions: &mut Vec<FunctionScopes>,
    alloc: Global,
    before: usize,
    f: &Function,
) -> Result<(), NoMemory>
    ensures { OnOk result (functions.new.items ≡ functions.old.items ++ spec.function_scopes before f.now) }
{
    let Some(id) = &f.declarator.identifier else {
        return Ok(())
    };
    let name = id.name.copy(alloc)?;
    let blocks = function_blocks(alloc, f.declarator.derivations.as_slice(), &f.body)?;
    functions.push(FunctionScopes {
        name,
        before,
        blocks,
    })?;
    Ok(())
}

fn put_names(file: &mut Vec<DeclaredName>, alloc: Global, item: &External) -> Result<(), NoMemory>
    ensures { OnOk result (file.new.items ≡ file.old.items ++ spec.external_names item.now) }
{
    match item {
        External::Function(f) => {
            put_specifiers(file, alloc, &f.specifiers)?;
            put_declarator(file, alloc, Entity::Declared, &f.declarator)
        }
        External::Declaration(d) => put_in_file(file, alloc, d),
    }
}

fn put_scopes(
    functions: &mut Vec<FunctionScopes>,
    alloc: Global,
    before: usize,
    item: &External,
) -> Result<(), NoMemory>
    ensures { OnOk result (functions.new.items ≡ functions.old.items ++ spec.external_scopes before item.now) }
{
    match item {
        External::Function(f) => put_function(functions, alloc, before, f),
        External::Declaration(_) => Ok(()),
    }
}

/// The scopes of a unit.
///
/// # Errors
///
/// `NoMemory` alone.
pub fn scopes_of(alloc: Global, unit: &Unit) -> Result<Scopes, NoMemory>
    ensures { IfOk result (λ scopes. scopes ≡ spec.scopes_of unit.now.items) }
{
    let mut file = Vec::new(alloc);
    let mut functions = Vec::new(alloc);
    for item in unit.items.as_slice() {
        put_names(&mut file, alloc, item)?;
        put_scopes(&mut functions, alloc, file.len(), item)?;
    }
    Ok(Scopes {
        file: Items::from_vec(file),
        functions: Items::from_vec(functions),
    })
}
