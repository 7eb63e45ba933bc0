// What is written of an object so far: the words of one text, relocations, and the targets that they name.
ghost use Rattle.std.specs.Prelude.{◌≡◌, ◌+◌, ◌*◌, ◌<◌, ◌^◌, [], ◌∷◌, ◌++◌, length, position, slice_get, min, None, Some, MatchOption, OnOk, IfOk, pos};
ghost use Rattle.sc_gen_expr.specs.Emitted as emitted;
ghost use Rattle.sc_gen_expr.specs.Expressions.{expression_code};
ghost use Rattle.sc_gen_code.specs.Styles.{first_spot};
ghost use Rattle.sc_gen_expr.specs.Words as spec;

use crate::expressions::expression;
use crate::words::symbolic_word;
use indexmap::IndexSet;
use sc_base::{Duplicate, Items, NoMemory};
use sc_core::CoreExpr;
use sc_gen_code::{Access, Symbolic, Target, first_spot};
use sc_gen_operand::Scope;
use sc_object::Reloc;
use std::alloc::Global;
use std::marker::Model;

/// The targets that an object names, in the order in which they were named first. Contracts see the list of them.
#[derive(Drop)]
pub struct Targets {
    all: IndexSet<Target>,
}

impl Model for Targets {
    ghost use Rattle.std.specs.Prelude.{List};
    ghost use Rattle.sc_gen_code.specs.declared.symbolic.Target.{Target};

    ghost Value = { List Target };

    ghost view = { λ t. t.all.keys };
}

impl Targets {
    /// No targets.
    pub fn new(alloc: Global) -> Targets
        ensures { result ≡ [] }
    {
        Targets {
            all: IndexSet::new(alloc),
        }
    }

    /// The number of a target, which is new where it was not named before.
    pub fn mention(&mut self, target: Target) -> Result<usize, NoMemory>
        ensures known { OnOk result (self.new ≡ spec.mention self.old target) }
        ensures number { IfOk result (λ n. n ≡ spec.number_of self.old target) }
    {
        let (n, _) = self.all.insert_full(target)?;
        Ok(n)
    }

    /// The target of a number.
    pub fn get(&self, n: usize) -> Option<&Target>
        ensures { MatchOption result (slice_get self.now n ≡ None) (λ t. slice_get self.now n ≡ Some t.now) }
    {
        self.all.get_index(n)
    }

    /// The number of a target, where it was named.
    pub fn number(&self, target: &Target) -> Option<usize>
        ensures { result ≡ position (spec.target_eq target.now) self.now }
    {
        self.all.get_index_of(target)
    }

    /// The targets in the order of their numbers.
    pub fn as_slice(&self) -> &[Target]
        ensures { result.now ≡ self.now }
    {
        self.all.as_slice()
    }

    /// How many targets there are.
    pub fn len(&self) -> usize
        ensures { result ≡ length self.now }
    {
        self.all.len()
    }
}

/// The words of one text so far; the relocations of the object so far; the targets that they name; the index of the text's
/// section; and the offset in the frame from which temporaries are free.
#[derive(Drop)]
pub struct Emit {
    pub words: Items<u32>,
    pub relocs: Items<Reloc>,
    pub targets: Targets,
    pub section: u32,
    pub temporaries: u32,
}

/// Numbers above 2^32 - 1 are counted as that one.
pub fn fitted(n: usize) -> u32
    ensures { result ≡ spec.fitted n }
{
    if n < 4294967295 { n as u32 } else { 4294967295 }
}

/// The offset of the word behind so many, where 2^32 - 1 stands for all that are greater.
fn offset_of(words: usize) -> u32
    ensures { result ≡ spec.fitted (4 * words) }
{
    if words < 1073741824 {
        (4 * words) as u32
    } else {
        4294967295
    }
}

/// R_RISCV_LO12_S for a store, else R_RISCV_LO12_I.
pub fn lower_kind(what: Access) -> u8
    ensures { result ≡ spec.lower_kind what }
{
    match what {
        Access::Store(_, _) => 28,
        Access::Load(_, _) => 27,
        Access::Address(_) => 27,
    }
}

/// A relocation of the next word.
fn relocate(alloc: Global, at: &mut Emit, kind: u8, target: &Target) -> Result<(), NoMemory>
    ensures { OnOk result (emitted.Relocates (Some (kind, target.now)) at.old at.new) }
{
    let own = target.copy(alloc)?;
    let number = at.targets.mention(own)?;
    let offset = offset_of(at.words.len());
    at.relocs.push(Reloc {
        section: at.section,
        at: offset,
        kind,
        symbol: fitted(number),
        addend: 0,
    })
}

/// A relocation of the next word, where it waits for an address.
fn relocate_word(alloc: Global, at: &mut Emit, s: &Symbolic) -> Result<(), NoMemory>
    ensures { OnOk result (emitted.Relocates (spec.relocation s.now) at.old at.new) }
{
    match s {
        Symbolic::Plain(_) => Ok(()),
        Symbolic::Upper(target) => relocate(alloc, at, 26, target),
        Symbolic::Lower(what, target) => relocate(alloc, at, lower_kind(*what), target),
        Symbolic::Call(target) => relocate(alloc, at, 19, target),
    }
}

fn write_one(alloc: Global, at: &mut Emit, s: &Symbolic) -> Result<(), NoMemory>
    ensures { OnOk result (emitted.Appends (s.now ∷ []) at.old at.new) }
{
    relocate_word(alloc, at, s)?;
    at.words.push(symbolic_word(s))
}

/// The words of some code, behind those that stand there, with their relocations.
pub fn write(alloc: Global, code: &[Symbolic], at: &mut Emit) -> Result<(), NoMemory>
    ensures { OnOk result (emitted.Appends code.now at.old at.new) }
{
    for s in code {
        write_one(alloc, at, s)?;
    }
    Ok(())
}

/// The code of an expression of a function whose objects stand in these slots.
pub fn gen_expr(alloc: Global, scope: &Scope, e: &CoreExpr, at: &mut Emit) -> Result<(), NoMemory>
    ensures { OnOk result (emitted.Appends (expression_code scope.now.style.now scope.now.slots.now e.now (first_spot at.old.temporaries)) at.old at.new) }
{
    let mut code = Items::new(alloc);
    expression(alloc, scope, e, first_spot(at.temporaries), &mut code)?;
    write(alloc, code.as_slice(), at)
}
