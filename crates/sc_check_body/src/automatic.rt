// Automatic objects of a block (ANSI 3.1.2.4, 3.5.7).
ghost use Rattle.std.specs.Prelude.{◌≡◌, IfOk, OnOk};
ghost use Rattle.sc_check_body.specs.Faults.{Says, GivesWith};
ghost use Rattle.sc_check_body.specs.Locals as spec;

use crate::fault::{UnitFault, rule};
use crate::progress::OpenBlock;
use sc_base::{Duplicate, Items, Name, NoMemory, Shared};
use sc_check_initial::automatic_initializer;
use sc_check_linkage::{Declaration as Declared, Local};
use sc_check_operand::object_size;
use sc_check_scope::{Meaning, State};
use sc_core::{AutoInit, CoreStmt};
use sc_tree::Initializer;
use sc_types::{CType, Structs};
use std::alloc::Global;

/// An object of a block's table, in its final type.
///
/// # Errors
///
/// `Rule` (X7): the type is not complete, or its objects are too large.
pub fn local_of(
    alloc: Global,
    structs: &Structs,
    line: u32,
    name: &Name,
    of: &CType,
) -> Result<Local, UnitFault>
    ensures { Says (spec.local_of structs.now line name.now of.now) result }
{
    let Some(size) = object_size(structs, of) else {
        return Err(rule(line));
    };
    let name = name.copy(alloc)?;
    let of = of.copy(alloc)?;
    Ok(Local { name, of, size })
}

/// The meaning of the name of the next object of a block.
fn automatic_meaning(
    of: &CType,
    alloc: Global,
    inner: &OpenBlock,
    register: bool,
) -> Result<Meaning, NoMemory>
    ensures { IfOk result (λ meaning. meaning ≡ spec.meaning_in inner.now of.now register) }
{
    let Ok(at) = u32::try_from(inner.locals.len()) else {
        return Err(NoMemory);
    };
    let of = of.copy(alloc)?;
    Ok(Meaning::Automatic(of, inner.number, at, register))
}

/// The initialiser of the next object of a block.
fn initialize(
    alloc: Global,
    inner: &mut OpenBlock,
    line: u32,
    pieces: Items<AutoInit>,
) -> Result<(), NoMemory>
    ensures { OnOk result (inner.new ≡ spec.with_initializer line pieces inner.old) }
{
    let Ok(at) = u32::try_from(inner.locals.len()) else {
        return Err(NoMemory);
    };
    let statement = CoreStmt::Initialize(line, inner.number, at, pieces);
    inner.initialized.push(Shared::new(alloc, statement)?)
}

fn name_automatic(
    alloc: Global,
    st: &mut State,
    inner: &OpenBlock,
    name: &Name,
    of: &CType,
    register: bool,
) -> Result<(), NoMemory>
    ensures { OnOk result (st.new ≡ spec.naming name.now (spec.meaning_in inner.now of.now register) st.old) }
{
    let meaning = automatic_meaning(of, alloc, inner, register)?;
    let name = name.copy(alloc)?;
    st.names.declare(alloc, name, meaning)
}

/// An automatic object with its initialiser, which completes its type; the answer is that type.
fn initialized(
    alloc: Global,
    st: &mut State,
    inner: &mut OpenBlock,
    x: &Declared,
    register: bool,
    given: &Initializer,
) -> Result<CType, UnitFault>
    ensures { GivesWith (spec.initialized x.now register given.now (st.old, inner.old)) result (st.new, inner.new) }
{
    let (of, pieces) = automatic_initializer(alloc, st, &x.of, given)?;
    initialize(alloc, inner, x.name_line, pieces)?;
    name_automatic(alloc, st, inner, &x.name, &of, register)?;
    Ok(of)
}

/// The object in its final type.
fn completed(
    alloc: Global,
    st: &mut State,
    inner: &mut OpenBlock,
    x: &Declared,
    register: bool,
    given: &Option<Initializer>,
) -> Result<Local, UnitFault>
    ensures { GivesWith (spec.completed x.now register given.now (st.old, inner.old)) result (st.new, inner.new) }
{
    match given {
        Some(given) => {
            let of = initialized(alloc, st, inner, x, register, given)?;
            local_of(alloc, &st.structs, x.line, &x.name, &of)
        }
        None => local_of(alloc, &st.structs, x.line, &x.name, &x.of),
    }
}

fn declare_automatic(
    alloc: Global,
    st: &mut State,
    inner: &OpenBlock,
    x: &Declared,
    register: bool,
) -> Result<(), UnitFault>
    ensures { GivesWith (spec.declare_automatic x.now register inner.now st.old) result st.new }
{
    let meaning = automatic_meaning(&x.of, alloc, inner, register)?;
    let name = x.name.copy(alloc)?;
    st.declare(alloc, x.line, name, meaning)?;
    Ok(())
}

/// An automatic object with its initialiser, where one is written.
pub(crate) fn automatic(
    alloc: Global,
    st: &mut State,
    inner: &mut OpenBlock,
    x: &Declared,
    register: bool,
    given: &Option<Initializer>,
) -> Result<(), UnitFault>
    ensures { GivesWith (spec.automatic x.now register given.now (st.old, inner.old)) result (st.new, inner.new) }
{
    declare_automatic(alloc, st, inner, x, register)?;
    let own = completed(alloc, st, inner, x, register, given)?;
    inner.locals.push(own)?;
    Ok(())
}
