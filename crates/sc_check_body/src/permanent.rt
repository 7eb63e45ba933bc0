// Objects of a block with static storage duration and no linkage (ANSI 3.1.2.4).
ghost use Rattle.std.specs.Prelude.{◌≡◌, IfOk, OnOk};
ghost use Rattle.sc_check_body.specs.Faults.{Says, GivesWith};
ghost use Rattle.sc_check_body.specs.Locals as spec;

use crate::fault::{UnitFault, rule};
use crate::progress::{Body, Translation};
use sc_base::{Duplicate, Items, Key, Name, NoMemory};
use sc_check_declare::is_constant;
use sc_check_initial::{static_initializer, zeros};
use sc_check_linkage::{Birth, Declaration as Declared, block_key};
use sc_check_operand::object_size;
use sc_check_scope::{Meaning, State};
use sc_core::{Init, StaticObj};
use sc_tree::Initializer;
use sc_types::{CType, Structs};
use std::alloc::Global;

/// The key of the function's next object of a name.
fn next_key(alloc: Global, m: &Translation, f: &mut Body, name: &Name) -> Result<Key, NoMemory>
    ensures key { IfOk result (λ key. key ≡ spec.key_of name.now m.now f.old) }
    ensures body { OnOk result (f.new ≡ spec.with_static name.now f.old) }
{
    let count = f.counts.add(alloc, name)?;
    block_key(alloc, &m.home, &f.name, name, count)
}

/// The key of the next object of a name, which is born here.
fn new_key(alloc: Global, m: &mut Translation, f: &mut Body, name: &Name) -> Result<Key, NoMemory>
    ensures key { IfOk result (λ key. key ≡ spec.key_of name.now m.old f.old) }
    ensures unit { OnOk result (m.new ≡ spec.born name.now f.old m.old) }
    ensures body { OnOk result (f.new ≡ spec.with_static name.now f.old) }
{
    let key = next_key(alloc, m, f, name)?;
    m.note(Birth::Block(key.copy(alloc)?))?;
    Ok(key)
}

/// The bytes that an object of static storage duration has without an initialiser.
fn empty_contents(
    alloc: Global,
    structs: &Structs,
    x: &Declared,
) -> Result<(CType, Items<Init>), UnitFault>
    ensures { Says (spec.empty_contents structs.now x.now) result }
{
    if object_size(structs, &x.of).is_none() {
        return Err(rule(x.line));
    }
    let init = zeros(alloc, structs, &x.of)?;
    let of = x.of.copy(alloc)?;
    Ok((of, init))
}

fn contents(
    alloc: Global,
    st: &mut State,
    home: &Name,
    x: &Declared,
    given: &Option<Initializer>,
) -> Result<(CType, Items<Init>), UnitFault>
    ensures { GivesWith (spec.contents home.now x.now given.now st.old) result st.new }
{
    match given {
        Some(given) => Ok(static_initializer(alloc, st, home, &x.of, given)?),
        None => empty_contents(alloc, &st.structs, x),
    }
}

fn static_meaning(alloc: Global, of: &CType, key: &Key) -> Result<Meaning, NoMemory>
    ensures { IfOk result (λ meaning. meaning ≡ Meaning.Static of.now key.now) }
{
    let of = of.copy(alloc)?;
    let key = key.copy(alloc)?;
    Ok(Meaning::Static(of, key))
}

fn name_static(
    alloc: Global,
    st: &mut State,
    name: &Name,
    of: &CType,
    key: &Key,
) -> Result<(), NoMemory>
    ensures { OnOk result (st.new ≡ spec.naming name.now (Meaning.Static of.now key.now) st.old) }
{
    let meaning = static_meaning(alloc, of, key)?;
    let name = name.copy(alloc)?;
    st.names.declare(alloc, name, meaning)
}

fn declare_static(alloc: Global, st: &mut State, x: &Declared, key: &Key) -> Result<(), UnitFault>
    ensures { GivesWith (spec.declare_static x.now key.now st.old) result st.new }
{
    let meaning = static_meaning(alloc, &x.of, key)?;
    let name = x.name.copy(alloc)?;
    st.declare(alloc, x.line, name, meaning)?;
    Ok(())
}

/// One more object of the unit, in its final type.
fn put_object(
    alloc: Global,
    m: &mut Translation,
    key: Key,
    x: &Declared,
    of: CType,
    init: Items<Init>,
) -> Result<(), NoMemory>
    ensures { OnOk result (m.new ≡ spec.with_object key x.now of init m.old) }
{
    name_static(alloc, &mut m.st, &x.name, &of, &key)?;
    let constant = is_constant(&of);
    m.objects.push(StaticObj {
        key,
        of,
        constant,
        line: x.name_line,
        init,
    })
}

fn static_object(
    alloc: Global,
    m: &mut Translation,
    key: Key,
    x: &Declared,
    given: &Option<Initializer>,
) -> Result<(), UnitFault>
    ensures { GivesWith (spec.static_contents key x.now given.now m.old) result m.new }
{
    let (of, init) = contents(alloc, &mut m.st, &m.home, x, given)?;
    put_object(alloc, m, key, x, of, init)?;
    Ok(())
}

fn static_with(
    alloc: Global,
    m: &mut Translation,
    key: Key,
    x: &Declared,
    given: &Option<Initializer>,
) -> Result<(), UnitFault>
    ensures { GivesWith (spec.static_with key x.now given.now m.old) result m.new }
{
    declare_static(alloc, &mut m.st, x, &key)?;
    static_object(alloc, m, key, x, given)
}

/// An object of static storage duration without linkage, with its initialiser, where one is written.
pub(crate) fn static_local(
    alloc: Global,
    m: &mut Translation,
    f: &mut Body,
    x: &Declared,
    given: &Option<Initializer>,
) -> Result<(), UnitFault>
    ensures { GivesWith (spec.static_local x.now given.now (m.old, f.old)) result (m.new, f.new) }
{
    let key = new_key(alloc, m, f, &x.name)?;
    static_with(alloc, m, key, x, given)
}
