// A unit, from its tree to its typed tree (ANSI 3.7).
ghost use Rattle.std.specs.Prelude.{◌≡◌, ◌++◌, IfOk, OnOk, true};
ghost use Rattle.sc_core_formed.specs.Modules.{formed};
ghost use Rattle.sc_check_body.specs.Faults.{Says, GivesWith};
ghost use Rattle.sc_check.specs.Outcomes.{Answers};
ghost use Rattle.sc_check.specs.Units as spec;

use crate::file::declare_file;
use crate::function::define_function;
use crate::outcome::told;
use sc_base::{Bytes, Duplicate, Fault, Items, Name, NoMemory};
use sc_check_body::{Translation, UnitFault};
use sc_check_declare::is_constant;
use sc_check_initial::zeros;
use sc_check_linkage::{Definition, Link, born};
use sc_check_scope::{Literals, State};
use sc_core::{Core, Declared, Init, StaticObj};
use sc_core_formed::is_formed;
use sc_program::StaticId;
use sc_tree::{External, Unit};
use sc_types::{CType, Structs};
use std::alloc::Global;

fn external(alloc: Global, m: &mut Translation, x: &External) -> Result<(), UnitFault>
    ensures { GivesWith (spec.external x.now m.old) result m.new }
{
    match x {
        External::Function(f) => define_function(alloc, m, f),
        External::Declaration(d) => declare_file(alloc, m, d),
    }
}

fn externals(alloc: Global, m: &mut Translation, items: &[External]) -> Result<(), UnitFault>
    ensures { GivesWith (spec.externals items.now m.old) result m.new }
{
    for x in items {
        external(alloc, m, x)?;
    }
    Ok(())
}

fn text(alloc: Global, m: &mut Translation, items: &[External]) -> Result<(), UnitFault>
    ensures { GivesWith (spec.text items.now m.old) result m.new }
{
    externals(alloc, m, items)?;
    m.note_literals()?;
    Ok(())
}

/// The texts of the literals, by their places.
fn texts(alloc: Global, literals: &Literals) -> Result<Items<Bytes>, NoMemory>
    ensures { IfOk result (λ all. all ≡ literals.now) }
{
    let mut all = Items::new(alloc);
    for at in 0..literals.len() {
        let Some(text) = literals.get(at) else {
            return Ok(all);
        };
        all.push(text.copy(alloc)?)?;
    }
    Ok(all)
}

fn is_object(link: &Link) -> bool
    ensures { result ≡ spec.is_object link.now.definition }
{
    match link.definition {
        Definition::Tentative(_, _) | Definition::Initialized(_, _) => true,
        Definition::Missing | Definition::Body => false,
    }
}

/// The contents of an object that has this type: those that are given, or zero bytes.
fn contents(
    alloc: Global,
    structs: &Structs,
    of: &CType,
    given: Option<Items<Init>>,
) -> Result<Items<Init>, NoMemory>
    ensures { IfOk result (λ init. init ≡ spec.contents structs.now of.now given) }
{
    match given {
        Some(init) => Ok(init),
        None => zeros(alloc, structs, of),
    }
}

fn object(alloc: Global, declared: &Declared, init: Items<Init>) -> Result<StaticObj, NoMemory>
    ensures { IfOk result (λ x. x ≡ spec.object declared.now init) }
{
    let key = declared.key.copy(alloc)?;
    let of = declared.of.copy(alloc)?;
    Ok(StaticObj {
        key,
        constant: is_constant(&declared.of),
        of,
        line: declared.line,
        init,
    })
}

/// The object that a name is, where the unit defines it, behind others.
fn add_object(
    alloc: Global,
    structs: &Structs,
    link: &Link,
    declared: &Declared,
    given: Option<Items<Init>>,
    objects: &mut Items<StaticObj>,
) -> Result<(), NoMemory>
    ensures { OnOk result (objects.new ≡ objects.old ++ spec.object_of structs.now link.now declared.now given) }
{
    if !is_object(link) {
        drop(given);
        return Ok(());
    }
    let init = contents(alloc, structs, &declared.of, given)?;
    objects.push(object(alloc, declared, init)?)
}

/// The object of the name behind those that have contents still.
fn add_given(
    alloc: Global,
    m: &mut Translation,
    declared: &[Declared],
    given: Option<Items<Init>>,
) -> Result<(), NoMemory>
    ensures { OnOk result (m.new ≡ spec.with_given declared.now given m.old) }
{
    let at = m.contents.len();
    let Some(link) = m.links.as_slice().get(at) else {
        drop(given);
        return Ok(());
    };
    let Some(declared) = declared.get(at) else {
        drop(given);
        return Ok(());
    };
    add_object(alloc, &m.st.structs, link, declared, given, &mut m.objects)
}

/// The objects with linkage, behind those of blocks, that of the last name first.
fn add_objects(alloc: Global, m: &mut Translation, declared: &[Declared]) -> Result<(), NoMemory>
    ensures { OnOk result (m.new ≡ spec.with_objects declared.now m.old) }
{
    while let Some(given) = m.contents.pop() {
        add_given(alloc, m, declared, given)?;
    }
    Ok(())
}

/// What the end of a unit tells.
#[derive(Drop)]
struct Ending {
    declared: Items<Declared>,
    literals: Items<Bytes>,
    births: Items<StaticId>,
}

fn told_at_end(
    alloc: Global,
    name: &Name,
    m: &Translation,
    declared: Items<Declared>,
) -> Result<Ending, NoMemory>
    ensures { IfOk result (λ end. end ≡ spec.ending name.now declared m.now) }
{
    let literals = texts(alloc, &m.st.literals)?;
    let births = born(
        alloc,
        name,
        literals.as_slice(),
        m.links.as_slice(),
        m.noted.as_slice(),
    )?;
    Ok(Ending {
        declared,
        literals,
        births,
    })
}

fn at_end(alloc: Global, name: &Name, m: &mut Translation) -> Result<Ending, UnitFault>
    ensures { GivesWith (spec.at_end name.now m.old) result m.new }
{
    let declared = m.links.finish(alloc, &m.st.structs)?;
    add_objects(alloc, m, declared.as_slice())?;
    Ok(told_at_end(alloc, name, m, declared)?)
}

/// The module with this name.
fn module(home: Name, m: Translation, end: Ending) -> Core
    ensures { result ≡ spec.assembled home end m }
{
    let Translation {
        st,
        objects,
        funs,
        ..
    } = m;
    let State { structs, .. } = st;
    let Ending {
        declared,
        literals,
        births,
    } = end;
    Core {
        name: home,
        funs,
        objects,
        literals,
        births,
        structs,
        declared,
    }
}

fn read(
    alloc: Global,
    name: &Name,
    m: &mut Translation,
    items: &[External],
) -> Result<Ending, UnitFault>
    ensures { GivesWith (spec.whole name.now items.now m.old) result m.new }
{
    text(alloc, m, items)?;
    at_end(alloc, name, m)
}

fn checked(alloc: Global, name: &Name, items: &[External]) -> Result<Core, UnitFault>
    ensures answer { Says (spec.unit_of name.now items.now) result }
    ensures name { IfOk result (λ core. core.name ≡ name.now) }
{
    let home = name.copy(alloc)?;
    let mut m = Translation::new(alloc, name.copy(alloc)?);
    match read(alloc, name, &mut m, items) {
        Ok(end) => Ok(module(home, m, end)),
        Err(fault) => {
            drop(m);
            drop(home);
            Err(fault)
        }
    }
}

/// The module, whose laws are looked at once more: one that has them not, which no unit gives, is answered as want of memory.
fn lawful(alloc: Global, core: Core) -> Result<Core, NoMemory>
    ensures same { IfOk result (λ kept. kept ≡ core) }
    ensures formed { IfOk result (λ kept. formed kept ≡ true) }
{
    match is_formed(alloc, &core) {
        Ok(true) => Ok(core),
        Ok(false) => {
            drop(core);
            Err(NoMemory)
        }
        Err(_) => {
            drop(core);
            Err(NoMemory)
        }
    }
}

/// The typed tree of a unit of the module with this name (ANSI 3.7), which the rules of the standard give. A refusal's file is empty.
///
/// # Errors
///
/// The first refusal in the order in which constructs end: X6 to X10.
pub fn check(alloc: Global, name: &Name, unit: &Unit) -> Result<Core, Fault>
    ensures answer { Answers (spec.unit_of name.now unit.now.items) result }
    ensures name { IfOk result (λ core. core.name ≡ name.now) }
    ensures formed { IfOk result (λ core. formed core ≡ true) }
{
    match checked(alloc, name, unit.items.as_slice()) {
        Ok(core) => Ok(lawful(alloc, core)?),
        Err(fault) => Err(told(alloc, fault)),
    }
}
