// What a session has room for: modules, numbers of functions, and bytes of static storage.
ghost use Rattle.std.specs.Prelude.{◌≡◌, ◌+◌, IfOk};
ghost use Rattle.sc_session_conflicts.specs.Spaces as spec;

use crate::clash::is_other;
use sc_base::{Bytes, NoMemory};
use sc_core::{Core, StaticObj};
use sc_core_held::Text;
use sc_types::{CType, Structs, is_object, size_of};
use sc_words::Area;

/// The most modules.
const MAX_MODULES: usize = 64;

/// The most functions that have a number in a session, behind the 39 of the library.
const MAX_FUNCTIONS: usize = 65497;

/// The most bytes of static storage.
const MAX_STATICS: u64 = 1048576;

pub(crate) fn sum(a: u64, b: u64) -> Result<u64, NoMemory>
    ensures { IfOk result (λ c. c ≡ a + b) }
{
    match a.checked_add(b) {
        Some(c) => Ok(c),
        None => Err(NoMemory),
    }
}

// The least multiple of 4 greater than a size.
pub(crate) fn room_for(size: u64) -> Result<u64, NoMemory>
    ensures { IfOk result (λ n. n ≡ spec.room_for size) }
{
    match (size / 4 + 1).checked_mul(4) {
        Some(room) => Ok(room),
        None => Err(NoMemory),
    }
}

pub(crate) fn size_if(t: &CType, structs: &Structs) -> u64
    ensures { result ≡ spec.size_if structs.now t.now }
{
    if is_object(t, structs) {
        u64::from(size_of(t, structs))
    } else {
        0
    }
}

fn objects_room(objects: &[StaticObj], structs: &Structs) -> Result<u64, NoMemory>
    ensures { IfOk result (λ n. n ≡ spec.objects_room structs.now objects.now) }
{
    let mut total = 0u64;
    for o in objects {
        total = sum(total, room_for(size_if(&o.of, structs))?)?;
    }
    Ok(total)
}

fn literals_room(literals: &[Bytes]) -> Result<u64, NoMemory>
    ensures { IfOk result (λ n. n ≡ spec.literals_room literals.now) }
{
    let mut total = 0u64;
    for l in literals {
        total = sum(total, room_for(l.as_slice().len() as u64)?)?;
    }
    Ok(total)
}

// The bytes of static storage that a module takes.
fn statics_of(core: &Core) -> Result<u64, NoMemory>
    ensures { IfOk result (λ n. n ≡ spec.statics_of core.now) }
{
    let objects = objects_room(core.objects.as_slice(), &core.structs)?;
    let literals = literals_room(core.literals.as_slice())?;
    sum(objects, literals)
}

// How many modules a program has with this one.
fn modules_with(core: &Core, texts: &[Text]) -> usize
    ensures { result ≡ spec.modules_with core.now texts.now }
{
    let mut count = 1usize;
    for t in texts {
        if is_other(core, t) {
            count += 1;
        }
    }
    count
}

/// The bytes of static storage that a module and the others that are present take.
pub(crate) fn statics_with(core: &Core, texts: &[Text]) -> Result<u64, NoMemory>
    ensures { IfOk result (λ n. n ≡ spec.statics_with core.now texts.now) }
{
    let mut total = statics_of(core)?;
    for t in texts {
        if is_other(core, t) {
            total = sum(total, statics_of(t.core.get())?)?;
        }
    }
    Ok(total)
}

/// What there are too many of, where a module and the others that are present have so many functions with a number behind the library's and so
/// many bytes of static storage.
pub fn over_limit(core: &Core, texts: &[Text], functions: usize, statics: u64) -> Option<Area>
    ensures { result ≡ spec.over_limit (spec.modules_with core.now texts.now) functions statics }
{
    if modules_with(core, texts) > MAX_MODULES {
        return Some(Area::Modules);
    }
    if functions > MAX_FUNCTIONS {
        return Some(Area::Stubs);
    }
    if statics > MAX_STATICS {
        return Some(Area::Static);
    }
    None
}
