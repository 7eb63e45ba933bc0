// What holds of the objects of a module, its literals, and the order of births.
ghost use Rattle.std.specs.Prelude.{◌≡◌, ◌<◌, ◌≤◌, ◌^◌, ◌+◌, ◌&&◌, nat_le, nat_lt, IfOk, IfSome, length};
ghost use Rattle.std.specs.Str.{bytes_eq};
ghost use Rattle.sc_core_formed.specs.Contents as spec;
ghost use Rattle.sc_core_formed.specs.Names.{is_literal_of, distinct, key_eq, declared_as};

use crate::known::is_known;
use crate::names::{Indexed, add_key, add_text, declared_as, is_literal_of, object_as};
use indexmap::IndexSet;
use sc_base::{Bytes, Key, Name, NoMemory};
use sc_check_operand::{is_const, is_function};
use sc_core::{Core, Init, StaticObj};
use sc_core_needs::{same, same_bool};
use sc_program::StaticId;
use sc_types::{is_object, size_of};
use std::alloc::Global;

/// Whether a name has internal linkage here, or external linkage.
pub(crate) fn is_home(core: &Core, key: &Key) -> bool
    ensures { result ≡ spec.is_home core.now key.now }
{
    match &key.module {
        Some(home) => *home == core.name,
        None => true,
    }
}

fn is_own_literal(m: &Indexed, home: &Name, bytes: &Bytes) -> bool
    ensures { result ≡ spec.is_own_literal m.now.core.now home.now bytes.now }
{
    *home == m.core.name && is_literal_of(m, bytes)
}

/// Whether an address constant may name this: an object or function that the module declares, a block's own object, or
/// a literal.
fn is_addressed(m: &Indexed, what: &StaticId) -> bool
    ensures { result ≡ spec.is_addressed m.now.core.now what.now }
{
    match what {
        StaticId::Named(key) => declared_as(m, key).is_some() || object_as(m, key).is_some(),
        StaticId::Literal(home, bytes) => is_own_literal(m, home, bytes),
    }
}

/// Where so many zero bytes of an object end, where there is at least one and they are inside it.
fn zeros_end(size: u32, at: u32, n: u32) -> Option<u32>
    ensures { result ≡ spec.when (nat_lt 0 n && nat_le (at + n) size) (at + n) }
{
    if 0 < n && u64::from(at) + u64::from(n) <= u64::from(size) {
        Some(at + n)
    } else {
        None
    }
}

/// Where a piece of the contents of an object of so many bytes ends: a byte, at least one zero byte inside the object, or the four
/// bytes of an address at a multiple of 4.
fn init_end(m: &Indexed, size: u32, at: u32, piece: &Init) -> Option<u32>
    requires { at < 2 ^ 31 }
    ensures { result ≡ spec.init_end m.now.core.now size at piece.now }
{
    match piece {
        Init::Byte(_) => Some(at + 1),
        Init::Zeros(n) => zeros_end(size, at, *n),
        Init::Address(what, _) => {
            if at % 4 == 0 && is_addressed(m, what) {
                Some(at + 4)
            } else {
                None
            }
        }
    }
}

/// Whether these are the contents of an object of so many bytes.
fn is_filled_to(m: &Indexed, size: u32, init: &[Init]) -> bool
    requires { size < 2 ^ 31 }
    ensures { result ≡ spec.fills m.now.core.now 0 size init.now }
{
    let mut at = 0;
    for piece in init {
        if at >= size {
            return false;
        }
        match init_end(m, size, at, piece) {
            Some(end) => at = end,
            None => return false,
        }
    }
    at == size
}

fn is_filled(m: &Indexed, x: &StaticObj) -> bool
    ensures { result ≡ spec.is_filled m.now.core.now x.now }
{
    is_object(&x.of, &m.core.structs)
        && is_filled_to(m, size_of(&x.of, &m.core.structs), x.init.as_slice())
}

fn is_named(m: &Indexed, x: &StaticObj) -> bool
    ensures { result ≡ spec.is_named m.now.core.now x.now (declared_as x.now.key m.now.core.now.declared) }
{
    match declared_as(m, &x.key) {
        Some(d) => d.defined && same(&m.core.structs, &x.of, &d.of),
        None => x.key.module.is_some(),
    }
}

fn is_static_object(m: &Indexed, x: &StaticObj) -> bool
    ensures { result ≡ spec.is_static_object m.now.core.now x.now }
{
    is_known(&m.core.structs, &x.of)
        && is_home(m.core, &x.key)
        && !is_function(&x.of)
        && same_bool(x.constant, is_const(&x.of))
        && is_filled(m, x)
        && is_named(m, x)
}

/// Whether all objects are formed.
pub(crate) fn objects(m: &Indexed, objects: &[StaticObj]) -> bool
    ensures { result ≡ spec.objects m.now.core.now objects.now }
{
    for x in objects {
        if !is_static_object(m, x) {
            return false;
        }
    }
    true
}

fn ends_with_zero(bytes: &[u8]) -> bool
    ensures { result ≡ spec.ends_with_zero bytes.now }
{
    match bytes.get(bytes.len().saturating_sub(1)) {
        Some(b) => *b == 0,
        None => false,
    }
}

/// Whether each literal ends with a zero byte (ANSI 3.1.4).
pub(crate) fn literals_end(literals: &[Bytes]) -> bool
    ensures { result ≡ spec.literals_end literals.now }
{
    for text in literals {
        if !ends_with_zero(text.as_slice()) {
            return false;
        }
    }
    true
}

fn is_birth(m: &Indexed, what: &StaticId) -> bool
    ensures { result ≡ spec.is_birth m.now.core.now what.now }
{
    match what {
        StaticId::Named(key) => object_as(m, key).is_some(),
        StaticId::Literal(home, bytes) => is_own_literal(m, home, bytes),
    }
}

fn births(m: &Indexed, births: &[StaticId]) -> bool
    ensures { result ≡ spec.births m.now.core.now births.now }
{
    for what in births {
        if !is_birth(m, what) {
            return false;
        }
    }
    true
}

/// Whether as many objects are born, each once.
fn objects_born(alloc: Global, births: &[StaticId], count: usize) -> Result<bool, NoMemory>
    ensures { IfOk result (λ yes. yes ≡ spec.objects_born births.now count) }
{
    let mut keys = IndexSet::new(alloc);
    for what in births {
        if let StaticId::Named(key) = what
            && !add_key(alloc, &mut keys, key)?
        {
            return Ok(false);
        }
    }
    Ok(keys.len() == count)
}

/// Whether as many literals are born, each once.
fn literals_born(alloc: Global, births: &[StaticId], count: usize) -> Result<bool, NoMemory>
    ensures { IfOk result (λ yes. yes ≡ spec.literals_born births.now count) }
{
    let mut texts = IndexSet::new(alloc);
    for what in births {
        if let StaticId::Literal(_, bytes) = what
            && !add_text(alloc, &mut texts, bytes)?
        {
            return Ok(false);
        }
    }
    Ok(texts.len() == count)
}

/// Whether every object and every literal is born once.
pub(crate) fn are_born(alloc: Global, m: &Indexed) -> Result<bool, NoMemory>
    ensures { IfOk result (λ yes. yes ≡ spec.are_born m.now.core.now) }
{
    let list = m.core.births.as_slice();
    let objects = objects_born(alloc, list, m.core.objects.len())?;
    let literals = literals_born(alloc, list, m.core.literals.len())?;
    Ok(objects && literals && births(m, list))
}
