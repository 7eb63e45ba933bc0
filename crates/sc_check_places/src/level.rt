// The places of one aggregate (ANSI 3.5.7).
ghost use Rattle.std.specs.Prelude.{◌≡◌, ◌+◌, ◌<◌, IfOk, option_to_list};
ghost use Rattle.sc_check_declare.specs.Outcomes.{Meets};
ghost use Rattle.sc_check_places.specs.Places as spec;

use sc_base::{Duplicate, Int};
use sc_check_declare::{Failure, Reason, refusal};
use sc_types::{CType, MAX_OBJECT, Structs, is_object, offset_of, size_of};
use std::alloc::Global;

/// A place of an object: its type, its offset and the offset behind it, in bytes. Of an array of unknown size both offsets are
/// that of its beginning.
#[derive(Drop)]
pub struct Place {
    pub of: CType,
    pub at: u32,
    pub end: u32,
}

/// An aggregate that a list is filling: the line of the list, its type, its offset and the offset behind it, how many of its places
/// have items, the offset behind the last of these, and whether it has a brace of its own.
#[derive(Drop)]
pub struct Level {
    pub line: u32,
    pub of: CType,
    pub at: u32,
    pub limit: u32,
    pub next: u32,
    pub end: u32,
    pub braced: bool,
}

/// Bytes that are zero since no item is there for them: the offset of the first, and their number.
#[derive(Clone, Copy, Debug, PartialEq, Eq)]
pub struct Zeros {
    pub at: u32,
    pub count: u32,
}

/// How many members of a structure have items of their own; of a union the first alone (ANSI 3.5.7).
fn member_places(structs: &Structs, id: u32) -> usize
    ensures { result ≡ spec.member_places structs.now id }
{
    let count = structs.members(id).len();
    if structs.is_union(id) {
        count.min(1)
    } else {
        count
    }
}

/// Whether each place of the aggregate has its item.
pub(crate) fn is_full(structs: &Structs, l: &Level) -> bool
    ensures { result ≡ spec.is_full structs.now l.now }
{
    match &l.of {
        CType::Array(_, n) => *n != 0 && *n <= l.next,
        CType::Struct(id, _) => member_places(structs, *id) <= l.next as usize,
        CType::Void(_) | CType::Int(_, _) | CType::Pointer(_, _) | CType::Function(_) => true,
    }
}

fn is_character(of: &CType) -> bool
    ensures { result ≡ spec.is_character of.now }
{
    match of {
        CType::Int(kind, _) => match kind {
            Int::Char | Int::SChar | Int::UChar => true,
            Int::Short | Int::UShort | Int::Int | Int::UInt | Int::Long | Int::ULong => false,
        },
        _ => false,
    }
}

/// Whether an item that is no list stands for a place of this type itself: a scalar, or a string for an array of characters.
pub fn takes(string: bool, of: &CType) -> bool
    ensures { result ≡ spec.takes string of.now }
{
    match of {
        CType::Array(u, _) => string && is_character(u.get()),
        CType::Struct(_, _) => false,
        CType::Void(_) | CType::Int(_, _) | CType::Pointer(_, _) | CType::Function(_) => true,
    }
}

fn placed(
    alloc: Global,
    line: u32,
    size: u32,
    of: &CType,
    base: u32,
    offset: u32,
) -> Result<Place, Failure>
    ensures { Meets (spec.placed line size of.now (base + offset)) result }
{
    let at = u64::from(base) + u64::from(offset);
    let end = at + u64::from(size);
    if end > u64::from(MAX_OBJECT) {
        return Err(refusal(Reason::Size, line));
    }
    let of = of.copy(alloc)?;
    Ok(Place {
        of,
        at: at as u32,
        end: end as u32,
    })
}

fn element(alloc: Global, structs: &Structs, l: &Level, u: &CType) -> Result<Place, Failure>
    ensures { Meets (spec.element structs.now l.now u.now) result }
{
    if !is_object(u, structs) {
        return Err(refusal(Reason::Rule, l.line));
    }
    let size = size_of(u, structs);
    match l.next.checked_mul(size) {
        Some(offset) => placed(alloc, l.line, size, u, l.at, offset),
        None => Err(refusal(Reason::Size, l.line)),
    }
}

fn member(alloc: Global, structs: &Structs, l: &Level, id: u32) -> Result<Place, Failure>
    ensures { Meets (spec.member structs.now l.now id) result }
{
    if !is_object(&CType::Struct(id, false), structs) {
        return Err(refusal(Reason::Rule, l.line));
    }
    let Some(m) = structs.members(id).get(l.next as usize) else {
        return Err(refusal(Reason::Rule, l.line));
    };
    if !is_object(&m.of, structs) {
        return Err(refusal(Reason::Rule, l.line));
    }
    let offset = offset_of(structs, id, l.next);
    placed(alloc, l.line, size_of(&m.of, structs), &m.of, l.at, offset)
}

/// The next place of an aggregate.
pub(crate) fn next_place(alloc: Global, structs: &Structs, l: &Level) -> Result<Place, Failure>
    ensures same { Meets (spec.place structs.now l.now) result }
    ensures more { IfOk result (λ p. l.now.next < 4294967295) }
{
    if l.next == u32::MAX {
        return Err(refusal(Reason::Size, l.line));
    }
    match &l.of {
        CType::Array(u, _) => element(alloc, structs, l, u.get()),
        CType::Struct(id, _) => member(alloc, structs, l, *id),
        CType::Void(_) | CType::Int(_, _) | CType::Pointer(_, _) | CType::Function(_) => {
            Err(refusal(Reason::Rule, l.line))
        }
    }
}

/// The aggregate, when a place of it that ends here has its item.
pub(crate) fn filled(l: Level, end: u32) -> Level
    requires { l.next < 4294967295 }
    ensures { result ≡ record l { next = l.next + 1; end = end } }
{
    let mut l = l;
    l.next += 1;
    l.end = end;
    l
}

/// An aggregate that begins in a place.
pub(crate) fn begun(line: u32, braced: bool, p: Place) -> Level
    ensures { result ≡ spec.begun line braced p }
{
    Level {
        line,
        of: p.of,
        at: p.at,
        limit: p.end,
        next: 0,
        end: p.at,
        braced,
    }
}

/// The bytes of an aggregate that have no item.
pub(crate) fn missing(structs: &Structs, l: &Level) -> Option<Zeros>
    ensures { option_to_list result ≡ spec.missing structs.now l.now }
{
    if is_full(structs, l) || l.limit <= l.end {
        return None;
    }
    Some(Zeros {
        at: l.end,
        count: l.limit - l.end,
    })
}
