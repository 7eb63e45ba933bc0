// Structures, unions and enumerations in scope (ANSI 3.5.2.1 to 3.5.2.3).
ghost use Rattle.std.specs.Prelude.{◌≡◌};
ghost use Rattle.sc_check_scope.specs.Steps.{Says, GivesWith};
ghost use Rattle.sc_check_scope.specs.Tags as spec;

use crate::fault::{CheckFault, rule};
use crate::state::State;
use sc_base::{Duplicate, Int, Items, Name};
use sc_check_declare::{DeclaredType, StructureTag, Tag, complete, enumeration_tag, structure_tag};
use sc_check_operand::members_hold_const;
use sc_types::{CType, Member};
use std::alloc::Global;

fn structure(id: u32) -> DeclaredType
    ensures { result ≡ spec.structure id }
{
    DeclaredType {
        of: CType::Struct(id, false),
        depth: 0,
    }
}

fn integer() -> DeclaredType
    ensures { result ≡ spec.integer }
{
    DeclaredType {
        of: CType::Int(Int::Int, false),
        depth: 0,
    }
}

/// A new structure, or a union where it is true; the answer is its number.
fn new_structure(st: &mut State, is_union: bool, tag: Option<Name>) -> Result<u32, CheckFault>
    ensures { GivesWith (spec.new_structure is_union tag st.old) result st.new }
{
    let Ok(id) = u32::try_from(st.structs.as_slice().len()) else {
        return Err(CheckFault::NoMemory);
    };
    st.structs.declare(tag, is_union)?;
    st.known.push(false)?;
    Ok(id)
}

/// A new structure or union with a tag in the innermost scope.
fn tagged_structure(
    alloc: Global,
    st: &mut State,
    is_union: bool,
    tag: &Name,
) -> Result<u32, CheckFault>
    ensures { GivesWith (spec.tagged_structure is_union tag.now st.old) result st.new }
{
    let own = tag.copy(alloc)?;
    let id = new_structure(st, is_union, Some(own))?;
    let own = tag.copy(alloc)?;
    st.tags.declare(alloc, own, Tag::Structure(id, is_union))?;
    Ok(id)
}

/// `struct tag`, or `union tag` where it is true (ANSI 3.5.2.3): the type that the tag names, a new one in the innermost scope
/// where it names none.
///
/// # Errors
///
/// `Rule` (X7): the tag is of another kind.
pub fn structure_named(
    alloc: Global,
    st: &mut State,
    line: u32,
    is_union: bool,
    tag: &Name,
) -> Result<DeclaredType, CheckFault>
    ensures { GivesWith (spec.structure_named line is_union tag.now st.old) result st.new }
{
    match structure_tag(is_union, st.tags.find(tag).copied()) {
        StructureTag::New => Ok(structure(tagged_structure(alloc, st, is_union, tag)?)),
        StructureTag::Known(id) => Ok(structure(id)),
        StructureTag::Other => Err(rule(line)),
    }
}

/// What `struct tag { .. }` gives its members, or `union tag { .. }` where it is true (ANSI 3.5.2.1): the type of the tag in the
/// innermost scope, or a new one; none where the tag is of another kind there.
pub fn open_structure(
    alloc: Global,
    st: &mut State,
    is_union: bool,
    tag: &Option<Name>,
) -> Result<Option<u32>, CheckFault>
    ensures { GivesWith (spec.open_structure is_union (tag.now) st.old) result st.new }
{
    let Some(tag) = tag else {
        return Ok(Some(new_structure(st, is_union, None)?));
    };
    let began = st.began.tags;
    match structure_tag(is_union, st.tags.find_innermost(began, tag).copied()) {
        StructureTag::New => Ok(Some(tagged_structure(alloc, st, is_union, tag)?)),
        StructureTag::Known(id) => Ok(Some(id)),
        StructureTag::Other => Ok(None),
    }
}

/// Notes whether a structure has a const member.
fn note_const(st: &mut State, id: u32, holds: bool)
    ensures { st.new ≡ spec.noting id holds st.old }
{
    if (id as usize) < st.known.len() {
        st.known.set(id as usize, holds);
    }
}

fn complete_structure(
    st: &mut State,
    line: u32,
    id: u32,
    members: Items<Member>,
) -> Result<DeclaredType, CheckFault>
    ensures { GivesWith (spec.complete_structure line id members st.old) result st.new }
{
    let holds = members_hold_const(st.known.as_slice(), members.as_slice());
    complete(&mut st.structs, line, id, members)?;
    note_const(st, id, holds);
    Ok(structure(id))
}

/// The end of `struct tag { .. }` or `union tag { .. }`, which gives the type these members (ANSI 3.5.2.1).
///
/// # Errors
///
/// - `Rule` (X7): the type has members already, or the tag is of another kind.
/// - `Size` (X10 `size`): the type is too large.
pub fn close_structure(
    st: &mut State,
    line: u32,
    opened: Option<u32>,
    members: Items<Member>,
) -> Result<DeclaredType, CheckFault>
    ensures { GivesWith (spec.close_structure line opened members st.old) result st.new }
{
    match opened {
        Some(id) => complete_structure(st, line, id, members),
        None => Err(rule(line)),
    }
}

/// `enum tag` (ANSI 3.5.2.3).
///
/// # Errors
///
/// `Rule` (X7): the tag names no enumeration.
pub fn enumeration_named(st: &State, line: u32, tag: &Name) -> Result<DeclaredType, CheckFault>
    ensures { Says (spec.enumeration_named line tag.now st.now) result }
{
    enumeration_tag(line, st.tags.find(tag).copied())?;
    Ok(integer())
}

/// The beginning of `enum tag { .. }` (ANSI 3.5.2.2), which declares the tag; whether the innermost scope has it already.
pub fn open_enumeration(
    alloc: Global,
    st: &mut State,
    tag: &Option<Name>,
) -> Result<bool, CheckFault>
    ensures { GivesWith (spec.open_enumeration (tag.now) st.old) result st.new }
{
    let Some(tag) = tag else {
        return Ok(false);
    };
    let began = st.began.tags;
    if st.tags.find_innermost(began, tag).is_some() {
        return Ok(true);
    }
    let own = tag.copy(alloc)?;
    st.tags.declare(alloc, own, Tag::Enumeration)?;
    Ok(false)
}

/// The end of `enum tag { .. }`.
///
/// # Errors
///
/// `Rule` (X7): the scope had the tag already.
pub fn close_enumeration(line: u32, again: bool) -> Result<DeclaredType, CheckFault>
    ensures { Says (spec.close_enumeration line again) result }
{
    if again {
        Err(rule(line))
    } else {
        Ok(integer())
    }
}
