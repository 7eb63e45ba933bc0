// Names, constants, strings, `sizeof` and `__offsetof` (ANSI 3.1.3, 3.1.4, 3.3.1, 3.3.3.4).
ghost use Rattle.std.specs.Prelude.{◌≡◌, IfOk, IsTrue, Ok, false, position};
ghost use Rattle.std.specs.Str.{bytes_eq};
ghost use Rattle.sc_check_unary.specs.Leaves as spec;
ghost use Rattle.sc_check_operand.specs.Steps.{Says};
ghost use Rattle.sc_types.specs.Tables.{is_object};
ghost use Rattle.sc_types.specs.declared.ctype.CType.TheVariants as t;

use sc_base::{Bytes, Duplicate, Int, Key, Name, NoMemory, Shared};
use sc_check_operand::{Cause, TypeFault, member_type, mismatch, object_size, refusal};
use sc_core::CoreExpr;
use sc_tree::Constant;
use sc_types::{CType, MAX_OBJECT, Member, Structs, is_object, offset_of};
use std::alloc::Global;

/// A number of an integer type: an enumeration constant, or what the checker computes.
pub fn number(alloc: Global, line: u32, n: u32, of: Int) -> Result<Shared<CoreExpr>, NoMemory>
    ensures { IfOk result (λ r. r ≡ spec.number line n of) }
{
    Shared::new(alloc, CoreExpr::Number(line, CType::Int(of, false), n))
}

fn numbered(alloc: Global, line: u32, n: u32, of: Int) -> Result<Shared<CoreExpr>, TypeFault>
    ensures { Says (Ok (spec.number line n of)) result }
{
    Ok(number(alloc, line, n, of)?)
}

/// An integer or character constant (ANSI 3.1.3).
///
/// # Errors
///
/// `Mismatch` (X7): no type holds its value.
pub fn constant(
    alloc: Global,
    line: u32,
    written: Option<Constant>,
) -> Result<Shared<CoreExpr>, TypeFault>
    ensures { Says (spec.constant line written) result }
{
    match written {
        Some(k) => numbered(alloc, line, k.value, k.of),
        None => Err(mismatch(line)),
    }
}

fn text_of_length(alloc: Global, line: u32, at: u32, n: u32) -> Result<Shared<CoreExpr>, TypeFault>
    ensures { Says (Ok (CoreExpr.Literal line (spec.text_type n) at)) result }
{
    let element = Shared::new(alloc, CType::Int(Int::Char, false))?;
    Ok(Shared::new(alloc, CoreExpr::Literal(line, CType::Array(element, n), at))?)
}

/// A string (ANSI 3.1.4) with these bytes, by its place among the module's literals: an array of `char` with a zero byte
/// at its end.
///
/// # Errors
///
/// `Size` (X10 `size`): the array would have more than `MAX_OBJECT` bytes.
pub fn literal(
    alloc: Global,
    line: u32,
    at: u32,
    text: &Bytes,
) -> Result<Shared<CoreExpr>, TypeFault>
    ensures { Says (spec.literal line at text.now) result }
{
    let len = text.as_slice().len();
    if len >= MAX_OBJECT as usize {
        return Err(refusal(Cause::Size, line));
    }
    text_of_length(alloc, line, at, len as u32 + 1)
}

/// The name of a parameter or automatic object (ANSI 3.3.1).
pub fn automatic(
    alloc: Global,
    line: u32,
    of: &CType,
    block: u32,
    at: u32,
) -> Result<Shared<CoreExpr>, NoMemory>
    ensures { IfOk result (λ r. r ≡ spec.automatic line of.now block at) }
{
    let of = of.copy(alloc)?;
    Shared::new(alloc, CoreExpr::Automatic(line, of, block, at))
}

/// The name of an object of static storage duration (ANSI 3.3.1).
pub fn static_object(
    alloc: Global,
    line: u32,
    of: &CType,
    key: &Key,
) -> Result<Shared<CoreExpr>, NoMemory>
    ensures { IfOk result (λ r. r ≡ spec.static_object line of.now key.now) }
{
    let of = of.copy(alloc)?;
    let key = key.copy(alloc)?;
    Shared::new(alloc, CoreExpr::Static(line, of, key))
}

/// Whether the key is that of the library's `printf`.
fn is_printf(key: &Key) -> bool
    ensures { result ≡ spec.is_printf key.now }
{
    key.module.is_none() && key.name.as_slice() == b"printf".as_slice()
}

fn designated(
    alloc: Global,
    line: u32,
    of: &CType,
    key: &Key,
) -> Result<Shared<CoreExpr>, TypeFault>
    ensures { Says (Ok (CoreExpr.Function line of.now key.now)) result }
{
    let of = of.copy(alloc)?;
    let key = key.copy(alloc)?;
    Ok(Shared::new(alloc, CoreExpr::Function(line, of, key))?)
}

/// The name of a function (ANSI 3.3.1). `called` says whether the name is what a call calls.
///
/// # Errors
///
/// `Printf` (X9 `printf`): it is the library's `printf`, and is not called.
pub fn function(
    alloc: Global,
    line: u32,
    called: bool,
    of: &CType,
    key: &Key,
) -> Result<Shared<CoreExpr>, TypeFault>
    ensures { Says (spec.function line called of.now key.now) result }
{
    if is_printf(key) && !called {
        return Err(refusal(Cause::Printf, line));
    }
    designated(alloc, line, of, key)
}

/// `sizeof` of a type, or of an expression of this type, which is not evaluated (ANSI 3.3.3.4).
///
/// # Errors
///
/// `Mismatch` (X7): the type is no complete object type.
pub fn size_of_type(
    alloc: Global,
    structs: &Structs,
    line: u32,
    of: &CType,
) -> Result<Shared<CoreExpr>, TypeFault>
    ensures { Says (spec.size_of_type structs.now line of.now) result }
{
    match object_size(structs, of) {
        Some(n) => numbered(alloc, line, n, Int::UInt),
        None => Err(mismatch(line)),
    }
}

fn position_of(members: &[Member], name: &Name) -> Option<usize>
    ensures { result ≡ position (λ m. bytes_eq m.name name.now) members.now }
{
    members.iter().position(|m| m.name == *name)
}

/// The place of the member with this name.
fn place_of(members: &[Member], name: &Name) -> Option<u32>
    ensures { result ≡ spec.place_of members.now name.now }
{
    match position_of(members, name) {
        Some(at) => u32::try_from(at).ok(),
        None => None,
    }
}

/// The type and the offset of a member, in a structure that is const or is not.
fn member_at(
    alloc: Global,
    structs: &Structs,
    qualifier: bool,
    id: u32,
    k: u32,
) -> Result<Option<(CType, u32)>, NoMemory>
    requires { IsTrue (is_object structs.now (t.Struct id false)) }
    ensures { IfOk result (λ r. r ≡ spec.member_at structs.now qualifier id k) }
{
    match structs.members(id).get(k as usize) {
        Some(m) => {
            let of = member_type(alloc, qualifier, &m.of)?;
            Ok(Some((of, offset_of(structs, id, k))))
        }
        None => Ok(None),
    }
}

fn member_in(
    alloc: Global,
    structs: &Structs,
    qualifier: bool,
    id: u32,
    name: &Name,
) -> Result<Option<(CType, u32)>, NoMemory>
    ensures { IfOk result (λ r. r ≡ spec.member_in structs.now qualifier id name.now) }
{
    if !is_object(&CType::Struct(id, false), structs) {
        return Ok(None);
    }
    match place_of(structs.members(id), name) {
        Some(k) => member_at(alloc, structs, qualifier, id, k),
        None => Ok(None),
    }
}

/// The type and the offset of the member with this name, where the type is a complete structure that has it.
pub fn member_of(
    alloc: Global,
    structs: &Structs,
    of: &CType,
    name: &Name,
) -> Result<Option<(CType, u32)>, NoMemory>
    ensures { IfOk result (λ r. r ≡ spec.member_of structs.now of.now name.now) }
{
    match of {
        CType::Struct(id, qualifier) => member_in(alloc, structs, *qualifier, *id, name),
        _ => Ok(None),
    }
}

/// `__offsetof(type, name)`: the bytes of a structure before its member, an `unsigned int`.
///
/// # Errors
///
/// `Mismatch` (X7): the type is no complete structure with this member.
pub fn offset_of_member(
    alloc: Global,
    structs: &Structs,
    line: u32,
    of: &CType,
    name: &Name,
) -> Result<Shared<CoreExpr>, TypeFault>
    ensures { Says (spec.offset_of_member structs.now line of.now name.now) result }
{
    match member_of(alloc, structs, of, name)? {
        Some((_, offset)) => numbered(alloc, line, offset, Int::UInt),
        None => Err(mismatch(line)),
    }
}
