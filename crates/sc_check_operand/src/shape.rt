// What a type is good for (ANSI 3.1.2.5, 3.5.3).
ghost use Rattle.std.specs.Prelude.{◌≡◌, IfOk, false, slice_index_or};
ghost use Rattle.sc_check_operand.specs.Types as spec;
ghost use Rattle.sc_types.specs.declared.ctype.CType.{out-CType};

use sc_base::{Duplicate, Int, NoMemory, Shared};
use sc_types::{CType, Member, Structs, is_object, size_of};
use std::alloc::Global;

/// What the rules of operators ask of an operand's type.
#[derive(Clone, Copy, Debug, PartialEq, Eq)]
pub enum Shape {
    Void,
    Integer(Int),
    /// A pointer to a complete object type of this size in bytes.
    Object(u32),
    /// A pointer to an incomplete type, `void` among them.
    Incomplete,
    /// A pointer to a function.
    Callable,
    /// A structure, by its number.
    Structure(u32),
    /// An array or a function.
    Other,
}

/// The size of an object of this type, where the type is complete and its objects are not too large.
pub fn object_size(structs: &Structs, of: &CType) -> Option<u32>
    ensures { result ≡ spec.object_size structs.now of.now }
{
    if is_object(of, structs) {
        Some(size_of(of, structs))
    } else {
        None
    }
}

fn target_shape(size: Option<u32>, target: &CType) -> Shape
    ensures { result ≡ spec.target_shape size (out-CType target.now) }
{
    match target {
        CType::Function(_) => Shape::Callable,
        _ => match size {
            Some(n) => Shape::Object(n),
            None => Shape::Incomplete,
        },
    }
}

/// What the rules of operators ask of an operand of this type.
pub fn shape_of(structs: &Structs, of: &CType) -> Shape
    ensures { result ≡ spec.shape structs.now of.now }
{
    match of {
        CType::Void(_) => Shape::Void,
        CType::Int(k, _) => Shape::Integer(*k),
        CType::Pointer(u, _) => target_shape(object_size(structs, u.get()), u.get()),
        CType::Struct(id, _) => Shape::Structure(*id),
        CType::Array(_, _) | CType::Function(_) => Shape::Other,
    }
}

pub fn is_pointer(shape: Shape) -> bool
    ensures { result ≡ spec.is_pointer shape }
{
    match shape {
        Shape::Object(_) | Shape::Incomplete | Shape::Callable => true,
        _ => false,
    }
}

pub fn is_scalar(shape: Shape) -> bool
    ensures { result ≡ spec.is_scalar shape }
{
    match shape {
        Shape::Integer(_) => true,
        _ => is_pointer(shape),
    }
}

pub fn is_function(of: &CType) -> bool
    ensures { result ≡ spec.is_function of.now }
{
    match of {
        CType::Function(_) => true,
        _ => false,
    }
}

pub fn is_array(of: &CType) -> bool
    ensures { result ≡ spec.is_array of.now }
{
    match of {
        CType::Array(_, _) => true,
        _ => false,
    }
}

pub fn is_void(of: &CType) -> bool
    ensures { result ≡ spec.is_void of.now }
{
    match of {
        CType::Void(_) => true,
        _ => false,
    }
}

/// Whether the type is `const`, of an array whether its elements are.
pub fn is_const(of: &CType) -> bool
    ensures { result ≡ spec.is_const of.now }
{
    match of {
        CType::Void(c) => *c,
        CType::Int(_, c) => *c,
        CType::Pointer(_, c) => *c,
        CType::Array(element, _) => is_const(element.get()),
        CType::Struct(_, c) => *c,
        CType::Function(_) => false,
    }
}

fn known_at(known: &[bool], id: u32) -> bool
    ensures { result ≡ slice_index_or known.now id false }
{
    match known.get(id as usize) {
        Some(c) => *c,
        None => false,
    }
}

/// Whether an object of this type is `const` or has a const member at any depth (ANSI 3.2.2.1). `known` says of each
/// structure by its number whether it has one.
pub fn holds_const(known: &[bool], of: &CType) -> bool
    ensures { result ≡ spec.holds_const known.now of.now }
{
    match of {
        CType::Void(c) => *c,
        CType::Int(_, c) => *c,
        CType::Pointer(_, c) => *c,
        CType::Array(element, _) => holds_const(known, element.get()),
        CType::Struct(id, c) => *c || known_at(known, *id),
        CType::Function(_) => false,
    }
}

/// Whether a structure with these members has a const member at any depth, so that no object of it can be modified
/// (ANSI 3.2.2.1).
pub fn members_hold_const(known: &[bool], members: &[Member]) -> bool
    ensures { result ≡ spec.members_hold_const known.now members.now }
{
    members.iter().any(|m| holds_const(known, &m.of))
}

/// The same type with this qualifier in place of its own. An array and a function have none of their own.
pub fn requalified(c: bool, of: &CType) -> Result<CType, NoMemory>
    ensures { IfOk result (λ u. u ≡ spec.requalified c of.now) }
{
    match of {
        CType::Void(_) => Ok(CType::Void(c)),
        CType::Int(k, _) => Ok(CType::Int(*k, c)),
        CType::Pointer(u, _) => Ok(CType::Pointer(u.share()?, c)),
        CType::Array(u, n) => Ok(CType::Array(u.share()?, *n)),
        CType::Struct(id, _) => Ok(CType::Struct(*id, c)),
        CType::Function(f) => Ok(CType::Function(f.share()?)),
    }
}

/// The type of a value: without its qualifier (ANSI 3.2.2.1).
pub fn plain(of: &CType) -> Result<CType, NoMemory>
    ensures { IfOk result (λ u. u ≡ spec.plain of.now) }
{
    requalified(false, of)
}

/// The same type with `const`, which an array hands on to its elements (ANSI 3.5.3).
fn constant(alloc: Global, of: &CType) -> Result<CType, NoMemory>
    ensures { IfOk result (λ u. u ≡ spec.constant of.now) }
{
    match of {
        CType::Array(element, n) => {
            let element = constant(alloc, element.get())?;
            Ok(CType::Array(Shared::new(alloc, element)?, *n))
        }
        _ => requalified(true, of),
    }
}

/// The type of a member of a structure that is const, or is not.
pub fn member_type(alloc: Global, c: bool, of: &CType) -> Result<CType, NoMemory>
    ensures { IfOk result (λ u. u ≡ spec.member_type c of.now) }
{
    if c {
        constant(alloc, of)
    } else {
        of.copy(alloc)
    }
}

/// What a pointer points to.
pub fn target(alloc: Global, of: &CType) -> Result<CType, NoMemory>
    ensures { IfOk result (λ u. u ≡ spec.target of.now) }
{
    match of {
        CType::Pointer(u, _) => u.get().copy(alloc),
        _ => Ok(CType::Void(false)),
    }
}
