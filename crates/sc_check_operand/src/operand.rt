// What an operand gives: its value, or the place itself (ANSI 3.2.2.1, 3.2.1.5).
ghost use Rattle.std.specs.Prelude.{◌≡◌, IfOk};
ghost use Rattle.sc_check_operand.specs.Operands as spec;

use crate::shape::is_function;
use sc_base::{Duplicate, Int, NoMemory, Shared};
use sc_core::{CoreExpr, type_of};
use sc_types::{CType, same_int};
use std::alloc::Global;

/// Whether the expression is an lvalue (ANSI 3.2.2.1): it designates an object or a part of one. A member is one where its
/// structure is.
pub fn is_lvalue(e: &CoreExpr) -> bool
    ensures { result ≡ spec.is_lvalue e.now }
{
    match e {
        CoreExpr::Automatic(_, _, _, _)
        | CoreExpr::Static(_, _, _)
        | CoreExpr::Literal(_, _, _)
        | CoreExpr::Index(_, _, _, _, _)
        | CoreExpr::Arrow(_, _, _, _) => true,
        CoreExpr::Indirection(_, of, _) => !is_function(of),
        CoreExpr::Member(_, _, _, a) => is_lvalue(a.get()),
        _ => false,
    }
}

/// Whether the expression designates an object, so that its value has to be read. A member of any structure does.
pub fn is_place(e: &CoreExpr) -> bool
    ensures { result ≡ spec.is_place e.now }
{
    match e {
        CoreExpr::Automatic(_, _, _, _)
        | CoreExpr::Static(_, _, _)
        | CoreExpr::Literal(_, _, _)
        | CoreExpr::Index(_, _, _, _, _)
        | CoreExpr::Arrow(_, _, _, _)
        | CoreExpr::Member(_, _, _, _) => true,
        CoreExpr::Indirection(_, of, _) => !is_function(of),
        _ => false,
    }
}

/// The operand without a conversion around it.
fn bare(e: &Shared<CoreExpr>) -> Result<Shared<CoreExpr>, NoMemory>
    ensures { IfOk result (λ r. r ≡ spec.bare e.now) }
{
    match e.get() {
        CoreExpr::Convert(_, _, a) => a.share(),
        _ => e.share(),
    }
}

/// The operand, converted once, to this type.
pub fn converted(
    alloc: Global,
    line: u32,
    to: CType,
    e: &Shared<CoreExpr>,
) -> Result<Shared<CoreExpr>, NoMemory>
    ensures { IfOk result (λ r. r ≡ spec.converted line to e.now) }
{
    let a = bare(e)?;
    Shared::new(alloc, CoreExpr::Convert(line, to, a))
}

fn where_true(yes: bool, of: CType) -> Option<CType>
    ensures { result ≡ spec.where_true yes of }
{
    if yes { Some(of) } else { None }
}

/// The type of the value, where a conversion gives it.
fn value_type(alloc: Global, e: &CoreExpr) -> Result<Option<CType>, NoMemory>
    ensures { IfOk result (λ r. r ≡ spec.value_type e.now) }
{
    match type_of(e) {
        CType::Array(u, _) => Ok(where_true(is_lvalue(e), CType::Pointer(u.share()?, false))),
        CType::Function(_) => {
            let target = type_of(e).copy(alloc)?;
            Ok(Some(CType::Pointer(Shared::new(alloc, target)?, false)))
        }
        CType::Struct(_, _) | CType::Void(_) => Ok(None),
        CType::Int(k, _) => Ok(where_true(is_place(e), CType::Int(*k, false))),
        CType::Pointer(u, _) => Ok(where_true(is_place(e), CType::Pointer(u.share()?, false))),
    }
}

/// The operand's value (ANSI 3.2.2.1): a place of an integer or a pointer is read, an array becomes a pointer to its first
/// element and a function a pointer to it, by one conversion. A structure's value is its place, and stays, as does what
/// is a value already.
pub fn valued(alloc: Global, line: u32, e: Shared<CoreExpr>) -> Result<Shared<CoreExpr>, NoMemory>
    ensures { IfOk result (λ r. r ≡ spec.valued line e) }
{
    match value_type(alloc, e.get())? {
        Some(to) => converted(alloc, line, to, &e),
        None => Ok(e),
    }
}

fn is_of_int(k: Int, e: &CoreExpr) -> bool
    ensures { result ≡ spec.is_of_int k e.now }
{
    match type_of(e) {
        CType::Int(j, _) => same_int(*j, k),
        _ => false,
    }
}

/// The value in an integer type. One of that very type stays.
pub fn to_int(
    alloc: Global,
    line: u32,
    k: Int,
    e: Shared<CoreExpr>,
) -> Result<Shared<CoreExpr>, NoMemory>
    ensures { IfOk result (λ r. r ≡ spec.to_int line k e) }
{
    if is_of_int(k, e.get()) {
        Ok(e)
    } else {
        converted(alloc, line, CType::Int(k, false), &e)
    }
}

/// The value in the type of an object that takes it.
pub fn to_type(
    alloc: Global,
    line: u32,
    of: &CType,
    e: Shared<CoreExpr>,
) -> Result<Shared<CoreExpr>, NoMemory>
    ensures { IfOk result (λ r. r ≡ spec.to_type line of.now e) }
{
    match of {
        CType::Int(k, _) => to_int(alloc, line, *k, e),
        CType::Pointer(u, _) => {
            let u = u.share()?;
            converted(alloc, line, CType::Pointer(u, false), &e)
        }
        _ => Ok(e),
    }
}
