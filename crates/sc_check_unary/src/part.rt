// Elements, members and steps of objects (ANSI 3.3.2.1, 3.3.2.3, 3.3.2.4, 3.3.3.1).
ghost use Rattle.std.specs.Prelude.{◌≡◌, IfOk, Ok, Some};
ghost use Rattle.sc_check_unary.specs.Parts as spec;
ghost use Rattle.sc_check_operand.specs.Types.{plain, target};
ghost use Rattle.sc_core.specs.Types.{type_of};
ghost use Rattle.sc_check_operand.specs.Steps.{Says};
ghost use Rattle.sc_types.specs.declared.ctype.CType.{out-CType};

use crate::leaf::member_of;
use sc_base::{Name, NoMemory, Shared};
use sc_check_operand::{
    Shape, TypeFault, holds_const, is_lvalue, mismatch, plain, shape_of, target, valued,
};
use sc_core::{CoreExpr, Step, type_of};
use sc_types::{CType, Structs};
use std::alloc::Global;

fn pointed(alloc: Global, of: &CType, n: u32) -> Result<Option<(CType, u32)>, NoMemory>
    ensures { IfOk result (λ r. r ≡ Some (target of.now, n)) }
{
    let of = target(alloc, of)?;
    Ok(Some((of, n)))
}

/// The element's type and size, where one operand is a pointer to a complete object type and the other an integer.
fn element_of(
    alloc: Global,
    structs: &Structs,
    a: &CType,
    b: &CType,
) -> Result<Option<(CType, u32)>, NoMemory>
    ensures { IfOk result (λ r. r ≡ spec.element_of structs.now a.now b.now) }
{
    match (shape_of(structs, a), shape_of(structs, b)) {
        (Shape::Object(n), Shape::Integer(_)) => pointed(alloc, a, n),
        (Shape::Integer(_), Shape::Object(n)) => pointed(alloc, b, n),
        _ => Ok(None),
    }
}

fn element(
    alloc: Global,
    line: u32,
    of: CType,
    n: u32,
    a: Shared<CoreExpr>,
    b: Shared<CoreExpr>,
) -> Result<Shared<CoreExpr>, TypeFault>
    ensures { Says (Ok (CoreExpr.Index line of n a b)) result }
{
    Ok(Shared::new(alloc, CoreExpr::Index(line, of, n, a, b))?)
}

fn index_values(
    alloc: Global,
    structs: &Structs,
    line: u32,
    a: Shared<CoreExpr>,
    b: Shared<CoreExpr>,
) -> Result<Shared<CoreExpr>, TypeFault>
    ensures { Says (spec.index_values structs.now line a b) result }
{
    match element_of(alloc, structs, type_of(a.get()), type_of(b.get()))? {
        Some((of, n)) => element(alloc, line, of, n, a, b),
        None => Err(mismatch(line)),
    }
}

/// `a[b]` (ANSI 3.3.2.1).
///
/// # Errors
///
/// `Mismatch` (X7): not one operand is a pointer to a complete object type and the other an integer.
pub fn index(
    alloc: Global,
    structs: &Structs,
    line: u32,
    a: Shared<CoreExpr>,
    b: Shared<CoreExpr>,
) -> Result<Shared<CoreExpr>, TypeFault>
    ensures { Says (spec.index structs.now line a b) result }
{
    let a = valued(alloc, line, a)?;
    let b = valued(alloc, line, b)?;
    index_values(alloc, structs, line, a, b)
}

fn part(
    alloc: Global,
    line: u32,
    of: CType,
    offset: u32,
    a: Shared<CoreExpr>,
) -> Result<Shared<CoreExpr>, TypeFault>
    ensures { Says (Ok (CoreExpr.Member line of offset a)) result }
{
    Ok(Shared::new(alloc, CoreExpr::Member(line, of, offset, a))?)
}

/// `a.name` (ANSI 3.3.2.3). Its type is const where the member's or the structure's is.
///
/// # Errors
///
/// `Mismatch` (X7): the operand is no complete structure with this member.
pub fn member(
    alloc: Global,
    structs: &Structs,
    line: u32,
    a: Shared<CoreExpr>,
    name: &Name,
) -> Result<Shared<CoreExpr>, TypeFault>
    ensures { Says (spec.member structs.now line a name.now) result }
{
    match member_of(alloc, structs, type_of(a.get()), name)? {
        Some((of, offset)) => part(alloc, line, of, offset, a),
        None => Err(mismatch(line)),
    }
}

fn pointed_member(
    alloc: Global,
    structs: &Structs,
    of: &CType,
    name: &Name,
) -> Result<Option<(CType, u32)>, NoMemory>
    ensures { IfOk result (λ r. r ≡ spec.pointed_level structs.now (out-CType of.now) name.now) }
{
    match of {
        CType::Pointer(u, _) => member_of(alloc, structs, u.get(), name),
        _ => Ok(None),
    }
}

fn pointed_part(
    alloc: Global,
    line: u32,
    of: CType,
    offset: u32,
    a: Shared<CoreExpr>,
) -> Result<Shared<CoreExpr>, TypeFault>
    ensures { Says (Ok (CoreExpr.Arrow line of offset a)) result }
{
    Ok(Shared::new(alloc, CoreExpr::Arrow(line, of, offset, a))?)
}

fn arrow_value(
    alloc: Global,
    structs: &Structs,
    line: u32,
    a: Shared<CoreExpr>,
    name: &Name,
) -> Result<Shared<CoreExpr>, TypeFault>
    ensures { Says (spec.arrow_value structs.now line a name.now) result }
{
    match pointed_member(alloc, structs, type_of(a.get()), name)? {
        Some((of, offset)) => pointed_part(alloc, line, of, offset, a),
        None => Err(mismatch(line)),
    }
}

/// `a->name` (ANSI 3.3.2.3). Its type is const where the member's or the structure's is.
///
/// # Errors
///
/// `Mismatch` (X7): the operand is no pointer to a complete structure with this member.
pub fn arrow(
    alloc: Global,
    structs: &Structs,
    line: u32,
    a: Shared<CoreExpr>,
    name: &Name,
) -> Result<Shared<CoreExpr>, TypeFault>
    ensures { Says (spec.arrow structs.now line a name.now) result }
{
    let a = valued(alloc, line, a)?;
    arrow_value(alloc, structs, line, a, name)
}

/// Whether the expression is an lvalue that is not const and has no const member.
pub fn is_modifiable(known: &[bool], a: &CoreExpr) -> bool
    ensures { result ≡ spec.is_modifiable known.now a.now }
{
    is_lvalue(a) && !holds_const(known, type_of(a))
}

fn step_of(structs: &Structs, known: &[bool], a: &CoreExpr) -> Option<u32>
    ensures { result ≡ spec.step_of structs.now known.now a.now }
{
    if !is_modifiable(known, a) {
        return None;
    }
    match shape_of(structs, type_of(a)) {
        Shape::Integer(_) => Some(1),
        Shape::Object(n) => Some(n),
        _ => None,
    }
}

fn stepped(
    alloc: Global,
    line: u32,
    how: Step,
    n: u32,
    a: Shared<CoreExpr>,
) -> Result<Shared<CoreExpr>, TypeFault>
    ensures { Says (Ok (CoreExpr.Step line (plain (type_of a)) how n a)) result }
{
    let of = plain(type_of(a.get()))?;
    Ok(Shared::new(alloc, CoreExpr::Step(line, of, how, n, a))?)
}

/// `++a`, `--a`, `a++` and `a--` (ANSI 3.3.2.4, 3.3.3.1). `known` says of each structure whether it has a const member.
///
/// # Errors
///
/// `Mismatch` (X7): the operand is no modifiable lvalue that is an integer or a pointer to a complete object type.
pub fn step(
    alloc: Global,
    structs: &Structs,
    known: &[bool],
    line: u32,
    how: Step,
    a: Shared<CoreExpr>,
) -> Result<Shared<CoreExpr>, TypeFault>
    ensures { Says (spec.step structs.now known.now line how a) result }
{
    match step_of(structs, known, a.get()) {
        Some(n) => stepped(alloc, line, how, n, a),
        None => Err(mismatch(line)),
    }
}
