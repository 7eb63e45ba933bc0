// Assignments (ANSI 3.3.16).
ghost use Rattle.std.specs.Prelude.{◌≡◌, Ok};
ghost use Rattle.sc_check_binary.specs.Assignment as spec;
ghost use Rattle.sc_check_operand.specs.Operands.{to_int};
ghost use Rattle.sc_check_operand.specs.Types.{plain};
ghost use Rattle.sc_check_operand.specs.Steps.{Says};
ghost use Rattle.sc_core.specs.Types.{type_of};

use crate::operators::{Class, class_of};
use sc_base::{Int, Op, Shared};
use sc_check_operand::{
    Shape, TypeFault, is_pointer, mismatch, object_size, plain, shape_of, taken, to_int, valued,
};
use sc_check_unary::is_modifiable;
use sc_core::{CoreExpr, type_of};
use sc_tree::Binary;
use sc_types::{CType, Structs, promote, usual};
use std::alloc::Global;

/// What an assignment stores.
#[derive(Clone, Copy, Debug, PartialEq, Eq)]
pub enum Target {
    Scalar,
    /// A structure of this size.
    Whole(u32),
    Wrong,
}

/// What a compound assignment does.
#[derive(Clone, Copy, Debug, PartialEq, Eq)]
pub enum Change {
    /// An operation on integers: the type in which it works, and that of the value.
    Integers(Op, Int, Int),
    /// A step of a pointer to objects of this size.
    Pointer(Op, u32),
    Wrong,
}

fn target_of(structs: &Structs, of: &CType) -> Target
    ensures { result ≡ spec.target_of structs.now of.now }
{
    match shape_of(structs, of) {
        Shape::Integer(_) => Target::Scalar,
        Shape::Structure(_) => match object_size(structs, of) {
            Some(n) => Target::Whole(n),
            None => Target::Wrong,
        },
        shape => {
            if is_pointer(shape) {
                Target::Scalar
            } else {
                Target::Wrong
            }
        }
    }
}

fn modified(structs: &Structs, known: &[bool], a: &CoreExpr) -> Target
    ensures { result ≡ spec.modified structs.now known.now a.now }
{
    if is_modifiable(known, a) {
        target_of(structs, type_of(a))
    } else {
        Target::Wrong
    }
}

fn stored_scalar(
    alloc: Global,
    line: u32,
    a: Shared<CoreExpr>,
    b: Shared<CoreExpr>,
) -> Result<Shared<CoreExpr>, TypeFault>
    ensures { Says (Ok (CoreExpr.Assign line (plain (type_of a)) a b)) result }
{
    let of = plain(type_of(a.get()))?;
    Ok(Shared::new(alloc, CoreExpr::Assign(line, of, a, b))?)
}

fn stored_whole(
    alloc: Global,
    line: u32,
    n: u32,
    a: Shared<CoreExpr>,
    b: Shared<CoreExpr>,
) -> Result<Shared<CoreExpr>, TypeFault>
    ensures { Says (Ok (CoreExpr.AssignStructure line (plain (type_of a)) n a b)) result }
{
    let of = plain(type_of(a.get()))?;
    Ok(Shared::new(alloc, CoreExpr::AssignStructure(line, of, n, a, b))?)
}

fn stored_by(
    alloc: Global,
    line: u32,
    to: Target,
    a: Shared<CoreExpr>,
    b: Shared<CoreExpr>,
) -> Result<Shared<CoreExpr>, TypeFault>
    ensures { Says (spec.stored_by line to a b) result }
{
    match to {
        Target::Scalar => stored_scalar(alloc, line, a, b),
        Target::Whole(n) => stored_whole(alloc, line, n, a, b),
        Target::Wrong => Err(mismatch(line)),
    }
}

fn assignment_value(
    alloc: Global,
    structs: &Structs,
    known: &[bool],
    line: u32,
    a: Shared<CoreExpr>,
    b: Shared<CoreExpr>,
) -> Result<Shared<CoreExpr>, TypeFault>
    ensures { Says (spec.assignment_value structs.now known.now line a b) result }
{
    let to = modified(structs, known, a.get());
    let value = taken(alloc, structs, line, type_of(a.get()), b)?;
    stored_by(alloc, line, to, a, value)
}

/// `a = b` (ANSI 3.3.16.1). `known` says of each structure whether it has a const member.
///
/// # Errors
///
/// `Mismatch` (X7): the left operand is no modifiable lvalue, or does not take the value.
pub fn assignment(
    alloc: Global,
    structs: &Structs,
    known: &[bool],
    line: u32,
    a: Shared<CoreExpr>,
    b: Shared<CoreExpr>,
) -> Result<Shared<CoreExpr>, TypeFault>
    ensures { Says (spec.assignment structs.now known.now line a b) result }
{
    let b = valued(alloc, line, b)?;
    assignment_value(alloc, structs, known, line, a, b)
}

fn arithmetic(op: Op, x: Shape, y: Shape) -> Change
    ensures { result ≡ spec.arithmetic op x y }
{
    match (x, y) {
        (Shape::Integer(j), Shape::Integer(k)) => Change::Integers(op, usual(j, k), usual(j, k)),
        _ => Change::Wrong,
    }
}

fn shift(op: Op, x: Shape, y: Shape) -> Change
    ensures { result ≡ spec.shift op x y }
{
    match (x, y) {
        (Shape::Integer(j), Shape::Integer(k)) => Change::Integers(op, promote(j), promote(k)),
        _ => Change::Wrong,
    }
}

fn sum(op: Op, x: Shape, y: Shape) -> Change
    ensures { result ≡ spec.sum op x y }
{
    match (x, y) {
        (Shape::Object(n), Shape::Integer(_)) => Change::Pointer(op, n),
        _ => arithmetic(op, x, y),
    }
}

fn change_by(class: Class, x: Shape, y: Shape) -> Change
    ensures { result ≡ spec.change_by class x y }
{
    match class {
        Class::Arithmetic(op) => arithmetic(op, x, y),
        Class::Shift(op) => shift(op, x, y),
        Class::Sum => sum(Op::Add, x, y),
        Class::Difference => sum(Op::Sub, x, y),
        Class::Order(_) | Class::Equality(_) | Class::And | Class::Or => Change::Wrong,
    }
}

fn change_of(structs: &Structs, known: &[bool], op: Binary, a: &CoreExpr, b: &CoreExpr) -> Change
    ensures { result ≡ spec.change_of structs.now known.now op a.now b.now }
{
    if is_modifiable(known, a) {
        change_by(
            class_of(op),
            shape_of(structs, type_of(a)),
            shape_of(structs, type_of(b)),
        )
    } else {
        Change::Wrong
    }
}

fn compounded(
    alloc: Global,
    line: u32,
    op: Op,
    j: Int,
    a: Shared<CoreExpr>,
    b: Shared<CoreExpr>,
) -> Result<Shared<CoreExpr>, TypeFault>
    ensures { Says (Ok (CoreExpr.Compound line (plain (type_of a)) op j a b)) result }
{
    let of = plain(type_of(a.get()))?;
    Ok(Shared::new(alloc, CoreExpr::Compound(line, of, op, j, a, b))?)
}

fn changed_integer(
    alloc: Global,
    line: u32,
    op: Op,
    j: Int,
    k: Int,
    a: Shared<CoreExpr>,
    b: Shared<CoreExpr>,
) -> Result<Shared<CoreExpr>, TypeFault>
    ensures { Says (Ok (CoreExpr.Compound line (plain (type_of a)) op j a (to_int line k b))) result }
{
    let b = to_int(alloc, line, k, b)?;
    compounded(alloc, line, op, j, a, b)
}

fn changed_pointer(
    alloc: Global,
    line: u32,
    op: Op,
    n: u32,
    a: Shared<CoreExpr>,
    b: Shared<CoreExpr>,
) -> Result<Shared<CoreExpr>, TypeFault>
    ensures { Says (Ok (CoreExpr.CompoundOffset line (plain (type_of a)) op n a b)) result }
{
    let of = plain(type_of(a.get()))?;
    Ok(Shared::new(alloc, CoreExpr::CompoundOffset(line, of, op, n, a, b))?)
}

fn compound_value(
    alloc: Global,
    structs: &Structs,
    known: &[bool],
    line: u32,
    op: Binary,
    a: Shared<CoreExpr>,
    b: Shared<CoreExpr>,
) -> Result<Shared<CoreExpr>, TypeFault>
    ensures { Says (spec.compound_value structs.now known.now line op a b) result }
{
    match change_of(structs, known, op, a.get(), b.get()) {
        Change::Integers(o, j, k) => changed_integer(alloc, line, o, j, k, a, b),
        Change::Pointer(o, n) => changed_pointer(alloc, line, o, n, a, b),
        Change::Wrong => Err(mismatch(line)),
    }
}

/// A compound assignment, as `a += b` (ANSI 3.3.16.2). `known` says of each structure whether it has a const member.
///
/// # Errors
///
/// `Mismatch` (X7): the left operand is no modifiable lvalue; the operands are not integers, nor for `+=` and `-=` a pointer to a
/// complete object type and an integer; or no such assignment has this operator.
pub fn compound(
    alloc: Global,
    structs: &Structs,
    known: &[bool],
    line: u32,
    op: Binary,
    a: Shared<CoreExpr>,
    b: Shared<CoreExpr>,
) -> Result<Shared<CoreExpr>, TypeFault>
    ensures { Says (spec.compound structs.now known.now line op a b) result }
{
    let b = valued(alloc, line, b)?;
    compound_value(alloc, structs, known, line, op, a, b)
}
