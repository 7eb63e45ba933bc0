// Operators before one operand, and casts (ANSI 3.3.3, 3.3.4).
ghost use Rattle.std.specs.Prelude.{◌≡◌, IfOk, Ok, false};
ghost use Rattle.sc_check_unary.specs.Unary as spec;
ghost use Rattle.sc_check_operand.specs.Types.{int, plain};
ghost use Rattle.sc_check_operand.specs.Steps.{Says};
ghost use Rattle.sc_types.specs.declared.ctype.CType.{out-CType};

use sc_base::{Duplicate, Int, NoMemory, Shared};
use sc_check_operand::{
    Cause, Shape, TypeFault, is_array, is_function, is_lvalue, is_pointer, is_scalar,
    is_zero_constant, mismatch, plain, refusal, shape_of, to_int, valued,
};
use sc_core::{CoreExpr, UnaryOperator, type_of};
use sc_types::{CType, Structs, is_object, promote};
use std::alloc::Global;

fn is_addressable(register: bool, a: &CoreExpr) -> bool
    ensures { result ≡ spec.is_addressable register a.now }
{
    is_function(type_of(a)) || (is_lvalue(a) && !register)
}

fn address_of(alloc: Global, line: u32, a: Shared<CoreExpr>) -> Result<Shared<CoreExpr>, TypeFault>
    ensures { Says (Ok (spec.address_of line a)) result }
{
    let target = type_of(a.get()).copy(alloc)?;
    let target = Shared::new(alloc, target)?;
    addressed(alloc, line, CType::Pointer(target, false), a)
}

fn addressed(
    alloc: Global,
    line: u32,
    of: CType,
    a: Shared<CoreExpr>,
) -> Result<Shared<CoreExpr>, TypeFault>
    ensures { Says (Ok (CoreExpr.Address line of a)) result }
{
    Ok(Shared::new(alloc, CoreExpr::Address(line, of, a))?)
}

/// `&a` (ANSI 3.3.3.2). `register` says whether the operand is, or is a member by `.` of, an object that is declared so.
///
/// # Errors
///
/// `Mismatch` (X7): the operand is neither a function nor an lvalue, or is in a `register` object.
pub fn address(
    alloc: Global,
    line: u32,
    register: bool,
    a: Shared<CoreExpr>,
) -> Result<Shared<CoreExpr>, TypeFault>
    ensures { Says (spec.address line register a) result }
{
    if is_addressable(register, a.get()) {
        address_of(alloc, line, a)
    } else {
        Err(mismatch(line))
    }
}

fn is_designated(structs: &Structs, of: &CType) -> bool
    ensures { result ≡ spec.is_designated structs.now of.now }
{
    is_function(of) || is_array(of) || is_object(of, structs)
}

/// What a pointer of this type designates.
fn designated(alloc: Global, structs: &Structs, of: &CType) -> Result<Option<CType>, NoMemory>
    ensures { IfOk result (λ r. r ≡ spec.designated_level structs.now (out-CType of.now)) }
{
    match of {
        CType::Pointer(u, _) => {
            if is_designated(structs, u.get()) {
                Ok(Some(u.get().copy(alloc)?))
            } else {
                Ok(None)
            }
        }
        _ => Ok(None),
    }
}

fn followed(
    alloc: Global,
    line: u32,
    of: CType,
    a: Shared<CoreExpr>,
) -> Result<Shared<CoreExpr>, TypeFault>
    ensures { Says (Ok (CoreExpr.Indirection line of a)) result }
{
    Ok(Shared::new(alloc, CoreExpr::Indirection(line, of, a))?)
}

fn indirection_value(
    alloc: Global,
    structs: &Structs,
    line: u32,
    a: Shared<CoreExpr>,
) -> Result<Shared<CoreExpr>, TypeFault>
    ensures { Says (spec.indirection_value structs.now line a) result }
{
    match designated(alloc, structs, type_of(a.get()))? {
        Some(of) => followed(alloc, line, of, a),
        None => Err(mismatch(line)),
    }
}

/// `*a` (ANSI 3.3.3.2).
///
/// # Errors
///
/// `Mismatch` (X7): the operand is no pointer to a function, an array or a complete object type.
pub fn indirection(
    alloc: Global,
    structs: &Structs,
    line: u32,
    a: Shared<CoreExpr>,
) -> Result<Shared<CoreExpr>, TypeFault>
    ensures { Says (spec.indirection structs.now line a) result }
{
    let a = valued(alloc, line, a)?;
    indirection_value(alloc, structs, line, a)
}

fn promoted(
    alloc: Global,
    line: u32,
    op: UnaryOperator,
    k: Int,
    a: Shared<CoreExpr>,
) -> Result<Shared<CoreExpr>, TypeFault>
    ensures { Says (Ok (spec.promoted line op k a)) result }
{
    let a = to_int(alloc, line, k, a)?;
    operated(alloc, line, op, k, a)
}

fn operated(
    alloc: Global,
    line: u32,
    op: UnaryOperator,
    k: Int,
    a: Shared<CoreExpr>,
) -> Result<Shared<CoreExpr>, TypeFault>
    ensures { Says (Ok (CoreExpr.Unary line (CType.Int k false) op a)) result }
{
    Ok(Shared::new(alloc, CoreExpr::Unary(line, CType::Int(k, false), op, a))?)
}

fn negated(
    alloc: Global,
    line: u32,
    shape: Shape,
    a: Shared<CoreExpr>,
) -> Result<Shared<CoreExpr>, TypeFault>
    ensures { Says (spec.unary_by line UnaryOperator.Not shape a) result }
{
    if is_scalar(shape) {
        operated(alloc, line, UnaryOperator::Not, Int::Int, a)
    } else {
        Err(mismatch(line))
    }
}

fn arithmetic(
    alloc: Global,
    line: u32,
    op: UnaryOperator,
    shape: Shape,
    a: Shared<CoreExpr>,
) -> Result<Shared<CoreExpr>, TypeFault>
    ensures { Says (spec.arithmetic line op shape a) result }
{
    match shape {
        Shape::Integer(k) => promoted(alloc, line, op, promote(k), a),
        _ => Err(mismatch(line)),
    }
}

fn unary_value(
    alloc: Global,
    structs: &Structs,
    line: u32,
    op: UnaryOperator,
    a: Shared<CoreExpr>,
) -> Result<Shared<CoreExpr>, TypeFault>
    ensures { Says (spec.unary_value structs.now line op a) result }
{
    let shape = shape_of(structs, type_of(a.get()));
    match op {
        UnaryOperator::Not => negated(alloc, line, shape, a),
        UnaryOperator::Plus => arithmetic(alloc, line, UnaryOperator::Plus, shape, a),
        UnaryOperator::Minus => arithmetic(alloc, line, UnaryOperator::Minus, shape, a),
        UnaryOperator::Complement => arithmetic(alloc, line, UnaryOperator::Complement, shape, a),
    }
}

/// `+a`, `-a` and `~a` on the promoted integer, and `!a` on a scalar, an `int` (ANSI 3.3.3.3).
///
/// # Errors
///
/// `Mismatch` (X7): the operand is none.
pub fn unary(
    alloc: Global,
    structs: &Structs,
    line: u32,
    op: UnaryOperator,
    a: Shared<CoreExpr>,
) -> Result<Shared<CoreExpr>, TypeFault>
    ensures { Says (spec.unary structs.now line op a) result }
{
    let a = valued(alloc, line, a)?;
    unary_value(alloc, structs, line, op, a)
}

/// What becomes of a cast.
#[derive(Clone, Copy, Debug, PartialEq, Eq)]
pub enum Casting {
    Taken,
    /// Between a pointer and an integer.
    Pointers,
    /// Between a function pointer and an object pointer.
    Functions,
    Wrong,
}

fn same_kind(to: Shape, from: Shape) -> Casting
    ensures { result ≡ spec.same_kind to from }
{
    match (to, from) {
        (Shape::Callable, Shape::Callable) => Casting::Taken,
        (Shape::Callable, _) => Casting::Functions,
        (_, Shape::Callable) => Casting::Functions,
        _ => Casting::Taken,
    }
}

fn to_pointer(to: Shape, from: Shape, a: &CoreExpr) -> Casting
    ensures { result ≡ spec.to_pointer to from a.now }
{
    match from {
        Shape::Integer(_) => {
            if is_zero_constant(a) {
                Casting::Taken
            } else {
                Casting::Pointers
            }
        }
        _ => {
            if is_pointer(from) {
                same_kind(to, from)
            } else {
                Casting::Wrong
            }
        }
    }
}

fn to_integer(from: Shape) -> Casting
    ensures { result ≡ spec.to_integer from }
{
    match from {
        Shape::Integer(_) => Casting::Taken,
        _ => {
            if is_pointer(from) {
                Casting::Pointers
            } else {
                Casting::Wrong
            }
        }
    }
}

fn casting_of(to: Shape, from: Shape, a: &CoreExpr) -> Casting
    ensures { result ≡ spec.casting to from a.now }
{
    match to {
        Shape::Void => Casting::Taken,
        Shape::Integer(_) => to_integer(from),
        _ => {
            if is_pointer(to) {
                to_pointer(to, from, a)
            } else {
                Casting::Wrong
            }
        }
    }
}

fn cast_to(
    alloc: Global,
    line: u32,
    of: &CType,
    a: Shared<CoreExpr>,
) -> Result<Shared<CoreExpr>, TypeFault>
    ensures { Says (Ok (CoreExpr.Cast line (plain of.now) a)) result }
{
    let of = plain(of)?;
    Ok(Shared::new(alloc, CoreExpr::Cast(line, of, a))?)
}

fn cast_value(
    alloc: Global,
    structs: &Structs,
    line: u32,
    of: &CType,
    a: Shared<CoreExpr>,
) -> Result<Shared<CoreExpr>, TypeFault>
    ensures { Says (spec.cast_value structs.now line of.now a) result }
{
    match casting_of(
        shape_of(structs, of),
        shape_of(structs, type_of(a.get())),
        a.get(),
    ) {
        Casting::Taken => cast_to(alloc, line, of, a),
        Casting::Pointers => Err(refusal(Cause::PointerInteger, line)),
        Casting::Functions => Err(refusal(Cause::FunctionPointer, line)),
        Casting::Wrong => Err(mismatch(line)),
    }
}

/// `(of)a` (ANSI 3.3.4): anything to `void`, integers to integers, pointers to pointers, the constant 0 to a pointer.
///
/// # Errors
///
/// - `PointerInteger` (X9 `ptrint`): from a pointer to an integer, or from another integer to a pointer.
/// - `FunctionPointer` (X9 `funptr`): between a pointer to a function and one to an object.
/// - `Mismatch` (X7): the type is neither scalar nor `void`, or the operand is no scalar.
pub fn cast(
    alloc: Global,
    structs: &Structs,
    line: u32,
    of: &CType,
    a: Shared<CoreExpr>,
) -> Result<Shared<CoreExpr>, TypeFault>
    ensures { Says (spec.cast structs.now line of.now a) result }
{
    let a = valued(alloc, line, a)?;
    cast_value(alloc, structs, line, of, a)
}
