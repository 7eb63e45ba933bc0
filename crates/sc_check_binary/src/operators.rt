// Operators between two operands, and the comma (ANSI 3.3.5 to 3.3.14, 3.3.17).
ghost use Rattle.std.specs.Prelude.{◌≡◌, IfOk, Ok, false};
ghost use Rattle.sc_check_binary.specs.Binary as spec;
ghost use Rattle.sc_check_operand.specs.Types.{int, plain};
ghost use Rattle.sc_check_operand.specs.Steps.{Says};
ghost use Rattle.sc_core.specs.Types.{type_of};

use sc_base::{Duplicate, Int, NoMemory, Op, Shared};
use sc_check_operand::{
    Shape, TypeFault, converted, is_null, is_pointer, is_scalar, mismatch, plain, shape_of,
    targets_alike, targets_join, to_int, valued,
};
use sc_core::{CoreExpr, type_of};
use sc_tree::Binary;
use sc_types::{CType, Structs, promote, usual};
use std::alloc::Global;

/// The operators that share a rule, with the operation of each.
#[derive(Clone, Copy, Debug, PartialEq, Eq)]
pub enum Class {
    Arithmetic(Op),
    Shift(Op),
    Sum,
    Difference,
    Order(Op),
    Equality(Op),
    And,
    Or,
}

/// What an operator makes of its operands.
#[derive(Clone, Copy, Debug, PartialEq, Eq)]
pub enum Plan {
    /// An operation on integers in this type.
    Arithmetic(Op, Int),
    /// A comparison of integers in this type.
    Comparison(Op, Int),
    /// A shift, with the types of both operands.
    Shift(Op, Int, Int),
    /// The left operand is a pointer to objects of this size, the right one an integer.
    Left(Op, u32),
    /// The other way round.
    Right(Op, u32),
    /// The difference of pointers to objects of this size.
    Difference(u32),
    /// A comparison of pointers.
    Pointers(Op),
    /// A comparison of the constant 0, on the left, and a pointer.
    NullLeft(Op),
    /// The other way round.
    NullRight(Op),
    And,
    Or,
    Wrong,
}

pub fn class_of(op: Binary) -> Class
    ensures { result ≡ spec.class_of op }
{
    match op {
        Binary::LogicalOr => Class::Or,
        Binary::LogicalAnd => Class::And,
        Binary::Or => Class::Arithmetic(Op::Or),
        Binary::Xor => Class::Arithmetic(Op::Xor),
        Binary::And => Class::Arithmetic(Op::And),
        Binary::Equal => Class::Equality(Op::Eq),
        Binary::NotEqual => Class::Equality(Op::Ne),
        Binary::Less => Class::Order(Op::Lt),
        Binary::Greater => Class::Order(Op::Gt),
        Binary::LessEqual => Class::Order(Op::Le),
        Binary::GreaterEqual => Class::Order(Op::Ge),
        Binary::ShiftLeft => Class::Shift(Op::Shl),
        Binary::ShiftRight => Class::Shift(Op::Shr),
        Binary::Add => Class::Sum,
        Binary::Subtract => Class::Difference,
        Binary::Multiply => Class::Arithmetic(Op::Mul),
        Binary::Divide => Class::Arithmetic(Op::Div),
        Binary::Remainder => Class::Arithmetic(Op::Rem),
    }
}

fn arithmetic(op: Op, x: Shape, y: Shape) -> Plan
    ensures { result ≡ spec.arithmetic op x y }
{
    match (x, y) {
        (Shape::Integer(j), Shape::Integer(k)) => Plan::Arithmetic(op, usual(j, k)),
        _ => Plan::Wrong,
    }
}

fn shift(op: Op, x: Shape, y: Shape) -> Plan
    ensures { result ≡ spec.shift op x y }
{
    match (x, y) {
        (Shape::Integer(j), Shape::Integer(k)) => Plan::Shift(op, promote(j), promote(k)),
        _ => Plan::Wrong,
    }
}

fn sum(x: Shape, y: Shape) -> Plan
    ensures { result ≡ spec.sum x y }
{
    match (x, y) {
        (Shape::Integer(j), Shape::Integer(k)) => Plan::Arithmetic(Op::Add, usual(j, k)),
        (Shape::Object(n), Shape::Integer(_)) => Plan::Left(Op::Add, n),
        (Shape::Integer(_), Shape::Object(n)) => Plan::Right(Op::Add, n),
        _ => Plan::Wrong,
    }
}

fn where_alike(alike: bool, plan: Plan) -> Plan
    ensures { result ≡ spec.where_alike alike plan }
{
    if alike { plan } else { Plan::Wrong }
}

fn difference(alike: bool, x: Shape, y: Shape) -> Plan
    ensures { result ≡ spec.difference alike x y }
{
    match (x, y) {
        (Shape::Integer(j), Shape::Integer(k)) => Plan::Arithmetic(Op::Sub, usual(j, k)),
        (Shape::Object(n), Shape::Integer(_)) => Plan::Left(Op::Sub, n),
        (Shape::Object(n), Shape::Object(_)) => where_alike(alike, Plan::Difference(n)),
        _ => Plan::Wrong,
    }
}

fn order(op: Op, alike: bool, x: Shape, y: Shape) -> Plan
    ensures { result ≡ spec.order op alike x y }
{
    match (x, y) {
        (Shape::Integer(j), Shape::Integer(k)) => Plan::Comparison(op, usual(j, k)),
        (Shape::Callable, _) => Plan::Wrong,
        _ => {
            if is_pointer(x) && is_pointer(y) {
                where_alike(alike, Plan::Pointers(op))
            } else {
                Plan::Wrong
            }
        }
    }
}

fn pointers(op: Op, a: &CoreExpr, b: &CoreExpr, joined: bool) -> Plan
    ensures { result ≡ spec.pointers op a.now b.now joined }
{
    if is_null(a) || is_null(b) {
        Plan::Pointers(op)
    } else {
        where_alike(joined, Plan::Pointers(op))
    }
}

fn null_left(op: Op, a: &CoreExpr, y: Shape) -> Plan
    ensures { result ≡ spec.null_left op a.now y }
{
    if is_pointer(y) {
        where_alike(is_null(a), Plan::NullLeft(op))
    } else {
        Plan::Wrong
    }
}

fn null_right(op: Op, b: &CoreExpr, x: Shape) -> Plan
    ensures { result ≡ spec.null_right op b.now x }
{
    if is_pointer(x) {
        where_alike(is_null(b), Plan::NullRight(op))
    } else {
        Plan::Wrong
    }
}

fn equality(op: Op, a: &CoreExpr, b: &CoreExpr, joined: bool, x: Shape, y: Shape) -> Plan
    ensures { result ≡ spec.equality op a.now b.now joined x y }
{
    match (x, y) {
        (Shape::Integer(j), Shape::Integer(k)) => Plan::Comparison(op, usual(j, k)),
        (Shape::Integer(_), _) => null_left(op, a, y),
        (_, Shape::Integer(_)) => null_right(op, b, x),
        _ => {
            if is_pointer(x) && is_pointer(y) {
                pointers(op, a, b, joined)
            } else {
                Plan::Wrong
            }
        }
    }
}

fn logical(plan: Plan, x: Shape, y: Shape) -> Plan
    ensures { result ≡ spec.logical plan x y }
{
    if is_scalar(x) && is_scalar(y) {
        plan
    } else {
        Plan::Wrong
    }
}

/// What the operator makes of these two values.
fn plan_of(structs: &Structs, op: Binary, a: &CoreExpr, b: &CoreExpr) -> Result<Plan, NoMemory>
    ensures { IfOk result (λ r. r ≡ spec.plan_of structs.now op a.now b.now) }
{
    let x = shape_of(structs, type_of(a));
    let y = shape_of(structs, type_of(b));
    match class_of(op) {
        Class::Arithmetic(o) => Ok(arithmetic(o, x, y)),
        Class::Shift(o) => Ok(shift(o, x, y)),
        Class::Sum => Ok(sum(x, y)),
        Class::Difference => {
            let alike = targets_alike(structs, type_of(a), type_of(b))?;
            Ok(difference(alike, x, y))
        }
        Class::Order(o) => {
            let alike = targets_alike(structs, type_of(a), type_of(b))?;
            Ok(order(o, alike, x, y))
        }
        Class::Equality(o) => {
            let joined = targets_join(structs, type_of(a), type_of(b))?;
            Ok(equality(o, a, b, joined, x, y))
        }
        Class::And => Ok(logical(Plan::And, x, y)),
        Class::Or => Ok(logical(Plan::Or, x, y)),
    }
}

fn operation(
    alloc: Global,
    line: u32,
    op: Op,
    of: Int,
    a: Shared<CoreExpr>,
    b: Shared<CoreExpr>,
) -> Result<Shared<CoreExpr>, TypeFault>
    ensures { Says (Ok (CoreExpr.Binary line (CType.Int of false) op a b)) result }
{
    Ok(Shared::new(
        alloc,
        CoreExpr::Binary(line, CType::Int(of, false), op, a, b),
    )?)
}

fn operated(
    alloc: Global,
    line: u32,
    op: Op,
    of: Int,
    k: Int,
    a: Shared<CoreExpr>,
    b: Shared<CoreExpr>,
) -> Result<Shared<CoreExpr>, TypeFault>
    ensures { Says (Ok (spec.operated line op of k a b)) result }
{
    let a = to_int(alloc, line, k, a)?;
    let b = to_int(alloc, line, k, b)?;
    operation(alloc, line, op, of, a, b)
}

fn shifted(
    alloc: Global,
    line: u32,
    op: Op,
    j: Int,
    k: Int,
    a: Shared<CoreExpr>,
    b: Shared<CoreExpr>,
) -> Result<Shared<CoreExpr>, TypeFault>
    ensures { Says (Ok (spec.shifted line op j k a b)) result }
{
    let a = to_int(alloc, line, j, a)?;
    let b = to_int(alloc, line, k, b)?;
    operation(alloc, line, op, j, a, b)
}

fn offset(
    alloc: Global,
    line: u32,
    of: CType,
    op: Op,
    n: u32,
    a: Shared<CoreExpr>,
    b: Shared<CoreExpr>,
) -> Result<Shared<CoreExpr>, TypeFault>
    ensures { Says (Ok (CoreExpr.Offset line of op n a b)) result }
{
    Ok(Shared::new(alloc, CoreExpr::Offset(line, of, op, n, a, b))?)
}

fn offset_left(
    alloc: Global,
    line: u32,
    op: Op,
    n: u32,
    a: Shared<CoreExpr>,
    b: Shared<CoreExpr>,
) -> Result<Shared<CoreExpr>, TypeFault>
    ensures { Says (Ok (CoreExpr.Offset line (type_of a) op n a b)) result }
{
    let of = type_of(a.get()).copy(alloc)?;
    offset(alloc, line, of, op, n, a, b)
}

fn offset_right(
    alloc: Global,
    line: u32,
    op: Op,
    n: u32,
    a: Shared<CoreExpr>,
    b: Shared<CoreExpr>,
) -> Result<Shared<CoreExpr>, TypeFault>
    ensures { Says (Ok (CoreExpr.Offset line (type_of b) op n a b)) result }
{
    let of = type_of(b.get()).copy(alloc)?;
    offset(alloc, line, of, op, n, a, b)
}

fn distance(
    alloc: Global,
    line: u32,
    n: u32,
    a: Shared<CoreExpr>,
    b: Shared<CoreExpr>,
) -> Result<Shared<CoreExpr>, TypeFault>
    ensures { Says (Ok (CoreExpr.Difference line int n a b)) result }
{
    Ok(Shared::new(
        alloc,
        CoreExpr::Difference(line, CType::Int(Int::Int, false), n, a, b),
    )?)
}

fn compared(
    alloc: Global,
    line: u32,
    op: Op,
    a: Shared<CoreExpr>,
    b: Shared<CoreExpr>,
) -> Result<Shared<CoreExpr>, TypeFault>
    ensures { Says (Ok (CoreExpr.Compare line int op a b)) result }
{
    Ok(Shared::new(
        alloc,
        CoreExpr::Compare(line, CType::Int(Int::Int, false), op, a, b),
    )?)
}

/// The constant 0 as a null pointer of the other operand's type.
fn null_as(
    alloc: Global,
    line: u32,
    zero: &Shared<CoreExpr>,
    pointer: &CoreExpr,
) -> Result<Shared<CoreExpr>, NoMemory>
    ensures { IfOk result (λ r. r ≡ spec.null_as line zero.now pointer.now) }
{
    let of = type_of(pointer).copy(alloc)?;
    converted(alloc, line, of, zero)
}

fn compared_left(
    alloc: Global,
    line: u32,
    op: Op,
    a: Shared<CoreExpr>,
    b: Shared<CoreExpr>,
) -> Result<Shared<CoreExpr>, TypeFault>
    ensures { Says (Ok (CoreExpr.Compare line int op (spec.null_as line a b) b)) result }
{
    let null = null_as(alloc, line, &a, b.get())?;
    compared(alloc, line, op, null, b)
}

fn compared_right(
    alloc: Global,
    line: u32,
    op: Op,
    a: Shared<CoreExpr>,
    b: Shared<CoreExpr>,
) -> Result<Shared<CoreExpr>, TypeFault>
    ensures { Says (Ok (CoreExpr.Compare line int op a (spec.null_as line b a))) result }
{
    let null = null_as(alloc, line, &b, a.get())?;
    compared(alloc, line, op, a, null)
}

fn and_both(
    alloc: Global,
    line: u32,
    a: Shared<CoreExpr>,
    b: Shared<CoreExpr>,
) -> Result<Shared<CoreExpr>, TypeFault>
    ensures { Says (Ok (CoreExpr.And line int a b)) result }
{
    Ok(Shared::new(
        alloc,
        CoreExpr::And(line, CType::Int(Int::Int, false), a, b),
    )?)
}

fn or_both(
    alloc: Global,
    line: u32,
    a: Shared<CoreExpr>,
    b: Shared<CoreExpr>,
) -> Result<Shared<CoreExpr>, TypeFault>
    ensures { Says (Ok (CoreExpr.Or line int a b)) result }
{
    Ok(Shared::new(alloc, CoreExpr::Or(line, CType::Int(Int::Int, false), a, b))?)
}

fn planned(
    alloc: Global,
    line: u32,
    plan: Plan,
    a: Shared<CoreExpr>,
    b: Shared<CoreExpr>,
) -> Result<Shared<CoreExpr>, TypeFault>
    ensures { Says (spec.planned line plan a b) result }
{
    match plan {
        Plan::Arithmetic(op, k) => operated(alloc, line, op, k, k, a, b),
        Plan::Comparison(op, k) => operated(alloc, line, op, Int::Int, k, a, b),
        Plan::Shift(op, j, k) => shifted(alloc, line, op, j, k, a, b),
        Plan::Left(op, n) => offset_left(alloc, line, op, n, a, b),
        Plan::Right(op, n) => offset_right(alloc, line, op, n, a, b),
        Plan::Difference(n) => distance(alloc, line, n, a, b),
        Plan::Pointers(op) => compared(alloc, line, op, a, b),
        Plan::NullLeft(op) => compared_left(alloc, line, op, a, b),
        Plan::NullRight(op) => compared_right(alloc, line, op, a, b),
        Plan::And => and_both(alloc, line, a, b),
        Plan::Or => or_both(alloc, line, a, b),
        Plan::Wrong => Err(mismatch(line)),
    }
}

fn binary_values(
    alloc: Global,
    structs: &Structs,
    line: u32,
    op: Binary,
    a: Shared<CoreExpr>,
    b: Shared<CoreExpr>,
) -> Result<Shared<CoreExpr>, TypeFault>
    ensures { Says (spec.binary_values structs.now line op a b) result }
{
    let plan = plan_of(structs, op, a.get(), b.get())?;
    planned(alloc, line, plan, a, b)
}

/// An operator between two operands (ANSI 3.3.5 to 3.3.14). Integers get the type of the usual conversions, those of a shift are
/// promoted apart; a comparison, `&&` and `||` give an `int`.
///
/// # Errors
///
/// `Mismatch` (X7): the operator takes no operands of these types. All take integers; `+` a pointer to a complete object type
/// and an integer; `-` such a pointer and an integer on its right, or two to compatible types; an order pointers to compatible
/// types other than functions; `==` and `!=` a pointer and a null constant, and two pointers of which an assignment takes
/// one to the type of the other; `&&` and `||` scalars. Qualifiers are left aside.
pub fn binary(
    alloc: Global,
    structs: &Structs,
    line: u32,
    op: Binary,
    a: Shared<CoreExpr>,
    b: Shared<CoreExpr>,
) -> Result<Shared<CoreExpr>, TypeFault>
    ensures { Says (spec.binary structs.now line op a b) result }
{
    let a = valued(alloc, line, a)?;
    let b = valued(alloc, line, b)?;
    binary_values(alloc, structs, line, op, a, b)
}

fn comma_values(
    alloc: Global,
    line: u32,
    a: Shared<CoreExpr>,
    b: Shared<CoreExpr>,
) -> Result<Shared<CoreExpr>, NoMemory>
    ensures { IfOk result (λ r. r ≡ spec.comma_values line a b) }
{
    let of = plain(type_of(b.get()))?;
    Shared::new(alloc, CoreExpr::Comma(line, of, a, b))
}

/// `a, b` (ANSI 3.3.17).
pub fn comma(
    alloc: Global,
    line: u32,
    a: Shared<CoreExpr>,
    b: Shared<CoreExpr>,
) -> Result<Shared<CoreExpr>, NoMemory>
    ensures { IfOk result (λ r. r ≡ spec.comma line a b) }
{
    let a = valued(alloc, line, a)?;
    let b = valued(alloc, line, b)?;
    comma_values(alloc, line, a, b)
}
