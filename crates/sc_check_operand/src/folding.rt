// Integer constant expressions (ANSI 3.4) and null pointer constants (3.2.2.3), on typed trees.
ghost use Rattle.std.specs.Prelude.{◌≡◌, ◌==◌};
ghost use Rattle.sc_check_operand.specs.Constants as spec;
ghost use Rattle.sc_check_operand.specs.Steps.{Says};
ghost use Rattle.sc_types.specs.declared.ctype.CType.{out-CType};
ghost use Rattle.sc_core.specs.declared.expression.CoreExpr.{out-CoreExpr};

use crate::fault::{Cause, TypeFault, refusal};
use sc_base::{Int, Op, Rule};
use sc_core::{CoreExpr, UnaryOperator};
use sc_ops::{arith, convert};
use sc_types::CType;

/// What is known of an expression's value when it is checked.
#[derive(Clone, Copy, Debug, PartialEq, Eq)]
pub enum Folded {
    /// An integer constant: its 32 bits, and its type.
    Value(u32, Int),
    /// A constant expression that breaks a rule: a result out of range, a zero divisor, a shift count out of range.
    Undefined,
    /// No integer constant expression.
    Variable,
}

fn number_of(of: &CType, n: u32) -> Folded
    ensures { result ≡ spec.number_level (out-CType of.now) n }
{
    match of {
        CType::Int(k, _) => Folded::Value(n, *k),
        _ => Folded::Variable,
    }
}

fn applied(k: Int, outcome: Result<u32, Rule>) -> Folded
    ensures { result ≡ spec.applied k outcome }
{
    match outcome {
        Ok(n) => Folded::Value(n, k),
        Err(_) => Folded::Undefined,
    }
}

fn applied_in(of: &CType, outcome: Result<u32, Rule>) -> Folded
    ensures { result ≡ spec.applied_level (out-CType of.now) outcome }
{
    match of {
        CType::Int(k, _) => applied(*k, outcome),
        _ => Folded::Variable,
    }
}

fn converted(of: &CType, a: Folded) -> Folded
    ensures { result ≡ spec.converted_level (out-CType of.now) a }
{
    match of {
        CType::Int(k, _) => match a {
            Folded::Value(n, _) => Folded::Value(convert(n, *k), *k),
            Folded::Undefined => Folded::Undefined,
            Folded::Variable => Folded::Variable,
        },
        _ => Folded::Variable,
    }
}

fn unary_value(op: UnaryOperator, k: Int, n: u32) -> Folded
    ensures { result ≡ spec.unary_by op k n }
{
    match op {
        UnaryOperator::Plus => Folded::Value(n, k),
        UnaryOperator::Minus => applied(k, arith(Op::Neg, k, 0, n)),
        UnaryOperator::Complement => applied(k, arith(Op::Not, k, 0, n)),
        UnaryOperator::Not => applied(Int::Int, arith(Op::Eq, k, n, 0)),
    }
}

fn unary(op: UnaryOperator, a: Folded) -> Folded
    ensures { result ≡ spec.unary op a }
{
    match a {
        Folded::Value(n, k) => unary_value(op, k, n),
        Folded::Undefined => Folded::Undefined,
        Folded::Variable => Folded::Variable,
    }
}

fn binary(of: &CType, op: Op, a: Folded, b: Folded) -> Folded
    ensures { result ≡ spec.binary (out-CType of.now) op a b }
{
    match (a, b) {
        (Folded::Variable, _) => Folded::Variable,
        (_, Folded::Variable) => Folded::Variable,
        (Folded::Undefined, _) => Folded::Undefined,
        (_, Folded::Undefined) => Folded::Undefined,
        (Folded::Value(n, j), Folded::Value(m, _)) => applied_in(of, arith(op, j, n, m)),
    }
}

fn truth(a: Folded) -> Folded
    ensures { result ≡ spec.truth a }
{
    match a {
        Folded::Value(n, k) => applied(Int::Int, arith(Op::Truth, k, n, 0)),
        Folded::Undefined => Folded::Undefined,
        Folded::Variable => Folded::Variable,
    }
}

fn is_zero(a: Folded) -> bool
    ensures { result ≡ spec.is_zero a }
{
    match a {
        Folded::Value(n, _) => n == 0,
        _ => false,
    }
}

fn decided(first: bool, a: Folded, b: Folded) -> Folded
    ensures { result ≡ spec.decided first a b }
{
    if first { a } else { b }
}

fn both(a: Folded, b: Folded) -> Folded
    ensures { result ≡ spec.both a b }
{
    match (a, b) {
        (Folded::Variable, _) => Folded::Variable,
        (_, Folded::Variable) => Folded::Variable,
        (Folded::Undefined, _) => Folded::Undefined,
        (Folded::Value(n, _), _) => decided(n == 0, Folded::Value(0, Int::Int), truth(b)),
    }
}

fn either(a: Folded, b: Folded) -> Folded
    ensures { result ≡ spec.either a b }
{
    match (a, b) {
        (Folded::Variable, _) => Folded::Variable,
        (_, Folded::Variable) => Folded::Variable,
        (Folded::Undefined, _) => Folded::Undefined,
        (Folded::Value(n, _), _) => decided(n == 0, truth(b), Folded::Value(1, Int::Int)),
    }
}

fn chosen(a: Folded, b: Folded, d: Folded) -> Folded
    ensures { result ≡ spec.chosen a b d }
{
    match (a, b, d) {
        (Folded::Variable, _, _) => Folded::Variable,
        (_, Folded::Variable, _) => Folded::Variable,
        (_, _, Folded::Variable) => Folded::Variable,
        (Folded::Undefined, _, _) => Folded::Undefined,
        (Folded::Value(n, _), _, _) => decided(n == 0, d, b),
    }
}

fn of_integer(of: &CType, a: Folded) -> Folded
    ensures { result ≡ spec.integer_level (out-CType of.now) a }
{
    match of {
        CType::Int(_, _) => a,
        _ => Folded::Variable,
    }
}

/// The value of an integer constant expression (ANSI 3.4): one made of numbers, conversions to integer types and operators
/// without calls, assignments, `++`, `--` and the comma. An operand that `&&`, `||` or `?:` leaves out may break a rule.
pub fn evaluated(e: &CoreExpr) -> Folded
    ensures { result ≡ spec.folded e.now }
{
    match e {
        CoreExpr::Number(_, of, n) => number_of(of, *n),
        CoreExpr::Cast(_, of, a) => converted(of, evaluated(a.get())),
        CoreExpr::Convert(_, of, a) => converted(of, evaluated(a.get())),
        CoreExpr::Unary(_, _, op, a) => unary(*op, evaluated(a.get())),
        CoreExpr::Binary(_, of, op, a, b) => binary(
            of,
            *op,
            evaluated(a.get()),
            evaluated(b.get()),
        ),
        CoreExpr::And(_, _, a, b) => both(evaluated(a.get()), evaluated(b.get())),
        CoreExpr::Or(_, _, a, b) => either(evaluated(a.get()), evaluated(b.get())),
        CoreExpr::Conditional(_, of, a, b, d) => of_integer(
            of,
            chosen(evaluated(a.get()), evaluated(b.get()), evaluated(d.get())),
        ),
        _ => Folded::Variable,
    }
}

/// The value and the type of an integer constant expression, where one is wanted (ANSI 3.4).
///
/// # Errors
///
/// `NotConstant` (X8): it is none, or breaks a rule.
pub fn integer_constant(line: u32, e: &CoreExpr) -> Result<(u32, Int), TypeFault>
    ensures { Says (spec.integer_constant line e.now) result }
{
    match evaluated(e) {
        Folded::Value(n, k) => Ok((n, k)),
        Folded::Undefined => Err(refusal(Cause::NotConstant, line)),
        Folded::Variable => Err(refusal(Cause::NotConstant, line)),
    }
}

fn is_plain_void(of: &CType) -> bool
    ensures { result ≡ spec.plain_void_level (out-CType of.now) }
{
    match of {
        CType::Void(false) => true,
        _ => false,
    }
}

fn is_void_pointer(of: &CType) -> bool
    ensures { result ≡ spec.void_pointer_level (out-CType of.now) }
{
    match of {
        CType::Pointer(u, false) => is_plain_void(u.get()),
        _ => false,
    }
}

fn is_null_cast(e: &CoreExpr) -> bool
    ensures { result ≡ spec.is_null_cast (out-CoreExpr e.now) }
{
    match e {
        CoreExpr::Cast(_, of, a) => is_void_pointer(of) && is_zero(evaluated(a.get())),
        _ => false,
    }
}

/// Whether the expression is an integer constant 0.
pub fn is_zero_constant(e: &CoreExpr) -> bool
    ensures { result ≡ spec.is_zero (spec.folded e.now) }
{
    is_zero(evaluated(e))
}

/// Whether the expression is a null pointer constant (ANSI 3.2.2.3): an integer constant 0, or one cast to `void *`.
pub fn is_null(e: &CoreExpr) -> bool
    ensures { result ≡ spec.is_null e.now }
{
    is_zero(evaluated(e)) || is_null_cast(e)
}
