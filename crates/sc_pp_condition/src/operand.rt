// What the operators of `#if` make of numbers.
ghost use Rattle.std.specs.Prelude.{◌≡◌, ◌≤◌};
ghost use Rattle.sc_pp_condition.specs.Operands as spec;

use crate::number::{
    Value, difference, is_less, minus, product, quotient, remainder, shifted_left, shifted_right,
    sum,
};
use crate::operator::Operator;

/// What an expression of `#if` comes to: its value, whether its evaluation divides by zero, and the height of its tree
/// (1 for a number), of which all above 200 is 201.
#[derive(Clone, Copy, Debug, PartialEq, Eq)]
pub struct Operand {
    pub value: Value,
    pub stops: bool,
    pub height: u32,
}

/// A number alone.
pub(crate) fn leaf(value: Value) -> Operand
    ensures { result ≡ spec.leaf value }
{
    Operand {
        value,
        stops: false,
        height: 1,
    }
}

/// One more, up to 201.
fn grown(height: u32) -> u32
    ensures { result ≡ spec.grown height }
{
    if height > 200 { 201 } else { height + 1 }
}

fn greater(a: u32, b: u32) -> u32
    ensures { result ≡ spec.greater a b }
{
    if a < b { b } else { a }
}

fn truth(b: bool) -> Value
    ensures { result ≡ spec.truth b }
{
    let bits = if b { 1 } else { 0 };
    Value {
        bits,
        is_unsigned: false,
    }
}

fn prefix_value(op: Operator, a: Value) -> Value
    ensures { result ≡ spec.prefix_value op a }
{
    let bits = match op {
        Operator::Not => return truth(a.bits == 0),
        Operator::Complement => u32::MAX - a.bits,
        Operator::Minus => minus(a.bits),
        _ => a.bits,
    };
    Value {
        bits,
        is_unsigned: a.is_unsigned,
    }
}

/// The operator before an operand.
pub(crate) fn prefixed(op: Operator, a: Operand) -> Operand
    ensures { result ≡ spec.prefixed op a }
{
    Operand {
        value: prefix_value(op, a.value),
        stops: a.stops,
        height: grown(a.height),
    }
}

/// A test of two numbers.
fn relation(op: Operator, is_unsigned: bool, a: u32, b: u32) -> bool
    ensures { result ≡ spec.relation op is_unsigned a b }
{
    match op {
        Operator::LogicalOr => a != 0 || b != 0,
        Operator::LogicalAnd => a != 0 && b != 0,
        Operator::Equal => a == b,
        Operator::NotEqual => a != b,
        Operator::Less => is_less(is_unsigned, a, b),
        Operator::Greater => is_less(is_unsigned, b, a),
        Operator::LessEqual => !is_less(is_unsigned, b, a),
        Operator::GreaterEqual => !is_less(is_unsigned, a, b),
        _ => false,
    }
}

fn is_relation(op: Operator) -> bool
    ensures { result ≡ spec.is_relation op }
{
    match op {
        Operator::LogicalOr
        | Operator::LogicalAnd
        | Operator::Equal
        | Operator::NotEqual
        | Operator::Less
        | Operator::Greater
        | Operator::LessEqual
        | Operator::GreaterEqual => true,
        _ => false,
    }
}

fn arithmetic(op: Operator, is_unsigned: bool, a: u32, b: u32) -> u32
    ensures { result ≡ spec.arithmetic op is_unsigned a b }
{
    match op {
        Operator::Or => a | b,
        Operator::Xor => a ^ b,
        Operator::And => a & b,
        Operator::ShiftLeft => shifted_left(a, b),
        Operator::ShiftRight => shifted_right(is_unsigned, a, b),
        Operator::Plus => sum(a, b),
        Operator::Minus => difference(a, b),
        Operator::Times => product(a, b),
        Operator::Divide => quotient(is_unsigned, a, b),
        Operator::Remainder => remainder(is_unsigned, a, b),
        _ => a,
    }
}

/// Whether the numbers are computed as unsigned: by the left operand for shifts, else where one is unsigned.
fn as_unsigned(op: Operator, a: Value, b: Value) -> bool
    ensures { result ≡ spec.as_unsigned op a b }
{
    match op {
        Operator::ShiftLeft | Operator::ShiftRight => a.is_unsigned,
        _ => a.is_unsigned || b.is_unsigned,
    }
}

fn binary_value(op: Operator, a: Value, b: Value) -> Value
    ensures { result ≡ spec.binary_value op a b }
{
    let is_unsigned = as_unsigned(op, a, b);
    if is_relation(op) {
        return truth(relation(op, is_unsigned, a.bits, b.bits));
    }
    Value {
        bits: arithmetic(op, is_unsigned, a.bits, b.bits),
        is_unsigned,
    }
}

/// Whether the evaluation divides by zero. The right operand of `&&` and `||` is evaluated only where it is asked for.
fn stops(op: Operator, a: Operand, b: Operand) -> bool
    ensures { result ≡ spec.stops op a b }
{
    if a.stops {
        return true;
    }
    match op {
        Operator::LogicalAnd => a.value.bits != 0 && b.stops,
        Operator::LogicalOr => a.value.bits == 0 && b.stops,
        Operator::Divide | Operator::Remainder => b.stops || b.value.bits == 0,
        _ => b.stops,
    }
}

/// The operator between two operands.
pub(crate) fn applied(op: Operator, a: Operand, b: Operand) -> Operand
    ensures { result ≡ spec.applied op a b }
{
    Operand {
        value: binary_value(op, a.value, b.value),
        stops: stops(op, a, b),
        height: grown(greater(a.height, b.height)),
    }
}

/// `a ? b : c`.
pub(crate) fn chosen(a: Operand, b: Operand, c: Operand) -> Operand
    ensures { result ≡ spec.chosen a b c }
{
    let side = if a.value.bits == 0 { c } else { b };
    Operand {
        value: Value {
            bits: side.value.bits,
            is_unsigned: b.value.is_unsigned || c.value.is_unsigned,
        },
        stops: a.stops || side.stops,
        height: grown(greater(a.height, greater(b.height, c.height))),
    }
}
