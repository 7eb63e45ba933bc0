// What operators and conversions give on numbers.
ghost use Rattle.std.specs.Prelude.{◌≡◌, option_map};
ghost use Rattle.sc_opt_fold.specs.Folded as spec;

use sc_base::{Int, Op, Rule};
use sc_core::{CoreExpr, UnaryOperator};
use sc_ops::{arith, convert};
use sc_types::CType;

fn int_of(t: &CType) -> Option<Int>
    ensures { result ≡ spec.int_of t.now }
{
    match t {
        CType::Int(k, _) => Some(*k),
        _ => None,
    }
}

fn number_in(t: &CType, n: u32) -> Option<(Int, u32)>
    ensures { result ≡ option_map (λ k. (k, n)) (spec.int_of t.now) }
{
    match int_of(t) {
        Some(k) => Some((k, n)),
        None => None,
    }
}

// A number with its type.
pub(crate) fn constant(e: &CoreExpr) -> Option<(Int, u32)>
    ensures { result ≡ spec.constant e.now }
{
    match e {
        CoreExpr::Number(_, t, n) => number_in(t, *n),
        _ => None,
    }
}

fn kept(outcome: Result<u32, Rule>) -> Option<u32>
    ensures { result ≡ spec.kept outcome }
{
    match outcome {
        Ok(n) => Some(n),
        Err(_) => None,
    }
}

fn unary_number(o: UnaryOperator, k: Int, n: u32) -> Option<u32>
    ensures { result ≡ spec.unary_number o k n }
{
    match o {
        UnaryOperator::Plus => Some(n),
        UnaryOperator::Minus => kept(arith(Op::Neg, k, 0, n)),
        UnaryOperator::Complement => kept(arith(Op::Not, k, 0, n)),
        UnaryOperator::Not => kept(arith(Op::Eq, k, n, 0)),
    }
}

pub(crate) fn unary_value(o: UnaryOperator, a: Option<(Int, u32)>) -> Option<u32>
    ensures { result ≡ spec.unary_value o a }
{
    match a {
        Some((k, n)) => unary_number(o, k, n),
        None => None,
    }
}

pub(crate) fn binary_value(o: Op, a: Option<(Int, u32)>, b: Option<(Int, u32)>) -> Option<u32>
    ensures { result ≡ spec.binary_value o a b }
{
    match (a, b) {
        (Some((k, n)), Some((_, m))) => kept(arith(o, k, n, m)),
        (Some(_), None) => None,
        (None, _) => None,
    }
}

pub(crate) fn converted_value(t: &CType, a: Option<(Int, u32)>) -> Option<u32>
    ensures { result ≡ spec.converted_value t.now a }
{
    match (a, int_of(t)) {
        (Some((_, n)), Some(k)) => Some(convert(n, k)),
        (Some(_), None) => None,
        (None, _) => None,
    }
}
