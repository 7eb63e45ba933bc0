//! Integers of 32 bits: conversions between types, and the operators of expressions.
#![tactic(auto)]

mod arithmetic;
mod conversion;

pub use arithmetic::arith;
pub use conversion::convert;
