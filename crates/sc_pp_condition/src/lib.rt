//! The conditions of `#if`: from tokens in which `defined` and macros are replaced, to true or false.
#![tactic(auto)]

mod character;
mod constant;
mod machine;
mod number;
mod operand;
mod operator;
mod reading;
mod terms;
mod truth;

pub use character::character_value;
pub use constant::number_value;
pub use machine::{Term, Trouble};
pub use number::Value;
pub use operand::Operand;
pub use operator::Operator;
pub use reading::expression;
pub use truth::{ConditionFault, condition};
