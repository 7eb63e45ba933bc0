//! The grammar of expressions, type names, specifiers and declarators, the machine that reads them one token at a time,
//! and the steps of the machine inside expressions.
#![tactic(auto)]

pub mod classes;
pub mod close;
pub mod expression;
mod frame;
pub mod nodes;
mod operand;
pub mod parts;
mod trouble;

pub use frame::{Frame, State};
pub use operand::{Direct, Mode, Operand, Whole};
pub use trouble::{Limit, Trouble};
