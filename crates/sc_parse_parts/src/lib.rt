//! The parts of a unit that the machine of expressions reads: declarations, initialisers and the expressions of
//! statements (ANSI 3.5, 3.6).
#![tactic(auto)]

mod declaring;
mod expression;
mod naming;

pub use declaring::{
    STUCK, empty_block, in_declarator, in_specifiers, initial_ends, kept, specifiers, unit_with,
};
pub use expression::{begin, ends_at, expression_due, in_expression, initial};
pub use naming::{behind_name, behind_type, has_room, target};
