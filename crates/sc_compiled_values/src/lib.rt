//! What the expressions of formed trees answer by their form and their type, and what the instructions of operators make of the words of
//! operands, beside what C means by them.
#![tactic(auto)]

mod operators;
mod values;

pub use operators::{
    branches_take_what_is_meant, constants_compute_what_is_meant, operators_compute_what_is_meant,
    pointers_go_as_is_meant, straight_code_is_stepped,
};
pub use values::expressions_answer_by_their_types;
