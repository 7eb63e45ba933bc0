//! What each construct of a typed tree asks of its parts, and what a function's frame keeps room for.
#![tactic(auto)]

mod agreement;
mod needs;
mod nodes;
mod operators;
mod values;

pub use agreement::{alike, same, same_bool};
pub use needs::{Need, most_arguments, need_of, need_of_statement, room};
pub use nodes::{
    MAX_ARGUMENTS, is_address, is_arrow, is_call, is_cast, is_element, is_indirection, is_literal,
    is_member, is_number, is_parameter, is_result, is_step, is_unary,
};
pub use operators::{
    is_assignment, is_binary, is_choice, is_compare, is_compound, is_copy, is_difference,
    is_logical, is_movement, is_offset, is_sequence, is_structure,
};
pub use values::{converts, is_condition, is_done, is_promoted_value, is_value_for};
