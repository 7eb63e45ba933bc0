//! The compiler's theorem for expressions, production by production: what a place of compiled code means by what comes behind it, code on
//! registers alone, places, what is fetched and read, operators, conversions, conditions, stores and assignments, and calls.
#![tactic(auto)]

mod apply;
mod assignments;
mod binary;
mod calls;
mod direct;
mod expressions;
mod leaves;
mod paths;

pub use apply::{
    calls_of_leaves_give_answers, operands_wait_in_the_frame, words_wait_beside_objects,
};
pub use assignments::{
    assignments_give_what_they_write, assignments_to_names_give_what_they_write,
    stores_do_what_is_meant,
};
pub use binary::{
    binary_operators_compute, comparisons_tell_their_truth, conversions_give_values,
    far_places_are_read, feet_are_given, operands_stand_in_registers,
};
pub use calls::{calls_by_name_give_what_functions_do, calls_come_back, calls_give_answers};
pub use direct::{leaves_are_fetched, names_give_places};
pub use expressions::{conditions_tell_their_truth, nodes_give_answers, truth_values_are_given};
pub use leaves::{numbers_are_given, single_operators_compute, straight_code_goes_on};
pub use paths::{
    code_means_what_comes_behind_it, instructions_go_one_way, undefined_steps_and_work_are_no_code,
};
