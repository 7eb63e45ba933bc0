//! The compiler's theorem for functions: services, loops, statements, lists of them and blocks, a function's text before its body and behind it,
//! and the induction on trees; that the premises on a run can be had; and functions that store, call and return as a whole.
#![tactic(auto)]

mod empty;
mod fit;
mod functions;
mod induction;
mod lists;
mod services;
mod statements;
mod turns;

pub use empty::{
    functions_that_do_their_bodies_are_right, functions_that_store_and_call_are_right,
    functions_without_statements_are_right, one_function_is_right, two_functions_are_right,
};
pub use fit::{first_worlds_are_fit, fit_memories_hold_words, without_stubs_nothing_is_owed};
pub use functions::{
    entries_and_exits_are_asked_for, epilogues_return, frames_are_taken, stubs_lead_to_texts,
    what_went_out_came_back,
};
pub use induction::trees_by_their_depth;
pub use lists::{
    blocks_without_objects_are_not_seen, bodies_of_stores_do_what_is_meant,
    entered_blocks_do_what_is_meant, lists_and_blocks_do_what_is_meant,
};
pub use services::{
    blocks_are_entered, blocks_are_left, calls_stand_in_entered_blocks, services_are_asked_for,
};
pub use statements::statements_do_what_is_meant;
pub use turns::{comparisons_turn_back, loops_turn_as_is_meant, tests_turn_back};
