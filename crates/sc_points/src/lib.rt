//! Functions as lists of instructions on registers of their frame. A place of a list is a point of the machine of small steps, with
//! registers in place of values, and an instruction is a move of the machine from point to point; so a go of a list is a go of the run.
#![tactic(auto)]

mod calls;
mod held;
mod lists;
mod operations;
mod statements;

pub use calls::{
    calls_lead_into_functions_and_back, calls_show_nothing_on_the_way,
    calls_that_end_the_run_are_two_steps, the_library_answers_in_four_steps,
};
pub use held::Held;
pub use lists::{
    a_loop_is_a_list_of_moves, calls_and_returns_are_instructions, lists_go_as_the_machine_does,
    points_show_what_is_known_of_them, steps_are_joined_to_instructions,
};
pub use operations::{
    answers_wait_for_the_next_part, conditions_branch, expressions_begin_with_their_first_part,
    names_are_found_as_they_begin, operations_act_on_registers, structures_are_copied,
    uses_of_nothing_end_the_run,
};
pub use statements::{
    blocks_are_entered_and_left, initialisers_are_filled_in, jumps_land_at_their_label,
    lines_are_reached, statements_end_and_lists_go_on, switches_go_on_at_a_label, tests_branch,
};
