//! What holds of the checking interpreter's machine as it goes from step to step: what happened is kept, and begins what the
//! meaning of C tells of the whole; steps are paid by work, and
//! change what they may; a line tells what is initialised at it.
#![tactic(auto)]

mod laws;

pub use laws::{
    calls_of_the_library_change_what_they_may, events_so_far_begin_those_of_the_call,
    lean_runs_come_nearer_to_work, lines_tell_what_is_initialised, moved_bytes_are_work,
    runs_are_paid_by_work, runs_change_what_they_may, states_lead_to_what_they_mean,
    steps_add_to_what_happened, steps_are_paid_by_work, steps_change_what_they_may,
    steps_stay_inside,
};
