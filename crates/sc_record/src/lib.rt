//! What the notes of a run say of registers, memory and calls, and which lists of notes a run can leave.
#![tactic(auto)]

mod laws;

pub use laws::{earlier_runs_do_not_count, lawful_runs_grow, states_follow_the_notes};
