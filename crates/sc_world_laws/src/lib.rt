//! Where the goes of a run that is kept halt: each at the first event that is selected, of those that happen in the run; and
//! that its turns are paid by work.
#![tactic(auto)]

mod laws;

pub use laws::{
    formed_programs_are_lean, goes_halt_at_the_first_selected_event, goes_halt_right_behind_events,
    pauses_come_late, runs_stand_among_their_events, steps_tell_what_is_shown,
    turns_are_paid_by_work, turns_bound_the_meaning,
};
