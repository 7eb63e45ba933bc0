//! What a run means whose texts change while it stands.
#![tactic(auto)]

mod laws;

pub use laws::{
    changes_leave_a_run_where_it_stands, runs_go_through_their_history,
    runs_show_what_their_history_gives,
};
