//! What the goes of runs of both forms show: the first of what C means, where the compiled texts of the run are right.
#![tactic(auto)]

mod laws;

pub use laws::{
    changes_show_the_meaning, starts_are_runs, walks_are_moves, walks_show_the_meaning,
};
