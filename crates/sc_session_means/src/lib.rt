//! What sessions show of runs of both forms: the first of what C means, where the compiled texts of the run are right.
#![tactic(auto)]

mod laws;

pub use laws::sessions_show_the_meaning;
