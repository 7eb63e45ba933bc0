//! Runs of both forms show what C means: from what compiled texts owe, each move and each change of the texts keeps what a place of the
//! run stands for.
#![tactic(auto)]

mod laws;

pub use laws::{
    every_run_has_a_history, interpreted_texts_owe_nothing, mixed_runs_show_their_meaning,
    moves_keep_the_meaning,
};
