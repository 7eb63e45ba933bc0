//! What a change of the texts of a run is, while the run stands behind an event: one version more in its history.
#![tactic(auto)]

mod laws;

pub use laws::{
    a_change_is_a_version_of_the_run, changes_are_the_next_version, present_texts_make_the_steps,
    versions_change_nothing_before, versions_change_nothing_behind,
};
