//! The meaning of C on the typed tree: worlds with a trail of all that happened, undefined steps, expressions,
//! statements, calls, the library, versions of a program, behaviour; and the laws that every run keeps.
#![tactic(auto)]

mod history;
mod laws;
mod library;
mod spot;

pub use history::{Event, Past};
pub use laws::{
    greater_bounds_extend, integers_are_never_pointers, later_versions_change_nothing,
    objects_keep_their_numbers, parts_only_pass_items, trail_tells_the_run,
    undefined_steps_end_runs,
};
pub use library::LibFun;
pub use spot::Spot;
