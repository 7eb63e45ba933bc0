//! The modules of a program: whether one more, or one translated anew, goes with those that are present.
#![tactic(auto)]

mod births;
mod clash;
mod names;
mod space;

pub use births::{statics_by, waits};
pub use clash::{Named, clashing, doubled, is_other};
pub use space::over_limit;
