//! Where the sections of an object are placed, and where the places of an entry end.
#![tactic(auto)]

mod ends;
mod places;
mod tops;

pub use ends::{static_end, text_end};
pub use places::place_sections;
pub use tops::{static_top, text_top};
