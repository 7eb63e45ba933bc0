//! The objects of a run in one memory, seen as the list of objects that the meaning of C has.
#![tactic(auto)]

mod bytes;
mod cell;
mod few;
mod history;
mod laws;
mod machine;
mod pointers;
mod span;
mod store;
mod stray;
mod values;

pub use cell::{Cell, Content};
pub use few::Few;
pub use laws::{held_objects_agree, words_have_values_of_their_own};
pub use machine::Place;
pub use store::{Facts, Landed, Store};
