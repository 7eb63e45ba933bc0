//! An expression that is evaluated in a module: the function that returns it, behind the module's own text.
#![tactic(auto)]

mod place;
mod starting;
mod strings;
mod texts;

pub use starting::{Evaluation, Kept, start_of};
pub use strings::has_string;
