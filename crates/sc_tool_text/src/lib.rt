//! A checked module as lines of text, for programs and tests that show what the checker gives.
#![tactic(auto)]

mod listing;
mod refusals;
mod words;

pub use listing::lines;
pub use refusals::refusal;
