//! The probes that are told of a run note by note: one that tells nothing, one that keeps the notes, one that counts
//! them by kind, and one that counts how often each line was reached.
#![tactic(auto)]

mod count;
mod coverage;
mod laws;
mod quiet;
mod trace;

pub use count::{Count, Counts};
pub use coverage::{Coverage, Line};
pub use laws::{counts_are_of_the_notes, lines_are_of_the_notes};
pub use quiet::Quiet;
pub use trace::Trace;

#[cfg(test)]
mod tests;
