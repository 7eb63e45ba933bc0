//! Why tokens are refused: what is left out stands there, or a limit is passed.
#![tactic(auto)]

mod laws;

pub use laws::{names_what_refuses, reads_little};
