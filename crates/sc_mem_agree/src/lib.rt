//! Memory's tests of undefined steps are those of the meaning of C.
#![tactic(auto)]

mod laws;

pub use laws::{accesses_agree, arithmetic_agrees, comparisons_agree, freeing_agrees};
