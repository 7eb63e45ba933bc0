//! What integer constants and character constants are made of, for `#if` and for the grammar alike.
#![tactic(auto)]

mod constant;

pub use constant::{begins_hex, behind_two, capped, digit_of, digits, simple_escape, suffix};
