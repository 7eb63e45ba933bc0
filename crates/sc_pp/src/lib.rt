//! Preprocessing of a unit: directives, conditionals, files and built-in headers (ANSI 3.8).
#![tactic(auto)]

mod asking;
mod condition_line;
mod directive;
mod environment;
mod failure;
mod frame;
mod header;
mod include;
mod line;
mod matching;
mod open;
mod reading;
mod scan;
mod splitter;
mod state;
mod token;
mod unit;

pub use unit::{PpFault, preprocess};
