//! What is said of the end of a run.
#![tactic(auto)]

mod breach;
mod end;
mod halt;
mod outcome;
mod place;
mod word;

pub use end::{on_new_line, stop_text};
pub use halt::{end_text, entered_text, line_text};
pub use outcome::outcome_text;
pub use place::{Shown, value_text};
pub use word::{key_text, put, put_decimal, put_key, rule_text};
