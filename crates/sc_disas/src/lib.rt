//! Instructions as lines of text, and lines of text as instructions.
#![tactic(auto)]

mod laws;
mod names;
mod operands;
mod reading;
mod writing;

pub use laws::comes_back;
pub use reading::assemble;
pub use writing::text;
