//! What linking put into an image is taken out of it again.
#![tactic(auto)]

mod stubs;
mod texts;
mod values;

pub use stubs::clear_jumps;
pub use texts::take_texts;
pub use values::take_values;
