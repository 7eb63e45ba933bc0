//! One step of the machine: an RV32IM instruction on registers with tags, the words of an image and one memory.
#![tactic(auto)]

mod beginning;
mod operations;
mod outcome;
mod registers;
mod stepping;

pub use beginning::{Need, begin, pass, take};
pub use operations::load_size;
pub use outcome::{Crash, Step};
pub use registers::Regs;
pub use stepping::step;
