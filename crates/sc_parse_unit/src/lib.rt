//! The grammar of units, the machine that reads them one token at a time, and that it reads each of them (ANSI 3.5 to 3.7).
#![tactic(auto)]

mod around;
mod laws;
mod obstacle;

pub use around::{Around, End, Head, Stage, Test};
pub use laws::reads_units;
pub use obstacle::Obstacle;
