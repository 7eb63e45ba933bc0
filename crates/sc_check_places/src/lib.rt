//! Initialisers (ANSI 3.5.7): which place of an object an item fills, which bytes are zero since they have none, and strings
//! for arrays of characters.
#![tactic(auto)]

mod level;
mod text;
mod walk;

pub use level::{Level, Place, Zeros, takes};
pub use text::{Text, text_for};
pub use walk::{Closed, Walk};
