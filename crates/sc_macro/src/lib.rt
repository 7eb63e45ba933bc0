//! The table of macros, and expansion by hide sets (ANSI 3.8.3).
#![tactic(auto)]

mod call;
mod define;
mod failure;
mod hide;
mod lists;
mod macros;
mod marked;
mod moving;
mod reading;
mod redefine;
mod replacement;
mod string;
mod substitute;
mod waiting;
mod walk;

pub use macros::{Macro, MacroKind, Macros, Part, is_fixed};
pub use marked::{is_mark, is_name, is_newline};
pub use walk::expand;
