//! The second compiler: constants are folded, and registers keep copies of objects where that pays.
#![tactic(auto)]

mod fast;
mod kept;
mod laws;
mod uses;

pub use fast::{compile_fast, fast_text, generate_fast};
pub use kept::fast_style;
pub use laws::fast_styles_are_styles;
pub use uses::{Candidate, Shape, Use, use_of, use_of_statement};
