//! One version of a program follows another while a run of it stands: which objects of static storage duration stay, which
//! die, and which are born. It does exactly what the definition says. It may be slow.
#![tactic(auto)]

mod contents;
mod follow;
mod kept;

pub use contents::same_contents;
pub use follow::change;
pub use kept::is_kept;
