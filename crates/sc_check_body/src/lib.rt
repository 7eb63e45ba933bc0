//! Declarations and statements of a function's body (ANSI 3.5, 3.6), over the recursion on expressions and on initialisers; and what the
//! text of a unit has given up to a place.
#![tactic(auto)]

mod alone;
mod automatic;
mod declarations;
mod expressions;
mod fault;
mod linked;
mod local;
mod permanent;
mod progress;
mod simple;
mod statement;
mod tables;

pub use alone::{declarator_type, declare_alone};
pub use automatic::local_of;
pub use fault::{Finding, UnitFault, rule};
pub use linked::{link, name_link, name_type, no_initializer};
pub use progress::{Around, Body, OpenBlock, Translation};
pub use statement::{block, end_body};
pub use tables::Counts;
