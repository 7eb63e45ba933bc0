//! A plain program that computes the meaning of C on the typed tree, as it is defined: it does the steps of the machine, one
//! after another. It may be slow.
#![tactic(auto)]

mod calls;
mod drive;
mod going;
mod running;
mod step;
mod stepped;

pub use calls::key_called;
pub use going::{Active, Caller, Going};
pub use running::{Finished, Limits, call_entry, main_key, run, status_of};
pub use step::step_run;
pub use stepped::{Shown, entry};
