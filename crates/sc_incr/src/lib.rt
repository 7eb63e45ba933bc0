//! The linker that patches one image.
#![tactic(auto)]

mod changing;
mod entry;
mod forgetting;
mod forming;
mod leaving;
mod linked;
mod literals;
mod module;
mod parts;
mod patching;
mod planning;
mod users;
mod uses;

pub use entry::Entry;
pub use leaving::Leaving;
pub use linked::Linked;
pub use module::{Choice, Module};
pub use parts::Parts;
pub use planning::Plan;
pub use users::users_in;
pub use uses::{Use, Uses};
