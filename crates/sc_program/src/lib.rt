//! What the typed tree of a module and the placed image both speak of: frames, their slots, and the names of what has
//! static storage.
#![tactic(auto)]

mod frame;
mod storage;

pub use frame::{FrameTable, Slot};
pub use storage::StaticId;
