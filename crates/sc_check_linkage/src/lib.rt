//! Names with linkage, what a unit defines, the order in which its objects are born, and the frames of its functions
//! (ANSI 3.1.2.2, 3.5.1, 3.7).
#![tactic(auto)]

mod births;
mod block;
mod frame;
mod library;
mod link;
mod signature;

pub use births::{Birth, born};
pub use block::block_key;
pub use frame::{Local, cost, place};
pub use library::is_library_name;
pub use link::{Declaration, Definition, Link, Links};
