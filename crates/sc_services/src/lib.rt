//! What compiled code asks of the world of a run: words as values and back, loads and stores that test nothing, and the six services
//! that its texts call.
#![tactic(auto)]

mod arguments;
mod blocks;
mod bytes;
mod calling;
mod copying;
mod entering;
mod frames;
mod leaving;
mod served;
mod store;
mod tagging;

pub use arguments::{put_arguments, result_word, value_of};
pub use bytes::load;
pub use calling::{Asked, called};
pub use copying::{Copied, copy};
pub use entering::{Entered, enter};
pub use frames::{is_on_stack, stack_top};
pub use leaving::{Left, fall, leave};
pub use served::Served;
pub use store::store_word;
pub use tagging::tag;
