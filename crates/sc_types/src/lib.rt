//! The types of C, their sizes and places, the types of conversions, and which types are compatible.
#![tactic(auto)]

mod compare;
mod convert;
mod ctype;
mod frame;
mod layout;
mod structs;

pub use compare::{compatible, fits, rank, same_int, same_length};
pub use convert::{promote, usual};
pub use ctype::{CType, Member, Signature, StructDef};
pub use frame::{MAX_FRAME, frame_cost, slot_bytes};
pub use layout::{
    Layout, MAX_OBJECT, align_of, int_size, is_complete, is_object, offset_of, size_of,
};
pub use structs::Structs;
