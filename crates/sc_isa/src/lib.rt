//! The instructions of RV32IM and their words.
#![tactic(auto)]

mod decoding;
mod encoding;
mod instruction;

pub use decoding::decode;
pub use encoding::encode;
pub use instruction::{BranchOp, ImmOp, Instr, LoadOp, RegOp, StoreOp};
