//! The plain types that all crates share: bytes, names, lists, tree handles, keys, refusals and the notes of a run.
#![tactic(auto)]

mod bytes;
mod integer;
mod items;
mod key;
mod memory;
mod name;
mod note;
mod operator;
mod refusal;
mod report;
mod shared;
mod stack;

pub use bytes::Bytes;
pub use integer::Int;
pub use items::{Duplicate, Items};
pub use key::Key;
pub use memory::{Cell, Form, Kind, Word};
pub use name::{Name, NameFault};
pub use note::{Note, Notes};
pub use operator::Op;
pub use refusal::{Fault, Refusal, X};
pub use report::{Report, Rule};
pub use shared::Shared;
pub use stack::Stack;
use std::alloc::{AllocError, AllocFailed};

/// No memory was left.
#[derive(Clone, Copy, Debug, PartialEq, Eq)]
pub struct NoMemory;

impl From<AllocError> for NoMemory {
    fn from(_: AllocError) -> NoMemory {
        NoMemory
    }
}

impl<T: Drop> From<AllocFailed<T>> for NoMemory {
    fn from(_: AllocFailed<T>) -> NoMemory {
        NoMemory
    }
}

#[cfg(test)]
mod tests;
