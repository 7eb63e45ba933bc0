// What is said of an undefined step.

use crate::{Int, Key, Op, Word};

/// The rules whose breach makes a step undefined.
#[derive(Clone, Copy, Debug, PartialEq, Eq)]
pub enum Rule {
    /// A byte that was never written is read.
    U1,
    /// An access is not inside its object.
    U2,
    /// An object is used after its life.
    U3,
    /// An access goes through null.
    U4,
    /// A pointer leaves its object.
    U5,
    /// Pointers into different objects are subtracted or ordered.
    U6,
    /// A signed result is out of range.
    U7,
    /// A divisor is zero.
    U8,
    /// A shift count is negative or above 31.
    U9,
    /// An access is misaligned.
    U10,
    /// A constant object or a literal is written.
    U11,
    /// What is called is no function of that type.
    U12,
    /// The value of a call that gave none is used.
    U13,
    /// What is freed is not the start of an allocated object.
    U14,
    /// A pointer is read as a number, or a number as a pointer.
    U15,
    /// A library argument is out of its range.
    U16,
    /// A name has no definition.
    U17,
    /// Source and destination of a copy overlap.
    U18,
}

/// An undefined step: the rule, the access (`at`, `size`), the operands of `op` with the type of each, the function
/// and line in which it stands, and for some rules a name or the number of an argument, counted from 1.
#[derive(Drop)]
pub struct Report {
    pub rule: Rule,
    pub op: Op,
    pub at: Word,
    pub size: u32,
    pub left: Word,
    pub right: Word,
    pub int: Int,
    pub right_int: Int,
    pub fun: Key,
    pub line: u32,
    pub name: Option<Key>,
    pub argument: u32,
}
