// How a run ended (ANSI 2.1.2.2, 4.10.4.3).
use crate::stop::Breach;
use sc_base::{Key, Shared};

/// How a run ended: with a status; at an undefined step; as the stack had no room for a call of this function; as one object
/// too many was born; as the steps were used up; or as no room was left.
#[derive(Drop)]
pub enum Ended {
    Exit(u32),
    Undefined(Shared<Breach>),
    StackFull(Shared<Key>),
    BirthLimit,
    OutOfSteps,
    NoRoom,
}
