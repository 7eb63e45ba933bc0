// Ends of a run.
ghost use Rattle.std.specs.Prelude.{◌≡◌};
ghost use Rattle.sc_interp_access.specs.declared.stop.Stop.TheVariants as stop;

use sc_base::{Int, Key, NoMemory, Op, Rule, Shared};
use sc_meaning_values::Value;
use std::marker::Model;

/// An undefined step: the rule; the access of `size` bytes at `at`; the operands of `op` with the type of each; the
/// function and line in which it stands; and for some rules a name, or the number of an argument, counted from 1.
#[derive(Drop)]
pub struct Breach {
    pub rule: Rule,
    pub op: Op,
    pub at: Value,
    pub size: u32,
    pub left: Value,
    pub right: Value,
    pub int: Int,
    pub right_int: Int,
    pub fun: Key,
    pub line: u32,
    pub name: Option<Key>,
    pub argument: u32,
}

impl Model for Breach {
    ghost use Rattle.sc_meaning.specs.Outcomes as spec;

    ghost Value = { spec.Breach };

    ghost view = { λ b. record { rule = b.rule; op = b.op; at = b.at; size = b.size; left = b.left; right = b.right; int = b.int; right_int = b.right_int; fun = b.fun; line = b.line; name = b.name; argument = b.argument } };
}

/// Why a part of a program is not done. What is said of it stands behind a handle, so that an answer of a step is small.
#[derive(Drop)]
pub enum Stop {
    /// No memory was left, or a number has no room in its type.
    NoRoom,
    /// A step is undefined.
    Undefined(Shared<Breach>),
    /// `exit` was called, with this status.
    Exit(u32),
    /// The stack has no room for a call of this function.
    StackFull(Shared<Key>),
    /// One object too many is born.
    BirthLimit,
}

impl From<NoMemory> for Stop {
    ghost from_gives = { λ _ s. s ≡ stop.NoRoom };

    fn from(_: NoMemory) -> Stop {
        Stop::NoRoom
    }
}
