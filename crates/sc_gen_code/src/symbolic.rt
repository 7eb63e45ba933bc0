// Instructions of a text that is not placed yet.

use sc_base::Key;
use sc_isa::{Instr, LoadOp, StoreOp};

/// What an address is taken of: an object or function by its key, or a string literal by its place among the module's
/// literals.
#[derive(Drop, PartialEq, Eq, Hash)]
pub enum Target {
    Named(Key),
    Literal(u32),
}

/// One word of a text before it is placed.
#[derive(Drop)]
pub enum Symbolic {
    /// An instruction that waits for no address.
    Plain(Instr),
    /// `lui t0` with the upper part of a target's value.
    Upper(Target),
    /// What is done at a target's value, whose upper part is in `t0`: the lower part is added.
    Lower(Access, Target),
    /// `auipc ra`, the first word of a call of a target.
    Call(Target),
}

/// What is done at a place: a register is loaded or stored, or gets the place's address.
#[derive(Clone, Copy)]
pub enum Access {
    Load(LoadOp, u8),
    Store(StoreOp, u8),
    Address(u8),
}
