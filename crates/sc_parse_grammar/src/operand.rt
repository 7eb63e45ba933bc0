// The parts that are put together.

use sc_base::{Items, Shared};
use sc_parse_names::Entry;
use sc_tree::{Derivation, Expr, Identifier};

/// An operand that was read: the line of its first token, the level of its production and its height.
#[derive(Drop)]
pub struct Operand {
    pub line: u32,
    pub level: u8,
    pub height: u8,
    pub tree: Shared<Expr>,
}

/// Which declarators may stand at a place: with a name, without, or either (ANSI 3.5.4, 3.5.5).
#[derive(Clone, Copy, Debug, PartialEq, Eq)]
pub enum Mode {
    Named,
    Abstract,
    Either,
}

/// The name of a declarator and what it is so far, from the name outwards; where the name is a function, the names that
/// its parameters declare.
#[derive(Drop)]
pub struct Direct {
    pub identifier: Option<Identifier>,
    pub derivations: Items<Derivation>,
    pub scope: Items<Entry>,
}

/// A declarator that was read whole, with the line of its first token.
#[derive(Drop)]
pub struct Whole {
    pub line: u32,
    pub direct: Direct,
}
