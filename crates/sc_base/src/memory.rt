// What memory holds, and what lives in it.

/// A number of 32 bits with the tag of what it points to: 0 for a number and null, `Word::FUNCTION` for a function
/// pointer, and the object's number for an object pointer.
#[derive(Clone, Copy, Debug, PartialEq, Eq)]
pub struct Word {
    pub bits: u32,
    pub tag: u32,
}

impl Word {
    /// The tag of a function pointer.
    pub const FUNCTION: u32 = 4294967295;
}

/// One byte of memory: never written, a byte of a number, or piece `k` of the pointer `whole`.
#[derive(Clone, Copy, Debug, PartialEq, Eq)]
pub enum Cell {
    Unwritten,
    Byte(u8),
    Frag { whole: u32, tag: u32, k: u8 },
}

/// How a module is run: interpreted, or as its object.
#[derive(Clone, Copy, Debug, PartialEq, Eq)]
pub enum Form {
    Source,
    Object,
}

/// What an object is (ANSI 3.1.2.4): of static storage, constant, a string literal, automatic, or allocated.
#[derive(Clone, Copy, Debug, PartialEq, Eq)]
pub enum Kind {
    Static,
    Const,
    Literal,
    Auto,
    Heap,
}
