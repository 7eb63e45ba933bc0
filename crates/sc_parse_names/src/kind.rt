// What a token is to the grammar.

use sc_base::Bytes;
use sc_tree::{Binary, Constant, Storage};

/// A construct of the language that is left out.
#[derive(Clone, Copy, Debug, PartialEq, Eq)]
pub enum Mark {
    /// `float` and `double`.
    Float,
    Volatile,
    /// `...`.
    Variadic,
    /// A second `long`.
    LongLong,
    /// `L` before a string or a character.
    Wide,
    /// A constant of more than one character.
    MultiChar,
    /// The `:` of a member.
    BitField,
    /// A list of names as parameters.
    OldStyle,
    /// A declaration without a type word.
    ImplicitInt,
}

/// What a token is to the grammar (ANSI 3.1).
#[derive(Clone, Copy, Debug, PartialEq, Eq)]
pub enum Kind {
    /// A name that is no keyword.
    Name,
    /// A number or character; `None` where no type holds the value.
    Constant(Option<Constant>),
    /// A string, and whether each of its escapes is a byte.
    Text(bool),
    LeftParen,
    RightParen,
    LeftBracket,
    RightBracket,
    LeftBrace,
    RightBrace,
    Comma,
    Semicolon,
    Question,
    Colon,
    Dot,
    Arrow,
    Increment,
    Decrement,
    Ampersand,
    Star,
    Plus,
    Minus,
    Tilde,
    Exclamation,
    /// An operator that stands only between two operands.
    Operator(Binary),
    /// `=` or, with the operator, a compound assignment.
    Assign(Option<Binary>),
    Sizeof,
    Storage(Storage),
    Const,
    Void,
    Char,
    Short,
    Int,
    Long,
    Signed,
    Unsigned,
    /// `struct`, or `union` where it is true.
    Struct(bool),
    Enum,
    Break,
    Case,
    Continue,
    Default,
    Do,
    Else,
    For,
    Goto,
    If,
    Return,
    Switch,
    While,
    /// A token of a construct that is left out.
    LeftOut(Mark),
    /// Anything else.
    Other,
    /// What stands behind the last token.
    End,
}

/// A token to the grammar: its kind, the bytes of a name or string, and its line.
#[derive(Drop)]
pub struct Symbol {
    pub kind: Kind,
    pub text: Bytes,
    pub line: u32,
}
