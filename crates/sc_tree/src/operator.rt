// The operators as they are written.

/// An operator before its operand (ANSI 3.3.3): `++ -- & * + - ~ !`.
#[derive(Clone, Copy, Debug, PartialEq, Eq)]
pub enum Unary {
    Increment,
    Decrement,
    Address,
    Indirection,
    Plus,
    Minus,
    Complement,
    Not,
}

/// `++` and `--` behind an operand (ANSI 3.3.2.4).
#[derive(Clone, Copy, Debug, PartialEq, Eq)]
pub enum Postfix {
    Increment,
    Decrement,
}

/// An operator between two operands (ANSI 3.3.5 to 3.3.14), without assignments and the comma.
#[derive(Clone, Copy, Debug, PartialEq, Eq)]
pub enum Binary {
    LogicalOr,
    LogicalAnd,
    Or,
    Xor,
    And,
    Equal,
    NotEqual,
    Less,
    Greater,
    LessEqual,
    GreaterEqual,
    ShiftLeft,
    ShiftRight,
    Add,
    Subtract,
    Multiply,
    Divide,
    Remainder,
}
