// The operators of expressions (ANSI 3.3).

/// An operator on scalars. `Truth` is the test of a controlling expression, `Not` is `~`.
#[derive(Clone, Copy, Debug, PartialEq, Eq)]
pub enum Op {
    Add,
    Sub,
    Mul,
    Div,
    Rem,
    Shl,
    Shr,
    And,
    Or,
    Xor,
    Lt,
    Gt,
    Le,
    Ge,
    Eq,
    Ne,
    Neg,
    Not,
    Truth,
    Inc,
    Dec,
}
