ghost use Rattle.std.specs.Prelude.{◌≡◌, ◌<◌, ◌≤◌};
ghost use Rattle.sc_pp_condition.specs.Operators as spec;

/// An operator of `#if`, by its token (ANSI 3.3). `Plus` and `Minus` stand before one operand or between two.
#[derive(Clone, Copy, Debug, PartialEq, Eq)]
pub enum Operator {
    Complement,
    Not,
    LogicalOr,
    LogicalAnd,
    Or,
    Xor,
    And,
    Equal,
    NotEqual,
    Less,
    Greater,
    LessEqual,
    GreaterEqual,
    ShiftLeft,
    ShiftRight,
    Plus,
    Minus,
    Times,
    Divide,
    Remainder,
}

/// Whether it may stand before an operand.
pub(crate) fn is_prefix(op: Operator) -> bool
    ensures { result ≡ spec.is_prefix op }
{
    match op {
        Operator::Complement | Operator::Not | Operator::Plus | Operator::Minus => true,
        _ => false,
    }
}

/// How tightly it binds between two operands: 4 to 13; 1 where it stands before one alone.
pub(crate) fn level_of(op: Operator) -> u8
    ensures value { result ≡ spec.level_of op }
    ensures positive { 0 < result }
    ensures small { result ≤ 13 }
{
    match op {
        Operator::Complement | Operator::Not => 1,
        Operator::LogicalOr => 4,
        Operator::LogicalAnd => 5,
        Operator::Or => 6,
        Operator::Xor => 7,
        Operator::And => 8,
        Operator::Equal | Operator::NotEqual => 9,
        Operator::Less | Operator::Greater | Operator::LessEqual | Operator::GreaterEqual => 10,
        Operator::ShiftLeft | Operator::ShiftRight => 11,
        Operator::Plus | Operator::Minus => 12,
        Operator::Times | Operator::Divide | Operator::Remainder => 13,
    }
}
