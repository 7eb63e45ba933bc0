// The classes of tokens.
ghost use Rattle.std.specs.Prelude.{◌≡◌, ◌≤◌, ◌<◌};
ghost use Rattle.sc_parse_grammar.specs.Kinds as spec;

use sc_parse_names::Kind;
use sc_tree::{Binary, Postfix, TypeWord, Unary};

/// The operator before an operand that the token is (ANSI 3.3.3).
pub fn unary_of(kind: Kind) -> Option<Unary>
    ensures { result ≡ spec.unary_of kind }
{
    match kind {
        Kind::Increment => Some(Unary::Increment),
        Kind::Decrement => Some(Unary::Decrement),
        Kind::Ampersand => Some(Unary::Address),
        Kind::Star => Some(Unary::Indirection),
        Kind::Plus => Some(Unary::Plus),
        Kind::Minus => Some(Unary::Minus),
        Kind::Tilde => Some(Unary::Complement),
        Kind::Exclamation => Some(Unary::Not),
        _ => None,
    }
}

/// The level that the operand of the operator has at least.
pub fn operand_of(op: Unary) -> u8
    ensures { result ≡ spec.operand_of op }
{
    match op {
        Unary::Increment | Unary::Decrement => 15,
        _ => 14,
    }
}

/// The operator behind an operand that the token is (ANSI 3.3.2.4).
pub fn postfix_of(kind: Kind) -> Option<Postfix>
    ensures { result ≡ spec.postfix_of kind }
{
    match kind {
        Kind::Increment => Some(Postfix::Increment),
        Kind::Decrement => Some(Postfix::Decrement),
        _ => None,
    }
}

/// The operator between two operands that the token is (ANSI 3.3.5 to 3.3.14).
pub fn binary_of(kind: Kind) -> Option<Binary>
    ensures { result ≡ spec.binary_of kind }
{
    match kind {
        Kind::Operator(op) => Some(op),
        Kind::Ampersand => Some(Binary::And),
        Kind::Star => Some(Binary::Multiply),
        Kind::Plus => Some(Binary::Add),
        Kind::Minus => Some(Binary::Subtract),
        _ => None,
    }
}

/// How tightly the operator binds: from 4 for `||` to 13 for `*`.
pub fn level_of(op: Binary) -> u8
    ensures level { result ≡ spec.level_of op }
    ensures low { 4 ≤ result }
    ensures high { result ≤ 13 }
{
    match op {
        Binary::LogicalOr => 4,
        Binary::LogicalAnd => 5,
        Binary::Or => 6,
        Binary::Xor => 7,
        Binary::And => 8,
        Binary::Equal | Binary::NotEqual => 9,
        Binary::Less | Binary::Greater | Binary::LessEqual | Binary::GreaterEqual => 10,
        Binary::ShiftLeft | Binary::ShiftRight => 11,
        Binary::Add | Binary::Subtract => 12,
        Binary::Multiply | Binary::Divide | Binary::Remainder => 13,
    }
}

/// The type word that the token is, where one token is enough (ANSI 3.5.2).
pub fn word_of(kind: Kind) -> Option<TypeWord>
    ensures { result ≡ spec.word_of kind }
{
    match kind {
        Kind::Void => Some(TypeWord::Void),
        Kind::Char => Some(TypeWord::Char),
        Kind::Short => Some(TypeWord::Short),
        Kind::Int => Some(TypeWord::Int),
        Kind::Long => Some(TypeWord::Long),
        Kind::Signed => Some(TypeWord::Signed),
        Kind::Unsigned => Some(TypeWord::Unsigned),
        _ => None,
    }
}

/// The level that what stands before the token has at least, so that the token goes on with it.
pub fn power_of(kind: Kind) -> u8
    ensures power { result ≡ spec.power_of kind }
    ensures positive { 0 < result }
{
    match kind {
        Kind::Text(_) => 19,
        Kind::LeftBracket | Kind::LeftParen | Kind::Dot | Kind::Arrow => 16,
        Kind::Increment | Kind::Decrement => 16,
        Kind::Assign(_) => 14,
        Kind::Question => 4,
        other => match binary_of(other) {
            Some(op) => level_of(op),
            None => 1,
        },
    }
}

/// Whether a type name begins with the token; `typed` says whether a name is that of a type.
pub fn begins_type(typed: bool, kind: Kind) -> bool
    ensures { result ≡ spec.begins_type typed kind }
{
    match kind {
        Kind::Name => typed,
        Kind::Void | Kind::Char | Kind::Short | Kind::Int | Kind::Long => true,
        Kind::Signed | Kind::Unsigned | Kind::Const | Kind::Struct(_) | Kind::Enum => true,
        _ => false,
    }
}

/// Whether specifiers begin with the token; `typed` says whether a name is that of a type.
pub fn begins_specifiers(typed: bool, kind: Kind) -> bool
    ensures { result ≡ spec.begins_specifiers typed kind }
{
    match kind {
        Kind::Storage(_) => true,
        other => begins_type(typed, other),
    }
}

/// Whether parameters begin, or end, with the token behind `(`.
pub fn begins_parameters(typed: bool, kind: Kind) -> bool
    ensures { result ≡ spec.begins_parameters typed kind }
{
    match kind {
        Kind::RightParen => true,
        other => begins_specifiers(typed, other),
    }
}
