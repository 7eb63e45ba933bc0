// Punctuators (ANSI 3.1.6).
ghost use Rattle.std.specs.Prelude.{◌≡◌};
ghost use Rattle.sc_parse_tokens.specs.Words as spec;

use sc_parse_names::{Kind, Mark};
use sc_tree::Binary;

fn one_byte(a: u8) -> Kind
    ensures { result ≡ spec.one_byte a }
{
    match a {
        b'(' => Kind::LeftParen,
        b')' => Kind::RightParen,
        b'[' => Kind::LeftBracket,
        b']' => Kind::RightBracket,
        b'{' => Kind::LeftBrace,
        b'}' => Kind::RightBrace,
        b',' => Kind::Comma,
        b';' => Kind::Semicolon,
        b'?' => Kind::Question,
        b':' => Kind::Colon,
        b'.' => Kind::Dot,
        b'&' => Kind::Ampersand,
        b'*' => Kind::Star,
        b'+' => Kind::Plus,
        b'-' => Kind::Minus,
        b'~' => Kind::Tilde,
        b'!' => Kind::Exclamation,
        b'=' => Kind::Assign(None),
        b'|' => Kind::Operator(Binary::Or),
        b'^' => Kind::Operator(Binary::Xor),
        b'<' => Kind::Operator(Binary::Less),
        b'>' => Kind::Operator(Binary::Greater),
        b'/' => Kind::Operator(Binary::Divide),
        b'%' => Kind::Operator(Binary::Remainder),
        _ => Kind::Other,
    }
}

/// An operator of one byte before `=`.
fn assigns(a: u8) -> Kind
    ensures { result ≡ spec.assigns a }
{
    match a {
        b'*' => Kind::Assign(Some(Binary::Multiply)),
        b'/' => Kind::Assign(Some(Binary::Divide)),
        b'%' => Kind::Assign(Some(Binary::Remainder)),
        b'+' => Kind::Assign(Some(Binary::Add)),
        b'-' => Kind::Assign(Some(Binary::Subtract)),
        b'&' => Kind::Assign(Some(Binary::And)),
        b'^' => Kind::Assign(Some(Binary::Xor)),
        b'|' => Kind::Assign(Some(Binary::Or)),
        b'<' => Kind::Operator(Binary::LessEqual),
        b'>' => Kind::Operator(Binary::GreaterEqual),
        b'=' => Kind::Operator(Binary::Equal),
        b'!' => Kind::Operator(Binary::NotEqual),
        _ => Kind::Other,
    }
}

/// A byte twice.
fn doubled(a: u8) -> Kind
    ensures { result ≡ spec.doubled a }
{
    match a {
        b'+' => Kind::Increment,
        b'-' => Kind::Decrement,
        b'|' => Kind::Operator(Binary::LogicalOr),
        b'&' => Kind::Operator(Binary::LogicalAnd),
        b'<' => Kind::Operator(Binary::ShiftLeft),
        b'>' => Kind::Operator(Binary::ShiftRight),
        _ => Kind::Other,
    }
}

fn two_bytes(a: u8, b: u8) -> Kind
    ensures { result ≡ spec.two_bytes a b }
{
    if b == b'=' {
        assigns(a)
    } else if a == b {
        doubled(a)
    } else if a == b'-' && b == b'>' {
        Kind::Arrow
    } else {
        Kind::Other
    }
}

fn three_bytes(text: &[u8]) -> Kind
    ensures { result ≡ spec.three_bytes text.now }
{
    if text == b"...".as_slice() {
        Kind::LeftOut(Mark::Variadic)
    } else if text == b"<<=".as_slice() {
        Kind::Assign(Some(Binary::ShiftLeft))
    } else if text == b">>=".as_slice() {
        Kind::Assign(Some(Binary::ShiftRight))
    } else {
        Kind::Other
    }
}

/// What a punctuator is (ANSI 3.1.6).
pub fn punctuator(text: &[u8]) -> Kind
    ensures { result ≡ spec.punctuator text.now }
{
    match text {
        [a] => one_byte(*a),
        [a, b] => two_bytes(*a, *b),
        _ => three_bytes(text),
    }
}
