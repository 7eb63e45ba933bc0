// What the bytes of a preprocessing token are read to, one byte at a time (ANSI 3.1).
ghost use Rattle.std.specs.Prelude.{◌≡◌};
ghost use Rattle.sc_lex.specs.Automaton as spec;

use crate::TokenKind;

/// What has been read of a token.
#[derive(Clone, Copy, Debug, PartialEq, Eq)]
pub(crate) enum State {
    Start,
    Name,
    Number,
    /// A number whose last byte is `e` or `E`, so that a sign goes on with it.
    Exponent,
    Dot,
    TwoDots,
    /// Inside a string literal.
    Str,
    /// A string literal after a backslash.
    StrEscape,
    /// A character constant of which only the quote was read.
    Quote,
    /// Inside a character constant.
    Char,
    /// A character constant after a backslash.
    CharEscape,
    /// A whole string literal.
    StrEnd,
    /// A whole character constant.
    CharEnd,
    /// `+`, `-`, `&` or `|`, which may be doubled or stand before `=`.
    Twice(u8),
    /// `<` or `>`.
    Angle(u8),
    Hash,
    /// A punctuator that may stand before `=`, as `*` or `<<`.
    Single,
    /// A punctuator with which nothing goes on.
    Last,
    /// No token begins so.
    Dead,
}

fn starts_name(b: u8) -> bool
    ensures { result ≡ spec.starts_name b }
{
    (97 <= b && b <= 122) || (65 <= b && b <= 90) || b == b'_'
}

fn is_digit(b: u8) -> bool
    ensures { result ≡ spec.is_digit b }
{
    48 <= b && b <= 57
}

fn is_doubled(b: u8) -> bool
    ensures { result ≡ spec.is_doubled b }
{
    b == b'+' || b == b'-' || b == b'&' || b == b'|'
}

fn takes_equals(b: u8) -> bool
    ensures { result ≡ spec.takes_equals b }
{
    b == b'*' || b == b'/' || b == b'%' || b == b'^' || b == b'=' || b == b'!'
}

fn is_bracket(b: u8) -> bool
    ensures { result ≡ spec.is_bracket b }
{
    b == b'[' || b == b']' || b == b'(' || b == b')' || b == b'{' || b == b'}'
}

fn stands_alone(b: u8) -> bool
    ensures { result ≡ spec.stands_alone b }
{
    is_bracket(b) || b == b'~' || b == b'?' || b == b':' || b == b',' || b == b';'
}

fn first_punctuator(b: u8) -> State
    ensures { result ≡ spec.first_punctuator b }
{
    if is_doubled(b) {
        State::Twice(b)
    } else if b == b'<' || b == b'>' {
        State::Angle(b)
    } else if b == b'#' {
        State::Hash
    } else if takes_equals(b) {
        State::Single
    } else if stands_alone(b) {
        State::Last
    } else {
        State::Dead
    }
}

fn first(b: u8) -> State
    ensures { result ≡ spec.first b }
{
    if starts_name(b) {
        State::Name
    } else if is_digit(b) {
        State::Number
    } else if b == b'.' {
        State::Dot
    } else if b == b'"' {
        State::Str
    } else if b == b'\'' {
        State::Quote
    } else {
        first_punctuator(b)
    }
}

fn in_number(b: u8) -> State
    ensures { result ≡ spec.in_number b }
{
    if b == b'e' || b == b'E' {
        State::Exponent
    } else if starts_name(b) || is_digit(b) || b == b'.' {
        State::Number
    } else {
        State::Dead
    }
}

fn in_string(b: u8) -> State
    ensures { result ≡ spec.in_string b }
{
    if b == b'"' {
        State::StrEnd
    } else if b == b'\\' {
        State::StrEscape
    } else if b == b'\n' {
        State::Dead
    } else {
        State::Str
    }
}

fn in_char(b: u8) -> State
    ensures { result ≡ spec.in_char b }
{
    if b == b'\\' {
        State::CharEscape
    } else if b == b'\n' {
        State::Dead
    } else {
        State::Char
    }
}

/// What is read after one more byte.
pub(crate) fn step(state: State, b: u8) -> State
    ensures { result ≡ spec.step state b }
{
    match state {
        State::Start => first(b),
        State::Name => {
            if starts_name(b) || is_digit(b) {
                State::Name
            } else {
                State::Dead
            }
        }
        State::Number => in_number(b),
        State::Exponent => {
            if b == b'+' || b == b'-' {
                State::Number
            } else {
                in_number(b)
            }
        }
        State::Dot => after_dot(b),
        State::TwoDots => { if b == b'.' { State::Last } else { State::Dead } }
        State::Str => in_string(b),
        State::StrEscape => { if b == b'\n' { State::Dead } else { State::Str } }
        State::Quote => { if b == b'\'' { State::Dead } else { in_char(b) } }
        State::Char => {
            if b == b'\'' {
                State::CharEnd
            } else {
                in_char(b)
            }
        }
        State::CharEscape => { if b == b'\n' { State::Dead } else { State::Char } }
        State::Twice(a) => after_doubled(a, b),
        State::Angle(a) => after_angle(a, b),
        State::Hash => { if b == b'#' { State::Last } else { State::Dead } }
        State::Single => { if b == b'=' { State::Last } else { State::Dead } }
        State::StrEnd | State::CharEnd | State::Last | State::Dead => State::Dead,
    }
}

fn after_dot(b: u8) -> State
    ensures { result ≡ spec.after_dot b }
{
    if is_digit(b) {
        State::Number
    } else if b == b'.' {
        State::TwoDots
    } else {
        State::Dead
    }
}

fn after_doubled(a: u8, b: u8) -> State
    ensures { result ≡ spec.after_doubled a b }
{
    if b == a || b == b'=' || (a == b'-' && b == b'>') {
        State::Last
    } else {
        State::Dead
    }
}

fn after_angle(a: u8, b: u8) -> State
    ensures { result ≡ spec.after_angle a b }
{
    if b == a {
        State::Single
    } else if b == b'=' {
        State::Last
    } else {
        State::Dead
    }
}

/// The kind of a token that ends here, where one does.
pub(crate) fn kind_of(state: State) -> Option<TokenKind>
    ensures { result ≡ spec.kind_of state }
{
    match state {
        State::Name => Some(TokenKind::Name),
        State::Number | State::Exponent => Some(TokenKind::Number),
        State::StrEnd => Some(TokenKind::Str),
        State::CharEnd => Some(TokenKind::Char),
        State::Dot
        | State::Twice(_)
        | State::Angle(_)
        | State::Hash
        | State::Single
        | State::Last => { Some(TokenKind::Punct) }
        _ => None,
    }
}

pub(crate) fn is_dead(state: State) -> bool
    ensures { result ≡ spec.is_dead state }
{
    match state {
        State::Dead => true,
        _ => false,
    }
}

/// The kind of these bytes where they are one name, preprocessing number, character constant, string literal or
/// punctuator, and no byte more (ANSI 3.1). A byte that is none of these, and a line's end, have no kind here.
pub fn token_kind(text: &[u8]) -> Option<TokenKind>
    ensures { result ≡ spec.token_kind text.now }
{
    let mut state = State::Start;
    for b in text {
        state = step(state, *b);
    }
    kind_of(state)
}
