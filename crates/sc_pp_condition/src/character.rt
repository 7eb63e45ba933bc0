// The character constants of `#if` (ANSI 3.1.3.4).
ghost use Rattle.std.specs.Prelude.{◌≡◌, ◌≤◌, None, if◌then◌else◌};
ghost use Rattle.sc_lex_literals.specs.Constants as lit;
ghost use Rattle.sc_pp_condition.specs.Constants as spec;

use crate::number::Value;
use sc_lex_literals::{digit_of, digits, simple_escape};

fn is_quote(text: &[u8]) -> bool
    ensures { result ≡ spec.is_quote text.now }
{
    match text {
        [q] => *q == b'\'',
        _ => false,
    }
}

fn numbered(base: u64, text: &[u8]) -> Option<u8>
    requires { base ≤ 16 }
    ensures { result ≡ spec.numbered (lit.digits base 0 text.now) }
{
    let (value, rest) = digits(base, text);
    if is_quote(rest) && value <= 255 {
        Some(value as u8)
    } else {
        None
    }
}

fn begins_digit(text: &[u8]) -> bool
    ensures { result ≡ spec.begins_digit text.now }
{
    match text {
        [] => false,
        [b, ..] => digit_of(*b) < 16,
    }
}

fn hexadecimal(text: &[u8]) -> Option<u8>
    ensures { result ≡ (if spec.begins_digit text.now then spec.numbered (lit.digits 16 0 text.now) else None) }
{
    if begins_digit(text) {
        numbered(16, text)
    } else {
        None
    }
}

fn escaped(text: &[u8]) -> Option<u8>
    ensures { result ≡ spec.escaped text.now }
{
    match text {
        [] => None,
        [e, rest @ ..] => {
            if *e == b'x' {
                hexadecimal(rest)
            } else if digit_of(*e) < 8 {
                if rest.len() <= 3 {
                    numbered(8, text)
                } else {
                    None
                }
            } else if is_quote(rest) {
                simple_escape(*e)
            } else {
                None
            }
        }
    }
}

fn character(b: u8, text: &[u8]) -> Option<u8>
    ensures { result ≡ spec.character b text.now }
{
    if b == b'\\' {
        escaped(text)
    } else if is_quote(text) {
        Some(b)
    } else {
        None
    }
}

fn signed(n: Option<u8>) -> Option<Value>
    ensures { result ≡ spec.signed n }
{
    match n {
        Some(n) => Some(Value {
            bits: n as u32,
            is_unsigned: false,
        }),
        None => None,
    }
}

/// What a character constant with its quotes is worth in `#if`; `None` where it has not one character, or a bad escape.
pub fn character_value(text: &[u8]) -> Option<Value>
    ensures { result ≡ spec.character_value text.now }
{
    match text {
        [_, b, rest @ ..] => signed(character(*b, rest)),
        _ => None,
    }
}
