// The constants of `#if` (ANSI 3.1.3.2, 3.8.1).
ghost use Rattle.std.specs.Prelude.{◌≡◌, ◌≤◌};
ghost use Rattle.sc_lex_literals.specs.Constants as lit;
ghost use Rattle.sc_pp_condition.specs.Constants as spec;

use crate::number::Value;
use sc_lex_literals::{begins_hex, behind_two, digit_of, digits, suffix};

fn typed(value: u64, suffix: Option<(bool, bool)>) -> Option<Value>
    ensures { result ≡ spec.typed value suffix }
{
    match suffix {
        Some((u, _)) => {
            if value > 4294967295 {
                return None;
            }
            Some(Value {
                bits: value as u32,
                is_unsigned: u || value > 2147483647,
            })
        }
        None => None,
    }
}

fn in_base(base: u64, text: &[u8]) -> Option<Value>
    requires { base ≤ 16 }
    ensures { result ≡ spec.ended (lit.digits base 0 text.now) }
{
    let (value, rest) = digits(base, text);
    typed(value, suffix(rest))
}

fn plain(text: &[u8]) -> Option<Value>
    ensures { result ≡ spec.plain text.now }
{
    match text {
        [] => None,
        [a, ..] => {
            if *a == b'0' {
                in_base(8, text)
            } else if digit_of(*a) < 10 {
                in_base(10, text)
            } else {
                None
            }
        }
    }
}

/// What an integer constant is worth in `#if`; `None` where the bytes are none, or it is above 4294967295.
pub fn number_value(text: &[u8]) -> Option<Value>
    ensures { result ≡ spec.number_value text.now }
{
    if begins_hex(text) {
        in_base(16, behind_two(text))
    } else {
        plain(text)
    }
}
