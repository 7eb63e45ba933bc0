// The integer constants (ANSI 3.1.3.2).
ghost use Rattle.std.specs.Prelude.{◌≡◌, ◌≤◌};
ghost use Rattle.sc_lex_literals.specs.Constants as lit;
ghost use Rattle.sc_parse_tokens.specs.Numbers as spec;

use sc_base::Int;
use sc_lex_literals::{begins_hex, behind_two, digit_of, digits, suffix};
use sc_parse_names::Kind;
use sc_tree::Constant;

/// The first type that holds the value, of the list that its base and its suffix give.
fn type_of(decimal: bool, value: u64, u: bool, l: bool) -> Int
    ensures { result ≡ spec.type_of decimal value u l }
{
    let small = value <= 2147483647;
    match (u, l) {
        (true, true) => Int::ULong,
        (true, false) => Int::UInt,
        (false, true) => { if small { Int::Long } else { Int::ULong } }
        (false, false) => {
            if small {
                Int::Int
            } else if decimal {
                Int::ULong
            } else {
                Int::UInt
            }
        }
    }
}

fn constant(decimal: bool, value: u64, suffix: Option<(bool, bool)>) -> Kind
    ensures { result ≡ spec.constant decimal value suffix }
{
    match suffix {
        Some((u, l)) => {
            if value > 4294967295 {
                return Kind::Constant(None);
            }
            let of = type_of(decimal, value, u, l);
            Kind::Constant(Some(Constant {
                value: value as u32,
                of,
            }))
        }
        None => Kind::Other,
    }
}

fn in_base(decimal: bool, base: u64, text: &[u8]) -> Kind
    requires { base ≤ 16 }
    ensures { result ≡ spec.ended decimal (lit.digits base 0 text.now) }
{
    let (value, rest) = digits(base, text);
    constant(decimal, value, suffix(rest))
}

fn plain(text: &[u8]) -> Kind
    ensures { result ≡ spec.plain text.now }
{
    match text {
        [] => Kind::Other,
        [a, ..] => {
            if *a == b'0' {
                in_base(false, 8, text)
            } else if digit_of(*a) < 10 {
                in_base(true, 10, text)
            } else {
                Kind::Other
            }
        }
    }
}

/// What a preprocessing number is: a constant, or nothing to the grammar.
pub fn number(text: &[u8]) -> Kind
    ensures { result ≡ spec.number text.now }
{
    if begins_hex(text) {
        in_base(false, 16, behind_two(text))
    } else {
        plain(text)
    }
}
