// Reads a format piece by piece (ANSI 4.9.6.1).
ghost use Rattle.std.specs.Prelude.{◌≡◌, ℕ, ◌+◌, ◌≤◌, ◌<◌, Bool, not, ◌==◌, length, drop, take, take_while};
ghost use Rattle.std.specs.List.{prefix_len, AllPass};
ghost use Rattle.sc_fmt.specs.Format.{first, is_flag, is_digit, is_kind, has, capped, count_len, count_at, precision_len, precision_at, modifier_len, conversion_of, piece_of};

use crate::{Conv, Count, Piece};

/// The piece of a format that begins at a place: text up to the next `%`, a conversion, the end, or a `%` that begins
/// no conversion. A conversion is `%`, any number of the flags `- + space # 0`, a width (digits or `*`), a precision
/// (a period and digits or `*`, 0 where they are left out), an `h` or an `l`, and one of `d i o u x X c s %`.
pub fn piece(format: &[u8], at: usize) -> Piece
    requires { at ≤ length format.now }
    ensures { result ≡ piece_of (drop at format.now) }
{
    let (_, rest) = format.split_at(at);
    match rest.first() {
        None => Piece::End,
        Some(b'%') => conversion(rest),
        Some(_) => Piece::Text(text_len(rest)),
    }
}

// How many bytes stand before the next `%`.
fn text_len(rest: &[u8]) -> usize
    ensures { result ≡ prefix_len (λ b. not (b == 37)) rest.now }
{
    rest.iter().take_while(|b| **b != b'%').count()
}

// How many flags stand at the front.
fn flags_len(rest: &[u8]) -> usize
    ensures len { result ≡ prefix_len is_flag rest.now }
    ensures within { result ≤ length rest.now }
{
    rest.iter().take_while(|c| is_flag(**c)).count()
}

// How many digits stand at the front.
fn digits_len(rest: &[u8]) -> usize
    ensures len { result ≡ prefix_len is_digit rest.now }
    ensures within { result ≤ length rest.now }
{
    rest.iter().take_while(|c| is_digit(**c)).count()
}

// The conversion that begins with a `%`.
fn conversion(from: &[u8]) -> Piece
    requires { 0 < length from.now }
    ensures { result ≡ conversion_of from.now }
{
    let (_, rest) = from.split_at(1);
    let (flags, rest) = split_flags(rest);
    let (width, rest) = split_count(rest);
    let (precision, rest) = split_precision(rest);
    let (half, rest) = split_modifier(rest);
    match rest.first() {
        Some(kind) if is_kind(*kind) => {
            let conv = Conv {
                minus: flags.contains(&b'-'),
                plus: flags.contains(&b'+'),
                space: flags.contains(&b' '),
                alt: flags.contains(&b'#'),
                zero: flags.contains(&b'0'),
                width,
                precision,
                half,
                kind: *kind,
            };
            Piece::Conv(conv, from.len() - (rest.len() - 1))
        }
        _ => Piece::Wrong,
    }
}

// The flags, and what follows them.
fn split_flags(rest: &[u8]) -> (&[u8], &[u8])
    ensures flags { result.0.now ≡ take_while is_flag rest.now }
    ensures rest { result.1.now ≡ drop (prefix_len is_flag rest.now) rest.now }
{
    rest.split_at(flags_len(rest))
}

// A `*` or a number, where one stands, and what follows it.
fn split_count(rest: &[u8]) -> (Option<Count>, &[u8])
    ensures count { result.0 ≡ count_at rest.now }
    ensures rest { result.1.now ≡ drop (count_len rest.now) rest.now }
{
    if rest.first() == Some(&b'*') {
        return (Some(Count::Star), rest.split_at(1).1);
    }
    let (digits, rest) = split_digits(rest);
    if digits.is_empty() {
        (None, rest)
    } else {
        (Some(Count::Fixed(capped(digits))), rest)
    }
}

// The digits, and what follows them.
fn split_digits(rest: &[u8]) -> (&[u8], &[u8])
    ensures digits { result.0.now ≡ take_while is_digit rest.now }
    ensures rest { result.1.now ≡ drop (prefix_len is_digit rest.now) rest.now }
{
    rest.split_at(digits_len(rest))
}

// The number that digits stand for, or the greatest one of 32 bits.
fn capped(digits: &[u8]) -> u32
    requires { AllPass is_digit digits.now }
    ensures { result ≡ capped digits.now }
{
    let mut n: u32 = 0;
    for c in digits {
        n = n.saturating_mul(10).saturating_add(u32::from(*c - b'0'));
    }
    n
}

// A period and a count, and what follows them.
fn split_precision(rest: &[u8]) -> (Option<Count>, &[u8])
    ensures count { result.0 ≡ precision_at rest.now }
    ensures rest { result.1.now ≡ drop (precision_len rest.now) rest.now }
{
    if rest.first() != Some(&b'.') {
        return (None, rest);
    }
    let (count, rest) = split_count(rest.split_at(1).1);
    (Some(count.unwrap_or(Count::Fixed(0))), rest)
}

// Whether an `h` stands there, and what follows an `h` or an `l`.
fn split_modifier(rest: &[u8]) -> (bool, &[u8])
    ensures half { result.0 ≡ (first rest.now == 104) }
    ensures rest { result.1.now ≡ drop (modifier_len rest.now) rest.now }
{
    match rest.first() {
        Some(b'h') => (true, rest.split_at(1).1),
        Some(b'l') => (false, rest.split_at(1).1),
        _ => (false, rest),
    }
}

fn is_flag(c: u8) -> bool
    ensures { result ≡ is_flag c }
{
    matches!(c, b'-' | b'+' | b' ' | b'#' | b'0')
}

fn is_digit(c: u8) -> bool
    ensures { result ≡ is_digit c }
{
    matches!(c, b'0'..=b'9')
}

fn is_kind(c: u8) -> bool
    ensures { result ≡ is_kind c }
{
    matches!(
        c,
        b'd' | b'i' | b'o' | b'u' | b'x' | b'X' | b'c' | b's' | b'%'
    )
}
