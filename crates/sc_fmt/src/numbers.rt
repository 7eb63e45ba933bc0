// Writes a number as a conversion asks for (ANSI 4.9.6.1).
ghost use Rattle.std.specs.Prelude.{◌≡◌, ℕ, ◌+◌, ◌-◌, ◌^◌, ◌≤◌, ◌<◌, ◌++◌, ◌==◌, length, replicate, IfOk, OnOk, IsTrue, vec_len};
ghost use Rattle.sc_fmt.specs.Numbers.{is_number, number_or, is_signed, is_hexadecimal, base_of, taken, is_negative, magnitude, digit_char, digits_text, least_digits, body_text, prefix_text, field_text, number_text};

use crate::{Conv, Count};
use sc_base::{Bytes, NoMemory};
use std::alloc::Global;

/// The text that a conversion of a number writes for 32 bits: the number in its base with at least as many digits as
/// the precision says (1 where there is none; 0 has no digits of its own), after a sign or a prefix, in a field of the
/// width. With `h` the bits are first taken as a `short` or an `unsigned short`.
pub fn number(alloc: Global, p: &Conv, v: u32) -> Result<Bytes, NoMemory>
    requires { IsTrue (is_number p.now) }
    ensures { IfOk result (λ text. text ≡ number_text p.now v) }
{
    let body = body(alloc, p, magnitude(p, v))?;
    let text = field(alloc, p, prefix(p, v), body.as_slice())?;
    Ok(Bytes::from_vec(text))
}

// The number of a count, or another one where there is none.
fn number_or(count: Option<Count>, default: usize) -> usize
    ensures { result ≡ number_or default count }
{
    match count {
        Some(Count::Fixed(n)) => n as usize,
        Some(Count::Star) | None => default,
    }
}

fn is_signed(p: &Conv) -> bool
    ensures { result ≡ is_signed p.now }
{
    p.kind == b'd' || p.kind == b'i'
}

fn is_hexadecimal(p: &Conv) -> bool
    ensures { result ≡ is_hexadecimal p.now }
{
    p.kind == b'x' || p.kind == b'X'
}

fn base(p: &Conv) -> u32
    ensures base { result ≡ base_of p.now }
    ensures low { 8 ≤ result }
    ensures high { result ≤ 16 }
{
    if p.kind == b'o' {
        8
    } else if is_hexadecimal(p) {
        16
    } else {
        10
    }
}

// The bits that are converted.
fn taken(p: &Conv, v: u32) -> u32
    ensures { result ≡ taken p.now v }
{
    if p.half { v & 0xffff } else { v }
}

fn is_negative(p: &Conv, v: u32) -> bool
    ensures { result ≡ is_negative p.now v }
{
    let sign = if p.half { 0x8000 } else { 0x8000_0000 };
    is_signed(p) && sign <= taken(p, v)
}

// The number without its sign.
fn magnitude(p: &Conv, v: u32) -> u32
    ensures { result ≡ magnitude p.now v }
{
    let bits = taken(p, v);
    if !is_negative(p, v) {
        bits
    } else if p.half {
        0x1_0000 - bits
    } else {
        bits.wrapping_neg()
    }
}

fn digit(p: &Conv, d: u32) -> u8
    requires { d < 16 }
    ensures { result ≡ digit_char p.now d }
{
    let d = d as u8;
    if d < 10 {
        b'0' + d
    } else if p.kind == b'X' {
        b'A' - 10 + d
    } else {
        b'a' - 10 + d
    }
}

// The digits of a number without leading zeros.
fn digits(alloc: Global, p: &Conv, n: u32) -> Result<Vec<u8>, NoMemory>
    ensures { IfOk result (λ digits. digits.items ≡ digits_text p.now n) }
{
    let base = base(p);
    let mut digits = Vec::new(alloc);
    let mut rest = n;
    while rest > 0 {
        digits.push(digit(p, rest % base))?;
        rest /= base;
    }
    digits.reverse();
    Ok(digits)
}

// The least number of digits, for a number that has so many.
fn least_digits(p: &Conv, len: usize) -> usize
    requires { len < 2 ^ 63 }
    ensures { result ≡ least_digits p.now len }
{
    let least = number_or(p.precision, 1);
    if p.alt && p.kind == b'o' {
        least.max(len + 1)
    } else {
        least
    }
}

// The digits, with zeros in front as the precision asks for.
fn body(alloc: Global, p: &Conv, n: u32) -> Result<Vec<u8>, NoMemory>
    ensures { IfOk result (λ body. body.items ≡ body_text p.now n) }
{
    let digits = digits(alloc, p, n)?;
    let least = least_digits(p, digits.len());
    let mut body = Vec::new(alloc);
    fill(&mut body, b'0', least.saturating_sub(digits.len()))?;
    body.extend_from_slice(&digits)?;
    Ok(body)
}

// What stands before the digits.
fn prefix(p: &Conv, v: u32) -> &'static [u8]
    ensures { result.now ≡ prefix_text p.now v }
{
    if is_negative(p, v) {
        b"-"
    } else if is_signed(p) && p.plus {
        b"+"
    } else if is_signed(p) && p.space {
        b" "
    } else if is_hexadecimal(p) && p.alt && magnitude(p, v) != 0 {
        if p.kind == b'X' { b"0X" } else { b"0x" }
    } else {
        b""
    }
}

// The prefix and the digits in a field of the width.
fn field(alloc: Global, p: &Conv, prefix: &[u8], body: &[u8]) -> Result<Vec<u8>, NoMemory>
    ensures { IfOk result (λ text. text.items ≡ field_text p.now prefix.now body.now) }
{
    let gap = number_or(p.width, 0)
        .saturating_sub(prefix.len())
        .saturating_sub(body.len());
    if p.minus {
        laid_out(alloc, 0, prefix, 0, body, gap)
    } else if p.zero && p.precision.is_none() {
        laid_out(alloc, 0, prefix, gap, body, 0)
    } else {
        laid_out(alloc, gap, prefix, 0, body, 0)
    }
}

// Spaces, a prefix, zeros, digits and spaces.
fn laid_out(
    alloc: Global,
    before: usize,
    prefix: &[u8],
    zeros: usize,
    body: &[u8],
    after: usize,
) -> Result<Vec<u8>, NoMemory>
    ensures { IfOk result (λ text. text.items ≡ replicate before 32 ++ prefix.now ++ replicate zeros 48 ++ body.now ++ replicate after 32) }
{
    let mut text = Vec::new(alloc);
    fill(&mut text, b' ', before)?;
    text.extend_from_slice(prefix)?;
    fill(&mut text, b'0', zeros)?;
    text.extend_from_slice(body)?;
    fill(&mut text, b' ', after)?;
    Ok(text)
}

// Appends one byte many times.
fn fill(out: &mut Vec<u8>, byte: u8, n: usize) -> Result<(), NoMemory>
    ensures { OnOk result (out.new.items ≡ out.old.items ++ replicate n byte) }
{
    for _ in 0..n {
        out.push(byte)?;
    }
    Ok(())
}
