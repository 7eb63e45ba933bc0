// The numbers of `#if` (ANSI 3.8.1, 3.3.5 to 3.3.9), all `long` or `unsigned long` of 32 bits.
ghost use Rattle.std.specs.Prelude.{◌≡◌, ◌≤◌, ◌<◌};
ghost use Rattle.sc_pp_condition.specs.Numbers as spec;

/// A number of 32 bits, in two's complement where it is signed.
#[derive(Clone, Copy, Debug, PartialEq, Eq)]
pub struct Value {
    pub bits: u32,
    pub is_unsigned: bool,
}

fn is_negative(a: u32) -> bool
    ensures { result ≡ spec.is_negative a }
{
    2147483648 <= a
}

pub(crate) fn minus(a: u32) -> u32
    ensures { result ≡ spec.minus a }
{
    if a == 0 { 0 } else { u32::MAX - a + 1 }
}

fn magnitude(a: u32) -> u32
    ensures { result ≡ spec.magnitude a }
{
    if is_negative(a) { minus(a) } else { a }
}

fn with_sign(is_negative: bool, a: u32) -> u32
    ensures { result ≡ spec.with_sign is_negative a }
{
    if is_negative { minus(a) } else { a }
}

pub(crate) fn sum(a: u32, b: u32) -> u32
    ensures { result ≡ spec.sum a b }
{
    ((a as u64 + b as u64) % 4294967296) as u32
}

pub(crate) fn difference(a: u32, b: u32) -> u32
    ensures { result ≡ spec.difference a b }
{
    ((a as u64 + 4294967296 - b as u64) % 4294967296) as u32
}

pub(crate) fn product(a: u32, b: u32) -> u32
    ensures { result ≡ spec.product a b }
{
    a.wrapping_mul(b)
}

/// The quotient, towards zero. The divisor is not zero.
pub(crate) fn quotient(is_unsigned: bool, a: u32, b: u32) -> u32
    ensures { result ≡ spec.quotient is_unsigned a b }
{
    if b == 0 {
        0
    } else if is_unsigned {
        a / b
    } else {
        signed_quotient(a, b)
    }
}

fn signed_quotient(a: u32, b: u32) -> u32
    requires { 0 < b }
    ensures { result ≡ spec.signed_quotient a b }
{
    let size = magnitude(a) / magnitude(b);
    with_sign(is_negative(a) != is_negative(b), size)
}

/// The remainder, with the sign of the dividend. The divisor is not zero.
pub(crate) fn remainder(is_unsigned: bool, a: u32, b: u32) -> u32
    ensures { result ≡ spec.remainder is_unsigned a b }
{
    if b == 0 {
        0
    } else if is_unsigned {
        a % b
    } else {
        signed_remainder(a, b)
    }
}

fn signed_remainder(a: u32, b: u32) -> u32
    requires { 0 < b }
    ensures { result ≡ spec.signed_remainder a b }
{
    let size = magnitude(a) % magnitude(b);
    with_sign(is_negative(a), size)
}

pub(crate) fn is_less(is_unsigned: bool, a: u32, b: u32) -> bool
    ensures { result ≡ spec.is_less is_unsigned a b }
{
    if is_unsigned || is_negative(a) == is_negative(b) {
        a < b
    } else {
        is_negative(a)
    }
}

/// Shifts left by the low five bits of the count.
pub(crate) fn shifted_left(a: u32, count: u32) -> u32
    ensures { result ≡ spec.shifted_left a count }
{
    let wide = (a as u64) << (count % 32);
    (wide % 4294967296) as u32
}

/// Shifts right by the low five bits of the count, and keeps the sign of what is signed.
pub(crate) fn shifted_right(is_unsigned: bool, a: u32, count: u32) -> u32
    ensures { result ≡ spec.shifted_right is_unsigned a count }
{
    let count = count % 32;
    if is_unsigned || !is_negative(a) {
        a >> count
    } else {
        u32::MAX - ((u32::MAX - a) >> count)
    }
}
