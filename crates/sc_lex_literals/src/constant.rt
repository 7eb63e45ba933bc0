// Digits, suffixes and simple escapes (ANSI 3.1.3.2, 3.1.3.4).
ghost use Rattle.std.specs.Prelude.{◌≡◌, ◌≤◌};
ghost use Rattle.sc_lex_literals.specs.Constants as spec;

/// What a digit counts, to 15; or 16.
pub fn digit_of(b: u8) -> u64
    ensures value { result ≡ spec.digit_of b }
    ensures small { result ≤ 16 }
{
    if 48 <= b && b <= 57 {
        b as u64 - 48
    } else if 97 <= b && b <= 102 {
        b as u64 - 87
    } else if 65 <= b && b <= 70 {
        b as u64 - 55
    } else {
        16
    }
}

/// All above 4294967295 is 4294967296.
pub fn capped(n: u64) -> u64
    ensures value { result ≡ spec.capped n }
    ensures small { result ≤ 4294967296 }
{
    if n > 4294967295 { 4294967296 } else { n }
}

/// The value of the digits of a base at the front, and the bytes behind.
pub fn digits(base: u64, text: &[u8]) -> (u64, &[u8])
    requires { base ≤ 16 }
    ensures value { (result.0, result.1.now) ≡ spec.digits base 0 text.now }
    ensures small { result.0 ≤ 4294967296 }
{
    let mut value = 0;
    let mut left = text;
    'digits: while let Some((b, rest)) = left.split_first() {
        let digit = digit_of(*b);
        if digit >= base {
            return (value, left);
        }
        value = capped(value * base + digit);
        left = rest;
    }
    (value, left)
}

fn is_u(b: u8) -> bool
    ensures { result ≡ spec.is_u b }
{
    b == b'u' || b == b'U'
}

fn is_l(b: u8) -> bool
    ensures { result ≡ spec.is_l b }
{
    b == b'l' || b == b'L'
}

/// Whether a suffix has `u` and whether it has `l`; `None` for what is no suffix (ANSI 3.1.3.2).
pub fn suffix(text: &[u8]) -> Option<(bool, bool)>
    ensures { result ≡ spec.suffix text.now }
{
    match text {
        [] => Some((false, false)),
        [a] => {
            if is_u(*a) {
                Some((true, false))
            } else if is_l(*a) {
                Some((false, true))
            } else {
                None
            }
        }
        [a, b] => {
            if (is_u(*a) && is_l(*b)) || (is_l(*a) && is_u(*b)) {
                Some((true, true))
            } else {
                None
            }
        }
        _ => None,
    }
}

/// Whether hexadecimal digits stand behind `0x`.
pub fn begins_hex(text: &[u8]) -> bool
    ensures { result ≡ spec.begins_hex text.now }
{
    match text {
        [a, b, c, ..] => *a == b'0' && (*b == b'x' || *b == b'X') && digit_of(*c) < 16,
        _ => false,
    }
}

/// What stands behind `0x`.
pub fn behind_two(text: &[u8]) -> &[u8]
    ensures { result.now ≡ spec.behind_two text.now }
{
    match text {
        [_, _, rest @ ..] => rest,
        _ => text,
    }
}

/// The byte of a simple escape, by the character behind the backslash (ANSI 3.1.3.4).
pub fn simple_escape(e: u8) -> Option<u8>
    ensures { result ≡ spec.simple e }
{
    match e {
        b'\'' => Some(39),
        b'"' => Some(34),
        b'?' => Some(63),
        b'\\' => Some(92),
        b'a' => Some(7),
        b'b' => Some(8),
        b'f' => Some(12),
        b'n' => Some(10),
        b'r' => Some(13),
        b't' => Some(9),
        b'v' => Some(11),
        _ => None,
    }
}
