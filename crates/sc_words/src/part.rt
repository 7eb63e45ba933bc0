// What the words of a command may be: names, files and numbers.
ghost use Rattle.std.specs.Prelude.{◌≡◌, ◌<◌, ◌==◌, true, length, position, None, Some, IfOk, IfNone, IfSome};
ghost use Rattle.std.specs.List.{list_all};
ghost use Rattle.sc_words.specs.Parts.{is_letter, is_digit, is_name_byte, is_file_byte, is_module_name, is_identifier, is_file_name, is_numeral, number_of, parts_of};

use sc_base::{Name, NameFault, NoMemory};
use std::alloc::Global;

fn is_letter(b: u8) -> bool
    ensures { result ≡ is_letter b }
{
    (b'A' <= b && b <= b'Z') || (b'a' <= b && b <= b'z')
}

fn is_digit(b: u8) -> bool
    ensures { result ≡ is_digit b }
{
    b'0' <= b && b <= b'9'
}

fn is_name_byte(b: u8) -> bool
    ensures { result ≡ is_name_byte b }
{
    is_letter(b) || is_digit(b) || b == b'_'
}

fn is_file_byte(b: u8) -> bool
    ensures { result ≡ is_file_byte b }
{
    is_name_byte(b) || b == b'.' || b == b'-'
}

fn are_name_bytes(bytes: &[u8]) -> bool
    ensures { result ≡ list_all is_name_byte bytes.now }
{
    bytes.iter().all(|b| is_name_byte(*b))
}

fn are_file_bytes(bytes: &[u8]) -> bool
    ensures { result ≡ list_all is_file_byte bytes.now }
{
    bytes.iter().all(|b| is_file_byte(*b))
}

fn are_digits(bytes: &[u8]) -> bool
    ensures { result ≡ list_all is_digit bytes.now }
{
    bytes.iter().all(|b| is_digit(*b))
}

/// A letter, and up to 30 letters, digits or underscores.
pub fn is_module_name(name: &[u8]) -> bool
    ensures { result ≡ is_module_name name.now }
{
    match name.split_first() {
        Some((first, rest)) => is_letter(*first) && are_name_bytes(rest) && rest.len() <= 30,
        None => false,
    }
}

/// An identifier (ANSI 3.1.2) of at most 255 bytes.
pub fn is_identifier(name: &[u8]) -> bool
    ensures { result ≡ is_identifier name.now }
{
    match name.split_first() {
        Some((first, rest)) => {
            (is_letter(*first) || *first == b'_') && are_name_bytes(rest) && rest.len() <= 254
        }
        None => false,
    }
}

/// Up to 63 letters, digits, underscores, periods or hyphens, the first no period and no hyphen.
pub fn is_file_name(name: &[u8]) -> bool
    ensures { result ≡ is_file_name name.now }
{
    match name.split_first() {
        Some((first, rest)) => is_name_byte(*first) && are_file_bytes(rest) && rest.len() <= 62,
        None => false,
    }
}

/// One digit or more, at most so many.
pub fn is_numeral(most: usize, digits: &[u8]) -> bool
    ensures { result ≡ is_numeral most digits.now }
{
    are_digits(digits) && 1 <= digits.len() && digits.len() <= most
}

/// The number that the digits write, at most ten of them.
pub fn number_of(digits: &[u8]) -> u64
    requires { is_numeral 10 digits.now ≡ true }
    ensures { result ≡ number_of digits.now }
{
    let mut number = 0;
    for digit in digits {
        number = number * 10 + u64::from(*digit - b'0');
    }
    number
}

/// The number that the digits write, at most nine of them.
pub fn small_number_of(digits: &[u8]) -> u32
    requires { is_numeral 9 digits.now ≡ true }
    ensures { result ≡ number_of digits.now }
{
    number_of(digits) as u32
}

// Where the first colon stands.
fn colon_at(place: &[u8]) -> Option<usize>
    ensures at { result ≡ position (λ b. b == 58) place.now }
    ensures within { IfSome result (λ at. at < length place.now) }
{
    place.iter().position(|b| *b == b':')
}

/// What stands before the first colon, and what stands behind it.
pub fn parts_of<'a>(place: &'a [u8]) -> Option<(&'a [u8], &'a [u8])>
    ensures none { IfNone result (parts_of place.now ≡ None) }
    ensures some { IfSome result (λ parts. parts_of place.now ≡ Some (parts.0.now, parts.1.now)) }
{
    match colon_at(place) {
        Some(at) => {
            let (front, _) = place.split_at(at);
            let (_, back) = place.split_at(at + 1);
            Some((front, back))
        }
        None => None,
    }
}

/// The name with these bytes, which are one.
pub fn name_of(alloc: Global, bytes: &[u8]) -> Result<Name, NoMemory>
    ensures { IfOk result (λ name. name ≡ bytes.now) }
{
    match Name::new(alloc, bytes) {
        Ok(name) => Ok(name),
        Err(NameFault::Empty | NameFault::TooLong | NameFault::NoMemory) => Err(NoMemory),
    }
}
