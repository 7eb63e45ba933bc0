// Strings and character constants (ANSI 3.1.3.4, 3.1.4), read a byte at a time.
ghost use Rattle.std.specs.Prelude.{◌≡◌, ◌≤◌, IfOk, []};
ghost use Rattle.sc_parse_tokens.specs.Literals as spec;

use sc_base::{Int, Items, NoMemory};
use sc_lex_literals::{capped, digit_of, simple_escape};
use sc_parse_names::{Kind, Mark};
use sc_tree::Constant;
use std::alloc::Global;

/// What was read last of a literal.
#[derive(Clone, Copy, Debug, PartialEq, Eq)]
pub enum Place {
    /// Its quote is due.
    Before,
    /// A character is due, or the quote behind the last.
    Plain,
    /// A backslash.
    Slash,
    /// So many octal digits of this value.
    Octal(u8, u64),
    /// Hexadecimal digits of this value, if there is one.
    Hexadecimal(Option<u64>),
    /// The literal is whole.
    Closed,
    /// The bytes are no literal.
    Bad,
}

/// What was read of a literal: the characters that are bytes, how many characters there are, to 2, and whether each is
/// a byte.
#[derive(Drop)]
pub struct Literal {
    pub bytes: Items<u8>,
    pub count: u8,
    pub fits: bool,
    pub place: Place,
}

fn start(alloc: Global) -> Literal
    ensures { result ≡ spec.start }
{
    Literal {
        bytes: Items::new(alloc),
        count: 0,
        fits: true,
        place: Place::Before,
    }
}

fn one_more(n: u8) -> u8
    ensures { result ≡ spec.one_more n }
{
    if n < 2 { n + 1 } else { n }
}

fn moves(r: Literal, place: Place) -> Literal
    ensures { result ≡ spec.moves r place }
{
    Literal {
        bytes: r.bytes,
        count: r.count,
        fits: r.fits,
        place,
    }
}

/// A character of this value; one above 255 is no byte.
fn gains(r: Literal, value: u64, place: Place) -> Result<Literal, NoMemory>
    ensures { IfOk result (λ x. x ≡ spec.gains r value place) }
{
    let count = one_more(r.count);
    let mut bytes = r.bytes;
    if value > 255 {
        return Ok(Literal {
            bytes,
            count,
            fits: false,
            place,
        });
    }
    bytes.push(value as u8)?;
    Ok(Literal {
        bytes,
        count,
        fits: r.fits,
        place,
    })
}

/// A byte where a character begins, or the quote that ends the literal.
fn plain(quote: u8, r: Literal, b: u8) -> Result<Literal, NoMemory>
    ensures { IfOk result (λ x. x ≡ spec.plain quote r b) }
{
    if b == quote {
        Ok(moves(r, Place::Closed))
    } else if b == 92 {
        Ok(moves(r, Place::Slash))
    } else {
        gains(r, b as u64, Place::Plain)
    }
}

/// A byte behind a backslash.
fn slash(r: Literal, b: u8) -> Result<Literal, NoMemory>
    ensures { IfOk result (λ x. x ≡ spec.slash r b) }
{
    let digit = digit_of(b);
    if b == 120 {
        Ok(moves(r, Place::Hexadecimal(None)))
    } else if digit < 8 {
        Ok(moves(r, Place::Octal(1, digit)))
    } else {
        match simple_escape(b) {
            Some(value) => gains(r, value as u64, Place::Plain),
            None => Ok(moves(r, Place::Bad)),
        }
    }
}

/// A value with one digit more.
fn shifted(value: u64, base: u64, digit: u64) -> u64
    requires base { base ≤ 16 }
    requires digit { digit ≤ 16 }
    ensures { result ≡ spec.shifted value base digit }
{
    capped(capped(value) * base + digit)
}

fn octal(quote: u8, r: Literal, n: u8, value: u64, b: u8) -> Result<Literal, NoMemory>
    ensures { IfOk result (λ x. x ≡ spec.octal quote r n value b) }
{
    let digit = digit_of(b);
    if digit < 8 && n < 3 {
        return Ok(moves(r, Place::Octal(n + 1, shifted(value, 8, digit))));
    }
    let whole = gains(r, value, Place::Plain)?;
    plain(quote, whole, b)
}

fn unbegun(r: Literal, b: u8) -> Literal
    ensures { result ≡ spec.unbegun r b }
{
    let digit = digit_of(b);
    if digit < 16 {
        moves(r, Place::Hexadecimal(Some(digit)))
    } else {
        moves(r, Place::Bad)
    }
}

fn hexadecimal(quote: u8, r: Literal, value: u64, b: u8) -> Result<Literal, NoMemory>
    ensures { IfOk result (λ x. x ≡ spec.hexadecimal quote r value b) }
{
    let digit = digit_of(b);
    if digit < 16 {
        return Ok(moves(r, Place::Hexadecimal(Some(shifted(value, 16, digit)))));
    }
    let whole = gains(r, value, Place::Plain)?;
    plain(quote, whole, b)
}

fn opened(quote: u8, r: Literal, b: u8) -> Literal
    ensures { result ≡ spec.opened quote r b }
{
    if b == quote {
        moves(r, Place::Plain)
    } else {
        moves(r, Place::Bad)
    }
}

/// One byte.
fn read(quote: u8, r: Literal, b: u8) -> Result<Literal, NoMemory>
    ensures { IfOk result (λ x. x ≡ spec.read quote r b) }
{
    match r.place {
        Place::Before => Ok(opened(quote, r, b)),
        Place::Plain => plain(quote, r, b),
        Place::Slash => slash(r, b),
        Place::Octal(n, value) => octal(quote, r, n, value, b),
        Place::Hexadecimal(None) => Ok(unbegun(r, b)),
        Place::Hexadecimal(Some(value)) => hexadecimal(quote, r, value, b),
        Place::Closed => Ok(moves(r, Place::Bad)),
        Place::Bad => Ok(moves(r, Place::Bad)),
    }
}

/// A literal with its quotes.
pub fn read_all(alloc: Global, quote: u8, text: &[u8]) -> Result<Literal, NoMemory>
    ensures { IfOk result (λ x. x ≡ spec.read_all quote spec.start text.now) }
{
    let mut r = start(alloc);
    let mut left = text;
    'bytes: while let Some((b, rest)) = left.split_first() {
        r = read(quote, r, *b)?;
        left = rest;
    }
    Ok(r)
}

fn is_closed(place: Place) -> bool
    ensures { result ≡ spec.is_closed place }
{
    match place {
        Place::Closed => true,
        _ => false,
    }
}

/// What a string is: with its bytes, unless an escape is above 255.
pub fn string_of(r: &Literal) -> Kind
    ensures { result ≡ spec.string_of r.now }
{
    if is_closed(r.place) {
        Kind::Text(r.fits)
    } else {
        Kind::Other
    }
}

fn one_byte(bytes: &[u8]) -> Kind
    ensures { result ≡ spec.one_byte bytes.now }
{
    match bytes {
        [b] => Kind::Constant(Some(Constant {
            value: *b as u32,
            of: Int::Int,
        })),
        _ => Kind::Constant(None),
    }
}

/// What a character constant is: an `int` of its byte, unless an escape is above 255. Of more characters it is left out.
pub fn character_of(r: &Literal) -> Kind
    ensures { result ≡ spec.character_of r.now }
{
    if !is_closed(r.place) {
        return Kind::Other;
    }
    if r.count == 0 {
        Kind::Other
    } else if r.count == 1 {
        one_byte(r.bytes.as_slice())
    } else {
        Kind::LeftOut(Mark::MultiChar)
    }
}
