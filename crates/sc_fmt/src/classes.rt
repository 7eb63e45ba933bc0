// The classes of characters (ANSI 4.3).
ghost use Rattle.std.specs.Prelude.{◌≡◌};
ghost use Rattle.sc_fmt.specs.Classes.{class_of};

/// The bits of `class`, one for each class of characters.
pub const ALNUM: u16 = 1;

pub const ALPHA: u16 = 2;

pub const CNTRL: u16 = 4;

pub const DIGIT: u16 = 8;

pub const GRAPH: u16 = 16;

pub const LOWER: u16 = 32;

pub const PRINT: u16 = 64;

pub const PUNCT: u16 = 128;

pub const SPACE: u16 = 256;

pub const UPPER: u16 = 512;

pub const XDIGIT: u16 = 1024;

const WRITTEN: u16 = GRAPH + PRINT;

const NUMERAL: u16 = ALNUM + DIGIT + WRITTEN + XDIGIT;

const CAPITAL: u16 = ALNUM + ALPHA + WRITTEN + UPPER;

const SMALL: u16 = ALNUM + ALPHA + WRITTEN + LOWER;

/// The classes of a character (ANSI 4.3.1) in the "C" locale, each a bit: `ALNUM` is set exactly where `isalnum` holds,
/// and so on. A byte above 127 is in no class.
pub fn class(c: u8) -> u16
    ensures { result ≡ class_of c }
{
    match c {
        0..=8 => CNTRL,
        9..=13 => CNTRL + SPACE,
        14..=31 => CNTRL,
        b' ' => PRINT + SPACE,
        b'!'..=b'/' => WRITTEN + PUNCT,
        b'0'..=b'9' => NUMERAL,
        b':'..=b'@' => WRITTEN + PUNCT,
        b'A'..=b'F' => CAPITAL + XDIGIT,
        b'G'..=b'Z' => CAPITAL,
        b'['..=b'`' => WRITTEN + PUNCT,
        b'a'..=b'f' => SMALL + XDIGIT,
        b'g'..=b'z' => SMALL,
        b'{'..=b'~' => WRITTEN + PUNCT,
        127 => CNTRL,
        128..=255 => 0,
    }
}
