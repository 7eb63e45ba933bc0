// What a format is made of (ANSI 4.9.6.1).
ghost use Rattle.std.specs.Prelude.{◌≡◌};

/// A width or a precision.
#[derive(Clone, Copy, Debug, PartialEq, Eq)]
pub enum Count {
    /// A number; 4,294,967,295 stands for every greater one.
    Fixed(u32),
    /// A `*`: an argument gives the number.
    Star,
}

/// A conversion specification.
#[derive(Clone, Copy, Debug, PartialEq, Eq)]
pub struct Conv {
    /// The flag `-`: pads on the right.
    pub minus: bool,
    /// The flag `+`: a signed number begins with a sign.
    pub plus: bool,
    /// The flag space: a signed number without a sign begins with a space.
    pub space: bool,
    /// The flag `#`: another form, as `0x` before a hexadecimal number.
    pub alt: bool,
    /// The flag `0`: pads with zeros.
    pub zero: bool,
    pub width: Option<Count>,
    pub precision: Option<Count>,
    /// An `h` stands there: the number is a short one.
    pub half: bool,
    /// One of `d i o u x X c s %`.
    pub kind: u8,
}

impl Conv {
    ghost use Rattle.sc_fmt.specs.Numbers.{is_number};

    /// Whether it writes a number and no `*` is left: its kind is one of `d i o u x X`.
    pub fn is_number(&self) -> bool
        ensures { result ≡ is_number self.now }
    {
        matches!(self.kind, b'd' | b'i' | b'o' | b'u' | b'x' | b'X')
            && self.width != Some(Count::Star)
            && self.precision != Some(Count::Star)
    }
}

/// A piece of a format, with the number of bytes read.
#[derive(Clone, Copy, Debug, PartialEq, Eq)]
pub enum Piece {
    /// Bytes that are written as they stand, up to the next `%` or the end.
    Text(usize),
    Conv(Conv, usize),
    End,
    /// A `%` that begins no conversion.
    Wrong,
}
