// The integer types (ANSI 3.1.2.5).

/// An integer type. Plain `char` is unsigned; `short` has 2 bytes, `int` and `long` have 4.
#[derive(Clone, Copy, Debug, PartialEq, Eq)]
pub enum Int {
    Char,
    SChar,
    UChar,
    Short,
    UShort,
    Int,
    UInt,
    Long,
    ULong,
}
