// The types of converted values (ANSI 3.2.1).
ghost use Rattle.std.specs.Prelude.{◌≡◌};
ghost use Rattle.sc_types.specs.Conversions as spec;

use sc_base::Int;

/// The type to which a value of an integer type is promoted (ANSI 3.2.1.1): `int` for the narrower types.
pub fn promote(i: Int) -> Int
    ensures { result ≡ spec.promote i }
{
    match i {
        Int::Char | Int::SChar | Int::UChar | Int::Short | Int::UShort | Int::Int => Int::Int,
        Int::UInt => Int::UInt,
        Int::Long => Int::Long,
        Int::ULong => Int::ULong,
    }
}

/// The common type of two operands by the usual arithmetic conversions (ANSI 3.2.1.5). `long` has no more bits than
/// `unsigned int`, so the two give `unsigned long`.
pub fn usual(a: Int, b: Int) -> Int
    ensures { result ≡ spec.usual a b }
{
    match (promote(a), promote(b)) {
        (Int::ULong, _) | (_, Int::ULong) => Int::ULong,
        (Int::Long, Int::UInt) | (Int::UInt, Int::Long) => Int::ULong,
        (Int::Long, _) | (_, Int::Long) => Int::Long,
        (Int::UInt, _) | (_, Int::UInt) => Int::UInt,
        _ => Int::Int,
    }
}
