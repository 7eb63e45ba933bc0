// Conversions between integer types (ANSI 3.2.1).
ghost use Rattle.std.specs.Prelude.{◌≡◌, ◌+◌, ◌-◌, ◌*◌, ◌^◌, ◌<◌, ◌≤◌, nat_lt, if◌then◌else◌};
ghost use Rattle.sc_ops.specs.Numbers.{converted};

use sc_base::Int;

/// The 32 bits of a value after its conversion to a type (ANSI 3.2.1.2): the value modulo 2^n for a type of n bits,
/// and sign-extended where the type is signed. Plain `char` is unsigned.
pub fn convert(v: u32, to: Int) -> u32
    ensures { result ≡ converted v to }
{
    match to {
        Int::Char | Int::UChar => v & 0xff,
        Int::SChar => sign_extended(v & 0xff, 0x80),
        Int::UShort => v & 0xffff,
        Int::Short => sign_extended(v & 0xffff, 0x8000),
        Int::Int | Int::UInt | Int::Long | Int::ULong => v,
    }
}

// The bits of a number whose top bit has this weight, with that bit copied upward.
fn sign_extended(low: u32, sign: u32) -> u32
    requires within { low < 2 * sign }
    requires small { sign ≤ 2 ^ 15 }
    ensures { result ≡ (if nat_lt low sign then low else low + (2 ^ 32 - 2 * sign)) }
{
    if low < sign {
        low
    } else {
        low + (u32::MAX - (2 * sign - 1))
    }
}
