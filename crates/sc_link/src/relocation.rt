// What a relocation makes of a word (RISC-V ELF psABI, "Relocations").
ghost use Rattle.std.specs.Prelude.{◌≡◌, IfOk};
ghost use Rattle.sc_link.specs.Relocation as spec;

use sc_base::NoMemory;
use sc_isa_image::upper;
use std::alloc::Global;

/// R_RISCV_32: the whole word is S + A.
pub const WHOLE: u8 = 1;

/// R_RISCV_CALL_PLT: a pair `auipc`, `jalr` that reaches S + A from its own place.
pub const CALL: u8 = 19;

/// R_RISCV_HI20: the upper 20 bits of S + A.
pub const UPPER: u8 = 26;

/// R_RISCV_LO12_I: the lower 12 bits of S + A, in one part.
pub const LOWER: u8 = 27;

/// R_RISCV_LO12_S: the lower 12 bits of S + A, in two parts.
pub const SPLIT: u8 = 28;

/// The words that bytes make, the lowest byte first; up to three bytes at the end make none.
pub fn words_of(alloc: Global, bytes: &[u8]) -> Result<Vec<u32>, NoMemory>
    ensures { IfOk result (λ words. words.items ≡ spec.words bytes.now) }
{
    let mut words = Vec::with_capacity(alloc, bytes.len() / 4)?;
    let mut left = bytes;
    'words: while let [a, b, c, d, rest @ ..] = left {
        words.push(u32::from_le_bytes([*a, *b, *c, *d]))?;
        left = rest;
    }
    Ok(words)
}

/// The address that a relocation puts into its words: S + A, or S + A - P where it is relative to its place.
pub fn target_of(kind: u8, symbol: u32, addend: i32, place: u32) -> u32
    ensures { result ≡ spec.target_of kind symbol addend place }
{
    let sum = symbol.wrapping_add(addend.cast_unsigned());
    if kind == CALL {
        sum.wrapping_sub(place)
    } else {
        sum
    }
}

/// A word with its part of an address. Of a pair `second` tells which of its two words this is.
pub fn relocated(kind: u8, second: bool, at: u32, word: u32) -> u32
    ensures { result ≡ spec.relocated kind second at word }
{
    match kind {
        WHOLE => at,
        UPPER => with_upper(at, word),
        LOWER => with_lower(at, word),
        SPLIT => with_split(at, word),
        CALL => {
            if second {
                with_lower(at, word)
            } else {
                with_upper(at, word)
            }
        }
        _ => word,
    }
}

// An instruction of U-type with the upper part of an address.
fn with_upper(at: u32, word: u32) -> u32
    ensures { result ≡ spec.with_upper at word }
{
    (word & 0xfff) + (upper(at) << 12)
}

// An instruction of I-type with the lower 12 bits of an address.
fn with_lower(at: u32, word: u32) -> u32
    ensures { result ≡ spec.with_lower at word }
{
    (word & 0xfffff) + ((at & 0xfff) << 20)
}

// An instruction of S-type with the lower 12 bits of an address.
fn with_split(at: u32, word: u32) -> u32
    ensures { result ≡ spec.with_split at word }
{
    (word & 0x7f)
        + ((at & 0x1f) << 7)
        + (((word >> 12) & 0x1fff) << 12)
        + (((at >> 5) & 0x7f) << 25)
}
