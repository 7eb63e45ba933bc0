// Stubs of functions, and addresses in two parts.
ghost use Rattle.std.specs.Prelude.{◌≡◌, ◌+◌, ◌*◌, ◌%◌, ◌^◌, ◌<◌, ◌≤ℤ◌, pos, negsuc, slice_get, IfSome, Some};
ghost use Rattle.std.specs.Int.{w32, cast_unsigned};
ghost use Rattle.sc_isa.specs.Reading.{instr_of};
ghost use Rattle.sc_isa_image.specs.Stubs.{call_words, jump_words, joined, led as leads_to, led_by, lower_of, lower_part as lower_read, stub_of_word, upper_of, upper_part as upper_read};

use crate::decoded::Decoded;
use sc_isa::{ImmOp, Instr, decode, encode};

/// Where the stubs begin.
pub const STUBS: u32 = 0x0001_0000;

/// Where the texts begin.
pub const TEXTS: u32 = 0x0010_0000;

/// The two words of a function's stub, and the function's value where that is the stub.
#[derive(Drop)]
pub struct Stub {
    pub value: Option<u32>,
    pub first: Decoded,
    pub second: Decoded,
}

/// The stub of a function that is not in object form: `addi t0, x0, 1` and `ecall`.
pub fn call_stub() -> [u32; 2]
    ensures { result ≡ call_words }
{
    [
        encode(Instr::Imm(ImmOp::Addi, 5, 0, 1)),
        encode(Instr::Ecall),
    ]
}

/// The stub of a function in object form whose text begins at an address: `lui t1` and `jalr x0` with the two parts of
/// the address, which is where they jump to.
pub fn jump_stub(at: u32) -> [u32; 2]
    ensures words { result ≡ jump_words at }
    ensures target { (upper_of at * 2 ^ 12 + cast_unsigned w32 (lower_of at)) % 2 ^ 32 ≡ at }
    ensures leads { led_by (slice_get (jump_words at) 0) (slice_get (jump_words at) 1) ≡ Some at }
{
    [
        encode(Instr::Lui(6, upper(at))),
        encode(Instr::Jalr(0, 6, lower(at))),
    ]
}

/// The upper part of an address, to which the lower one is added with its sign (RISC-V ELF psABI, R_RISCV_HI20).
pub fn upper(at: u32) -> u32
    ensures value { result ≡ upper_of at }
    ensures small { result < 2 ^ 20 }
{
    at.wrapping_add(0x800) >> 12
}

/// The lower part of an address, from -2048 to 2047 (RISC-V ELF psABI, R_RISCV_LO12_I).
pub fn lower(at: u32) -> i32
    ensures value { result ≡ lower_of at }
    ensures low { negsuc 2047 ≤ℤ result }
    ensures high { result ≤ℤ pos 2047 }
{
    let low = (at & 0xfff) as i32;
    if low < 0x800 { low } else { low - 0x1000 }
}

/// The number of the function in whose stub a word at an address stands, whether there is one or not.
pub fn stub_at(pc: u32) -> Option<u32>
    ensures { result ≡ stub_of_word pc }
{
    if pc < STUBS {
        None
    } else if pc % 4 == 0 {
        Some((pc - STUBS) / 8)
    } else {
        None
    }
}

/// The address to which two words lead that are a `lui t1` and a `jalr x0` by t1.
pub fn led(first: u32, second: u32) -> Option<u32>
    ensures { result ≡ leads_to first second }
{
    let upper = upper_part(first)?;
    let lower = lower_part(second)?;
    Some(join(upper, lower))
}

// The upper part that a `lui t1` loads.
fn upper_part(word: u32) -> Option<u32>
    ensures part { result ≡ upper_read (instr_of word) }
    ensures small { IfSome result (λ upper. upper < 2 ^ 20) }
{
    match decode(word) {
        Some(Instr::Lui(rd, upper)) => { if rd == 6 { Some(upper) } else { None } }
        _ => None,
    }
}

// The lower part that a `jalr x0` by t1 adds.
fn lower_part(word: u32) -> Option<i32>
    ensures { result ≡ lower_read (instr_of word) }
{
    match decode(word) {
        Some(Instr::Jalr(rd, base, lower)) => {
            if rd == 0 && base == 6 {
                Some(lower)
            } else {
                None
            }
        }
        _ => None,
    }
}

// The address of two parts.
fn join(upper: u32, lower: i32) -> u32
    requires { upper < 2 ^ 20 }
    ensures { Some result ≡ joined (Some upper) (Some lower) }
{
    (upper << 12).wrapping_add(lower.cast_unsigned())
}
