// What the operations on registers give, and which tags they keep (RISC-V unprivileged manual, RV32I and M).
ghost use Rattle.std.specs.Prelude.{◌≡◌, ◌*◌, ◌/◌, ◌^◌, ◌*ℤ◌, pos};
ghost use Rattle.sc_mem.specs.Words.{IsSize};
ghost use Rattle.sc_emu.specs.Operations as spec;

use crate::registers::plain;
use sc_base::Word;
use sc_isa::{BranchOp, ImmOp, LoadOp, RegOp, StoreOp};

/// An operation of a register and a constant. Only a sum has a tag.
#[inline(always)]
pub fn with_constant(op: ImmOp, a: Word, b: u32) -> Word
    ensures { result ≡ spec.with_constant op a b }
{
    match op {
        ImmOp::Addi => Word {
            bits: a.bits.wrapping_add(b),
            tag: a.tag,
        },
        ImmOp::Slli => plain(a.bits.wrapping_shl(b)),
        ImmOp::Slti => plain(truth(a.bits.cast_signed() < b.cast_signed())),
        ImmOp::Sltiu => plain(truth(a.bits < b)),
        ImmOp::Xori => plain(a.bits ^ b),
        ImmOp::Srli => plain(a.bits.wrapping_shr(b)),
        ImmOp::Srai => plain(shifted_signed(a.bits, b)),
        ImmOp::Ori => plain(a.bits | b),
        ImmOp::Andi => plain(a.bits & b),
    }
}

/// An operation of two registers. Only a sum and a difference have a tag.
#[inline(always)]
pub fn of_two(op: RegOp, a: Word, b: Word) -> Word
    ensures { result ≡ spec.of_two op a b }
{
    match op {
        RegOp::Add => Word {
            bits: a.bits.wrapping_add(b.bits),
            tag: tag_of_sum(a.tag, b.tag),
        },
        RegOp::Sub => Word {
            bits: a.bits.wrapping_sub(b.bits),
            tag: tag_of_difference(a.tag, b.tag),
        },
        RegOp::Sll => plain(a.bits.wrapping_shl(b.bits)),
        RegOp::Slt => plain(truth(a.bits.cast_signed() < b.bits.cast_signed())),
        RegOp::Sltu => plain(truth(a.bits < b.bits)),
        RegOp::Xor => plain(a.bits ^ b.bits),
        RegOp::Srl => plain(a.bits.wrapping_shr(b.bits)),
        RegOp::Sra => plain(shifted_signed(a.bits, b.bits)),
        RegOp::Or => plain(a.bits | b.bits),
        RegOp::And => plain(a.bits & b.bits),
        RegOp::Mul => plain(a.bits.wrapping_mul(b.bits)),
        RegOp::Mulh => plain(upper_signed(a.bits.cast_signed(), b.bits.cast_signed())),
        RegOp::Mulhsu => plain(upper_mixed(a.bits.cast_signed(), b.bits)),
        RegOp::Mulhu => plain(upper_unsigned(a.bits, b.bits)),
        RegOp::Div => plain(quotient(a.bits, b.bits)),
        RegOp::Divu => plain(unsigned_quotient(a.bits, b.bits)),
        RegOp::Rem => plain(remainder(a.bits, b.bits)),
        RegOp::Remu => plain(unsigned_remainder(a.bits, b.bits)),
    }
}

/// Whether a branch is taken.
#[inline(always)]
pub fn is_taken(op: BranchOp, a: u32, b: u32) -> bool
    ensures { result ≡ spec.is_taken op a b }
{
    match op {
        BranchOp::Beq => a == b,
        BranchOp::Bne => a != b,
        BranchOp::Blt => a.cast_signed() < b.cast_signed(),
        BranchOp::Bge => a.cast_signed() >= b.cast_signed(),
        BranchOp::Bltu => a < b,
        BranchOp::Bgeu => a >= b,
    }
}

/// The bytes of a load.
#[inline(always)]
pub fn load_size(op: LoadOp) -> u8
    ensures bytes { result ≡ spec.load_size op }
    ensures size { IsSize result }
{
    match op {
        LoadOp::Lb | LoadOp::Lbu => 1,
        LoadOp::Lh | LoadOp::Lhu => 2,
        LoadOp::Lw => 4,
    }
}

/// The bytes of a store.
#[inline(always)]
pub fn store_size(op: StoreOp) -> u8
    ensures bytes { result ≡ spec.store_size op }
    ensures size { IsSize result }
{
    match op {
        StoreOp::Sb => 1,
        StoreOp::Sh => 2,
        StoreOp::Sw => 4,
    }
}

/// What a load puts into its register. Only a whole word keeps its tag.
#[inline(always)]
pub fn loaded(op: LoadOp, w: Word) -> Word
    ensures { result ≡ spec.loaded op w }
{
    match op {
        LoadOp::Lb => plain(i32::from(((w.bits % 256) as u8).cast_signed()).cast_unsigned()),
        LoadOp::Lh => plain(i32::from(((w.bits % 65536) as u16).cast_signed()).cast_unsigned()),
        LoadOp::Lw => w,
        LoadOp::Lbu | LoadOp::Lhu => plain(w.bits),
    }
}

#[inline(always)]
fn truth(test: bool) -> u32
    ensures { result ≡ spec.truth test }
{
    if test { 1 } else { 0 }
}

// A shift right by the low 5 bits of a count, which copies the sign.
#[inline(always)]
fn shifted_signed(a: u32, count: u32) -> u32
    ensures { result ≡ spec.shifted_signed a count }
{
    a.cast_signed().wrapping_shr(count).cast_unsigned()
}

// The tag of a sum: that of the one operand which has one.
#[inline(always)]
fn tag_of_sum(a: u32, b: u32) -> u32
    ensures { result ≡ spec.tag_of_sum a b }
{
    if a == 0 {
        b
    } else if b == 0 {
        a
    } else {
        0
    }
}

// The tag of a difference: the first operand's, where the second has none.
#[inline(always)]
fn tag_of_difference(a: u32, b: u32) -> u32
    ensures { result ≡ spec.tag_of_difference a b }
{
    if b == 0 { a } else { 0 }
}

// The upper half of the 64 bits of a product.
fn upper_signed(a: i32, b: i32) -> u32
    ensures { result ≡ spec.upper_half (a *ℤ b) }
{
    upper_half(product(a, b))
}

fn product(a: i32, b: i32) -> i64
    ensures { result ≡ a *ℤ b }
{
    i64::from(a) * i64::from(b)
}

fn upper_half(product: i64) -> u32
    ensures { result ≡ spec.upper_half product }
{
    (product.cast_unsigned() >> 32) as u32
}

fn upper_mixed(a: i32, b: u32) -> u32
    ensures { result ≡ spec.upper_half (a *ℤ pos b) }
{
    ((i64::from(a) * i64::from(b)).cast_unsigned() >> 32) as u32
}

fn upper_unsigned(a: u32, b: u32) -> u32
    ensures { result ≡ a * b / 2 ^ 32 }
{
    (u64::from(a) * u64::from(b) >> 32) as u32
}

// By zero all ones; -2^31 by -1 is -2^31.
fn quotient(a: u32, b: u32) -> u32
    ensures { result ≡ spec.quotient a b }
{
    if b == 0 {
        0xffff_ffff
    } else {
        a.cast_signed()
            .wrapping_div(b.cast_signed())
            .cast_unsigned()
    }
}

// By zero the dividend.
fn remainder(a: u32, b: u32) -> u32
    ensures { result ≡ spec.remainder a b }
{
    if b == 0 {
        a
    } else {
        a.cast_signed()
            .wrapping_rem(b.cast_signed())
            .cast_unsigned()
    }
}

fn unsigned_quotient(a: u32, b: u32) -> u32
    ensures { result ≡ spec.unsigned_quotient a b }
{
    if b == 0 { 0xffff_ffff } else { a / b }
}

fn unsigned_remainder(a: u32, b: u32) -> u32
    ensures { result ≡ spec.unsigned_remainder a b }
{
    if b == 0 { a } else { a % b }
}
