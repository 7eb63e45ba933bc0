// The words of a text as they stand in an object (RISC-V unprivileged manual, 2.2 and 2.3; RISC-V psABI).
ghost use Rattle.std.specs.Prelude.{◌≡◌, ◌<◌, ◌↔◌, IsTrue, ℤ};
ghost use Rattle.sc_isa.specs.Table.{IsSound};
ghost use Rattle.sc_gen_expr.specs.Words as spec;

use sc_gen_code::{RA, Symbolic, T0, accessed, is_short};
use sc_isa::{ImmOp, Instr, encode};

fn is_between(low: i32, high: i32, n: i32) -> bool
    ensures { result ≡ spec.is_between low high n }
{
    low <= n && n <= high
}

fn is_even(n: i32) -> bool
    ensures { result ≡ spec.is_even n }
{
    n.cast_unsigned() % 2 == 0
}

fn is_immediate(op: ImmOp, n: i32) -> bool
    ensures { result ≡ spec.is_immediate op n }
{
    match op {
        ImmOp::Slli => is_between(0, 31, n),
        ImmOp::Srli => is_between(0, 31, n),
        ImmOp::Srai => is_between(0, 31, n),
        ImmOp::Addi => is_short(n),
        ImmOp::Slti => is_short(n),
        ImmOp::Sltiu => is_short(n),
        ImmOp::Xori => is_short(n),
        ImmOp::Ori => is_short(n),
        ImmOp::Andi => is_short(n),
    }
}

/// Whether the numbers of an instruction fit their fields.
pub fn is_sound(i: Instr) -> bool
    ensures { result ≡ spec.is_sound i }
{
    match i {
        Instr::Lui(rd, upper) => rd < 32 && upper < 1048576,
        Instr::Auipc(rd, upper) => rd < 32 && upper < 1048576,
        Instr::Jal(rd, offset) => rd < 32
            && is_even(offset)
            && is_between(-1048576, 1048574, offset),
        Instr::Jalr(rd, rs, offset) => rd < 32 && rs < 32 && is_short(offset),
        Instr::Branch(_, rs, rt, offset) => {
            rs < 32 && rt < 32 && is_even(offset) && is_between(-4096, 4094, offset)
        }
        Instr::Load(_, rd, base, offset) => rd < 32 && base < 32 && is_short(offset),
        Instr::Store(_, rs, base, offset) => rs < 32 && base < 32 && is_short(offset),
        Instr::Imm(op, rd, rs, n) => rd < 32 && rs < 32 && is_immediate(op, n),
        Instr::Reg(_, rd, rs, rt) => rd < 32 && rs < 32 && rt < 32,
        Instr::Ecall => true,
        Instr::Fence => true,
    }
}

fn plain_word(i: Instr) -> u32
    ensures { result ≡ spec.plain_word i }
{
    if is_sound(i) { encode(i) } else { 0 }
}

/// The word of an instruction that waits for an address has zero in the place of it.
pub fn symbolic_word(s: &Symbolic) -> u32
    ensures { result ≡ spec.symbolic_word s.now }
{
    match s {
        Symbolic::Plain(i) => plain_word(*i),
        Symbolic::Upper(_) => encode(Instr::Lui(T0, 0)),
        Symbolic::Lower(what, _) => plain_word(accessed(*what, T0, 0)),
        Symbolic::Call(_) => encode(Instr::Auipc(RA, 0)),
    }
}
