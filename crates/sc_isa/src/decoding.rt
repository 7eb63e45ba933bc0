// Words as instructions (RISC-V unprivileged manual, 2.2 and 2.3).
ghost use Rattle.std.specs.Prelude.{◌≡◌, ℕ, ◌+◌, ◌*◌, ◌/◌, ◌%◌, ◌^◌, ◌<◌, ◌≤◌, IfSome};
ghost use Rattle.sc_isa.specs.declared.instruction.Instr.{Instr as Instruction};
ghost use Rattle.sc_isa.specs.Table.{word_of, IsSound};
ghost use Rattle.sc_isa.specs.Reading.{rd_of, funct3_of, rs1_of, rs2_of, funct7_of, extend, branch_bits, jump_bits, branch_op, load_op, store_op, shift_op, short_op, base_op, other_op, multiply_op, reg_op, instr_of, read_jalr, read_branch, read_load, read_store, read_shift, read_short, read_imm, read_reg, by_opcode};

use crate::{BranchOp, ImmOp, Instr, LoadOp, RegOp, StoreOp};

/// The instruction of a word (RISC-V unprivileged manual, 2.2 and 2.3). `None` says that no instruction of `Instr` has this word,
/// as for other fences, the system's instructions and other extensions. Undoes `encode`, and `encode` undoes it.
#[inline(always)]
pub fn decode(w: u32) -> Option<Instr>
    ensures value { result ≡ instr_of w }
    ensures sound { IfSome result (λ i. IsSound i × (word_of i ≡ w)) }
    ensures complete { (i : Instruction) → IsSound i → word_of i ≡ w → result ≡ Some i }
{
    match w {
        0x0000_0073 => Some(Instr::Ecall),
        0x0ff0_000f => Some(Instr::Fence),
        _ => by_opcode(w),
    }
}

fn by_opcode(w: u32) -> Option<Instr>
    ensures { result ≡ by_opcode (w % 2 ^ 7) w }
{
    match w & 0x7f {
        0x37 => Some(Instr::Lui(rd(w), w >> 12)),
        0x17 => Some(Instr::Auipc(rd(w), w >> 12)),
        0x6f => Some(Instr::Jal(rd(w), jump_offset(w >> 12))),
        0x67 => read_jalr(w),
        0x63 => read_branch(w),
        0x03 => read_load(w),
        0x23 => read_store(w),
        0x13 => read_imm(w),
        0x33 => read_reg(w),
        _ => None,
    }
}

fn read_jalr(w: u32) -> Option<Instr>
    ensures { result ≡ read_jalr w }
{
    match funct3(w) {
        0 => Some(Instr::Jalr(rd(w), rs1(w), extend(0x800, w >> 20))),
        _ => None,
    }
}

fn read_branch(w: u32) -> Option<Instr>
    ensures { result ≡ read_branch w }
{
    let op = branch_op(funct3(w))?;
    let offset = branch_offset(u32::from(rd(w)), funct7(w));
    Some(Instr::Branch(op, rs1(w), rs2(w), offset))
}

fn read_load(w: u32) -> Option<Instr>
    ensures { result ≡ read_load w }
{
    let op = load_op(funct3(w))?;
    Some(Instr::Load(op, rd(w), rs1(w), extend(0x800, w >> 20)))
}

fn read_store(w: u32) -> Option<Instr>
    ensures { result ≡ read_store w }
{
    let op = store_op(funct3(w))?;
    let offset = extend(0x800, u32::from(rd(w)) + (funct7(w) << 5));
    Some(Instr::Store(op, rs2(w), rs1(w), offset))
}

fn read_imm(w: u32) -> Option<Instr>
    ensures { result ≡ read_imm w }
{
    match funct3(w) {
        1 | 5 => read_shift(w),
        _ => read_short(w),
    }
}

fn read_shift(w: u32) -> Option<Instr>
    ensures { result ≡ read_shift w }
{
    let op = shift_op(funct7(w), funct3(w))?;
    Some(Instr::Imm(op, rd(w), rs1(w), i32::from(rs2(w))))
}

fn read_short(w: u32) -> Option<Instr>
    ensures { result ≡ read_short w }
{
    let op = short_op(funct3(w))?;
    Some(Instr::Imm(op, rd(w), rs1(w), extend(0x800, w >> 20)))
}

fn read_reg(w: u32) -> Option<Instr>
    ensures { result ≡ read_reg w }
{
    let op = reg_op(funct7(w), funct3(w))?;
    Some(Instr::Reg(op, rd(w), rs1(w), rs2(w)))
}

fn rd(w: u32) -> u8
    ensures value { result ≡ rd_of w }
    ensures small { result < 32 }
{
    ((w >> 7) & 0x1f) as u8
}

fn funct3(w: u32) -> u32
    ensures { result ≡ funct3_of w }
{
    (w >> 12) & 7
}

fn rs1(w: u32) -> u8
    ensures { result ≡ rs1_of w }
{
    ((w >> 15) & 0x1f) as u8
}

fn rs2(w: u32) -> u8
    ensures { result ≡ rs2_of w }
{
    ((w >> 20) & 0x1f) as u8
}

fn funct7(w: u32) -> u32
    ensures value { result ≡ funct7_of w }
    ensures small { result < 128 }
{
    w >> 25
}

// The number in two's complement whose sign bit has the weight `half`.
fn extend(half: u32, bits: u32) -> i32
    requires half { half ≤ 2 ^ 20 }
    requires bits { bits < 2 * half }
    ensures { result ≡ extend half bits }
{
    if bits < half {
        bits.cast_signed()
    } else {
        bits.wrapping_sub(2 * half).cast_signed()
    }
}

// `low` stands in the place of rd, `high` in that of funct7.
fn branch_offset(low: u32, high: u32) -> i32
    requires low { low < 32 }
    requires high { high < 128 }
    ensures { result ≡ extend (2 ^ 12) (branch_bits low high) }
{
    let bits = ((low >> 1) << 1) + ((high & 0x3f) << 5) + ((low & 1) << 11) + ((high >> 6) << 12);
    extend(0x1000, bits)
}

fn jump_offset(upper: u32) -> i32
    requires { upper < 2 ^ 20 }
    ensures { result ≡ extend (2 ^ 20) (jump_bits upper) }
{
    let low = (((upper >> 9) & 0x3ff) << 1) + (((upper >> 8) & 1) << 11);
    let high = ((upper & 0xff) << 12) + ((upper >> 19) << 20);
    extend(0x10_0000, low + high)
}

fn branch_op(funct3: u32) -> Option<BranchOp>
    ensures { result ≡ branch_op funct3 }
{
    match funct3 {
        0 => Some(BranchOp::Beq),
        1 => Some(BranchOp::Bne),
        4 => Some(BranchOp::Blt),
        5 => Some(BranchOp::Bge),
        6 => Some(BranchOp::Bltu),
        7 => Some(BranchOp::Bgeu),
        _ => None,
    }
}

fn load_op(funct3: u32) -> Option<LoadOp>
    ensures { result ≡ load_op funct3 }
{
    match funct3 {
        0 => Some(LoadOp::Lb),
        1 => Some(LoadOp::Lh),
        2 => Some(LoadOp::Lw),
        4 => Some(LoadOp::Lbu),
        5 => Some(LoadOp::Lhu),
        _ => None,
    }
}

fn store_op(funct3: u32) -> Option<StoreOp>
    ensures { result ≡ store_op funct3 }
{
    match funct3 {
        0 => Some(StoreOp::Sb),
        1 => Some(StoreOp::Sh),
        2 => Some(StoreOp::Sw),
        _ => None,
    }
}

fn shift_op(funct7: u32, funct3: u32) -> Option<ImmOp>
    ensures { result ≡ shift_op funct7 funct3 }
{
    match (funct3, funct7) {
        (1, 0) => Some(ImmOp::Slli),
        (1, _) => None,
        (_, 0) => Some(ImmOp::Srli),
        (_, 0x20) => Some(ImmOp::Srai),
        _ => None,
    }
}

fn short_op(funct3: u32) -> Option<ImmOp>
    ensures { result ≡ short_op funct3 }
{
    match funct3 {
        0 => Some(ImmOp::Addi),
        2 => Some(ImmOp::Slti),
        3 => Some(ImmOp::Sltiu),
        4 => Some(ImmOp::Xori),
        6 => Some(ImmOp::Ori),
        7 => Some(ImmOp::Andi),
        _ => None,
    }
}

fn reg_op(funct7: u32, funct3: u32) -> Option<RegOp>
    ensures { result ≡ reg_op funct7 funct3 }
{
    match funct7 {
        0 => base_op(funct3),
        0x20 => other_op(funct3),
        1 => multiply_op(funct3),
        _ => None,
    }
}

fn base_op(funct3: u32) -> Option<RegOp>
    ensures { result ≡ base_op funct3 }
{
    match funct3 {
        0 => Some(RegOp::Add),
        1 => Some(RegOp::Sll),
        2 => Some(RegOp::Slt),
        3 => Some(RegOp::Sltu),
        4 => Some(RegOp::Xor),
        5 => Some(RegOp::Srl),
        6 => Some(RegOp::Or),
        7 => Some(RegOp::And),
        _ => None,
    }
}

fn other_op(funct3: u32) -> Option<RegOp>
    ensures { result ≡ other_op funct3 }
{
    match funct3 {
        0 => Some(RegOp::Sub),
        5 => Some(RegOp::Sra),
        _ => None,
    }
}

fn multiply_op(funct3: u32) -> Option<RegOp>
    ensures { result ≡ multiply_op funct3 }
{
    match funct3 {
        0 => Some(RegOp::Mul),
        1 => Some(RegOp::Mulh),
        2 => Some(RegOp::Mulhsu),
        3 => Some(RegOp::Mulhu),
        4 => Some(RegOp::Div),
        5 => Some(RegOp::Divu),
        6 => Some(RegOp::Rem),
        7 => Some(RegOp::Remu),
        _ => None,
    }
}
