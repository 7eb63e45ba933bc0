// Instructions as words (RISC-V unprivileged manual, 2.2 and 2.3).
ghost use Rattle.std.specs.Prelude.{◌≡◌, ◌+◌, ◌*◌, ◌^◌, ◌<◌};
ghost use Rattle.sc_isa.specs.Table.{word_of, IsSound, IsImmediate, r_word, i_word, s_word, b_word, u_word, j_word, low_bits, branch_code, load_code, store_code, imm_code, imm_upper, reg_code, reg_upper};

use crate::{BranchOp, ImmOp, Instr, LoadOp, RegOp, StoreOp};

/// The word of an instruction whose numbers fit their fields (RISC-V unprivileged manual, 2.2 and 2.3): registers below 32,
/// an upper number below 2^20, even offsets of 13 bits in a branch and 21 in a jump, counts of shifts from 0 to 31, else 12 bits.
pub fn encode(i: Instr) -> u32
    requires { IsSound i }
    ensures { result ≡ word_of i }
{
    match i {
        Instr::Lui(rd, upper) => u_type(0x37, rd, upper),
        Instr::Auipc(rd, upper) => u_type(0x17, rd, upper),
        Instr::Jal(rd, offset) => j_type(0x6f, rd, offset.cast_unsigned() & 0x1f_ffff),
        Instr::Jalr(rd, rs1, offset) => i_type(0x67, rd, 0, rs1, offset.cast_unsigned() & 0xfff),
        Instr::Branch(op, rs1, rs2, offset) => {
            b_type(
                0x63,
                branch_code(op),
                rs1,
                rs2,
                offset.cast_unsigned() & 0x1fff,
            )
        }
        Instr::Load(op, rd, rs1, offset) => i_type(
            0x03,
            rd,
            load_code(op),
            rs1,
            offset.cast_unsigned() & 0xfff,
        ),
        Instr::Store(op, rs2, rs1, offset) => {
            s_type(
                0x23,
                store_code(op),
                rs1,
                rs2,
                offset.cast_unsigned() & 0xfff,
            )
        }
        Instr::Imm(op, rd, rs1, imm) => i_type(0x13, rd, imm_code(op), rs1, imm_bits(op, imm)),
        Instr::Reg(op, rd, rs1, rs2) => r_type(0x33, rd, reg_code(op), rs1, rs2, reg_upper(op)),
        Instr::Ecall => 0x0000_0073,
        Instr::Fence => 0x0ff0_000f,
    }
}

// The formats, named by the manual's letters. Each puts its fields from the lowest bit up.
fn r_type(opcode: u32, rd: u8, funct3: u32, rs1: u8, rs2: u8, funct7: u32) -> u32
    requires opcode { opcode < 128 }
    requires rd { rd < 32 }
    requires funct3 { funct3 < 8 }
    requires rs1 { rs1 < 32 }
    requires rs2 { rs2 < 32 }
    requires funct7 { funct7 < 128 }
    ensures { result ≡ r_word opcode rd funct3 rs1 rs2 funct7 }
{
    i_type(opcode, rd, funct3, rs1, u32::from(rs2) + (funct7 << 5))
}

fn i_type(opcode: u32, rd: u8, funct3: u32, rs1: u8, imm: u32) -> u32
    requires opcode { opcode < 128 }
    requires rd { rd < 32 }
    requires funct3 { funct3 < 8 }
    requires rs1 { rs1 < 32 }
    requires imm { imm < 4096 }
    ensures { result ≡ i_word opcode rd funct3 rs1 imm }
{
    opcode + (u32::from(rd) << 7) + (funct3 << 12) + (u32::from(rs1) << 15) + (imm << 20)
}

fn s_type(opcode: u32, funct3: u32, rs1: u8, rs2: u8, imm: u32) -> u32
    requires opcode { opcode < 128 }
    requires funct3 { funct3 < 8 }
    requires rs1 { rs1 < 32 }
    requires rs2 { rs2 < 32 }
    requires imm { imm < 4096 }
    ensures { result ≡ s_word opcode funct3 rs1 rs2 imm }
{
    r_type(opcode, (imm & 0x1f) as u8, funct3, rs1, rs2, imm >> 5)
}

fn b_type(opcode: u32, funct3: u32, rs1: u8, rs2: u8, offset: u32) -> u32
    requires opcode { opcode < 128 }
    requires funct3 { funct3 < 8 }
    requires rs1 { rs1 < 32 }
    requires rs2 { rs2 < 32 }
    ensures { result ≡ b_word opcode funct3 rs1 rs2 offset }
{
    let low = (((offset >> 1) & 0xf) << 1) + ((offset >> 11) & 1);
    let high = (((offset >> 12) & 1) << 6) + ((offset >> 5) & 0x3f);
    r_type(opcode, low as u8, funct3, rs1, rs2, high)
}

fn u_type(opcode: u32, rd: u8, upper: u32) -> u32
    requires opcode { opcode < 128 }
    requires rd { rd < 32 }
    requires upper { upper < 2 ^ 20 }
    ensures { result ≡ u_word opcode rd upper }
{
    opcode + (u32::from(rd) << 7) + (upper << 12)
}

fn j_type(opcode: u32, rd: u8, offset: u32) -> u32
    requires opcode { opcode < 128 }
    requires rd { rd < 32 }
    ensures { result ≡ j_word opcode rd offset }
{
    let low = ((offset >> 12) & 0xff) + (((offset >> 11) & 1) << 8);
    let high = (((offset >> 1) & 0x3ff) << 9) + (((offset >> 20) & 1) << 19);
    u_type(opcode, rd, low + high)
}

fn branch_code(op: BranchOp) -> u32
    ensures code { result ≡ branch_code op }
    ensures small { result < 8 }
{
    match op {
        BranchOp::Beq => 0,
        BranchOp::Bne => 1,
        BranchOp::Blt => 4,
        BranchOp::Bge => 5,
        BranchOp::Bltu => 6,
        BranchOp::Bgeu => 7,
    }
}

fn load_code(op: LoadOp) -> u32
    ensures code { result ≡ load_code op }
    ensures small { result < 8 }
{
    match op {
        LoadOp::Lb => 0,
        LoadOp::Lh => 1,
        LoadOp::Lw => 2,
        LoadOp::Lbu => 4,
        LoadOp::Lhu => 5,
    }
}

fn store_code(op: StoreOp) -> u32
    ensures code { result ≡ store_code op }
    ensures small { result < 8 }
{
    match op {
        StoreOp::Sb => 0,
        StoreOp::Sh => 1,
        StoreOp::Sw => 2,
    }
}

fn imm_code(op: ImmOp) -> u32
    ensures code { result ≡ imm_code op }
    ensures small { result < 8 }
{
    match op {
        ImmOp::Addi => 0,
        ImmOp::Slli => 1,
        ImmOp::Slti => 2,
        ImmOp::Sltiu => 3,
        ImmOp::Xori => 4,
        ImmOp::Srli | ImmOp::Srai => 5,
        ImmOp::Ori => 6,
        ImmOp::Andi => 7,
    }
}

// What stands in the place of rs2 and funct7.
fn imm_bits(op: ImmOp, imm: i32) -> u32
    requires { IsImmediate op imm }
    ensures value { result ≡ imm_upper op * 2 ^ 5 + low_bits 12 imm }
    ensures small { result < 4096 }
{
    match op {
        ImmOp::Srai => 0x400 + (imm.cast_unsigned() & 0xfff),
        ImmOp::Slli | ImmOp::Srli => imm.cast_unsigned() & 0xfff,
        ImmOp::Addi | ImmOp::Slti | ImmOp::Sltiu | ImmOp::Xori | ImmOp::Ori | ImmOp::Andi =>
            imm.cast_unsigned() & 0xfff,
    }
}

fn reg_code(op: RegOp) -> u32
    ensures code { result ≡ reg_code op }
    ensures small { result < 8 }
{
    match op {
        RegOp::Add | RegOp::Sub | RegOp::Mul => 0,
        RegOp::Sll | RegOp::Mulh => 1,
        RegOp::Slt | RegOp::Mulhsu => 2,
        RegOp::Sltu | RegOp::Mulhu => 3,
        RegOp::Xor | RegOp::Div => 4,
        RegOp::Srl | RegOp::Sra | RegOp::Divu => 5,
        RegOp::Or | RegOp::Rem => 6,
        RegOp::And | RegOp::Remu => 7,
    }
}

// What stands in the place of funct7.
fn reg_upper(op: RegOp) -> u32
    ensures upper { result ≡ reg_upper op }
    ensures small { result < 128 }
{
    match op {
        RegOp::Sub | RegOp::Sra => 0x20,
        RegOp::Mul | RegOp::Mulh | RegOp::Mulhsu | RegOp::Mulhu => 1,
        RegOp::Div | RegOp::Divu | RegOp::Rem | RegOp::Remu => 1,
        RegOp::Add
        | RegOp::Sll
        | RegOp::Slt
        | RegOp::Sltu
        | RegOp::Xor
        | RegOp::Srl
        | RegOp::Or
        | RegOp::And => 0,
    }
}
