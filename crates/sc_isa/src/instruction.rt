// The instructions (RISC-V unprivileged manual: RV32I and the extension M).

/// The conditions of a branch: equal, not equal, less, not less, and the last two on unsigned numbers (RV32I, conditional branches).
#[derive(Clone, Copy, Debug, PartialEq, Eq)]
pub enum BranchOp {
    Beq,
    Bne,
    Blt,
    Bge,
    Bltu,
    Bgeu,
}

/// What a load reads: a byte, a half word or a word with its sign, and a byte or a half word without (RV32I, load and store).
#[derive(Clone, Copy, Debug, PartialEq, Eq)]
pub enum LoadOp {
    Lb,
    Lh,
    Lw,
    Lbu,
    Lhu,
}

/// What a store writes: a byte, a half word or a word (RV32I, load and store).
#[derive(Clone, Copy, Debug, PartialEq, Eq)]
pub enum StoreOp {
    Sb,
    Sh,
    Sw,
}

/// Operations with a constant: 12 bits with their sign, and for the three shifts a count from 0 to 31 (RV32I, register-immediate).
#[derive(Clone, Copy, Debug, PartialEq, Eq)]
pub enum ImmOp {
    Addi,
    Slli,
    Slti,
    Sltiu,
    Xori,
    Srli,
    Srai,
    Ori,
    Andi,
}

/// Operations on two registers (RV32I, register-register), the last eight of them of the extension M.
#[derive(Clone, Copy, Debug, PartialEq, Eq)]
pub enum RegOp {
    Add,
    Sub,
    Sll,
    Slt,
    Sltu,
    Xor,
    Srl,
    Sra,
    Or,
    And,
    Mul,
    Mulh,
    Mulhsu,
    Mulhu,
    Div,
    Divu,
    Rem,
    Remu,
}

/// An instruction. The target register comes first, a store's value before its base, a branch's two operands in order,
/// and an offset in bytes or an immediate last. `Lui` and `Auipc` have the upper 20 bits as a number.
#[derive(Clone, Copy, Debug, PartialEq, Eq)]
pub enum Instr {
    Lui(u8, u32),
    Auipc(u8, u32),
    Jal(u8, i32),
    Jalr(u8, u8, i32),
    Branch(BranchOp, u8, u8, i32),
    Load(LoadOp, u8, u8, i32),
    Store(StoreOp, u8, u8, i32),
    Imm(ImmOp, u8, u8, i32),
    Reg(RegOp, u8, u8, u8),
    Ecall,
    Fence,
}
