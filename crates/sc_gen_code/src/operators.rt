// The code of operators, on values that stand in registers: the result is put into `a0` (ANSI 3.3).
ghost use Rattle.std.specs.Prelude.{◌≡◌, ◌+◌, ◌<◌, ◌++◌, [], ◌∷◌, option_map, OnOk};
ghost use Rattle.sc_gen_code.specs.Code.{a0, a2};
ghost use Rattle.sc_gen_code.specs.Operators as spec;
ghost use Rattle.sc_gen_code.specs.declared.symbolic.Symbolic.TheVariants.{Plain};

use crate::code::{A0, A1, A2, T1, X0, addi, li, put, put_one, shift_of};
use crate::symbolic::Symbolic;
use sc_base::{Int, Items, NoMemory, Op};
use sc_core::{Step, UnaryOperator};
use sc_isa::{BranchOp, ImmOp, Instr, LoadOp, RegOp, StoreOp};
use sc_types::CType;

/// The integer type as which a scalar is read, written and worked with: a pointer is like an `unsigned int`.
pub fn machine_type(t: &CType) -> Int
    ensures { result ≡ spec.machine_type t.now }
{
    match t {
        CType::Int(k, _) => *k,
        CType::Void(_) => Int::UInt,
        CType::Pointer(_, _) => Int::UInt,
        CType::Array(_, _) => Int::UInt,
        CType::Struct(_, _) => Int::UInt,
        CType::Function(_) => Int::UInt,
    }
}

/// Whether it is a pointer type.
pub fn is_pointer(t: &CType) -> bool
    ensures { result ≡ spec.is_pointer t.now }
{
    match t {
        CType::Pointer(_, _) => true,
        CType::Int(_, _) => false,
        CType::Void(_) => false,
        CType::Array(_, _) => false,
        CType::Struct(_, _) => false,
        CType::Function(_) => false,
    }
}

/// Whether it is an integer or a pointer type.
pub fn is_scalar(t: &CType) -> bool
    ensures { result ≡ spec.is_scalar t.now }
{
    match t {
        CType::Int(_, _) => true,
        CType::Pointer(_, _) => true,
        CType::Void(_) => false,
        CType::Array(_, _) => false,
        CType::Struct(_, _) => false,
        CType::Function(_) => false,
    }
}

/// How a scalar of an integer type is read.
pub fn load_of(k: Int) -> LoadOp
    ensures { result ≡ spec.load_of k }
{
    match k {
        Int::Char => LoadOp::Lbu,
        Int::UChar => LoadOp::Lbu,
        Int::SChar => LoadOp::Lb,
        Int::Short => LoadOp::Lh,
        Int::UShort => LoadOp::Lhu,
        Int::Int => LoadOp::Lw,
        Int::UInt => LoadOp::Lw,
        Int::Long => LoadOp::Lw,
        Int::ULong => LoadOp::Lw,
    }
}

/// How a scalar of an integer type is written.
pub fn store_of(k: Int) -> StoreOp
    ensures { result ≡ spec.store_of k }
{
    match k {
        Int::Char => StoreOp::Sb,
        Int::UChar => StoreOp::Sb,
        Int::SChar => StoreOp::Sb,
        Int::Short => StoreOp::Sh,
        Int::UShort => StoreOp::Sh,
        Int::Int => StoreOp::Sw,
        Int::UInt => StoreOp::Sw,
        Int::Long => StoreOp::Sw,
        Int::ULong => StoreOp::Sw,
    }
}

/// A scalar is read from the place so many bytes behind that to which a register points.
pub fn load(t: &CType, rd: u8, base: u8, n: u32) -> Instr
    requires { n < 2048 }
    ensures { Plain result ≡ spec.load t.now rd base n }
{
    Instr::Load(load_of(machine_type(t)), rd, base, n as i32)
}

/// A scalar is written to the place so many bytes behind that to which a register points.
pub fn store(t: &CType, rs: u8, base: u8, n: u32) -> Instr
    requires { n < 2048 }
    ensures { Plain result ≡ spec.store t.now rs base n }
{
    Instr::Store(store_of(machine_type(t)), rs, base, n as i32)
}

fn apply(op: RegOp, rd: u8, rs: u8, rt: u8) -> Instr
    ensures { result ≡ Instr.Reg op rd rs rt }
{
    Instr::Reg(op, rd, rs, rt)
}

fn narrowed(code: &mut Items<Symbolic>, k: Int, r: u8) -> Result<(), NoMemory>
    ensures { OnOk result (code.new ≡ code.old ++ spec.narrowed k r) }
{
    match k {
        Int::Char => put_one(code, Instr::Imm(ImmOp::Andi, r, r, 255)),
        Int::UChar => put_one(code, Instr::Imm(ImmOp::Andi, r, r, 255)),
        Int::SChar => {
            put(
                code,
                &[
                    Instr::Imm(ImmOp::Slli, r, r, 24),
                    Instr::Imm(ImmOp::Srai, r, r, 24),
                ],
            )
        }
        Int::Short => {
            put(
                code,
                &[
                    Instr::Imm(ImmOp::Slli, r, r, 16),
                    Instr::Imm(ImmOp::Srai, r, r, 16),
                ],
            )
        }
        Int::UShort => {
            put(
                code,
                &[
                    Instr::Imm(ImmOp::Slli, r, r, 16),
                    Instr::Imm(ImmOp::Srli, r, r, 16),
                ],
            )
        }
        Int::Int => Ok(()),
        Int::UInt => Ok(()),
        Int::Long => Ok(()),
        Int::ULong => Ok(()),
    }
}

/// A register's number becomes one of a type.
pub fn convert(code: &mut Items<Symbolic>, t: &CType, r: u8) -> Result<(), NoMemory>
    ensures { OnOk result (code.new ≡ code.old ++ spec.convert t.now r) }
{
    narrowed(code, machine_type(t), r)
}

fn is_word(k: Int) -> bool
    ensures { result ≡ spec.is_word k }
{
    match k {
        Int::Char => false,
        Int::SChar => false,
        Int::UChar => false,
        Int::Short => false,
        Int::UShort => false,
        Int::Int => true,
        Int::UInt => true,
        Int::Long => true,
        Int::ULong => true,
    }
}

/// Whether a value of one type is one of another as it stands.
pub fn is_free(from: &CType, to: &CType) -> bool
    ensures { result ≡ spec.is_free from.now to.now }
{
    machine_type(from) == machine_type(to) || is_word(machine_type(to))
}

/// A register's value of one type becomes one of another.
pub fn reconvert(
    code: &mut Items<Symbolic>,
    from: &CType,
    to: &CType,
    r: u8,
) -> Result<(), NoMemory>
    ensures { OnOk result (code.new ≡ code.old ++ spec.reconvert from.now to.now r) }
{
    if is_free(from, to) {
        Ok(())
    } else {
        convert(code, to, r)
    }
}

/// A register gets another's number of elements as one of bytes.
fn scale(code: &mut Items<Symbolic>, r: u8, size: u32) -> Result<(), NoMemory>
    ensures { OnOk result (code.new ≡ code.old ++ spec.scale r size) }
{
    match shift_of(size) {
        Some(k) => put_one(code, Instr::Imm(ImmOp::Slli, T1, r, k)),
        None => {
            li(code, T1, size)?;
            put_one(code, apply(RegOp::Mul, T1, r, T1))
        }
    }
}

/// A number of elements is added to a pointer, or taken away: `a0 = x op y`, where `y` is the number.
pub fn advanced(code: &mut Items<Symbolic>, op: Op, size: u32, x: u8, y: u8) -> Result<(), NoMemory>
    ensures { OnOk result (code.new ≡ code.old ++ spec.advanced op size x y) }
{
    if size == 1 {
        return put_one(code, apply(add_or_sub(op), A0, x, y));
    }
    scale(code, y, size)?;
    put_one(code, apply(add_or_sub(op), A0, x, T1))
}

/// Whether operators work without sign.
pub fn is_unsigned(k: Int) -> bool
    ensures { result ≡ spec.is_unsigned k }
{
    match k {
        Int::UInt => true,
        Int::ULong => true,
        Int::Char => false,
        Int::SChar => false,
        Int::UChar => false,
        Int::Short => false,
        Int::UShort => false,
        Int::Int => false,
        Int::Long => false,
    }
}

fn by_sign(unsigned: bool, plain: RegOp, signed: RegOp) -> RegOp
    ensures { result ≡ spec.by_sign unsigned plain signed }
{
    if unsigned { plain } else { signed }
}

fn put_inverted(code: &mut Items<Symbolic>, first: Instr) -> Result<(), NoMemory>
    ensures { OnOk result (code.new ≡ code.old ++ Plain first ∷ spec.inverted ∷ []) }
{
    put(code, &[first, Instr::Imm(ImmOp::Xori, A0, A0, 1)])
}

/// `x op y`, where both stand in registers (ANSI 3.3.5 to 3.3.12).
pub fn operate(
    code: &mut Items<Symbolic>,
    op: Op,
    unsigned: bool,
    x: u8,
    y: u8,
) -> Result<(), NoMemory>
    ensures { OnOk result (code.new ≡ code.old ++ spec.operate op unsigned x y) }
{
    match op {
        Op::Add => put_one(code, apply(RegOp::Add, A0, x, y)),
        Op::Sub => put_one(code, apply(RegOp::Sub, A0, x, y)),
        Op::Mul => put_one(code, apply(RegOp::Mul, A0, x, y)),
        Op::Div => put_one(
            code,
            apply(by_sign(unsigned, RegOp::Divu, RegOp::Div), A0, x, y),
        ),
        Op::Rem => put_one(
            code,
            apply(by_sign(unsigned, RegOp::Remu, RegOp::Rem), A0, x, y),
        ),
        Op::Shl => put_one(code, apply(RegOp::Sll, A0, x, y)),
        Op::Shr => put_one(
            code,
            apply(by_sign(unsigned, RegOp::Srl, RegOp::Sra), A0, x, y),
        ),
        Op::And => put_one(code, apply(RegOp::And, A0, x, y)),
        Op::Or => put_one(code, apply(RegOp::Or, A0, x, y)),
        Op::Xor => put_one(code, apply(RegOp::Xor, A0, x, y)),
        Op::Lt => put_one(
            code,
            apply(by_sign(unsigned, RegOp::Sltu, RegOp::Slt), A0, x, y),
        ),
        Op::Gt => put_one(
            code,
            apply(by_sign(unsigned, RegOp::Sltu, RegOp::Slt), A0, y, x),
        ),
        Op::Le => put_inverted(
            code,
            apply(by_sign(unsigned, RegOp::Sltu, RegOp::Slt), A0, y, x),
        ),
        Op::Ge => put_inverted(
            code,
            apply(by_sign(unsigned, RegOp::Sltu, RegOp::Slt), A0, x, y),
        ),
        Op::Eq => put(
            code,
            &[
                apply(RegOp::Xor, A0, x, y),
                Instr::Imm(ImmOp::Sltiu, A0, A0, 1),
            ],
        ),
        Op::Ne => put(
            code,
            &[apply(RegOp::Xor, A0, x, y), apply(RegOp::Sltu, A0, X0, A0)],
        ),
        Op::Neg => Ok(()),
        Op::Not => Ok(()),
        Op::Truth => Ok(()),
        Op::Inc => Ok(()),
        Op::Dec => Ok(()),
    }
}

/// `+ - ~ !` before an operand (ANSI 3.3.3.3).
pub fn unary(code: &mut Items<Symbolic>, op: UnaryOperator) -> Result<(), NoMemory>
    ensures { OnOk result (code.new ≡ code.old ++ spec.unary_of op) }
{
    match op {
        UnaryOperator::Plus => Ok(()),
        UnaryOperator::Minus => put_one(code, apply(RegOp::Sub, A0, X0, A0)),
        UnaryOperator::Complement => put_one(code, Instr::Imm(ImmOp::Xori, A0, A0, -1)),
        UnaryOperator::Not => put_one(code, Instr::Imm(ImmOp::Sltiu, A0, A0, 1)),
    }
}

fn add_or_sub(op: Op) -> RegOp
    ensures { result ≡ spec.add_or_sub op }
{
    if op == Op::Sub {
        RegOp::Sub
    } else {
        RegOp::Add
    }
}

/// `+` and `-` of a pointer and an integer, which stand in registers (ANSI 3.3.6).
pub fn moved(
    code: &mut Items<Symbolic>,
    op: Op,
    pointer_first: bool,
    size: u32,
    x: u8,
    y: u8,
) -> Result<(), NoMemory>
    ensures { OnOk result (code.new ≡ code.old ++ spec.moved op pointer_first size x y) }
{
    if pointer_first {
        advanced(code, op, size, x, y)
    } else {
        advanced(code, Op::Add, size, y, x)
    }
}

/// The difference of two pointers in elements (ANSI 3.3.6).
pub fn difference(code: &mut Items<Symbolic>, size: u32, x: u8, y: u8) -> Result<(), NoMemory>
    ensures { OnOk result (code.new ≡ code.old ++ spec.difference size x y) }
{
    put_one(code, apply(RegOp::Sub, A0, x, y))?;
    if size == 1 {
        return Ok(());
    }
    match shift_of(size) {
        Some(k) => put_one(code, Instr::Imm(ImmOp::Srai, A0, A0, k)),
        None => {
            li(code, T1, size)?;
            put_one(code, apply(RegOp::Div, A0, A0, T1))
        }
    }
}

/// Whether an instruction has room for a number.
pub fn is_short(n: i32) -> bool
    ensures { result ≡ spec.is_short n }
{
    -2048 <= n && n <= 2047
}

fn short(op: ImmOp, x: u8, n: i32) -> Option<Instr>
    ensures { option_map Plain result ≡ spec.short op x n }
{
    if is_short(n) {
        Some(Instr::Imm(op, A0, x, n))
    } else {
        None
    }
}

fn shifted(op: ImmOp, x: u8, n: u32) -> Option<Instr>
    ensures { option_map Plain result ≡ spec.shifted op x n }
{
    if n < 32 {
        Some(Instr::Imm(op, A0, x, n as i32))
    } else {
        None
    }
}

fn multiplied(x: u8, n: u32) -> Option<Instr>
    ensures { option_map Plain result ≡ spec.multiplied x n }
{
    match shift_of(n) {
        Some(k) => Some(Instr::Imm(ImmOp::Slli, A0, x, k)),
        None => None,
    }
}

fn imm_by_sign(unsigned: bool, plain: ImmOp, signed: ImmOp) -> ImmOp
    ensures { result ≡ spec.imm_by_sign unsigned plain signed }
{
    if unsigned { plain } else { signed }
}

/// `x op n` as one instruction, where there is one (ANSI 3.3.5 to 3.3.12).
pub fn immediate(op: Op, unsigned: bool, x: u8, n: u32) -> Option<Instr>
    ensures { option_map Plain result ≡ spec.immediate op unsigned x n }
{
    match op {
        Op::Add => short(ImmOp::Addi, x, n.cast_signed()),
        Op::Sub => short(ImmOp::Addi, x, 0u32.wrapping_sub(n).cast_signed()),
        Op::And => short(ImmOp::Andi, x, n.cast_signed()),
        Op::Or => short(ImmOp::Ori, x, n.cast_signed()),
        Op::Xor => short(ImmOp::Xori, x, n.cast_signed()),
        Op::Lt => short(
            imm_by_sign(unsigned, ImmOp::Sltiu, ImmOp::Slti),
            x,
            n.cast_signed(),
        ),
        Op::Shl => shifted(ImmOp::Slli, x, n),
        Op::Shr => shifted(imm_by_sign(unsigned, ImmOp::Srli, ImmOp::Srai), x, n),
        Op::Mul => multiplied(x, n),
        Op::Eq => {
            if n == 0 {
                Some(Instr::Imm(ImmOp::Sltiu, A0, x, 1))
            } else {
                None
            }
        }
        Op::Ne => {
            if n == 0 {
                Some(apply(RegOp::Sltu, A0, X0, x))
            } else {
                None
            }
        }
        Op::Div => None,
        Op::Rem => None,
        Op::Gt => None,
        Op::Le => None,
        Op::Ge => None,
        Op::Neg => None,
        Op::Not => None,
        Op::Truth => None,
        Op::Inc => None,
        Op::Dec => None,
    }
}

/// How many bytes so many elements are, where that is less than 2,048.
pub fn bytes_of(count: u32, size: u32) -> Option<u32>
    ensures { result ≡ spec.bytes_of count size }
{
    if count < 2048 && size < 2048 && count * size < 2048 {
        Some(count * size)
    } else {
        None
    }
}

/// `x` is moved by so many bytes.
pub fn by_bytes(op: Op, x: u8, n: u32) -> Instr
    requires { n < 2048 }
    ensures { Plain result ≡ spec.by_bytes op x n }
{
    if op == Op::Sub {
        addi(A0, x, -(n as i32))
    } else {
        addi(A0, x, n as i32)
    }
}

fn branch_by_sign(unsigned: bool, plain: BranchOp, signed: BranchOp) -> BranchOp
    ensures { result ≡ spec.branch_by_sign unsigned plain signed }
{
    if unsigned { plain } else { signed }
}

fn branch_op(op: Op, unsigned: bool) -> BranchOp
    ensures { result ≡ spec.branch_op op unsigned }
{
    match op {
        Op::Lt => branch_by_sign(unsigned, BranchOp::Bltu, BranchOp::Blt),
        Op::Gt => branch_by_sign(unsigned, BranchOp::Bltu, BranchOp::Blt),
        Op::Le => branch_by_sign(unsigned, BranchOp::Bgeu, BranchOp::Bge),
        Op::Ge => branch_by_sign(unsigned, BranchOp::Bgeu, BranchOp::Bge),
        Op::Eq => BranchOp::Beq,
        _ => BranchOp::Bne,
    }
}

fn is_swapped(op: Op) -> bool
    ensures { result ≡ spec.is_swapped op }
{
    match op {
        Op::Gt => true,
        Op::Le => true,
        _ => false,
    }
}

fn negated(op: Op) -> Op
    ensures { result ≡ spec.negated op }
{
    match op {
        Op::Lt => Op::Ge,
        Op::Gt => Op::Le,
        Op::Le => Op::Gt,
        Op::Ge => Op::Lt,
        Op::Eq => Op::Ne,
        _ => Op::Eq,
    }
}

/// Whether it is a comparison.
pub fn is_comparison(op: Op) -> bool
    ensures { result ≡ spec.is_comparison op }
{
    match op {
        Op::Lt => true,
        Op::Gt => true,
        Op::Le => true,
        Op::Ge => true,
        Op::Eq => true,
        Op::Ne => true,
        _ => false,
    }
}

/// A jump of so many bytes where the truth of `x op y` is the one that is said.
pub fn branch(op: Op, unsigned: bool, sense: bool, x: u8, y: u8, z: i32) -> Instr
    ensures { Plain result ≡ spec.branch op unsigned sense x y z }
{
    let o = if sense { op } else { negated(op) };
    if is_swapped(o) {
        Instr::Branch(branch_op(o, unsigned), y, x, z)
    } else {
        Instr::Branch(branch_op(o, unsigned), x, y, z)
    }
}

/// A place so many bytes behind the one in `a0` (ANSI 3.3.2.3).
pub fn further(code: &mut Items<Symbolic>, n: u32) -> Result<(), NoMemory>
    ensures { OnOk result (code.new ≡ code.old ++ spec.further n) }
{
    if n == 0 {
        return Ok(());
    }
    if n < 2048 {
        return put_one(code, addi(A0, A0, n as i32));
    }
    li(code, T1, n)?;
    put_one(code, apply(RegOp::Add, A0, A0, T1))
}

fn is_increment(step: Step) -> bool
    ensures { result ≡ spec.is_increment step }
{
    match step {
        Step::IncrementFirst => true,
        Step::IncrementAfter => true,
        Step::DecrementFirst => false,
        Step::DecrementAfter => false,
    }
}

fn addend(step: Step, n: u32) -> u32
    ensures { result ≡ spec.addend step n }
{
    if is_increment(step) {
        n
    } else {
        0u32.wrapping_sub(n)
    }
}

fn is_before(step: Step) -> bool
    ensures { result ≡ spec.is_before step }
{
    match step {
        Step::IncrementFirst => true,
        Step::DecrementFirst => true,
        Step::IncrementAfter => false,
        Step::DecrementAfter => false,
    }
}

/// The next value of what is in `a0`, into a register.
pub fn next_value(
    code: &mut Items<Symbolic>,
    step: Step,
    n: u32,
    t: &CType,
    rd: u8,
) -> Result<(), NoMemory>
    ensures { OnOk result (code.new ≡ code.old ++ spec.next_value step n t.now rd) }
{
    let z = addend(step, n).cast_signed();
    if is_short(z) {
        put_one(code, addi(rd, A0, z))?;
    } else {
        li(code, T1, addend(step, n))?;
        put_one(code, apply(RegOp::Add, rd, A0, T1))?;
    }
    convert(code, t, rd)
}

/// Where the next value is put: it ends in `a0` where the operator stands in front.
pub fn next_register(step: Step) -> u8
    ensures { result ≡ spec.next_register step }
{
    if is_before(step) { A0 } else { A2 }
}

/// `++` and `--` on the place so many bytes behind that in `a0` (ANSI 3.3.2.4, 3.3.3.1).
pub fn stepped(
    code: &mut Items<Symbolic>,
    step: Step,
    n: u32,
    t: &CType,
    away: u32,
) -> Result<(), NoMemory>
    requires { away < 2048 }
    ensures { OnOk result (code.new ≡ code.old ++ spec.stepped step n t.now away) }
{
    put(code, &[addi(A1, A0, 0), load(t, A0, A1, away)])?;
    next_value(code, step, n, t, next_register(step))?;
    put_one(code, store(t, next_register(step), A1, away))
}

/// What stood in `a2` is changed by an operator and the integer in `a0` (ANSI 3.3.16.2).
pub fn changed(code: &mut Items<Symbolic>, op: Op, k: Int, t: &CType) -> Result<(), NoMemory>
    ensures { OnOk result (code.new ≡ code.old ++ spec.changed op k t.now) }
{
    operate(code, op, is_unsigned(k), A2, A0)?;
    convert(code, t, A0)
}
