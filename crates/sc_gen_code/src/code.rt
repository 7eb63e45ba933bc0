// Short sequences of instructions (RISC-V unprivileged manual, RV32IM).
ghost use Rattle.std.specs.Prelude.{◌≡◌, ℕ, ◌+◌, ◌-◌, ◌<◌, ◌≤◌, [], ◌∷◌, ◌++◌, if◌then◌else◌, length, map, slice_set, OnOk, IfOk, pos};
ghost use Rattle.sc_gen_code.specs.Code as spec;
ghost use Rattle.sc_gen_code.specs.declared.symbolic.Symbolic.TheVariants.{Plain};

use crate::symbolic::{Access, Symbolic, Target};
use sc_base::{Duplicate, Items, NoMemory};
use sc_isa::{BranchOp, ImmOp, Instr, LoadOp, RegOp, StoreOp};
use sc_isa_image::{lower, upper};
use std::alloc::Global;

/// Zero.
pub const X0: u8 = 0;
/// Where a call returns.
pub const RA: u8 = 1;
/// The low end of the frame.
pub const SP: u8 = 2;
/// The number of a service, and the base of what is far.
pub const T0: u8 = 5;
/// A block's number, a constant, what is called, the last argument.
pub const T1: u8 = 6;
/// What goes on to the stack, and the number of `printf`'s arguments.
pub const T2: u8 = 7;
/// The answer of an expression.
pub const A0: u8 = 10;
/// The left operand, or the place that is written.
pub const A1: u8 = 11;
/// What a place held, or is to hold.
pub const A2: u8 = 12;

/// Some instructions more.
pub fn put(code: &mut Items<Symbolic>, instructions: &[Instr]) -> Result<(), NoMemory>
    ensures { OnOk result (code.new ≡ code.old ++ map Plain instructions.now) }
{
    for instruction in instructions {
        code.push(Symbolic::Plain(*instruction))?;
    }
    Ok(())
}

/// One instruction more.
pub fn put_one(code: &mut Items<Symbolic>, instruction: Instr) -> Result<(), NoMemory>
    ensures { OnOk result (code.new ≡ code.old ++ Plain instruction ∷ []) }
{
    code.push(Symbolic::Plain(instruction))
}

/// `rd = rs + n`.
pub fn addi(rd: u8, rs: u8, n: i32) -> Instr
    ensures { Plain result ≡ spec.addi rd rs n }
{
    Instr::Imm(ImmOp::Addi, rd, rs, n)
}

/// A register gets a number of 32 bits.
pub fn li(code: &mut Items<Symbolic>, rd: u8, n: u32) -> Result<(), NoMemory>
    ensures { OnOk result (code.new ≡ code.old ++ spec.li rd n) }
{
    if n < 2048 || 4_294_965_248 <= n {
        put_one(code, addi(rd, X0, n.cast_signed()))
    } else {
        put(code, &[Instr::Lui(rd, upper(n)), addi(rd, rd, lower(n))])
    }
}

/// What is done at a place, by a base and what is added to it.
pub fn accessed(what: Access, base: u8, n: i32) -> Instr
    ensures { result ≡ spec.accessed what base n }
{
    match what {
        Access::Load(op, rd) => Instr::Load(op, rd, base, n),
        Access::Store(op, rs) => Instr::Store(op, rs, base, n),
        Access::Address(rd) => Instr::Imm(ImmOp::Addi, rd, base, n),
    }
}

/// What is done at a place so many bytes above `sp`.
pub fn near(code: &mut Items<Symbolic>, offset: u32, what: Access) -> Result<(), NoMemory>
    ensures { OnOk result (code.new ≡ code.old ++ spec.near offset what) }
{
    if offset < 2048 {
        put_one(code, accessed(what, SP, offset as i32))
    } else {
        let high = Instr::Lui(T0, upper(offset));
        let base = Instr::Reg(RegOp::Add, T0, T0, SP);
        put(code, &[high, base, accessed(what, T0, lower(offset))])
    }
}

/// `a0` waits in a temporary.
pub fn push(code: &mut Items<Symbolic>, t: u32) -> Result<(), NoMemory>
    ensures { OnOk result (code.new ≡ code.old ++ spec.push t) }
{
    near(code, t, Access::Store(StoreOp::Sw, A0))
}

/// A register gets what waits in a temporary.
pub fn pop(code: &mut Items<Symbolic>, rd: u8, t: u32) -> Result<(), NoMemory>
    ensures { OnOk result (code.new ≡ code.old ++ spec.pop rd t) }
{
    near(code, t, Access::Load(LoadOp::Lw, rd))
}

/// A service without a block.
pub fn service(code: &mut Items<Symbolic>, number: u8) -> Result<(), NoMemory>
    ensures { OnOk result (code.new ≡ code.old ++ spec.service number) }
{
    put(code, &[addi(T0, X0, i32::from(number)), Instr::Ecall])
}

/// A service for a block of the function.
pub fn block_service(code: &mut Items<Symbolic>, number: u8, block: u32) -> Result<(), NoMemory>
    ensures { OnOk result (code.new ≡ code.old ++ spec.block_service number block) }
{
    put_one(code, addi(T0, X0, i32::from(number)))?;
    li(code, T1, block)?;
    put_one(code, Instr::Ecall)
}

/// `a0` gets the tag of what it points at.
pub fn tagged(code: &mut Items<Symbolic>) -> Result<(), NoMemory>
    ensures { OnOk result (code.new ≡ code.old ++ spec.tagged) }
{
    service(code, 4)
}

/// So many bytes are copied from `a1` to `a0`.
pub fn copied(code: &mut Items<Symbolic>, size: u32) -> Result<(), NoMemory>
    ensures { OnOk result (code.new ≡ code.old ++ spec.copied size) }
{
    li(code, A2, size)?;
    service(code, 5)
}

impl Duplicate for Target {
    fn copy(&self, alloc: Global) -> Result<Target, NoMemory> {
        match self {
            Target::Named(key) => Ok(Target::Named(key.copy(alloc)?)),
            Target::Literal(n) => Ok(Target::Literal(*n)),
        }
    }
}

/// What is done at the value of a target.
pub fn at_target(
    alloc: Global,
    code: &mut Items<Symbolic>,
    what: Access,
    target: Target,
) -> Result<(), NoMemory>
    ensures { OnOk result (code.new ≡ code.old ++ spec.at_target what target) }
{
    let again = target.copy(alloc)?;
    code.push(Symbolic::Upper(target))?;
    code.push(Symbolic::Lower(what, again))
}

/// What a word is multiplied with as a shift, where it is a small power of two: the number of places.
pub fn shift_of(n: u32) -> Option<i32>
    ensures { result ≡ spec.shift_of n }
{
    match n {
        1 => Some(0),
        2 => Some(1),
        4 => Some(2),
        8 => Some(3),
        16 => Some(4),
        32 => Some(5),
        64 => Some(6),
        128 => Some(7),
        256 => Some(8),
        512 => Some(9),
        1024 => Some(10),
        _ => None,
    }
}

/// A jump over so many words.
pub fn over(n: usize) -> Instr
    ensures { Plain result ≡ spec.over n }
{
    if n < 262143 {
        Instr::Jal(X0, (4 * n + 4) as i32)
    } else {
        Instr::Jal(X0, 0)
    }
}

/// A jump that is written later, and its place.
pub fn hole(code: &mut Items<Symbolic>) -> Result<usize, NoMemory>
    ensures opened { OnOk result (code.new ≡ code.old ++ spec.over 0 ∷ []) }
    ensures place { IfOk result (λ n. n ≡ length code.old) }
{
    let place = code.len();
    put_one(code, over(0))?;
    Ok(place)
}

fn one_if(more: bool) -> usize
    ensures value { result ≡ (if more then 1 else 0) }
    ensures few { result ≤ 1 }
{
    if more { 1 } else { 0 }
}

/// The word at a place becomes a jump over all that stands behind it, and over one word more where that is said.
pub fn close_behind(code: &mut Items<Symbolic>, place: usize, more: bool)
    ensures { code.new ≡ slice_set code.old place (spec.over (length code.old - (place + 1) + (if more then 1 else 0))) }
{
    if place < code.len() {
        let behind = code.len() - (place + 1) + one_if(more);
        code.set(place, Symbolic::Plain(over(behind)));
    }
}

/// The next word is left out where `a0` is not zero.
pub fn skip_if() -> Instr
    ensures { Plain result ≡ spec.skip_if }
{
    Instr::Branch(BranchOp::Bne, A0, X0, 8)
}

/// The next word is left out where `a0` is zero.
pub fn skip_unless() -> Instr
    ensures { Plain result ≡ spec.skip_unless }
{
    Instr::Branch(BranchOp::Beq, A0, X0, 8)
}

/// The jump that stands at one place and goes to another.
pub fn jump(from: usize, to: usize) -> Instr
    ensures { Plain result ≡ spec.jump from to }
{
    if from < 262144 && to < 262144 {
        Instr::Jal(X0, 4 * to as i32 - 4 * from as i32)
    } else {
        Instr::Jal(X0, 0)
    }
}

/// The word at a place becomes a jump over all that stands behind it.
pub fn close(code: &mut Items<Symbolic>, place: usize)
    ensures { code.new ≡ slice_set code.old place (spec.over (length code.old - (place + 1))) }
{
    if place < code.len() {
        let behind = code.len() - (place + 1);
        code.set(place, Symbolic::Plain(over(behind)));
    }
}

/// A word that may leave out the next one, which is a jump that is written later; the place of the jump.
pub fn open(code: &mut Items<Symbolic>, skip: Instr) -> Result<usize, NoMemory>
    ensures opened { OnOk result (code.new ≡ (code.old ++ Plain skip ∷ []) ++ spec.over 0 ∷ []) }
    ensures place { IfOk result (λ n. n ≡ length (code.old ++ Plain skip ∷ [])) }
{
    put_one(code, skip)?;
    let place = code.len();
    put_one(code, over(0))?;
    Ok(place)
}

/// A jump that is written later; one that was opened before leads behind it. The place of the new jump.
pub fn reopen(code: &mut Items<Symbolic>, opened: usize) -> Result<usize, NoMemory>
    ensures reopened { OnOk result (code.new ≡ slice_set (code.old ++ spec.over 0 ∷ []) opened (spec.over (length (code.old ++ spec.over 0 ∷ []) - (opened + 1)))) }
    ensures place { IfOk result (λ n. n ≡ length code.old) }
{
    let place = code.len();
    put_one(code, over(0))?;
    close(code, opened);
    Ok(place)
}
