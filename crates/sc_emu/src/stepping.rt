// One step (RISC-V unprivileged manual, RV32I and the extension M).
ghost use Rattle.std.specs.Prelude.{◌≡◌, ◌^◌, ◌<◌, ◌/◌, ◌*◌, ⊤, IfSome, Some};
ghost use Rattle.sc_isa.specs.Table.{IsSound};
ghost use Rattle.sc_isa_image.specs.Lookups.{word_at};
ghost use Rattle.sc_isa.specs.declared.instruction.Instr.TheVariants as instr;
ghost use Rattle.sc_emu.specs.Operations.{bits_of, plain as plain_of, sum};
ghost use Rattle.sc_emu.specs.Registers.{register, with_word};
ghost use Rattle.sc_emu.specs.Machine.{Gives, IsStore, act as acted, fetched, obeys, rv_step, state_of, told};

use crate::operations::{is_taken, load_size, loaded, of_two, store_size, with_constant};
use crate::outcome::{Crash, Done, Step};
use crate::registers::{Regs, plain};
use sc_base::{NoMemory, Word};
use sc_isa::{Instr, LoadOp, StoreOp};
use sc_isa_image::Image;
use sc_mem::Memory;

/// Where calls from outside return to. No text and no stub is there.
pub const RETURN: u32 = 0xf000;

/// One step: the instruction at the next address is carried out on the registers and the memory.
#[inline(always)]
pub fn step(regs: &mut Regs, image: &Image, mem: &mut Memory) -> Step
    ensures step { Gives (rv_step (word_at image.now) (state_of regs.old mem.old.flat)) (IsStore (fetched (word_at image.now) (state_of regs.old mem.old.flat))) (state_of regs.old mem.old.flat) (state_of regs.new mem.new.flat) result }
    ensures blocks { mem.new.blocks ≡ mem.old.blocks }
{
    let pc = regs.pc();
    if pc == RETURN {
        return Step::AtReturn;
    }
    if pc % 4 != 0 {
        return Step::Stopped(Crash::Misfetch);
    }
    let done = carry_out(regs, mem, image.instruction(pc));
    told(done, regs)
}

// What is told of it. An `ecall` leaves the number of its service in t0.
#[inline(always)]
fn told(done: Done, regs: &Regs) -> Step
    ensures { result ≡ told done (register regs.now 5).bits }
{
    match done {
        Done::Finished => Step::Went,
        Done::Asked => Step::Service(regs.get(5).bits),
        Done::NoWord => Step::Stopped(Crash::BadFetch),
        Done::NoInstruction => Step::Stopped(Crash::Illegal),
        Done::Unaligned => Step::Stopped(Crash::Misaligned),
        Done::NoArea => Step::Stopped(Crash::Outside),
        Done::NoRoom => Step::NoMemory,
    }
}

// Carries out the instruction that was fetched, where there is a word and it is one.
#[inline(always)]
fn carry_out(regs: &mut Regs, mem: &mut Memory, fetched: Option<Option<Instr>>) -> Done
    requires { IfSome fetched (λ r. IfSome r (λ i. IsSound i)) }
    ensures step { Gives (obeys fetched (state_of regs.old mem.old.flat)) (IsStore fetched) (state_of regs.old mem.old.flat) (state_of regs.new mem.new.flat) (told result (register regs.new 5).bits) }
    ensures blocks { mem.new.blocks ≡ mem.old.blocks }
{
    match fetched {
        None => Done::NoWord,
        Some(None) => Done::NoInstruction,
        Some(Some(i)) => act(regs, mem, i),
    }
}

// Carries out an instruction.
#[inline(always)]
fn act(regs: &mut Regs, mem: &mut Memory, i: Instr) -> Done
    requires { IsSound i }
    ensures step { Gives (acted i (state_of regs.old mem.old.flat)) (IsStore (Some (Some i))) (state_of regs.old mem.old.flat) (state_of regs.new mem.new.flat) (told result (register regs.new 5).bits) }
    ensures blocks { mem.new.blocks ≡ mem.old.blocks }
{
    match i {
        Instr::Lui(rd, upper) => put(regs, rd, plain(upper << 12)),
        Instr::Auipc(rd, upper) => {
            let at = regs.pc().wrapping_add(upper << 12);
            put(regs, rd, plain(at))
        }
        Instr::Jal(rd, offset) => {
            let to = regs.pc().wrapping_add(offset.cast_unsigned());
            jump(regs, rd, to)
        }
        Instr::Jalr(rd, base, offset) => {
            let to = address(regs, base, offset) / 2 * 2;
            jump(regs, rd, to)
        }
        Instr::Branch(op, a, b, offset) => {
            if is_taken(op, regs.get(a).bits, regs.get(b).bits) {
                let to = regs.pc().wrapping_add(offset.cast_unsigned());
                regs.set_pc(to);
            } else {
                go_on(regs);
            }
            Done::Finished
        }
        Instr::Load(LoadOp::Lw, rd, base, offset) => load(regs, mem, LoadOp::Lw, rd, base, offset),
        Instr::Load(op, rd, base, offset) => load_part(regs, mem, op, rd, base, offset),
        Instr::Store(StoreOp::Sw, value, base, offset) => store(
            regs,
            mem,
            StoreOp::Sw,
            value,
            base,
            offset,
        ),
        Instr::Store(op, value, base, offset) => store_part(regs, mem, op, value, base, offset),
        Instr::Imm(op, rd, a, constant) => {
            let w = with_constant(op, regs.get(a), constant.cast_unsigned());
            put(regs, rd, w)
        }
        Instr::Reg(op, rd, a, b) => {
            let w = of_two(op, regs.get(a), regs.get(b));
            put(regs, rd, w)
        }
        Instr::Ecall => {
            go_on(regs);
            Done::Asked
        }
        Instr::Fence => {
            go_on(regs);
            Done::Finished
        }
    }
}

// The next instruction is the one behind.
#[inline(always)]
pub fn go_on(regs: &mut Regs)
    ensures { regs.new ≡ record { pc = sum regs.old.pc 4; words = regs.old.words } }
{
    let next = regs.pc().wrapping_add(4);
    regs.set_pc(next);
}

// A register gets a word, and the next instruction is the one behind.
#[inline(always)]
pub fn put(regs: &mut Regs, rd: u8, w: Word) -> Done
    requires { rd < 32 }
    ensures regs { regs.new ≡ record { pc = sum regs.old.pc 4; words = with_word regs.old.words rd w } }
    ensures went { result ≡ Done.Finished }
{
    regs.set(rd, w);
    go_on(regs);
    Done::Finished
}

// A register gets the address of the instruction behind, and the next one is at another address.
#[inline(always)]
pub fn jump(regs: &mut Regs, rd: u8, to: u32) -> Done
    requires { rd < 32 }
    ensures regs { regs.new ≡ record { pc = to; words = with_word regs.old.words rd (plain_of (sum regs.old.pc 4)) } }
    ensures went { result ≡ Done.Finished }
{
    let back = regs.pc().wrapping_add(4);
    regs.set(rd, plain(back));
    regs.set_pc(to);
    Done::Finished
}

// The address of a load, a store or a jump by a register.
#[inline(always)]
pub fn address(regs: &Regs, base: u8, offset: i32) -> u32
    requires { base < 32 }
    ensures { result ≡ sum (register regs.now base).bits (bits_of offset) }
{
    regs.get(base).bits.wrapping_add(offset.cast_unsigned())
}

#[inline(always)]
fn load(regs: &mut Regs, mem: &Memory, op: LoadOp, rd: u8, base: u8, offset: i32) -> Done
    requires rd { rd < 32 }
    requires base { base < 32 }
    ensures { Gives (acted (instr.Load op rd base offset) (state_of regs.old mem.now.flat)) ⊥ (state_of regs.old mem.now.flat) (state_of regs.new mem.now.flat) (told result (register regs.new 5).bits) }
{
    let at = address(regs, base, offset);
    let size = load_size(op);
    if at % u32::from(size) != 0 {
        return Done::Unaligned;
    }
    match mem.raw_load(at, size) {
        None => Done::NoArea,
        Some(w) => put(regs, rd, loaded(op, w)),
    }
}

#[inline(always)]
fn store(regs: &mut Regs, mem: &mut Memory, op: StoreOp, value: u8, base: u8, offset: i32) -> Done
    requires value { value < 32 }
    requires base { base < 32 }
    ensures step { Gives (acted (instr.Store op value base offset) (state_of regs.old mem.old.flat)) ⊤ (state_of regs.old mem.old.flat) (state_of regs.new mem.new.flat) (told result (register regs.new 5).bits) }
    ensures blocks { mem.new.blocks ≡ mem.old.blocks }
{
    let at = address(regs, base, offset);
    let size = store_size(op);
    if at % u32::from(size) != 0 {
        return Done::Unaligned;
    }
    match mem.raw_store(at, size, regs.get(value)) {
        Ok(Some(())) => {
            go_on(regs);
            Done::Finished
        }
        Ok(None) => Done::NoArea,
        Err(NoMemory) => Done::NoRoom,
    }
}

// The same of a byte or two, apart from the loop that steps are taken in.
#[inline(never)]
fn load_part(regs: &mut Regs, mem: &Memory, op: LoadOp, rd: u8, base: u8, offset: i32) -> Done
    requires rd { rd < 32 }
    requires base { base < 32 }
    ensures { Gives (acted (instr.Load op rd base offset) (state_of regs.old mem.now.flat)) ⊥ (state_of regs.old mem.now.flat) (state_of regs.new mem.now.flat) (told result (register regs.new 5).bits) }
{
    load(regs, mem, op, rd, base, offset)
}

#[inline(never)]
fn store_part(
    regs: &mut Regs,
    mem: &mut Memory,
    op: StoreOp,
    value: u8,
    base: u8,
    offset: i32,
) -> Done
    requires value { value < 32 }
    requires base { base < 32 }
    ensures step { Gives (acted (instr.Store op value base offset) (state_of regs.old mem.old.flat)) ⊤ (state_of regs.old mem.old.flat) (state_of regs.new mem.new.flat) (told result (register regs.new 5).bits) }
    ensures blocks { mem.new.blocks ≡ mem.old.blocks }
{
    store(regs, mem, op, value, base, offset)
}
