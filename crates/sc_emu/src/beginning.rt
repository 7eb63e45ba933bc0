// A step up to its access of memory, for a memory that the caller holds.
ghost use Rattle.std.specs.Prelude.{◌≡◌, ◌<◌, IfSome, Some};
ghost use Rattle.sc_isa.specs.Table.{IsSound};
ghost use Rattle.sc_isa_image.specs.Lookups.{word_at};
ghost use Rattle.sc_mem.specs.Flat.{Flat};
ghost use Rattle.sc_emu.specs.Beginning.{Begins, IsTakeable};
ghost use Rattle.sc_emu.specs.Machine.{act as acted, acts, obeys, rv_step, state_of};
ghost use Rattle.sc_emu.specs.Operations.{loaded as loaded_of, sum};
ghost use Rattle.sc_emu.specs.Registers.{with_word};

use crate::operations::{is_taken, load_size, loaded, of_two, store_size, with_constant};
use crate::outcome::{Crash, Step};
use crate::registers::{Regs, plain};
use crate::stepping::{RETURN, address, go_on, jump, put};
use sc_base::Word;
use sc_isa::{Instr, LoadOp};
use sc_isa_image::Image;

/// What a step still needs of memory: nothing, for it is done; a load into a register; or a store of the low bytes of a word, `size`
/// of them. The address of an access is a multiple of its size; whether it is inside the areas is not tested.
#[derive(Clone, Copy, Debug, PartialEq, Eq)]
pub enum Need {
    Done(Step),
    Load { op: LoadOp, rd: u8, at: u32 },
    Store { size: u8, at: u32, word: Word },
}

/// A step up to its access of memory. Where it is done the registers are those behind it. Else they are as before; `take` ends a
/// load, and `pass` a store.
#[inline(always)]
pub fn begin(regs: &mut Regs, image: &Image) -> Need
    ensures step { (memory : Flat) → Begins (rv_step (word_at image.now) (state_of regs.old memory)) regs.old memory regs.new result }
    ensures register { IsTakeable result }
{
    let pc = regs.pc();
    if pc == RETURN {
        return Need::Done(Step::AtReturn);
    }
    if pc % 4 != 0 {
        return Need::Done(Step::Stopped(Crash::Misfetch));
    }
    obey(regs, image.instruction(pc))
}

/// A load ends with the word that memory has at its address.
#[inline(always)]
pub fn take(regs: &mut Regs, op: LoadOp, rd: u8, word: Word)
    requires { rd < 32 }
    ensures { regs.new ≡ record { pc = sum regs.old.pc 4; words = with_word regs.old.words rd (loaded_of op word) } }
{
    put(regs, rd, loaded(op, word));
}

/// A store ends.
#[inline(always)]
pub fn pass(regs: &mut Regs)
    ensures { regs.new ≡ record { pc = sum regs.old.pc 4; words = regs.old.words } }
{
    go_on(regs);
}

// The instruction that was fetched, where there is a word and it is one.
#[inline(always)]
fn obey(regs: &mut Regs, fetched: Option<Option<Instr>>) -> Need
    requires { IfSome fetched (λ r. IfSome r (λ i. IsSound i)) }
    ensures step { (memory : Flat) → Begins (obeys fetched (state_of regs.old memory)) regs.old memory regs.new result }
    ensures register { IsTakeable result }
{
    match fetched {
        None => Need::Done(Step::Stopped(Crash::BadFetch)),
        Some(read) => obey_read(regs, read),
    }
}

// A word that was read as an instruction, or is none.
#[inline(always)]
fn obey_read(regs: &mut Regs, read: Option<Instr>) -> Need
    requires { IfSome read (λ i. IsSound i) }
    ensures step { (memory : Flat) → Begins (acts read (state_of regs.old memory)) regs.old memory regs.new result }
    ensures register { IsTakeable result }
{
    match read {
        None => Need::Done(Step::Stopped(Crash::Illegal)),
        Some(i) => prepare(regs, i),
    }
}

// An instruction up to its access of memory.
#[inline(always)]
fn prepare(regs: &mut Regs, i: Instr) -> Need
    requires { IsSound i }
    ensures step { (memory : Flat) → Begins (acted i (state_of regs.old memory)) regs.old memory regs.new result }
    ensures register { IsTakeable result }
{
    match i {
        Instr::Lui(rd, upper) => {
            put(regs, rd, plain(upper << 12));
            Need::Done(Step::Went)
        }
        Instr::Auipc(rd, upper) => {
            let at = regs.pc().wrapping_add(upper << 12);
            put(regs, rd, plain(at));
            Need::Done(Step::Went)
        }
        Instr::Jal(rd, offset) => {
            let to = regs.pc().wrapping_add(offset.cast_unsigned());
            jump(regs, rd, to);
            Need::Done(Step::Went)
        }
        Instr::Jalr(rd, base, offset) => {
            let to = address(regs, base, offset) / 2 * 2;
            jump(regs, rd, to);
            Need::Done(Step::Went)
        }
        Instr::Branch(op, a, b, offset) => {
            if is_taken(op, regs.get(a).bits, regs.get(b).bits) {
                let to = regs.pc().wrapping_add(offset.cast_unsigned());
                regs.set_pc(to);
            } else {
                go_on(regs);
            }
            Need::Done(Step::Went)
        }
        Instr::Load(op, rd, base, offset) => {
            let at = address(regs, base, offset);
            if at % u32::from(load_size(op)) != 0 {
                return Need::Done(Step::Stopped(Crash::Misaligned));
            }
            Need::Load { op, rd, at }
        }
        Instr::Store(op, value, base, offset) => {
            let at = address(regs, base, offset);
            let size = store_size(op);
            if at % u32::from(size) != 0 {
                return Need::Done(Step::Stopped(Crash::Misaligned));
            }
            let word = regs.get(value);
            Need::Store { size, at, word }
        }
        Instr::Imm(op, rd, a, constant) => {
            let w = with_constant(op, regs.get(a), constant.cast_unsigned());
            put(regs, rd, w);
            Need::Done(Step::Went)
        }
        Instr::Reg(op, rd, a, b) => {
            let w = of_two(op, regs.get(a), regs.get(b));
            put(regs, rd, w);
            Need::Done(Step::Went)
        }
        Instr::Ecall => {
            let service = regs.get(5).bits;
            go_on(regs);
            Need::Done(Step::Service(service))
        }
        Instr::Fence => {
            go_on(regs);
            Need::Done(Step::Went)
        }
    }
}
