// What the code may keep in registers, and where its temporaries stand.
ghost use Rattle.std.specs.Prelude.{◌≡◌, ◌++◌, [], OnOk, slice_get};
ghost use Rattle.sc_gen_code.specs.Styles as spec;

use crate::code::{near, put_one};
use crate::operators::load_of;
use crate::symbolic::{Access, Symbolic};
use sc_base::{Int, Items, NoMemory};
use sc_core::Auto;
use sc_isa::{ImmOp, Instr};
use std::alloc::Global;

/// An object of which a register keeps a copy: the offset of its slot, the register, and the integer type as which it is
/// read.
#[derive(Clone, Copy)]
pub struct Kept {
    pub offset: u32,
    pub register: u8,
    pub of: Int,
}

/// A way to write code: the objects of which copies are kept, and whether blocks without objects are entered and left too.
#[derive(Drop)]
pub struct Style {
    pub kept: Items<Kept>,
    pub enters_all: bool,
}

/// No copies, and blocks without objects are not entered.
pub fn plain_style(alloc: Global) -> Style
    ensures { result ≡ spec.plain_style }
{
    Style {
        kept: Items::new(alloc),
        enters_all: false,
    }
}

fn found(kept: &[Kept], offset: u32) -> Option<Kept>
    ensures { result ≡ spec.found kept.now offset }
{
    for k in kept {
        if k.offset == offset {
            return Some(*k);
        }
    }
    None
}

/// The object at an offset, where a copy of it is kept.
pub fn kept_at(style: &Style, offset: u32) -> Option<Kept>
    ensures { result ≡ spec.kept_at style.now offset }
{
    found(style.kept.as_slice(), offset)
}

/// Where an operand waits: how many of the registers from `a3` on hold operands that wait, and the offset above `sp` from
/// which temporaries are free.
#[derive(Clone, Copy)]
pub struct Spot {
    pub depth: u8,
    pub low: u32,
}

/// No operand waits in a register.
pub fn first_spot(low: u32) -> Spot
    ensures { result ≡ spec.first_spot low }
{
    Spot { depth: 0, low }
}

/// Behind a temporary.
pub fn behind(at: Spot) -> Spot
    ensures { result ≡ spec.behind at }
{
    Spot {
        depth: at.depth,
        low: at.low.wrapping_add(4),
    }
}

/// Behind an operand that waits in a register, as five at most do.
pub fn deeper(at: Spot) -> Spot
    ensures { result ≡ spec.deeper at }
{
    Spot {
        depth: if at.depth < 5 { at.depth + 1 } else { at.depth },
        low: at.low,
    }
}

/// What is done at an offset above `sp`. Where a copy is kept, a register takes that, and a store changes both.
pub fn framed(
    code: &mut Items<Symbolic>,
    style: &Style,
    what: Access,
    offset: u32,
) -> Result<(), NoMemory>
    ensures { OnOk result (code.new ≡ code.old ++ spec.framed style.now what offset) }
{
    match kept_at(style, offset) {
        None => near(code, offset, what),
        Some(k) => with_copy(code, what, offset, k),
    }
}

fn with_copy(code: &mut Items<Symbolic>, what: Access, offset: u32, k: Kept) -> Result<(), NoMemory>
    ensures { OnOk result (code.new ≡ code.old ++ spec.with_copy what offset k) }
{
    match what {
        Access::Load(_, rd) => put_one(code, Instr::Imm(ImmOp::Addi, rd, k.register, 0)),
        Access::Store(_, rs) => {
            near(code, offset, what)?;
            put_one(code, Instr::Imm(ImmOp::Addi, k.register, rs, 0))
        }
        Access::Address(_) => near(code, offset, what),
    }
}

fn taken_again(code: &mut Items<Symbolic>, kept: &[Kept]) -> Result<(), NoMemory>
    ensures { OnOk result (code.new ≡ code.old ++ spec.taken_again kept.now) }
{
    for k in kept {
        near(code, k.offset, Access::Load(load_of(k.of), k.register))?;
    }
    Ok(())
}

/// Copies are taken again, since a call may have changed the registers.
pub fn reloaded(code: &mut Items<Symbolic>, style: &Style) -> Result<(), NoMemory>
    ensures { OnOk result (code.new ≡ code.old ++ spec.reloaded style.now) }
{
    taken_again(code, style.kept.as_slice())
}

fn has_objects(blocks: &[Items<Auto>], block: u32) -> bool
    ensures { result ≡ spec.has_objects (slice_get blocks.now block) }
{
    match blocks.get(block as usize) {
        Some(autos) => !autos.is_empty(),
        None => false,
    }
}

/// The block of a function, where it is entered and left: it has objects, or all blocks are.
pub fn entered(style: &Style, blocks: &[Items<Auto>], block: u32) -> Option<u32>
    ensures { result ≡ spec.entered style.now blocks.now block }
{
    if style.enters_all || has_objects(blocks, block) {
        Some(block)
    } else {
        None
    }
}
