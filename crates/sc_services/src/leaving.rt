// Services 3 and 6: blocks of a compiled call are left, and the call itself.
ghost use Rattle.std.specs.Prelude.{◌≡◌, IfOk};
ghost use Rattle.sc_emu.specs.Registers.{register};
ghost use Rattle.sc_services.specs.Blocks as spec;
ghost use Rattle.sc_services.specs.Leaving as leaving;

use crate::frames::{is_in_code, is_open};
use sc_base::{Duplicate, Items, NoMemory};
use sc_emu::Regs;
use sc_interp_parts::all_dead;
use sc_interp_world::{Born, Event, World};

/// The register that holds the number of a block.
const BLOCK: u8 = 6;

/// What a service that leaves a block comes to: the block is left, or with it the call; or its test failed, and nothing was done.
#[derive(Clone, Copy, Debug, PartialEq, Eq)]
pub enum Left {
    Block,
    Call,
    Refused,
}

// The open blocks of the innermost call, outermost first.
fn open_blocks(world: &World) -> Result<Items<Born>, NoMemory>
    ensures { IfOk result (λ blocks. blocks ≡ spec.top_blocks world.now.frames) }
{
    let alloc = world.alloc();
    match world.innermost() {
        None => Ok(Items::new(alloc)),
        Some(frame) => frame.blocks.copy(alloc),
    }
}

// The objects of a block die, and it is left, but for the block of the parameters.
fn close(born: &Born, world: &mut World) -> Result<(), NoMemory>
    ensures { IfOk result (λ _. world.new ≡ spec.closed_one born.now world.old) }
{
    all_dead(born.ids.as_slice(), world)?;
    if born.block != 0 {
        world.close_block()?;
    }
    Ok(())
}

// Whether the leaving of blocks up to one ends with this one.
fn ends_with(block: u32, born: &Born) -> bool
    ensures { result ≡ spec.ends_with block born.now }
{
    born.block == 0 || born.block == block
}

// The open blocks are left, the innermost first, up to this one. The block of the parameters stays open.
#[tactic(auto, using(crate::proofs::Closing::closing_more))]
fn close_up_to(block: u32, world: &mut World) -> Result<(), NoMemory>
    ensures { IfOk result (λ _. world.new ≡ spec.block_left block world.old) }
{
    let mut blocks = open_blocks(world)?;
    'closing: while let Some(born) = blocks.pop() {
        close(&born, world)?;
        if ends_with(block, &born) {
            return Ok(());
        }
    }
    Ok(())
}

// What the frame of the innermost call took of the stack.
fn top_cost(world: &World) -> u32
    ensures { result ≡ spec.top_cost world.now.frames }
{
    match world.innermost() {
        None => 0,
        Some(frame) => frame.cost,
    }
}

// The innermost call is left, whose frame costs so much.
fn leave_call(cost: u32, world: &mut World) -> Result<(), NoMemory>
    ensures { IfOk result (λ _. world.new ≡ spec.left_by cost world.old) }
{
    let used = world.used().saturating_sub(u64::from(cost));
    world.pop()?;
    world.use_stack(used)?;
    world.happens(Event::leave())
}

// A block is left, and with that of the parameters the call.
fn leave_to(block: u32, world: &mut World) -> Result<Left, NoMemory>
    ensures { IfOk result (λ left. leaving.Leaves block world.old left world.new) }
{
    if !is_in_code(world) || !is_open(block, world) {
        return Ok(Left::Refused);
    }
    let cost = top_cost(world);
    close_up_to(block, world)?;
    if block != 0 {
        return Ok(Left::Block);
    }
    leave_call(cost, world)?;
    Ok(Left::Call)
}

/// Service 3, for the block in t1: the objects of this block and of those inside it die, the last born first. With block 0 the
/// call is left, and the stack given back that its frame took. It is refused where the innermost call is not of compiled code, or the
/// block not open in it.
pub fn leave(regs: &Regs, world: &mut World) -> Result<Left, NoMemory>
    ensures { IfOk result (λ left. leaving.Leaves (register regs.now 6).bits world.old left world.new) }
{
    leave_to(regs.get(BLOCK).bits, world)
}

/// Service 6: as service 3 for block 0, of a call that gives no value.
pub fn fall(world: &mut World) -> Result<Left, NoMemory>
    ensures { IfOk result (λ left. leaving.Leaves 0 world.old left world.new) }
{
    leave_to(0, world)
}
