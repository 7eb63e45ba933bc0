// The frame of a function: where its objects stand, and what it costs.
ghost use Rattle.std.specs.Prelude.{◌≡◌, ◌+◌, ◌≤◌, ◌<◌, IfOk, IfSome, IfNone};
ghost use Rattle.sc_types.specs.Frames.{frame_cost as bytes_of_frame};
ghost use Rattle.sc_check_declare.specs.Outcomes.{Meets};
ghost use Rattle.sc_check_linkage.specs.Frames as spec;

use sc_base::{Duplicate, Items, Name, NoMemory};
use sc_check_declare::{Failure, Reason, is_constant, refusal};
use sc_core::Auto;
use sc_program::Slot;
use sc_types::{CType, MAX_FRAME, frame_cost, slot_bytes};
use std::alloc::Global;

/// A parameter or automatic object, with its size in bytes.
#[derive(Drop)]
pub struct Local {
    pub name: Name,
    pub of: CType,
    pub size: u32,
}

/// The bytes of a block behind those before it; none where they are more than a frame may have.
fn block_bytes(before: u64, block: &[Local]) -> Option<u64>
    requires { before ≤ MAX_FRAME }
    ensures some { IfSome result (λ n. n ≡ before + spec.block_bytes block.now) }
    ensures few { IfSome result (λ n. n ≤ MAX_FRAME) }
    ensures none { IfNone result (MAX_FRAME < before + spec.block_bytes block.now) }
{
    let mut bytes = before;
    for local in block {
        bytes += slot_bytes(local.size);
        if bytes > u64::from(MAX_FRAME) {
            return None;
        }
    }
    Some(bytes)
}

/// The bytes of all blocks; none where they are more than a frame may have.
fn slots(blocks: &[Items<Local>]) -> Option<u64>
    ensures some { IfSome result (λ n. n ≡ spec.slots blocks.now) }
    ensures few { IfSome result (λ n. n ≤ MAX_FRAME) }
    ensures none { IfNone result (MAX_FRAME < spec.slots blocks.now) }
{
    let mut bytes = 0;
    for block in blocks {
        match block_bytes(bytes, block.as_slice()) {
            Some(more) => bytes = more,
            None => return None,
        }
    }
    Some(bytes)
}

/// The bytes of a function's frame (X10 `frame` where they are more than a frame may have): `room` is the greatest room of an
/// expression of it, `args` the most arguments of a call in it.
pub fn cost(line: u32, blocks: &[Items<Local>], room: u32, args: u32) -> Result<u32, Failure>
    ensures same { Meets (spec.cost line (spec.slots blocks.now) room args) result }
    ensures fits { IfOk result (λ n. bytes_of_frame (spec.slots blocks.now) room args ≤ MAX_FRAME) }
{
    let Some(bytes) = slots(blocks) else {
        return Err(refusal(Reason::Frame, line));
    };
    let all = 8 + bytes + 4 * u64::from(room) + 4 * u64::from(args.saturating_sub(8));
    if (all + 15) / 16 * 16 > u64::from(MAX_FRAME) {
        return Err(refusal(Reason::Frame, line));
    }
    Ok(frame_cost(bytes as u32, room, args))
}

fn placed(alloc: Global, at: u32, x: &Local) -> Result<Auto, NoMemory>
    ensures { IfOk result (λ a. a ≡ spec.placed at x.now) }
{
    let name = x.name.copy(alloc)?;
    let of = x.of.copy(alloc)?;
    let constant = is_constant(&x.of);
    Ok(Auto {
        name,
        of,
        slot: Slot {
            offset: at,
            size: x.size,
            constant,
        },
    })
}

/// The places of a block's objects from a place on, and the place behind them.
fn block_from(alloc: Global, from: u32, block: &[Local]) -> Result<(Items<Auto>, u32), NoMemory>
    requires { from + spec.block_bytes block.now ≤ MAX_FRAME }
    ensures { IfOk result (λ r. r ≡ (spec.block_from from block.now, from + spec.block_bytes block.now)) }
{
    let mut all = Items::new(alloc);
    let mut at = from;
    for local in block {
        all.push(placed(alloc, at, local)?)?;
        at += slot_bytes(local.size) as u32;
    }
    Ok((all, at))
}

/// The places of a function's parameters and automatic objects in its frame, block 0 being the parameters; `cost` gives what the
/// frame costs.
pub fn place(
    alloc: Global,
    blocks: &[Items<Local>],
    room: u32,
    args: u32,
) -> Result<Items<Items<Auto>>, NoMemory>
    requires { bytes_of_frame (spec.slots blocks.now) room args ≤ MAX_FRAME }
    ensures { IfOk result (λ all. all ≡ spec.blocks_from (spec.slots_begin room args) blocks.now) }
{
    let mut all = Items::new(alloc);
    let mut at = 4 * args.saturating_sub(8) + 4 * room;
    for block in blocks {
        let (autos, end) = block_from(alloc, at, block.as_slice())?;
        all.push(autos)?;
        at = end;
    }
    Ok(all)
}
