// Service 5: bytes are copied.
ghost use Rattle.std.specs.Prelude.{◌≡◌, IfOk, IfSome};
ghost use Rattle.sc_services.specs.Copying as spec;

use crate::arguments::FIRST;
use crate::store::{has_bytes, put_cells};
use sc_base::NoMemory;
use sc_emu::Regs;
use sc_interp_world::{Place, World};

/// Where the static area begins, and its bytes.
const STATIC: u64 = 0x0800_0000;

const STATIC_BYTES: u64 = 1_048_576;

/// Where the heap begins.
const HEAP: u64 = 0x1000_0000;

/// Where the stack ends.
const STACK_END: u64 = 0x2000_0000;

/// What a copy comes to: so many bytes were copied; or its test failed, and nothing was done.
#[derive(Clone, Copy, Debug, PartialEq, Eq)]
pub enum Copied {
    Bytes(u32),
    Refused,
}

// Whether the bytes from an address on are all inside one area.
fn is_range(at: u32, n: u32, world: &World) -> bool
    ensures { result ≡ spec.is_range at n world.now }
{
    let first = u64::from(at);
    let end = first + u64::from(n);
    let in_static = STATIC <= first && end <= STATIC + STATIC_BYTES;
    let in_heap = HEAP <= first && end.saturating_sub(HEAP) <= world.heap();
    let in_stack = STACK_END.saturating_sub(world.stack()) <= first && end <= STACK_END;
    in_static || in_heap || in_stack
}

// Bytes that are not all of one object go to an address.
fn copy_bytes(to: u32, from: u32, n: u32, world: &mut World) -> Result<(), NoMemory>
    ensures { IfOk result (λ _. spec.Copies to from n world.old world.new) }
{
    let cells = world.raw_cells(from, n)?;
    put_cells(to, cells.as_slice(), world)
}

// The byte of a live object at an address, from which on so many bytes are the object's.
fn place_of(at: u32, n: u32, world: &World) -> Option<Place>
    ensures { IfSome result (λ p. spec.AreAt world.now p.id p.offset n at) }
{
    let place = world.live_at(at)?;
    if has_bytes(place, n, world) {
        Some(place)
    } else {
        None
    }
}

// Bytes inside the areas go to an address.
fn copy_inside(to: u32, from: u32, n: u32, world: &mut World) -> Result<(), NoMemory>
    ensures { IfOk result (λ _. spec.Copies to from n world.old world.new) }
{
    match (place_of(to, n, world), place_of(from, n, world)) {
        (Some(target), Some(source)) => {
            world.copy(target.id, target.offset, source.id, source.offset, n)
        }
        _ => copy_bytes(to, from, n, world),
    }
}

/// Service 5: the bytes from a1 on, a2 of them, are copied to a0, as if by way of another place. It is refused where one of the two ranges is
/// not inside an area.
pub fn copy(regs: &Regs, world: &mut World) -> Result<Copied, NoMemory>
    ensures { IfOk result (λ copied. spec.CopiesBytes regs.now world.old copied world.new) }
{
    let to = regs.get(FIRST).bits;
    let from = regs.get(FIRST + 1).bits;
    let n = regs.get(FIRST + 2).bits;
    if !is_range(to, n, world) || !is_range(from, n, world) {
        return Ok(Copied::Refused);
    }
    copy_inside(to, from, n, world)?;
    Ok(Copied::Bytes(n))
}
