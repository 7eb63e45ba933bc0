// Objects of compiled calls are born in their slots, and die.
ghost use Rattle.std.specs.Prelude.{◌≡◌, [], IfOk};
ghost use Rattle.sc_interp_access.specs.Gives.{Gives};
ghost use Rattle.sc_meaning.specs.Statements.{auto_kind as kind_of};
ghost use Rattle.sc_services.specs.Blocks as spec;

use sc_base::{Items, Kind};
use sc_interp_access::{Stop, set_at};
use sc_interp_parts::born;
use sc_interp_world::{Born, World};
use sc_meaning::Spot;
use sc_meaning_values::Value;
use sc_object::FrameTable;
use sc_program::Slot;

fn auto_kind(constant: bool) -> Kind
    ensures { result ≡ kind_of constant }
{
    if constant { Kind::Const } else { Kind::Auto }
}

// An object is born in its slot.
fn born_slot(slot: Slot, world: &mut World) -> Result<u32, Stop>
    ensures { Gives (spec.slot_born slot world.old) result world.new }
{
    let spot = Spot::Slot(slot.offset);
    born(slot.size, auto_kind(slot.constant), &spot, world)
}

// The objects of slots are born, in order; their numbers.
fn born_slots(slots: &[Slot], world: &mut World) -> Result<Items<u32>, Stop>
    ensures { Gives (spec.slots_born slots.now [] world.old) result world.new }
{
    let mut ids = Items::new(world.alloc());
    for slot in slots {
        let id = born_slot(*slot, world)?;
        ids.push(id)?;
    }
    Ok(ids)
}

// A parameter is born in its slot, and set.
fn set_slot(slot: Slot, v: &Value, world: &mut World) -> Result<u32, Stop>
    ensures { Gives (spec.slot_set slot v.now world.old) result world.new }
{
    let id = born_slot(slot, world)?;
    set_at(&Value::pointer(id, 0), 0, slot.size, v, world)?;
    Ok(id)
}

/// The parameters are born in their slots and set to the arguments, in order; their numbers.
///
/// # Errors
///
/// `BirthLimit`.
pub fn set_slots(slots: &[Slot], vs: &[Value], world: &mut World) -> Result<Items<u32>, Stop>
    ensures { Gives (spec.slots_set slots.now vs.now [] world.old) result world.new }
{
    let mut ids = Items::new(world.alloc());
    let mut rest = vs;
    for slot in slots {
        let [v, more @ ..] = rest else { return Ok(ids) };
        let id = set_slot(*slot, v, world)?;
        ids.push(id)?;
        rest = more;
    }
    Ok(ids)
}

/// The slots of a block.
pub fn slots_of(table: &FrameTable, block: u32) -> &[Slot]
    ensures { result.now ≡ spec.slots_of table.now block }
{
    match table.blocks.as_slice().get(block as usize) {
        Some(block) => block.slots.as_slice(),
        None => &[],
    }
}

/// A block is entered: its objects are born.
///
/// # Errors
///
/// `BirthLimit`.
pub fn enter_block(block: u32, table: &FrameTable, world: &mut World) -> Result<(), Stop>
    ensures { Gives (spec.block_entered block table.now world.old) result world.new }
{
    let ids = born_slots(slots_of(table, block), world)?;
    world.open_block(Born { block, ids })?;
    Ok(())
}
