// Where an object is born.

use sc_base::{Duplicate, NoMemory};
use sc_program::StaticId;
use std::alloc::Global;

/// Where an object is born: in the frame of the innermost call, so many bytes above the frame's low end; where the object
/// or the literal with a name stands; or in a block of the heap.
#[derive(Drop)]
pub enum Spot {
    Slot(u32),
    Named(StaticId),
    Block,
}

impl Duplicate for Spot {
    fn copy(&self, alloc: Global) -> Result<Spot, NoMemory> {
        match self {
            Spot::Slot(offset) => Ok(Spot::Slot(*offset)),
            Spot::Named(id) => Ok(Spot::Named(id.copy(alloc)?)),
            Spot::Block => Ok(Spot::Block),
        }
    }
}
