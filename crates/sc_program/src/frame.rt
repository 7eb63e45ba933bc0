// The frame of a function.

use sc_base::{Duplicate, Items, NoMemory};
use std::alloc::Global;

/// The place of an automatic object in its frame: the offset from the frame's low end and the size, both in bytes, and
/// whether the object is `const`.
#[derive(Clone, Copy, Debug, PartialEq, Eq)]
pub struct Slot {
    pub offset: u32,
    pub size: u32,
    pub constant: bool,
}

impl Duplicate for Slot {
    fn copy(&self, _: Global) -> Result<Slot, NoMemory> {
        Ok(*self)
    }
}

/// The frame of a function: the number of its symbol, its cost in bytes, and the slots of each block. Block 0 holds the
/// parameters.
#[derive(Drop)]
pub struct FrameTable {
    pub symbol: u32,
    pub cost: u32,
    pub blocks: Items<Items<Slot>>,
}

impl Duplicate for FrameTable {
    fn copy(&self, alloc: Global) -> Result<FrameTable, NoMemory> {
        Ok(FrameTable {
            symbol: self.symbol,
            cost: self.cost,
            blocks: self.blocks.copy(alloc)?,
        })
    }
}
