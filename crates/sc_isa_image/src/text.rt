// Placed texts.

use sc_base::{Duplicate, Items, Key, Name, NoMemory};
use sc_object::FrameTable;
use std::alloc::Global;

/// The text of a function in a module: the address of its first byte, and its frame.
#[derive(Drop)]
pub struct TextAt {
    pub fun: Key,
    pub module: Name,
    pub start: u32,
    pub frame: FrameTable,
}

/// A text with its words.
#[derive(Drop)]
pub struct Text {
    pub at: TextAt,
    pub words: Items<u32>,
}

impl Duplicate for TextAt {
    fn copy(&self, alloc: Global) -> Result<TextAt, NoMemory> {
        let fun = self.fun.copy(alloc)?;
        let module = self.module.copy(alloc)?;
        let frame = self.frame.copy(alloc)?;
        Ok(TextAt {
            fun,
            module,
            start: self.start,
            frame,
        })
    }
}
