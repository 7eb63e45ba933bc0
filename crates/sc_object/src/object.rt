// An object (ELF gABI, RISC-V psABI).

use sc_base::{Bytes, Duplicate, Items, NoMemory};
use sc_program::Slot;
use std::alloc::Global;

/// What a section holds: instructions, data, constants, or zero bytes that the file leaves out.
#[derive(Clone, Copy, Debug, PartialEq, Eq)]
pub enum SectionKind {
    Text,
    Data,
    Rodata,
    Bss,
}

/// A section, under the name of the function or the object that it holds: its bytes, none where the kind is `Bss`, and
/// its size in bytes.
#[derive(Debug, Drop)]
pub struct Section {
    pub name: Bytes,
    pub kind: SectionKind,
    pub bytes: Bytes,
    pub size: u32,
}

impl Duplicate for Section {
    fn copy(&self, alloc: Global) -> Result<Section, NoMemory> {
        Ok(Section {
            name: self.name.copy(alloc)?,
            kind: self.kind,
            bytes: self.bytes.copy(alloc)?,
            size: self.size,
        })
    }
}

/// A symbol: its name; where it is defined, the index of its section; whether its binding is global; its type, which is
/// 1 for an object, 2 for a function and 0 for what is undefined; and its size in bytes.
#[derive(Debug, Drop)]
pub struct Symbol {
    pub name: Bytes,
    pub section: Option<u32>,
    pub global: bool,
    pub kind: u8,
    pub size: u32,
}

impl Duplicate for Symbol {
    fn copy(&self, alloc: Global) -> Result<Symbol, NoMemory> {
        Ok(Symbol {
            name: self.name.copy(alloc)?,
            section: self.section,
            global: self.global,
            kind: self.kind,
            size: self.size,
        })
    }
}

/// A relocation: the index of the section whose bytes it changes, the offset of these bytes there, its type (RISC-V
/// psABI), the index of the symbol that it names, and the addend.
#[derive(Clone, Copy, Debug, PartialEq, Eq)]
pub struct Reloc {
    pub section: u32,
    pub at: u32,
    pub kind: u8,
    pub symbol: u32,
    pub addend: i32,
}

impl Duplicate for Reloc {
    fn copy(&self, _: Global) -> Result<Reloc, NoMemory> {
        Ok(*self)
    }
}

/// A block of a function: the line on which it begins, and the slots of its objects.
#[derive(Debug, Drop)]
pub struct BlockTable {
    pub line: u32,
    pub slots: Items<Slot>,
}

impl Duplicate for BlockTable {
    fn copy(&self, alloc: Global) -> Result<BlockTable, NoMemory> {
        Ok(BlockTable {
            line: self.line,
            slots: self.slots.copy(alloc)?,
        })
    }
}

/// The frame of a function: the index of its symbol, its cost in bytes, and its blocks. Block 0 holds the parameters,
/// and its line is that of the function's name.
#[derive(Debug, Drop)]
pub struct FrameTable {
    pub symbol: u32,
    pub cost: u32,
    pub blocks: Items<BlockTable>,
}

impl Duplicate for FrameTable {
    fn copy(&self, alloc: Global) -> Result<FrameTable, NoMemory> {
        Ok(FrameTable {
            symbol: self.symbol,
            cost: self.cost,
            blocks: self.blocks.copy(alloc)?,
        })
    }
}

/// A compiled module: its sections; its symbols, those of local binding first; its relocations, by the sections that
/// they change; and the frames of its functions. Indices count from 0.
#[derive(Debug, Drop)]
pub struct Object {
    pub sections: Items<Section>,
    pub symbols: Items<Symbol>,
    pub relocs: Items<Reloc>,
    pub frames: Items<FrameTable>,
}

impl Duplicate for Object {
    fn copy(&self, alloc: Global) -> Result<Object, NoMemory> {
        Ok(Object {
            sections: self.sections.copy(alloc)?,
            symbols: self.symbols.copy(alloc)?,
            relocs: self.relocs.copy(alloc)?,
            frames: self.frames.copy(alloc)?,
        })
    }
}
