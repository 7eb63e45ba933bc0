// An object with a section of each kind and a relocation of each type.

use sc_base::{Bytes, Items, NoMemory};
use sc_object::{BlockTable, FrameTable, Object, Reloc, Section, SectionKind, Symbol};
use sc_program::Slot;
use std::alloc::Global;

// auipc ra,0; jalr ra,0(ra); lui t0,0; lw t1,0(t0); lui t2,0; sw t1,0(t2); ret
const MAIN: &[u8] =
    b"\x97\x00\x00\x00\xe7\x80\x00\x00\xb7\x02\x00\x00\x03\xa3\x02\x00\xb7\x03\x00\x00\x23\xa0\x63\x00\x67\x80\x00\x00";

// addi a0,a0,1; ret
const STEP: &[u8] = b"\x13\x05\x15\x00\x67\x80\x00\x00";

pub fn sample(alloc: Global) -> Result<Object, NoMemory> {
    Ok(Object {
        sections: sections(alloc)?,
        symbols: symbols(alloc)?,
        relocs: relocs(alloc)?,
        frames: frames(alloc)?,
    })
}

fn section(
    alloc: Global,
    name: &[u8],
    kind: SectionKind,
    bytes: &[u8],
    size: u32,
) -> Result<Section, NoMemory> {
    Ok(Section {
        name: Bytes::from_slice(alloc, name)?,
        kind,
        bytes: Bytes::from_slice(alloc, bytes)?,
        size,
    })
}

fn sections(alloc: Global) -> Result<Items<Section>, NoMemory> {
    let mut all = Items::new(alloc);
    all.push(section(alloc, b"main", SectionKind::Text, MAIN, 28)?)?;
    all.push(section(alloc, b"step", SectionKind::Text, STEP, 8)?)?;
    all.push(section(
        alloc,
        b"next",
        SectionKind::Data,
        b"\x00\x00\x00\x00\x07\x00\x00\x00",
        8,
    )?)?;
    all.push(section(alloc, b"$0", SectionKind::Rodata, b"seven\x00", 6)?)?;
    all.push(section(alloc, b"table", SectionKind::Bss, b"", 40)?)?;
    Ok(all)
}

fn symbol(
    alloc: Global,
    name: &[u8],
    section: Option<u32>,
    global: bool,
    kind: u8,
    size: u32,
) -> Result<Symbol, NoMemory> {
    Ok(Symbol {
        name: Bytes::from_slice(alloc, name)?,
        section,
        global,
        kind,
        size,
    })
}

fn symbols(alloc: Global) -> Result<Items<Symbol>, NoMemory> {
    let mut all = Items::new(alloc);
    all.push(symbol(alloc, b"$0", Some(3), false, 1, 6)?)?;
    all.push(symbol(alloc, b"step", Some(1), false, 2, 8)?)?;
    all.push(symbol(alloc, b"main", Some(0), true, 2, 28)?)?;
    all.push(symbol(alloc, b"next", Some(2), true, 1, 8)?)?;
    all.push(symbol(alloc, b"table", Some(4), true, 1, 40)?)?;
    all.push(symbol(alloc, b"puts", None, true, 0, 0)?)?;
    Ok(all)
}

fn reloc(section: u32, at: u32, kind: u8, symbol: u32, addend: i32) -> Reloc {
    Reloc {
        section,
        at,
        kind,
        symbol,
        addend,
    }
}

fn relocs(alloc: Global) -> Result<Items<Reloc>, NoMemory> {
    let mut all = Items::new(alloc);
    all.push(reloc(0, 0, 19, 5, 0))?;
    all.push(reloc(0, 8, 26, 3, 4))?;
    all.push(reloc(0, 12, 27, 3, 4))?;
    all.push(reloc(0, 16, 26, 4, -4))?;
    all.push(reloc(0, 20, 28, 4, -4))?;
    all.push(reloc(2, 0, 1, 0, 2))?;
    Ok(all)
}

fn slot(offset: u32, size: u32, constant: bool) -> Slot {
    Slot {
        offset,
        size,
        constant,
    }
}

fn block(alloc: Global, line: u32, slot: Slot) -> Result<BlockTable, NoMemory> {
    let mut slots = Items::new(alloc);
    slots.push(slot)?;
    Ok(BlockTable { line, slots })
}

fn frames(alloc: Global) -> Result<Items<FrameTable>, NoMemory> {
    let mut inner = Items::new(alloc);
    inner.push(block(alloc, 3, slot(0, 4, false))?)?;
    inner.push(block(alloc, 4, slot(4, 8, true))?)?;
    let mut outer = Items::new(alloc);
    outer.push(block(alloc, 1, slot(0, 4, false))?)?;
    let mut all = Items::new(alloc);
    all.push(frame(2, 32, inner))?;
    all.push(frame(1, 16, outer))?;
    Ok(all)
}

fn frame(symbol: u32, cost: u32, blocks: Items<BlockTable>) -> FrameTable {
    FrameTable {
        symbol,
        cost,
        blocks,
    }
}
