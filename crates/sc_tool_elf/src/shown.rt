// An object, or why there is none, as a line of words.

use sc_base::NoMemory;
use sc_elf_read::{ElfFault, Field};
use sc_object::{BlockTable, FrameTable, Object, Reloc, Section, SectionKind, Symbol};
use std::alloc::Global;

pub fn put_number(alloc: Global, line: &mut Vec<u8>, n: u32) -> Result<(), NoMemory> {
    let word = format!(in alloc; "{n} ")?;
    line.extend_from_slice(word.as_bytes())?;
    Ok(())
}

fn put_word(line: &mut Vec<u8>, word: &[u8]) -> Result<(), NoMemory> {
    line.extend_from_slice(word)?;
    line.push(b' ')?;
    Ok(())
}

// Two digits for each byte, behind a point.
fn put_bytes(line: &mut Vec<u8>, bytes: &[u8]) -> Result<(), NoMemory> {
    let digits = b"0123456789abcdef";
    line.push(b'.')?;
    for b in bytes {
        line.push(digits[usize::from(*b / 16)])?;
        line.push(digits[usize::from(*b % 16)])?;
    }
    line.push(b' ')?;
    Ok(())
}

fn name_of(field: Field) -> &'static [u8] {
    match field {
        Field::Ident => b"ident",
        Field::Type => b"type",
        Field::Machine => b"machine",
        Field::Version => b"version",
        Field::Entry => b"entry",
        Field::ProgramHeaders => b"program-headers",
        Field::Flags => b"flags",
        Field::HeaderSize => b"header-size",
        Field::ProgramEntrySize => b"program-entry-size",
        Field::ProgramCount => b"program-count",
        Field::SectionEntrySize => b"section-entry-size",
        Field::SectionEntry => b"section-entry",
        Field::End => b"end",
    }
}

pub fn put_fault(alloc: Global, line: &mut Vec<u8>, fault: ElfFault) -> Result<(), NoMemory> {
    match fault {
        ElfFault::Truncated(n) => {
            put_word(line, b"O1")?;
            put_number(alloc, line, n)
        }
        ElfFault::BadField(field, at) => {
            put_word(line, b"O2")?;
            put_word(line, name_of(field))?;
            put_number(alloc, line, at)
        }
        ElfFault::BadReloc(at) => {
            put_word(line, b"O3")?;
            put_number(alloc, line, at)
        }
        ElfFault::NoMemory => put_word(line, b"no memory"),
    }
}

fn put_section(alloc: Global, line: &mut Vec<u8>, s: &Section) -> Result<(), NoMemory> {
    let kind: &[u8] = match s.kind {
        SectionKind::Text => b"text",
        SectionKind::Data => b"data",
        SectionKind::Rodata => b"rodata",
        SectionKind::Bss => b"bss",
    };
    put_word(line, kind)?;
    put_bytes(line, s.name.as_slice())?;
    put_bytes(line, s.bytes.as_slice())?;
    put_number(alloc, line, s.size)
}

fn put_symbol(alloc: Global, line: &mut Vec<u8>, s: &Symbol) -> Result<(), NoMemory> {
    put_word(line, if s.global { b"global" } else { b"local" })?;
    put_bytes(line, s.name.as_slice())?;
    match s.section {
        Some(n) => put_number(alloc, line, n)?,
        None => put_word(line, b"-")?,
    }
    put_number(alloc, line, u32::from(s.kind))?;
    put_number(alloc, line, s.size)
}

fn put_reloc(alloc: Global, line: &mut Vec<u8>, r: &Reloc) -> Result<(), NoMemory> {
    put_word(line, b"reloc")?;
    put_number(alloc, line, r.section)?;
    put_number(alloc, line, r.at)?;
    put_number(alloc, line, u32::from(r.kind))?;
    put_number(alloc, line, r.symbol)?;
    put_number(alloc, line, r.addend.cast_unsigned())
}

fn put_block(alloc: Global, line: &mut Vec<u8>, b: &BlockTable) -> Result<(), NoMemory> {
    put_word(line, b"block")?;
    put_number(alloc, line, b.line)?;
    for slot in b.slots.as_slice() {
        put_word(line, if slot.constant { b"const" } else { b"slot" })?;
        put_number(alloc, line, slot.offset)?;
        put_number(alloc, line, slot.size)?;
    }
    Ok(())
}

fn put_frame(alloc: Global, line: &mut Vec<u8>, f: &FrameTable) -> Result<(), NoMemory> {
    put_word(line, b"frame")?;
    put_number(alloc, line, f.symbol)?;
    put_number(alloc, line, f.cost)?;
    for block in f.blocks.as_slice() {
        put_block(alloc, line, block)?;
    }
    Ok(())
}

pub fn put_object(alloc: Global, line: &mut Vec<u8>, o: &Object) -> Result<(), NoMemory> {
    put_word(line, b"object")?;
    for section in o.sections.as_slice() {
        put_section(alloc, line, section)?;
    }
    for symbol in o.symbols.as_slice() {
        put_symbol(alloc, line, symbol)?;
    }
    for reloc in o.relocs.as_slice() {
        put_reloc(alloc, line, reloc)?;
    }
    for frame in o.frames.as_slice() {
        put_frame(alloc, line, frame)?;
    }
    Ok(())
}
