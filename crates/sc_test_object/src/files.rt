// A file of an object, made by hand from the tables of the gABI, and what is read from it.
use sc_base::{Bytes, Items, NoMemory};
use sc_elf_read::{ElfFault, Field, read_object, version};
use sc_elf_write::write_object;
use sc_object::{BlockTable, FrameTable, Object, Reloc, Section, SectionKind, Symbol};
use sc_program::Slot;
use std::alloc::Global;
use std::test::Fail;

// The header.
const HEADER: [&[u8]; 4] = [
    b"\x7fELF\x01\x01\x01\x00\x00\x00\x00\x00\x00\x00\x00\x00",
    b"\x01\x00\xf3\x00\x01\x00\x00\x00\x00\x00\x00\x00\x00\x00\x00\x00",
    b"\xe4\x00\x00\x00\x00\x00\x00\x004\x00\x00\x00\x00\x00(\x00",
    b"\x07\x00\x06\x00",
];

// A text of three instructions, its relocation, the frames, the symbols and the two tables of names.
const CONTENTS: [&[u8]; 11] = [
    b"\x97\x00\x00\x00\xe7\x80\x00\x00g\x80\x00\x00\x00\x00\x00\x00",
    b"\x13\x02\x00\x00\xfc\xff\xff\xff\x02\x00\x00\x00\x01\x00\x00\x00",
    b"\x01\x00\x00\x00\x10\x00\x00\x00\x01\x00\x00\x00\x01\x00\x00\x00",
    b"\x01\x00\x00\x00\x00\x00\x00\x00\x04\x00\x00\x00\x01\x00\x00\x00",
    b"\x00\x00\x00\x00\x00\x00\x00\x00\x00\x00\x00\x00\x00\x00\x00\x00",
    b"\x01\x00\x00\x00\x00\x00\x00\x00\x0c\x00\x00\x00\x02\x00\x01\x00",
    b"\x03\x00\x00\x00\x00\x00\x00\x00\x00\x00\x00\x00\x10\x00\x00\x00",
    b"\x00f\x00g\x00\x00\x00\x00\x00.text.f",
    b"\x00.rela.text.f\x00.s",
    b"aber\x00.symtab\x00.st",
    b"rtab\x00.shstrtab\x00\x00",
];

// The section headers.
const HEADERS: [&[u8]; 14] = [
    b"\x00\x00\x00\x00\x00\x00\x00\x00\x00\x00\x00\x00\x00\x00\x00\x00\x00\x00\x00\x00",
    b"\x00\x00\x00\x00\x00\x00\x00\x00\x00\x00\x00\x00\x00\x00\x00\x00\x00\x00\x00\x00",
    b"\x01\x00\x00\x00\x01\x00\x00\x00\x06\x00\x00\x00\x00\x00\x00\x004\x00\x00\x00",
    b"\x0c\x00\x00\x00\x00\x00\x00\x00\x00\x00\x00\x00\x04\x00\x00\x00\x00\x00\x00\x00",
    b"\x09\x00\x00\x00\x04\x00\x00\x00@\x00\x00\x00\x00\x00\x00\x00@\x00\x00\x00",
    b"\x0c\x00\x00\x00\x04\x00\x00\x00\x01\x00\x00\x00\x04\x00\x00\x00\x0c\x00\x00\x00",
    b"\x16\x00\x00\x00\x01\x00\x00\x00\x00\x00\x00\x00\x00\x00\x00\x00L\x00\x00\x00",
    b"(\x00\x00\x00\x00\x00\x00\x00\x00\x00\x00\x00\x04\x00\x00\x00\x00\x00\x00\x00",
    b"\x1d\x00\x00\x00\x02\x00\x00\x00\x00\x00\x00\x00\x00\x00\x00\x00t\x00\x00\x00",
    b"0\x00\x00\x00\x05\x00\x00\x00\x02\x00\x00\x00\x04\x00\x00\x00\x10\x00\x00\x00",
    b"%\x00\x00\x00\x03\x00\x00\x00\x00\x00\x00\x00\x00\x00\x00\x00\xa4\x00\x00\x00",
    b"\x05\x00\x00\x00\x00\x00\x00\x00\x00\x00\x00\x00\x01\x00\x00\x00\x00\x00\x00\x00",
    b"-\x00\x00\x00\x03\x00\x00\x00\x00\x00\x00\x00\x00\x00\x00\x00\xac\x00\x00\x00",
    b"7\x00\x00\x00\x00\x00\x00\x00\x00\x00\x00\x00\x01\x00\x00\x00\x00\x00\x00\x00",
];

fn put(file: &mut Vec<u8>, rows: &[&[u8]]) -> Result<(), NoMemory> {
    for row in rows {
        file.extend_from_slice(row)?;
    }
    Ok(())
}

fn file(alloc: Global) -> Result<Vec<u8>, NoMemory> {
    let mut file = Vec::new(alloc);
    put(&mut file, HEADER.as_slice())?;
    put(&mut file, CONTENTS.as_slice())?;
    put(&mut file, HEADERS.as_slice())?;
    Ok(file)
}

fn text(alloc: Global) -> Result<Section, NoMemory> {
    Ok(Section {
        name: Bytes::from_slice(alloc, b"f")?,
        kind: SectionKind::Text,
        bytes: Bytes::from_slice(alloc, b"\x97\x00\x00\x00\xe7\x80\x00\x00\x67\x80\x00\x00")?,
        size: 12,
    })
}

fn symbol(
    alloc: Global,
    name: &[u8],
    section: Option<u32>,
    kind: u8,
    size: u32,
) -> Result<Symbol, NoMemory> {
    Ok(Symbol {
        name: Bytes::from_slice(alloc, name)?,
        section,
        global: section.is_none(),
        kind,
        size,
    })
}

fn sections(alloc: Global) -> Result<Items<Section>, NoMemory> {
    let mut all = Items::new(alloc);
    all.push(text(alloc)?)?;
    Ok(all)
}

fn symbols(alloc: Global) -> Result<Items<Symbol>, NoMemory> {
    let mut all = Items::new(alloc);
    all.push(symbol(alloc, b"f", Some(0), 2, 12)?)?;
    all.push(symbol(alloc, b"g", None, 0, 0)?)?;
    Ok(all)
}

fn relocs(alloc: Global) -> Result<Items<Reloc>, NoMemory> {
    let mut all = Items::new(alloc);
    all.push(Reloc {
        section: 0,
        at: 0,
        kind: 19,
        symbol: 1,
        addend: -4,
    })?;
    Ok(all)
}

fn slots(alloc: Global) -> Result<Items<Slot>, NoMemory> {
    let mut all = Items::new(alloc);
    all.push(Slot {
        offset: 0,
        size: 4,
        constant: true,
    })?;
    Ok(all)
}

fn blocks(alloc: Global) -> Result<Items<BlockTable>, NoMemory> {
    let slots = slots(alloc)?;
    let mut all = Items::new(alloc);
    all.push(BlockTable { line: 1, slots })?;
    Ok(all)
}

fn frames(alloc: Global) -> Result<Items<FrameTable>, NoMemory> {
    let blocks = blocks(alloc)?;
    let mut all = Items::new(alloc);
    all.push(FrameTable {
        symbol: 0,
        cost: 16,
        blocks,
    })?;
    Ok(all)
}

// The object of that file.
fn object(alloc: Global) -> Result<Object, NoMemory> {
    Ok(Object {
        sections: sections(alloc)?,
        symbols: symbols(alloc)?,
        relocs: relocs(alloc)?,
        frames: frames(alloc)?,
    })
}

// What is written for what is read from bytes, which are few, or why nothing is.
fn read_again(alloc: Global, bytes: &[u8]) -> Result<Vec<u8>, ElfFault> {
    if 65536 <= bytes.len() {
        return Ok(Vec::new(alloc));
    }
    let object = read_object(alloc, bytes)?;
    Ok(write_object(alloc, &object)?)
}

fn refusal(alloc: Global, bytes: &[u8]) -> Option<ElfFault> {
    match read_again(alloc, bytes) {
        Ok(_) => None,
        Err(fault) => Some(fault),
    }
}

// The file with a byte changed or added.
fn changed(alloc: Global, at: usize, byte: u8) -> Result<Vec<u8>, NoMemory> {
    let mut file = file(alloc)?;
    if at < file.len() {
        file[at] = byte;
    } else {
        file.push(byte)?;
    }
    Ok(file)
}

#[test]
fn an_object_is_written_as_its_file(rt: HostRuntime) -> Result<(), Fail> {
    let alloc = rt.alloc();
    let object = object(alloc)?;
    let written = write_object(alloc, &object)?;
    assert!(rt; written.as_slice() == file(alloc)?.as_slice());
    Ok(())
}

#[test]
fn a_file_is_read_as_its_object(rt: HostRuntime) -> Result<(), Fail> {
    let alloc = rt.alloc();
    let file = file(alloc)?;
    let again = read_again(alloc, file.as_slice()).map_err(|_| NoMemory)?;
    assert!(rt; again.as_slice() == file.as_slice());
    assert_eq!(rt; version(alloc, file.as_slice())?, Some(2));
    Ok(())
}

#[test]
fn a_part_is_too_short(rt: HostRuntime) -> Result<(), Fail> {
    let alloc = rt.alloc();
    let file = file(alloc)?;
    let (part, _) = file.as_slice().split_at(51.min(file.len()));
    assert_eq!(rt; refusal(alloc, part), Some(ElfFault::Truncated(51)));
    Ok(())
}

#[test]
fn another_machine_is_refused(rt: HostRuntime) -> Result<(), Fail> {
    let alloc = rt.alloc();
    let file = changed(alloc, 18, 0)?;
    assert_eq!(rt;
        refusal(alloc, file.as_slice()),
        Some(ElfFault::BadField(Field::Machine, 18))
    );
    assert_eq!(rt; version(alloc, file.as_slice())?, None);
    Ok(())
}

#[test]
fn a_byte_behind_the_end_is_refused(rt: HostRuntime) -> Result<(), Fail> {
    let alloc = rt.alloc();
    let file = changed(alloc, 508, 0)?;
    assert_eq!(rt;
        refusal(alloc, file.as_slice()),
        Some(ElfFault::BadField(Field::End, 508))
    );
    Ok(())
}
