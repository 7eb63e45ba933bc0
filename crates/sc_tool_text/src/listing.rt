// The lines of a module.

use crate::words::{put, put_byte, put_key, put_name, put_number, put_static};
use sc_base::{Bytes, Items, NoMemory, Shared};
use sc_core::{Auto, Core, Declared, Fun, Init, StaticObj};
use sc_program::{Slot, StaticId};
use std::alloc::Global;

fn births(alloc: Global, all: &[StaticId]) -> Result<Bytes, NoMemory> {
    let mut line = Vec::new(alloc);
    put(&mut line, b"births")?;
    for id in all {
        line.push(b' ')?;
        put_static(&mut line, id)?;
    }
    Ok(Bytes::from_vec(line))
}

// The offset from the frame's low end and the size, with `c` behind a constant object.
fn put_slot(alloc: Global, line: &mut Vec<u8>, slot: &Slot) -> Result<(), NoMemory> {
    line.push(b' ')?;
    put_number(alloc, line, slot.offset)?;
    line.push(b'+')?;
    put_number(alloc, line, slot.size)?;
    if slot.constant {
        line.push(b'c')?;
    }
    Ok(())
}

fn put_block(alloc: Global, line: &mut Vec<u8>, block: &[Auto]) -> Result<(), NoMemory> {
    put(line, b" |")?;
    for object in block {
        put_slot(alloc, line, &object.slot)?;
    }
    Ok(())
}

fn put_blocks(alloc: Global, line: &mut Vec<u8>, blocks: &[Items<Auto>]) -> Result<(), NoMemory> {
    for block in blocks {
        put_block(alloc, line, block.as_slice())?;
    }
    Ok(())
}

fn function(alloc: Global, fun: &Fun) -> Result<Bytes, NoMemory> {
    let mut line = Vec::new(alloc);
    put(&mut line, b"function ")?;
    if !fun.external {
        line.push(b':')?;
    }
    put(&mut line, fun.name.as_slice())?;
    line.push(b' ')?;
    put_number(alloc, &mut line, fun.cost)?;
    put_blocks(alloc, &mut line, fun.blocks.as_slice())?;
    Ok(Bytes::from_vec(line))
}

fn put_address(
    alloc: Global,
    line: &mut Vec<u8>,
    id: &StaticId,
    offset: u32,
) -> Result<(), NoMemory> {
    line.push(b'<')?;
    put_static(line, id)?;
    line.push(b'+')?;
    put_number(alloc, line, offset)?;
    line.push(b'>')?;
    Ok(())
}

fn put_zeros(line: &mut Vec<u8>, count: u32) -> Result<(), NoMemory> {
    for _ in 0..count {
        put_byte(line, 0)?;
    }
    Ok(())
}

fn put_contents(alloc: Global, line: &mut Vec<u8>, contents: &[Init]) -> Result<(), NoMemory> {
    for part in contents {
        match part {
            Init::Byte(byte) => put_byte(line, *byte)?,
            Init::Zeros(count) => put_zeros(line, *count)?,
            Init::Address(id, offset) => put_address(alloc, line, id, *offset)?,
        }
    }
    Ok(())
}

fn object(alloc: Global, object: &StaticObj) -> Result<Bytes, NoMemory> {
    let mut line = Vec::new(alloc);
    put(&mut line, b"object ")?;
    put_key(&mut line, &object.key)?;
    line.push(b' ')?;
    if object.constant {
        put(&mut line, b"const ")?;
    }
    put_contents(alloc, &mut line, object.init.as_slice())?;
    Ok(Bytes::from_vec(line))
}

fn declared(alloc: Global, declared: &Declared) -> Result<Bytes, NoMemory> {
    let mut line = Vec::new(alloc);
    put(&mut line, b"declared ")?;
    put_key(&mut line, &declared.key)?;
    if declared.defined {
        put(&mut line, b" defined")?;
    }
    put(&mut line, b" at ")?;
    put_number(alloc, &mut line, declared.line)?;
    Ok(Bytes::from_vec(line))
}

fn functions(alloc: Global, all: &[Shared<Fun>], lines: &mut Items<Bytes>) -> Result<(), NoMemory> {
    for fun in all {
        lines.push(function(alloc, fun.get())?)?;
    }
    Ok(())
}

fn objects(alloc: Global, all: &[StaticObj], lines: &mut Items<Bytes>) -> Result<(), NoMemory> {
    for one in all {
        lines.push(object(alloc, one)?)?;
    }
    Ok(())
}

fn declarations(alloc: Global, all: &[Declared], lines: &mut Items<Bytes>) -> Result<(), NoMemory> {
    for one in all {
        lines.push(declared(alloc, one)?)?;
    }
    Ok(())
}

/// What a module holds: a line `births` with its objects and literals in the order of their births; a line `function` for each function
/// with the cost of its frame and, block by block, the places and sizes of its objects; a line `object` for each object of static
/// storage duration with its bytes in hexadecimal; a line `declared` for each name with linkage.
pub fn lines(alloc: Global, core: &Core) -> Result<Items<Bytes>, NoMemory> {
    let mut lines = Items::new(alloc);
    lines.push(births(alloc, core.births.as_slice())?)?;
    functions(alloc, core.funs.as_slice(), &mut lines)?;
    objects(alloc, core.objects.as_slice(), &mut lines)?;
    declarations(alloc, core.declared.as_slice(), &mut lines)?;
    Ok(lines)
}
