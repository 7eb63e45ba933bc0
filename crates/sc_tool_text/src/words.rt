// Words of a line: numbers, bytes in hexadecimal, keys.

use sc_base::{Key, Name, NoMemory};
use sc_program::StaticId;
use std::alloc::Global;

pub fn put(line: &mut Vec<u8>, word: &[u8]) -> Result<(), NoMemory> {
    line.extend_from_slice(word)?;
    Ok(())
}

pub fn put_number(alloc: Global, line: &mut Vec<u8>, number: u32) -> Result<(), NoMemory> {
    let digits = format!(in alloc; "{number}")?;
    put(line, digits.as_bytes())
}

fn digit(value: u8) -> u8 {
    if value < 10 {
        b'0' + value
    } else if value < 16 {
        b'a' + (value - 10)
    } else {
        b'?'
    }
}

pub fn put_byte(line: &mut Vec<u8>, byte: u8) -> Result<(), NoMemory> {
    line.push(digit(byte / 16))?;
    line.push(digit(byte % 16))?;
    Ok(())
}

pub fn put_bytes(line: &mut Vec<u8>, bytes: &[u8]) -> Result<(), NoMemory> {
    for byte in bytes {
        put_byte(line, *byte)?;
    }
    Ok(())
}

/// A name with internal linkage stands behind its module's.
pub fn put_name(line: &mut Vec<u8>, module: &Option<Name>, name: &Name) -> Result<(), NoMemory> {
    if let Some(module) = module {
        put(line, module.as_slice())?;
        line.push(b':')?;
    }
    put(line, name.as_slice())
}

pub fn put_key(line: &mut Vec<u8>, key: &Key) -> Result<(), NoMemory> {
    put_name(line, &key.module, &key.name)
}

/// A literal is shown by its bytes in quotes.
pub fn put_static(line: &mut Vec<u8>, id: &StaticId) -> Result<(), NoMemory> {
    match id {
        StaticId::Named(key) => put_key(line, key),
        StaticId::Literal(_, bytes) => {
            line.push(b'"')?;
            put_bytes(line, bytes.as_slice())?;
            put(line, b"\"")
        }
    }
}
