// Lines of text, and why a unit has none.
use sc_base::{Fault, NoMemory, Refusal};
use sc_pp::PpFault;
use sc_tool_text::refusal;
use std::alloc::Global;

pub fn put_line(text: &mut Vec<u8>, line: &[u8]) -> Result<(), NoMemory> {
    text.extend_from_slice(line)?;
    text.push(b'\n')?;
    Ok(())
}

/// Why a unit has no tokens.
pub fn put_unread(
    alloc: Global,
    text: &mut Vec<u8>,
    name: &str,
    fault: &PpFault,
) -> Result<(), NoMemory> {
    match fault {
        PpFault::Refused(why) => put_refusal(alloc, text, name, why),
        PpFault::Missing => put_line(text, b"missing"),
        PpFault::TooLong => put_line(text, b"too long"),
        PpFault::File(file) => {
            text.extend_from_slice(b"file fault ")?;
            put_line(text, file.as_slice())
        }
        PpFault::NoMemory => put_line(text, b"no memory"),
    }
}

/// Why it is no unit, or no module.
pub fn put_fault(
    alloc: Global,
    text: &mut Vec<u8>,
    name: &str,
    fault: &Fault,
) -> Result<(), NoMemory> {
    match fault {
        Fault::Refused(why) => put_refusal(alloc, text, name, why),
        Fault::NoMemory => put_line(text, b"no memory"),
    }
}

fn put_refusal(
    alloc: Global,
    text: &mut Vec<u8>,
    name: &str,
    why: &Refusal,
) -> Result<(), NoMemory> {
    let line = refusal(alloc, name.as_bytes(), why)?;
    put_line(text, line.as_slice())
}
