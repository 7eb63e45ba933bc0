// Runs a text on the machine.
ghost use Rattle.std.specs.Prelude.{◌≡◌, ◌≤◌, ◌<◌};

use sc_base::{Items, Key, Name, NoMemory, Word};
use sc_emu::{Regs, Step, step};
use sc_isa_image::{Image, TextAt};
use sc_mem::Memory;
use sc_object::FrameTable;
use std::alloc::Global;
use std::io;

/// Where texts begin.
const TEXTS: u32 = 0x0010_0000;

/// The bytes of the stack, which ends at 0x20000000, and of the heap.
const STACK: u32 = 65536;

/// An address in the stack.
const PLACE: u32 = 0x1fff_fff0;

/// The opcode of loads.
const LOAD: u32 = 3;

/// Runs words as a text from its start on, for at most so many steps: how it ends, the address of the next instruction
/// and the 32 registers with their tags.
pub fn run(alloc: Global, words: Vec<u32>, steps: u64) -> io::Result<Vec<u8>> {
    let mut text = Vec::new(alloc);
    let Ok(image) = placed(alloc, words) else {
        return Ok(text);
    };
    let Ok(mut memory) = Memory::new(alloc, STACK, STACK) else {
        return Ok(text);
    };
    let mut regs = Regs::new();
    regs.set_pc(TEXTS);
    let mut last = Step::Went;
    for _ in 0..steps {
        last = step(&mut regs, &image, &mut memory);
        if last != Step::Went {
            break;
        }
    }
    let pc = regs.pc();
    let line = format!(in alloc; "{last:?} {pc:08x}\n")?;
    text.extend_from_slice(line.as_bytes())?;
    for r in 0..32u8 {
        let word = regs.get(r);
        let line = format!(in alloc; "{:08x} {:x}\n", word.bits, word.tag)?;
        text.extend_from_slice(line.as_bytes())?;
    }
    Ok(text)
}

/// Writes what one step of a word comes to with these numbers in a1 and a2: how it ends, the address of the next
/// instruction and what a0 holds. Before a load the first number stands in memory, at the address that a2 has then.
pub fn row(
    alloc: Global,
    text: &mut Vec<u8>,
    word: u32,
    first: u32,
    second: u32,
) -> io::Result<()> {
    let words = vec![in alloc; word]?;
    let Ok(image) = placed(alloc, words) else {
        return Ok(());
    };
    let Ok(mut memory) = Memory::new(alloc, STACK, STACK) else {
        return Ok(());
    };
    let mut regs = Regs::new();
    regs.set(11, plain(first));
    regs.set(12, plain(second));
    if word % 128 == LOAD {
        let _ = memory.raw_store(PLACE, 4, plain(first));
        regs.set(12, plain(PLACE));
    }
    regs.set_pc(TEXTS);
    let last = step(&mut regs, &image, &mut memory);
    let (pc, a0) = (regs.pc(), regs.get(10).bits);
    let line = format!(in alloc; "{last:?} {pc:x} {a0:x}\n")?;
    text.extend_from_slice(line.as_bytes())?;
    Ok(())
}

// A number without a tag.
fn plain(bits: u32) -> Word {
    Word { bits, tag: 0 }
}

// An image with these words as its only text.
fn placed(alloc: Global, words: Vec<u32>) -> Result<Image, NoMemory> {
    let mut image = Image::new(alloc);
    if words.is_empty() || words.len() > 1000000 {
        return Ok(image);
    }
    let fun = Key {
        module: None,
        name: name(alloc)?,
    };
    let frame = FrameTable {
        symbol: 0,
        cost: 16,
        blocks: Items::new(alloc),
    };
    let at = TextAt {
        fun,
        module: name(alloc)?,
        start: TEXTS,
        frame,
    };
    image.make_room(1, 0, 0, 0)?;
    image.put_text(at, words);
    Ok(image)
}

fn name(alloc: Global) -> Result<Name, NoMemory> {
    Name::new(alloc, b"main").map_err(|_| NoMemory)
}
