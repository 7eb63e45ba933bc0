// The tables of frames as bytes.
ghost use Rattle.std.specs.Prelude.{◌≡◌, ◌++◌, IfOk, OnOk, flat_map};
ghost use Rattle.sc_object.specs.Parts.{slot_words, line_words, block_words, frame_head, frame_words, saber_words};

use crate::word::put_word;
use sc_base::NoMemory;
use sc_object::{BlockTable, FrameTable};
use sc_program::Slot;
use std::alloc::Global;

fn put_slot(bytes: &mut Vec<u8>, s: &Slot) -> Result<(), NoMemory>
    ensures { OnOk result (bytes.new.items ≡ bytes.old.items ++ slot_words s.now) }
{
    put_word(bytes, s.offset as usize)?;
    put_word(bytes, s.size as usize)?;
    put_word(bytes, if s.constant { 1 } else { 0 })
}

fn put_line(bytes: &mut Vec<u8>, version: usize, line: u32) -> Result<(), NoMemory>
    ensures { OnOk result (bytes.new.items ≡ bytes.old.items ++ line_words version line) }
{
    if version == 1 {
        return Ok(());
    }
    put_word(bytes, line as usize)
}

fn put_block(bytes: &mut Vec<u8>, version: usize, b: &BlockTable) -> Result<(), NoMemory>
    ensures { OnOk result (bytes.new.items ≡ bytes.old.items ++ block_words version b.now) }
{
    put_line(bytes, version, b.line)?;
    put_word(bytes, b.slots.len())?;
    for slot in b.slots.as_slice() {
        put_slot(bytes, slot)?;
    }
    Ok(())
}

fn put_blocks(bytes: &mut Vec<u8>, version: usize, blocks: &[BlockTable]) -> Result<(), NoMemory>
    ensures { OnOk result (bytes.new.items ≡ bytes.old.items ++ flat_map (block_words version) blocks.now) }
{
    for block in blocks {
        put_block(bytes, version, block)?;
    }
    Ok(())
}

fn put_frame_head(bytes: &mut Vec<u8>, f: &FrameTable) -> Result<(), NoMemory>
    ensures { OnOk result (bytes.new.items ≡ bytes.old.items ++ frame_head f.now) }
{
    put_word(bytes, f.symbol as usize + 1)?;
    put_word(bytes, f.cost as usize)?;
    put_word(bytes, f.blocks.len())
}

fn put_frame(bytes: &mut Vec<u8>, version: usize, f: &FrameTable) -> Result<(), NoMemory>
    ensures { OnOk result (bytes.new.items ≡ bytes.old.items ++ frame_words version f.now) }
{
    put_frame_head(bytes, f)?;
    put_blocks(bytes, version, f.blocks.as_slice())
}

fn put_frames(bytes: &mut Vec<u8>, version: usize, frames: &[FrameTable]) -> Result<(), NoMemory>
    ensures { OnOk result (bytes.new.items ≡ bytes.old.items ++ flat_map (frame_words version) frames.now) }
{
    for frame in frames {
        put_frame(bytes, version, frame)?;
    }
    Ok(())
}

/// The contents of `.saber`.
pub fn saber(alloc: Global, version: usize, frames: &[FrameTable]) -> Result<Vec<u8>, NoMemory>
    ensures { IfOk result (λ bytes. bytes.items ≡ saber_words version frames.now) }
{
    let mut bytes = Vec::new(alloc);
    put_word(&mut bytes, version)?;
    put_word(&mut bytes, frames.len())?;
    put_frames(&mut bytes, version, frames)?;
    Ok(bytes)
}
