// The frames of a file, from their table.
ghost use Rattle.std.specs.Prelude.{◌≡◌, ◌+◌, ◌*◌, ◌<◌, ◌^◌, [], IfOk, option_map};
ghost use Rattle.sc_elf_read.specs.Tables.{rows, slot_in, many, head_len, line_in, slot_count, block_of, block_in, frame_of, frame_in, frames_in};

use crate::bytes::{behind, word_at};
use sc_base::{Items, NoMemory};
use sc_object::{BlockTable, FrameTable};
use sc_program::Slot;
use std::alloc::Global;

fn slot_in(bytes: &[u8]) -> Slot
    ensures { result ≡ slot_in bytes.now }
{
    Slot {
        offset: word_at(bytes, 0),
        size: word_at(bytes, 4),
        constant: word_at(bytes, 8) == 1,
    }
}

#[tactic(auto, using(crate::proofs::Loops::rows_step, crate::proofs::Loops::rows_end))]
fn slots(alloc: Global, count: usize, bytes: &[u8]) -> Result<Items<Slot>, NoMemory>
    ensures { IfOk result (λ ss. ss ≡ rows slot_in 12 count bytes.now) }
{
    let mut all = Items::new(alloc);
    let mut rest = bytes;
    for turn in 0..count {
        all.push(slot_in(rest))?;
        rest = behind(rest, 12);
    }
    Ok(all)
}

fn head_len(version: u32) -> usize
    ensures { result ≡ head_len version }
{
    if version == 1 { 4 } else { 8 }
}

fn line_in(version: u32, bytes: &[u8]) -> u32
    ensures { result ≡ line_in version bytes.now }
{
    if version == 1 { 0 } else { word_at(bytes, 0) }
}

fn slot_count(version: u32, bytes: &[u8]) -> u32
    ensures { result ≡ slot_count version bytes.now }
{
    if version == 1 {
        word_at(bytes, 0)
    } else {
        word_at(bytes, 4)
    }
}

fn block_of(alloc: Global, version: u32, bytes: &[u8]) -> Result<BlockTable, NoMemory>
    ensures { IfOk result (λ b. b ≡ block_of version bytes.now) }
{
    let count = slot_count(version, bytes);
    Ok(BlockTable {
        line: line_in(version, bytes),
        slots: slots(alloc, count as usize, behind(bytes, head_len(version)))?,
    })
}

fn block_in<'a>(
    alloc: Global,
    version: u32,
    bytes: &'a [u8],
) -> Result<Option<(BlockTable, &'a [u8])>, NoMemory>
    ensures { IfOk result (λ r. option_map (λ p. (p.0, p.1.now)) r ≡ block_in version bytes.now) }
{
    let len = head_len(version) + 12 * slot_count(version, bytes) as usize;
    if bytes.len() < len {
        return Ok(None);
    }
    let block = block_of(alloc, version, bytes)?;
    Ok(Some((block, behind(bytes, len))))
}

#[tactic(auto, using(crate::proofs::Loops::many_step, crate::proofs::Loops::many_stop, crate::proofs::Loops::many_end))]
fn blocks<'a>(
    alloc: Global,
    version: u32,
    count: usize,
    bytes: &'a [u8],
) -> Result<Option<(Items<BlockTable>, &'a [u8])>, NoMemory>
    ensures { IfOk result (λ r. option_map (λ p. (p.0, p.1.now)) r ≡ many (block_in version) count [] bytes.now) }
{
    let mut all = Items::new(alloc);
    let mut rest = bytes;
    for turn in 0..count {
        match block_in(alloc, version, rest)? {
            Some((block, more)) => {
                all.push(block)?;
                rest = more;
            }
            None => return Ok(None),
        }
    }
    Ok(Some((all, rest)))
}

fn frame_of(bytes: &[u8], blocks: Items<BlockTable>) -> FrameTable
    ensures { result ≡ frame_of bytes.now blocks }
{
    FrameTable {
        symbol: word_at(bytes, 0).saturating_sub(1),
        cost: word_at(bytes, 4),
        blocks,
    }
}

fn frame_in<'a>(
    alloc: Global,
    version: u32,
    bytes: &'a [u8],
) -> Result<Option<(FrameTable, &'a [u8])>, NoMemory>
    ensures { IfOk result (λ r. option_map (λ p. (p.0, p.1.now)) r ≡ frame_in version bytes.now) }
{
    if bytes.len() < 12 {
        return Ok(None);
    }
    match blocks(
        alloc,
        version,
        word_at(bytes, 8) as usize,
        behind(bytes, 12),
    )? {
        Some((blocks, more)) => Ok(Some((frame_of(bytes, blocks), more))),
        None => Ok(None),
    }
}

#[tactic(auto, using(crate::proofs::Loops::many_step, crate::proofs::Loops::many_stop, crate::proofs::Loops::many_end))]
fn frames(
    alloc: Global,
    version: u32,
    count: usize,
    bytes: &[u8],
) -> Result<Option<Items<FrameTable>>, NoMemory>
    ensures { IfOk result (λ r. r ≡ option_map (λ p. p.0) (many (frame_in version) count [] bytes.now)) }
{
    let mut all = Items::new(alloc);
    let mut rest = bytes;
    for turn in 0..count {
        match frame_in(alloc, version, rest)? {
            Some((frame, more)) => {
                all.push(frame)?;
                rest = more;
            }
            None => return Ok(None),
        }
    }
    Ok(Some(all))
}

/// The frames of a table of this version, if it holds so many.
pub fn frames_in(
    alloc: Global,
    version: u32,
    bytes: &[u8],
) -> Result<Option<Items<FrameTable>>, NoMemory>
    ensures { IfOk result (λ r. r ≡ frames_in version bytes.now) }
{
    if bytes.len() < 8 {
        return Ok(None);
    }
    frames(alloc, version, word_at(bytes, 4) as usize, behind(bytes, 8))
}
