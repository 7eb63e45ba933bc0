// The lines of a function's blocks, and the table of its frame.
ghost use Rattle.std.specs.Prelude.{◌≡◌, ◌+◌, [], ◌∷◌, ◌++◌, map, slice_index_or, OnOk, IfOk};
ghost use Rattle.sc_gen.specs.Blocks as spec;

use sc_base::{Items, NoMemory, Shared};
use sc_core::{Auto, CoreStmt, Fun};
use sc_object::{BlockTable, FrameTable};
use std::alloc::Global;

/// The lines on which the blocks of a statement begin, behind those before, in the order of the text.
#[cycle(lines)]
fn lines(s: &CoreStmt, all: &mut Items<u32>) -> Result<(), NoMemory>
    ensures { OnOk result (all.new ≡ all.old ++ spec.lines_of s.now) }
{
    match s {
        CoreStmt::Block(line, _, _, items) => {
            all.push(*line)?;
            lines_in(items.as_slice(), all)
        }
        CoreStmt::If(_, _, first, other) => {
            lines(first.get(), all)?;
            match other {
                Some(other) => lines(other.get(), all),
                None => Ok(()),
            }
        }
        CoreStmt::Switch(_, _, _, body) => lines(body.get(), all),
        CoreStmt::While(_, _, body) => lines(body.get(), all),
        CoreStmt::Do(_, body, _, _) => lines(body.get(), all),
        CoreStmt::For(_, _, _, _, body) => lines(body.get(), all),
        CoreStmt::Case(_, s) => lines(s.get(), all),
        CoreStmt::Default(_, s) => lines(s.get(), all),
        CoreStmt::Label(_, s) => lines(s.get(), all),
        CoreStmt::Initialize(_, _, _, _) => Ok(()),
        CoreStmt::Empty(_) => Ok(()),
        CoreStmt::Expression(_, _) => Ok(()),
        CoreStmt::Goto(_, _) => Ok(()),
        CoreStmt::Continue(_) => Ok(()),
        CoreStmt::Break(_) => Ok(()),
        CoreStmt::Return(_, _) => Ok(()),
    }
}

#[cycle(lines)]
fn lines_in(items: &[Shared<CoreStmt>], all: &mut Items<u32>) -> Result<(), NoMemory>
    ensures { OnOk result (all.new ≡ all.old ++ spec.joined (map spec.lines_of items.now)) }
{
    for s in items {
        lines(s.get(), all)?;
    }
    Ok(())
}

fn block_lines(alloc: Global, f: &Fun) -> Result<Items<u32>, NoMemory>
    ensures { IfOk result (λ lines. lines ≡ spec.block_lines f.now) }
{
    let mut all = Items::new(alloc);
    all.push(f.line)?;
    lines(f.body.get(), &mut all)?;
    Ok(all)
}

fn block_table(alloc: Global, line: u32, autos: &[Auto]) -> Result<BlockTable, NoMemory>
    ensures { IfOk result (λ table. table ≡ spec.block_table line autos.now) }
{
    let mut slots = Items::new(alloc);
    for object in autos {
        slots.push(object.slot)?;
    }
    Ok(BlockTable { line, slots })
}

fn line_of(lines: &[u32], n: usize) -> u32
    ensures { result ≡ slice_index_or lines.now n 0 }
{
    match lines.get(n) {
        Some(line) => *line,
        None => 0,
    }
}

fn block_tables(
    alloc: Global,
    lines: &[u32],
    blocks: &[Items<Auto>],
) -> Result<Items<BlockTable>, NoMemory>
    ensures { IfOk result (λ tables. tables ≡ spec.block_tables lines.now 0 blocks.now) }
{
    let mut all = Items::new(alloc);
    for (n, autos) in blocks.iter().enumerate() {
        all.push(block_table(alloc, line_of(lines, n), autos.as_slice())?)?;
    }
    Ok(all)
}

/// The frame of a function, by the number of its symbol.
pub fn frame_table(alloc: Global, symbol: u32, f: &Fun) -> Result<FrameTable, NoMemory>
    ensures { IfOk result (λ table. table ≡ spec.frame_table symbol f.now) }
{
    let lines = block_lines(alloc, f)?;
    let blocks = block_tables(alloc, lines.as_slice(), f.blocks.as_slice())?;
    Ok(FrameTable {
        symbol,
        cost: f.cost,
        blocks,
    })
}
