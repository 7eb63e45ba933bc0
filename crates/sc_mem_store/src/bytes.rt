// Bytes of objects as cells of memory.
ghost use Rattle.std.specs.Prelude.{◌≡◌, Some, length, IfOk};
ghost use Rattle.sc_meaning.specs.Beside.{stored_of};
ghost use Rattle.sc_meaning.specs.Values as spec;
ghost use Rattle.sc_mem_store.specs.Holding.{byte_at, meant, HasBytes, IsTagged};
ghost use Rattle.sc_mem_store.specs.Living.{HasCells};

use crate::cell::{Cell, Content};
use crate::pointers::{value_of, word_of};
use sc_base::{Cell as Stored, Items, Key, NoMemory, Shared};
use sc_meaning_values::Value;
use sc_mem::Memory;
use std::alloc::Global;

/// The byte that a cell of memory stands for.
pub fn byte_of(functions: &[Shared<Key>], memory: &Memory, cell: Stored) -> Result<Cell, NoMemory>
    ensures { IfOk result (λ c. c ≡ meant functions.now memory.now.flat.objects cell) }
{
    match cell {
        Stored::Unwritten => Ok(Cell::unwritten()),
        Stored::Byte(b) => Ok(Cell::byte(b)),
        Stored::Frag { whole, tag, k } => {
            let v = value_of(functions, memory, tag, whole)?;
            Ok(Cell::piece(v, u32::from(k)))
        }
    }
}

/// The byte at an address.
pub fn byte_at(functions: &[Shared<Key>], memory: &Memory, at: u32) -> Result<Cell, NoMemory>
    ensures { IfOk result (λ c. byte_at memory.now.flat functions.now at ≡ Some c) }
{
    match memory.cell(at) {
        None => Err(NoMemory),
        Some(cell) => byte_of(functions, memory, cell),
    }
}

/// The `n` bytes from an address on.
#[tactic(auto, using(crate::proofs::Reading::bytes_none, crate::proofs::Reading::bytes_more))]
pub fn bytes_at(
    alloc: Global,
    functions: &[Shared<Key>],
    memory: &Memory,
    base: u32,
    n: u32,
) -> Result<Items<Cell>, NoMemory>
    ensures { IfOk result (λ cells. (length cells ≡ n) × HasBytes memory.now.flat functions.now base cells) }
{
    let mut cells = Items::new(alloc);
    if base.checked_add(n).is_none() {
        return Err(NoMemory);
    }
    for i in 0..n {
        let byte = byte_at(functions, memory, base + i)?;
        cells.push(byte)?;
    }
    Ok(cells)
}

/// The `n` cells from an address on.
#[tactic(auto, using(crate::proofs::Reading::cells_none, crate::proofs::Reading::cells_more))]
pub fn cells_from(
    alloc: Global,
    memory: &Memory,
    base: u32,
    n: u32,
) -> Result<Items<Stored>, NoMemory>
    ensures { IfOk result (λ cells. (length cells ≡ n) × HasCells memory.now.flat base cells) }
{
    let mut cells = Items::new(alloc);
    if base.checked_add(n).is_none() {
        return Err(NoMemory);
    }
    for i in 0..n {
        let Some(cell) = memory.cell(base + i) else {
            return Err(NoMemory);
        };
        cells.push(cell)?;
    }
    Ok(cells)
}

// Piece `k` of a word, which has four.
fn piece_of(
    functions: &[Shared<Key>],
    memory: &Memory,
    v: &Value,
    k: u32,
) -> Result<Stored, NoMemory>
    ensures cell { IfOk result (λ s. meant functions.now memory.now.flat.objects s ≡ spec.Piece v.now k) }
    ensures tag { IfOk result (λ s. IsTagged memory.now.flat.objects s) }
    ensures stored { IfOk result (λ s. s ≡ stored_of functions.now memory.now.flat.objects (spec.Piece v.now k)) }
{
    if k >= 4 {
        return Err(NoMemory);
    }
    let word = word_of(functions, memory, v)?;
    Ok(Stored::Frag {
        whole: word.bits,
        tag: word.tag,
        k: k as u8,
    })
}

/// The cell of memory that stands for a byte.
pub fn cell_of(functions: &[Shared<Key>], memory: &Memory, cell: &Cell) -> Result<Stored, NoMemory>
    ensures cell { IfOk result (λ s. meant functions.now memory.now.flat.objects s ≡ cell.now) }
    ensures tag { IfOk result (λ s. IsTagged memory.now.flat.objects s) }
    ensures stored { IfOk result (λ s. s ≡ stored_of functions.now memory.now.flat.objects cell.now) }
{
    match &cell.content {
        Content::Unwritten => Ok(Stored::Unwritten),
        Content::Byte(b) => Ok(Stored::Byte(*b)),
        Content::Piece(v, k) => piece_of(functions, memory, v, *k),
    }
}
