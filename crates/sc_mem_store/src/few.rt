// A few bytes at once.
ghost use Rattle.std.specs.Prelude.{◌≡◌, ◌+◌, ◌<◌, [], Some, length, IfOk};
ghost use Rattle.sc_mem_store.specs.Holding.{byte_at, HasBytes};

use crate::bytes::byte_at;
use crate::cell::Cell;
use sc_base::{Key, NoMemory, Shared};
use sc_mem::Memory;
use std::marker::Model;

/// At most four bytes, seen as the list of them. They take no memory.
#[derive(Drop)]
pub struct Few {
    bytes: [Cell; 4],
    count: usize,
}

impl Model for Few {
    ghost use Rattle.std.specs.Prelude.{List, ◌≤◌, take};
    ghost use Rattle.sc_meaning.specs.Values as spec;

    ghost Value = { List spec.Cell };

    ghost view = { λ f. take f.count f.bytes };

    ghost invariant = { λ f. f.count ≤ 4 };
}

impl Few {
    /// No bytes.
    pub fn none() -> Few
        ensures { result ≡ [] }
    {
        Few {
            bytes: [
                Cell::unwritten(),
                Cell::unwritten(),
                Cell::unwritten(),
                Cell::unwritten(),
            ],
            count: 0,
        }
    }

    /// The bytes.
    pub fn as_slice(&self) -> &[Cell]
        ensures { result.now ≡ self.now }
    {
        &self.bytes[..self.count]
    }
}

// The byte at a place of a range, where it has one there.
fn byte_in(
    functions: &[Shared<Key>],
    memory: &Memory,
    base: u32,
    count: u32,
    i: u32,
) -> Result<Cell, NoMemory>
    ensures { IfOk result (λ c. i < count → byte_at memory.now.flat functions.now (base + i) ≡ Some c) }
{
    if count <= i {
        return Ok(Cell::unwritten());
    }
    let Some(at) = base.checked_add(i) else {
        return Err(NoMemory);
    };
    byte_at(functions, memory, at)
}

/// The bytes from an address on, at most four.
#[tactic(auto, using(crate::proofs::Reading::few_are))]
pub fn few_at(
    functions: &[Shared<Key>],
    memory: &Memory,
    base: u32,
    count: u32,
) -> Result<Few, NoMemory>
    ensures { IfOk result (λ few. (length few ≡ count) × HasBytes memory.now.flat functions.now base few) }
{
    if count > 4 {
        return Err(NoMemory);
    }
    let a = byte_in(functions, memory, base, count, 0)?;
    let b = byte_in(functions, memory, base, count, 1)?;
    let c = byte_in(functions, memory, base, count, 2)?;
    let d = byte_in(functions, memory, base, count, 3)?;
    Ok(Few {
        bytes: [a, b, c, d],
        count: count as usize,
    })
}
