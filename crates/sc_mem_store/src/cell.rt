// What a byte of an object holds (ANSI 3.1.2.4).
ghost use Rattle.std.specs.Prelude.{◌≡◌, IfOk};
ghost use Rattle.sc_meaning.specs.Values as spec;

use sc_base::{Duplicate, NoMemory};
use sc_meaning_values::Value;
use std::alloc::Global;
use std::marker::Model;

/// What a byte holds.
#[derive(Drop)]
pub enum Content {
    Unwritten,
    Byte(u8),
    Piece(Value, u32),
}

/// A byte of an object: never written, a byte of a number, or a piece of a pointer.
#[derive(Drop)]
pub struct Cell {
    pub content: Content,
}

impl Model for Cell {
    ghost use Rattle.sc_mem_store.specs.Cells.{cell_of};
    ghost use Rattle.sc_meaning.specs.Values as spec;

    ghost Value = { spec.Cell };

    ghost view = { λ c. cell_of c.content };
}

impl Cell {
    /// A byte that was never written.
    pub fn unwritten() -> Cell
        ensures { result ≡ spec.Unwritten }
    {
        Cell {
            content: Content::Unwritten,
        }
    }

    /// A byte of a number.
    pub fn byte(b: u8) -> Cell
        ensures { result ≡ spec.Byte b }
    {
        Cell {
            content: Content::Byte(b),
        }
    }

    /// Piece `k` of a pointer.
    pub fn piece(v: Value, k: u32) -> Cell
        ensures { result ≡ spec.Piece v k }
    {
        Cell {
            content: Content::Piece(v, k),
        }
    }
}

impl Duplicate for Cell {
    fn copy(&self, alloc: Global) -> Result<Cell, NoMemory> {
        match &self.content {
            Content::Unwritten => Ok(Cell::unwritten()),
            Content::Byte(b) => Ok(Cell::byte(*b)),
            Content::Piece(v, k) => Ok(Cell::piece(v.copy(alloc)?, *k)),
        }
    }
}
