// Bytes of the one memory, whether or not they are an object's.
ghost use Rattle.std.specs.Prelude.{◌≡◌, IfOk, map, slice_index, take};
ghost use Rattle.sc_mem.specs.Words as words;
ghost use Rattle.sc_mem.specs.Words.{IsSize};
ghost use Rattle.sc_services.specs.Memory.{read_at};

use sc_base::{Cell as Stored, Items, NoMemory, Word};
use sc_interp_world::World;
use std::alloc::Global;

/// What the `size` bytes at an address hold: `None` exactly outside the areas, and where the address is no multiple of the size.
#[inline(always)]
#[tactic(auto, using(crate::proofs::Reading::read_is))]
pub fn load(at: u32, size: u8, world: &World) -> Option<Word>
    requires { IsSize size }
    ensures { result ≡ read_at world.now at size }
{
    world.load(at, size)
}

/// The word at an address, where it is a multiple of 4 inside the areas.
pub fn load_word(world: &World, at: u32) -> Option<Word>
    ensures { result ≡ read_at world.now at 4 }
{
    load(at, 4, world)
}

// Byte k of a number, the lowest first.
fn byte_of(bits: u32, k: u8) -> u8
    ensures { result ≡ slice_index (words.bytes_of bits) k }
{
    match k {
        0 => (bits % 256) as u8,
        1 => (bits / 256 % 256) as u8,
        2 => (bits / 65_536 % 256) as u8,
        3 => (bits / 16_777_216 % 256) as u8,
        _ => 0,
    }
}

// The same as a cell.
fn byte_cell(bits: u32, k: u8) -> Stored
    ensures { result ≡ Stored.Byte (slice_index (words.bytes_of bits) k) }
{
    Stored::Byte(byte_of(bits, k))
}

// Piece k of a pointer.
fn piece_cell(word: Word, k: u8) -> Stored
    ensures { result ≡ Stored.Frag word.bits word.tag k }
{
    Stored::Frag {
        whole: word.bits,
        tag: word.tag,
        k,
    }
}

// The four pieces of a pointer.
fn pieces_of(alloc: Global, word: Word) -> Result<Items<Stored>, NoMemory>
    ensures { IfOk result (λ cells. cells ≡ words.pieces_of word) }
{
    let mut cells = Items::new(alloc);
    cells.push(piece_cell(word, 0))?;
    cells.push(piece_cell(word, 1))?;
    cells.push(piece_cell(word, 2))?;
    cells.push(piece_cell(word, 3))?;
    Ok(cells)
}

// The first bytes of a number.
fn bytes_of(alloc: Global, size: u8, bits: u32) -> Result<Items<Stored>, NoMemory>
    requires { IsSize size }
    ensures { IfOk result (λ cells. cells ≡ map Stored.Byte (take size (words.bytes_of bits))) }
{
    let mut cells = Items::new(alloc);
    cells.push(byte_cell(bits, 0))?;
    if size == 1 {
        return Ok(cells);
    }
    cells.push(byte_cell(bits, 1))?;
    if size == 2 {
        return Ok(cells);
    }
    cells.push(byte_cell(bits, 2))?;
    cells.push(byte_cell(bits, 3))?;
    Ok(cells)
}

/// The cells that a store of `size` bytes of a word writes: a whole pointer as its pieces, all else as bytes.
pub fn cells_of(alloc: Global, size: u8, word: Word) -> Result<Items<Stored>, NoMemory>
    requires { IsSize size }
    ensures { IfOk result (λ cells. cells ≡ words.cells_of size word) }
{
    if size == 4 && word.tag != 0 {
        pieces_of(alloc, word)
    } else {
        bytes_of(alloc, size, word.bits)
    }
}
