// Pointers with the functions' tag that lead to no function.
ghost use Rattle.std.specs.Prelude.{◌≡◌, Some, false, IfOk};
ghost use Rattle.sc_meaning.specs.Values.{Cell as Byte};
ghost use Rattle.sc_mem_store.specs.Holding.{byte_at};
ghost use Rattle.sc_mem_store.specs.Stray as spec;

use crate::bytes::byte_at;
use crate::cell::{Cell, Content};
use sc_base::{Key, NoMemory, Shared};
use sc_meaning_values::{Shape, Value};
use sc_mem::Memory;

// Whether a value is a place in object 0, which no object is.
fn is_nowhere(v: &Value) -> bool
    ensures { result ≡ spec.is_nowhere v.now }
{
    match &v.shape {
        Shape::Number(_) => false,
        Shape::FunctionAt(_) => false,
        Shape::Pointer(0, _) => true,
        Shape::Pointer(_, _) => false,
    }
}

// Whether a byte is a piece of such a pointer.
fn is_stray(cell: &Cell) -> bool
    ensures { result ≡ spec.is_stray cell.now }
{
    match &cell.content {
        Content::Unwritten => false,
        Content::Byte(_) => false,
        Content::Piece(v, _) => is_nowhere(v),
    }
}

// Whether the byte at an address is.
fn is_stray_at(functions: &[Shared<Key>], memory: &Memory, at: u32) -> Result<bool, NoMemory>
    ensures { IfOk result (λ has. has ≡ false → (c : Byte) → byte_at memory.now.flat functions.now at ≡ Some c → spec.is_stray c ≡ false) }
{
    let byte = byte_at(functions, memory, at)?;
    Ok(is_stray(&byte))
}

/// Whether one of the `n` bytes from an address on is a piece of a pointer that has the functions' tag and leads to no function.
#[tactic(auto, using(crate::proofs::Strays::bytes_none, crate::proofs::Strays::bytes_more))]
pub fn are_stray_from(
    functions: &[Shared<Key>],
    memory: &Memory,
    base: u32,
    n: u32,
) -> Result<bool, NoMemory>
    ensures { IfOk result (λ has. has ≡ false → spec.AreNone memory.now.flat functions.now base n) }
{
    if base.checked_add(n).is_none() {
        return Err(NoMemory);
    }
    'looking: for i in 0..n {
        if is_stray_at(functions, memory, base + i)? {
            return Ok(true);
        }
    }
    Ok(false)
}
