// The bytes of a value, one by one.
ghost use Rattle.std.specs.Prelude.{◌≡◌, ◌+◌, ◌<◌, ◌∷◌, ◌++◌, [], IfOk};
ghost use Rattle.sc_meaning.specs.Values as spec;

use crate::cell::Cell;
use sc_base::{Duplicate, NoMemory};
use sc_meaning_values::{Shape, Value};
use std::alloc::Global;

// Byte k of a number, the lowest first.
fn byte_of(bits: u32, k: u32) -> u8
    requires { k < 4 }
    ensures { spec.cells_of (k + 1) (spec.Number bits) ≡ spec.cells_of k (spec.Number bits) ++ spec.Byte result ∷ [] }
{
    match k {
        0 => (bits % 256) as u8,
        1 => (bits / 256 % 256) as u8,
        2 => (bits / 65536 % 256) as u8,
        _ => (bits / 16777216 % 256) as u8,
    }
}

/// Byte k of a stored value.
#[tactic(auto, using(crate::proofs::ValueBytes::function_more, crate::proofs::ValueBytes::pointer_more))]
pub fn value_byte(alloc: Global, v: &Value, k: u32) -> Result<Cell, NoMemory>
    requires { k < 4 }
    ensures { IfOk result (λ c. spec.cells_of (k + 1) v.now ≡ spec.cells_of k v.now ++ c ∷ []) }
{
    match &v.shape {
        Shape::Number(bits) => Ok(Cell::byte(byte_of(*bits, k))),
        Shape::FunctionAt(_) => Ok(Cell::piece(v.copy(alloc)?, k)),
        Shape::Pointer(_, _) => Ok(Cell::piece(v.copy(alloc)?, k)),
    }
}
