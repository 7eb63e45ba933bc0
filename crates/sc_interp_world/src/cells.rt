// Lists of bytes of objects.
ghost use Rattle.std.specs.Prelude.{◌≡◌, replicate, IfOk};
ghost use Rattle.sc_meaning.specs.Values as spec;

use sc_base::{Items, NoMemory};
use sc_mem_store::Cell;
use std::alloc::Global;

/// As many unwritten bytes.
pub fn unwritten(alloc: Global, n: u32) -> Result<Items<Cell>, NoMemory>
    ensures { IfOk result (λ cells. cells ≡ replicate n spec.Unwritten) }
{
    let mut out = Items::new(alloc);
    for _ in 0..n {
        out.push(Cell::unwritten())?;
    }
    Ok(out)
}
