// Copies of lists.
ghost use Rattle.std.specs.Prelude.{◌≡◌, ◌++◌, IfOk, OnOk};

use sc_base::{Duplicate, Items, NoMemory};
use std::alloc::Global;

/// Appends copies of the elements of another list.
pub fn push_each<T: Duplicate + Drop>(
    alloc: Global,
    out: &mut Items<T>,
    items: &[T],
) -> Result<(), NoMemory>
    ensures { OnOk result (out.new ≡ out.old ++ items.now) }
{
    for item in items {
        out.push(item.copy(alloc)?)?;
    }
    Ok(())
}

/// A list of copies.
pub fn copied<T: Duplicate + Drop>(alloc: Global, items: &[T]) -> Result<Items<T>, NoMemory>
    ensures { IfOk result (λ copies. copies ≡ items.now) }
{
    let mut out = Items::new(alloc);
    push_each(alloc, &mut out, items)?;
    Ok(out)
}
