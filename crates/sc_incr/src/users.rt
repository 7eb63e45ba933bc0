// The relocations of a list that name a key.
ghost use Rattle.std.specs.Prelude.{◌≡◌, ◌++◌, map, IfOk, OnOk};
ghost use Rattle.sc_incr.specs.Uses as spec;

use crate::entry::Entry;
use crate::uses::Use;
use sc_base::{Key, NoMemory};
use std::alloc::Global;

/// The relocations that name a key, in the order of the list and then of the objects, former entries included.
pub fn users_in(alloc: Global, entries: &[Entry], key: &Key) -> Result<Vec<Use>, NoMemory>
    ensures { IfOk result (λ users. users.items ≡ spec.users_in entries.now key.now) }
{
    let mut users = Vec::new(alloc);
    for (placed, entry) in entries.iter().enumerate() {
        add_users(&mut users, placed, entry.positions(key))?;
    }
    Ok(users)
}

// Appends the relocations at positions of an entry.
fn add_users(users: &mut Vec<Use>, placed: usize, positions: &[usize]) -> Result<(), NoMemory>
    ensures { OnOk result (users.new.items ≡ users.old.items ++ map (spec.use_at placed) positions.now) }
{
    for reloc in positions {
        users.push(Use {
            placed,
            reloc: *reloc,
        })?;
    }
    Ok(())
}
