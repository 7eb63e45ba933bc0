// Whether what has to be there once is there once.
ghost use Rattle.std.specs.Prelude.{◌≡◌, map, nat_eq, IfOk};
ghost use Rattle.sc_isa_image.specs.Lookups.{key_eq};
ghost use Rattle.sc_image.specs.Distinct as spec;

use indexmap::IndexSet;
use sc_base::{Duplicate, Key, NoMemory};
use sc_link::LiteralAt;
use std::alloc::Global;

/// Whether each key is there once.
pub(crate) fn are_keys_distinct(alloc: Global, keys: &[Key]) -> Result<bool, NoMemory>
    ensures { IfOk result (λ yes. yes ≡ spec.distinct key_eq keys.now) }
{
    let mut seen = IndexSet::new(alloc);
    for key in keys {
        if !add_key(alloc, &mut seen, key)? {
            return Ok(false);
        }
    }
    Ok(true)
}

/// Whether each literal has a place of its own.
pub(crate) fn are_places_distinct(alloc: Global, literals: &[LiteralAt]) -> Result<bool, NoMemory>
    ensures { IfOk result (λ yes. yes ≡ spec.distinct nat_eq (map (λ x. x.at) literals.now)) }
{
    let mut seen = IndexSet::new(alloc);
    for literal in literals {
        if !add_place(&mut seen, literal.at)? {
            return Ok(false);
        }
    }
    Ok(true)
}

// Adds a key; the answer says whether it is new.
fn add_key(alloc: Global, seen: &mut IndexSet<Key>, key: &Key) -> Result<bool, NoMemory>
    ensures { IfOk result (λ new. spec.Adds key_eq key.now seen.old.keys seen.new.keys new) }
{
    let key = key.copy(alloc)?;
    let new = seen.insert(key)?;
    Ok(new)
}

// Adds a place; the answer says whether it is new.
fn add_place(seen: &mut IndexSet<u32>, at: u32) -> Result<bool, NoMemory>
    ensures { IfOk result (λ new. spec.Adds nat_eq at seen.old.keys seen.new.keys new) }
{
    match seen.insert(at) {
        Ok(new) => Ok(new),
        Err(_) => Err(NoMemory),
    }
}
