// The index from keys to the relocations that name them.
ghost use Rattle.std.specs.Prelude.{◌≡◌, ◌++◌, ◌∷◌, [], ℕ, if◌then◌else◌, slice_get, IfOk, OnOk, IsSome, None, Some};
ghost use Rattle.std.specs.Map.{lookup};
ghost use Rattle.std.specs.Option.{option_copied};
ghost use Rattle.sc_base.specs.declared.key.Key.{Key as Named};
ghost use Rattle.sc_object.specs.declared.object.Reloc.{Reloc as Relocation};
ghost use Rattle.sc_isa_image.specs.Lookups.{key_eq};
ghost use Rattle.sc_incr.specs.Uses as spec;

use indexmap::IndexMap;
use sc_base::{Items, Key, Name, NoMemory};
use sc_link::{is_literal, key_of};
use sc_object::{Object, Reloc};
use std::alloc::Global;

/// A relocation of an entry of the list: the entry's position, and the relocation's in its object.
#[derive(Clone, Copy, Debug, PartialEq, Eq)]
pub struct Use {
    pub placed: usize,
    pub reloc: usize,
}

/// For each key the relocations of one object that name it, by their positions, in their order.
#[derive(Drop)]
pub struct Uses {
    lists: IndexMap<Key, Items<usize>>,
}

/// The relocations of a module's object by the keys that they name.
pub fn index(alloc: Global, home: &Name, object: &Object) -> Result<Uses, NoMemory>
    ensures { IfOk result (spec.IsIndex home.now object.now) }
{
    index_relocs(alloc, home, object, object.relocs.as_slice())
}

// Relocations of an object by the keys that they name.
fn index_relocs(
    alloc: Global,
    home: &Name,
    object: &Object,
    relocs: &[Reloc],
) -> Result<Uses, NoMemory>
    ensures { IfOk result (spec.IsIndexOf home.now object.now relocs.now) }
{
    let mut uses = no_uses(alloc);
    for (at, _) in relocs.iter().enumerate() {
        add_reloc_at(alloc, &mut uses, home, object, relocs, at)?;
    }
    Ok(uses)
}

// Adds the relocation at a position of a list under the key that it names, if it names one.
fn add_reloc_at(
    alloc: Global,
    uses: &mut Uses,
    home: &Name,
    object: &Object,
    relocs: &[Reloc],
    at: usize,
) -> Result<(), NoMemory>
    ensures { (q : Named) (r : Relocation) → slice_get relocs.now at ≡ Some r → OnOk result (spec.found uses.new q ≡ spec.found uses.old q ++ (if spec.names home.now object.now q r then at ∷ [] else [])) }
{
    match reloc_in(relocs, at) {
        Some(reloc) => add_reloc(alloc, uses, home, object, reloc, at),
        None => Ok(()),
    }
}

// The relocation at a position of a list.
fn reloc_in(relocs: &[Reloc], at: usize) -> Option<&Reloc>
    ensures { option_copied result ≡ slice_get relocs.now at }
{
    relocs.get(at)
}

// An index in which nothing is.
fn no_uses(alloc: Global) -> Uses
    ensures { (key : Named) → spec.found result key ≡ [] }
{
    Uses {
        lists: IndexMap::new(alloc),
    }
}

/// The positions of the relocations that name a key.
pub fn positions<'a>(uses: &'a Uses, key: &Key) -> &'a [usize]
    ensures { result.now ≡ spec.found uses.now key.now }
{
    match uses.lists.get(key) {
        Some(list) => list.as_slice(),
        None => &[],
    }
}

// Adds a relocation under the key that it names, if it names one.
fn add_reloc(
    alloc: Global,
    uses: &mut Uses,
    home: &Name,
    object: &Object,
    reloc: &Reloc,
    at: usize,
) -> Result<(), NoMemory>
    ensures { (q : Named) → OnOk result (spec.found uses.new q ≡ spec.found uses.old q ++ (if spec.names home.now object.now q reloc.now then at ∷ [] else [])) }
{
    match key_named(alloc, home, object, reloc)? {
        Some(key) => add_use(alloc, uses, key, at),
        None => Ok(()),
    }
}

// The key that a relocation names: none where it names a literal, or nothing.
fn key_named(
    alloc: Global,
    home: &Name,
    object: &Object,
    reloc: &Reloc,
) -> Result<Option<Key>, NoMemory>
    ensures { IfOk result (λ key. key ≡ spec.key_named home.now object.now reloc.now) }
{
    match object.symbols.as_slice().get(reloc.symbol as usize) {
        Some(symbol) => {
            if is_literal(symbol.name.as_slice()) {
                return Ok(None);
            }
            key_of(alloc, home, symbol)
        }
        None => Ok(None),
    }
}

// Adds a relocation that names a key, behind those that do.
fn add_use(alloc: Global, uses: &mut Uses, key: Key, at: usize) -> Result<(), NoMemory>
    ensures { (q : Named) → OnOk result (spec.found uses.new q ≡ spec.found uses.old q ++ (if key_eq key q then at ∷ [] else [])) }
{
    if uses.lists.contains_key(&key) {
        push_use(&mut uses.lists, &key, at)
    } else {
        insert_use(alloc, &mut uses.lists, key, at)
    }
}

// Adds a relocation to the list of a key that has one.
fn push_use(lists: &mut IndexMap<Key, Items<usize>>, key: &Key, at: usize) -> Result<(), NoMemory>
    requires { IsSome (lookup (key_eq key.now) lists.old.entries) }
    ensures { (q : Named) → OnOk result (spec.or_nothing (lookup (key_eq q) lists.new.entries) ≡ spec.or_nothing (lookup (key_eq q) lists.old.entries) ++ (if key_eq key.now q then at ∷ [] else [])) }
{
    match lists.get_mut(key) {
        Some(list) => {
            list.push(at)?;
            Ok(())
        }
        None => Ok(()),
    }
}

// Gives a key that has no list one of one relocation.
fn insert_use(
    alloc: Global,
    lists: &mut IndexMap<Key, Items<usize>>,
    key: Key,
    at: usize,
) -> Result<(), NoMemory>
    requires { lookup (key_eq key) lists.old.entries ≡ None }
    ensures { (q : Named) → OnOk result (spec.or_nothing (lookup (key_eq q) lists.new.entries) ≡ spec.or_nothing (lookup (key_eq q) lists.old.entries) ++ (if key_eq key q then at ∷ [] else [])) }
{
    let mut list = Items::new(alloc);
    list.push(at)?;
    lists.insert(key, list)?;
    Ok(())
}
