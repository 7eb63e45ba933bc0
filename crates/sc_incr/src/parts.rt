// What a new entry puts into an image.
ghost use Rattle.std.specs.Prelude.{◌≡◌, ℕ, ◌≤◌, ◌++◌, ◌∷◌, [], filter, length, map, not, IfOk, OnOk, Option};
ghost use Rattle.sc_base.specs.declared.key.Key.{Key as Named};
ghost use Rattle.sc_isa_image.specs.Lookups.{function_room, key_eq, literal_room, text_room, value_room};
ghost use Rattle.sc_link.specs.Entries.{jumps_if, literals_of, statics_if, texts_if};
ghost use Rattle.sc_link.specs.Linked.{IsLinked};
ghost use Rattle.sc_link.specs.Symbols as symbols;
ghost use Rattle.sc_incr.specs.Stands.{Has, IsOpen, Under};
ghost use Rattle.sc_incr.specs.Parts.{ArePartsOf, Follows, HasEntry, HasRoom, is_object_of, key_of_pair};

use crate::entry::Entry;
use crate::patching::{patch_keys, relocate_new};
use sc_base::{Duplicate, Key, NoMemory};
use sc_isa_image::{Image, Text};
use sc_link::{
    LiteralAt, Placed, add_jumps, add_literals, add_statics, add_texts, copies, key_of,
    patches_over, put_functions, put_literals, put_statics, put_texts, set_jumps,
};
use std::alloc::Global;

/// What an entry puts into an image: functions that have no number yet, its objects and literals with their places, its
/// texts and the stubs that lead to them; the keys of its symbols; and the keys that get a value.
#[derive(Drop)]
pub struct Parts {
    pub functions: Vec<Key>,
    pub statics: Vec<(Key, u32)>,
    pub texts: Vec<Text>,
    pub jumps: Vec<(Key, u32)>,
    pub literals: Vec<LiteralAt>,
    pub symbols: Vec<Option<Key>>,
    pub changed: Vec<Key>,
}

/// The parts of an entry, with functions that are new, and with keys that had a value before.
pub fn parts_of(
    alloc: Global,
    entry: &Placed,
    functions: Vec<Key>,
    stale: &[Key],
) -> Result<Parts, NoMemory>
    ensures parts { IfOk result (ArePartsOf entry.now) }
    ensures functions { IfOk result (λ p. p.functions.items ≡ functions.items) }
    ensures stale { IfOk result (λ p. (k : Named) → Has k stale.now → Has k p.changed.items) }
{
    let mut statics = Vec::new(alloc);
    add_statics(alloc, &mut statics, entry)?;
    let mut texts = Vec::new(alloc);
    add_texts(alloc, &mut texts, entry)?;
    let mut jumps = Vec::new(alloc);
    add_jumps(alloc, &mut jumps, entry)?;
    let mut literals = Vec::new(alloc);
    add_literals(alloc, &mut literals, entry)?;
    let symbols = symbol_keys(alloc, entry)?;
    let mut changed = changed_keys(alloc, functions.as_slice(), statics.as_slice())?;
    add_stale(alloc, &mut changed, statics.as_slice(), stale)?;
    Ok(Parts {
        functions,
        statics,
        texts,
        jumps,
        literals,
        symbols,
        changed,
    })
}

// The keys of the symbols of an entry.
fn symbol_keys(alloc: Global, entry: &Placed) -> Result<Vec<Option<Key>>, NoMemory>
    ensures { IfOk result (λ keys. keys.items ≡ map (symbols.key_of entry.now.home) entry.now.object.symbols) }
{
    let symbols = entry.object.get().symbols.as_slice();
    let mut keys = Vec::with_capacity(alloc, symbols.len())?;
    for symbol in symbols {
        let key = key_of(alloc, &entry.home, symbol)?;
        keys.push(key)?;
    }
    Ok(keys)
}

/// The keys of functions and of objects.
pub fn changed_keys(
    alloc: Global,
    functions: &[Key],
    statics: &[(Key, u32)],
) -> Result<Vec<Key>, NoMemory>
    ensures { IfOk result (λ keys. keys.items ≡ functions.now ++ map key_of_pair statics.now) }
{
    let mut keys = copies(alloc, functions)?;
    for object in statics {
        let key = object.0.copy(alloc)?;
        keys.push(key)?;
    }
    Ok(keys)
}

// Appends keys that had a value before, but for those of objects.
fn add_stale(
    alloc: Global,
    keys: &mut Vec<Key>,
    objects: &[(Key, u32)],
    stale: &[Key],
) -> Result<(), NoMemory>
    ensures { OnOk result (keys.new.items ≡ keys.old.items ++ filter (λ k. not (is_object_of objects.now k)) stale.now) }
{
    for key in stale {
        if !is_object(objects, key) {
            keys.push(key.copy(alloc)?)?;
        }
    }
    Ok(())
}

// Whether a key is one of objects.
fn is_object(objects: &[(Key, u32)], key: &Key) -> bool
    ensures { result ≡ is_object_of objects.now key.now }
{
    objects.iter().any(|object| is_same(&object.0, key))
}

// Whether two keys are equal.
fn is_same(one: &Key, other: &Key) -> bool
    ensures { result ≡ key_eq one.now other.now }
{
    one == other
}

/// Puts an entry into the image of a list: its parts, its relocations, and once more the relocations that name a key which
/// gets a value, or whose relocations were left as they were. It takes no memory.
pub fn enter(image: &mut Image, entries: &[Entry], funs: &[Key], entry: &Placed, parts: Parts)
    requires left { IsOpen entries.now funs.now parts.changed.items image.old }
    requires follows { Follows entries.now funs.now entry.now parts.functions.items }
    requires parts { ArePartsOf entry.now parts }
    requires room { HasRoom 0 image.old parts }
    ensures { IsLinked (entries.now ++ entry.now ∷ []) (funs.now ++ parts.functions.items) image.new }
{
    let Parts {
        functions,
        statics,
        texts,
        jumps,
        literals,
        symbols,
        changed,
    } = parts;
    put_parts(
        image, entries, funs, entry, functions, statics, texts, jumps, literals,
    );
    relocate_new(image, entry, symbols.as_slice());
    patch_keys(image, entries, changed.as_slice());
    patches_over();
}

// Puts the parts of an entry into the image of a list.
fn put_parts(
    image: &mut Image,
    entries: &[Entry],
    funs: &[Key],
    entry: &Placed,
    functions: Vec<Key>,
    statics: Vec<(Key, u32)>,
    texts: Vec<Text>,
    jumps: Vec<(Key, u32)>,
    literals: Vec<LiteralAt>,
)
    requires stands { (value : Named → Option ℕ) × Under value entries.now funs.now image.old }
    requires follows { Follows entries.now funs.now entry.now functions.items }
    requires statics { statics.items ≡ statics_if entry.now }
    requires texts { texts.items ≡ texts_if entry.now }
    requires jumps { jumps.items ≡ jumps_if entry.now }
    requires literals { literals.items ≡ literals_of entry.now }
    requires texts_room { length texts.items ≤ text_room image.old }
    requires statics_room { length statics.items ≤ value_room image.old }
    requires literals_room { length literals.items ≤ literal_room image.old }
    requires functions_room { length functions.items ≤ function_room image.old }
    ensures { (value : Named → Option ℕ) → Under value entries.now funs.now image.old → HasEntry value entries.now funs.now entry.now functions.items image.new }
{
    put_functions(image, functions);
    put_statics(image, statics);
    put_texts(image, texts);
    set_jumps(image, jumps);
    put_literals(image, literals);
}
