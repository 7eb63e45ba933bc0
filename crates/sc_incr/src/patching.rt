// Relocations that are made on an image, and made again where a key got another value. Nothing here takes memory.
ghost use Rattle.std.specs.Prelude.{◌≡◌, ℕ, flat_map, map, slice_get, Option, Some};
ghost use Rattle.std.specs.Option.{option_copied};
ghost use Rattle.sc_base.specs.declared.key.Key.{Key as Named};
ghost use Rattle.sc_object.specs.declared.object.Reloc.{Reloc as Relocation};
ghost use Rattle.sc_isa_image.specs.Lookups.{value_of};
ghost use Rattle.sc_link.specs.Entries.{base_of, fixes_if, fixes_of};
ghost use Rattle.sc_link.specs.Linked.{base_value, or_zero};
ghost use Rattle.sc_link.specs.Steps.{Relocates};
ghost use Rattle.sc_link.specs.Symbols as symbols;
ghost use Rattle.sc_incr.specs.Uses.{fixes_naming};
ghost use Rattle.sc_incr.specs.Parts.{AllAddTo, adds_to, fixes_at_position, fixes_placed, fixes_for, fixes_for_all, key_value};

use crate::entry::Entry;
use sc_base::{Form, Key};
use sc_isa_image::Image;
use sc_link::{Placed, is_literal, place_of, relocate_one};
use sc_object::Reloc;

/// Makes the relocations of an entry in object form, whose symbols name these keys.
pub fn relocate_new(image: &mut Image, entry: &Placed, keys: &[Option<Key>])
    requires { keys.now ≡ map (symbols.key_of entry.now.home) entry.now.object.symbols }
    ensures { (value : Named → Option ℕ) → ((key : Named) → value_of image.old key ≡ value key) → Relocates value (fixes_if entry.now) image.old image.new }
{
    match entry.form {
        Form::Source => {}
        Form::Object => relocate_all(image, entry, keys),
    }
}

// Makes the relocations of an entry.
fn relocate_all(image: &mut Image, entry: &Placed, keys: &[Option<Key>])
    requires { keys.now ≡ map (symbols.key_of entry.now.home) entry.now.object.symbols }
    ensures { (value : Named → Option ℕ) → ((key : Named) → value_of image.old key ≡ value key) → Relocates value (flat_map (fixes_of entry.now) entry.now.object.relocs) image.old image.new }
{
    for reloc in entry.object.get().relocs.as_slice() {
        relocate_keyed(image, entry, keys, reloc);
    }
}

// Makes a relocation of an entry.
fn relocate_keyed(image: &mut Image, entry: &Placed, keys: &[Option<Key>], reloc: &Reloc)
    requires { keys.now ≡ map (symbols.key_of entry.now.home) entry.now.object.symbols }
    ensures { (value : Named → Option ℕ) → ((key : Named) → value_of image.old key ≡ value key) → Relocates value (fixes_of entry.now reloc.now) image.old image.new }
{
    let base = base_of(image, entry, keys, reloc.symbol);
    relocate_one(image, entry, reloc, base);
}

// To what the relocations that name a symbol add.
fn base_of(image: &Image, entry: &Placed, keys: &[Option<Key>], symbol: u32) -> u32
    requires { keys.now ≡ map (symbols.key_of entry.now.home) entry.now.object.symbols }
    ensures { result ≡ base_value (value_of image.now) (base_of entry.now (slice_get entry.now.object.symbols symbol)) }
{
    match entry.object.get().symbols.as_slice().get(symbol as usize) {
        None => 0,
        Some(found) => {
            if is_literal(found.name.as_slice()) {
                or_zero(place_of(entry, found))
            } else {
                value_at(image, keys, symbol)
            }
        }
    }
}

// The value of the key of a symbol, 0 where it has none.
fn value_at(image: &Image, keys: &[Option<Key>], symbol: u32) -> u32
    ensures { result ≡ key_value (value_of image.now) (slice_get keys.now symbol) }
{
    match keys.get(symbol as usize) {
        None => 0,
        Some(key) => match key {
            None => 0,
            Some(key) => or_zero(image.value(key)),
        },
    }
}

// What has no value has 0.
fn or_zero(value: Option<u32>) -> u32
    ensures { result ≡ or_zero value }
{
    match value {
        Some(value) => value,
        None => 0,
    }
}

/// Makes the relocations again that name one of these keys, with the values that the image has now.
pub fn patch_keys(image: &mut Image, entries: &[Entry], keys: &[Key])
    ensures { (value : Named → Option ℕ) → ((key : Named) → value_of image.old key ≡ value key) → Relocates value (fixes_for_all entries.now keys.now) image.old image.new }
{
    for key in keys {
        patch_key(image, entries, key);
    }
}

// Makes the relocations again that name a key.
fn patch_key(image: &mut Image, entries: &[Entry], key: &Key)
    ensures { (value : Named → Option ℕ) → ((key : Named) → value_of image.old key ≡ value key) → Relocates value (fixes_for entries.now key.now) image.old image.new }
{
    let base = or_zero(image.value(key));
    patch_entries(image, entries, key, base);
}

// Makes the relocations again that name a key, whose value is given.
fn patch_entries(image: &mut Image, entries: &[Entry], key: &Key, base: u32)
    ensures { (value : Named → Option ℕ) → or_zero (value key.now) ≡ base → Relocates value (fixes_for entries.now key.now) image.old image.new }
{
    for entry in entries {
        patch_entry(image, entry, key, base);
    }
}

// Makes the relocations of an entry again that name a key.
fn patch_entry(image: &mut Image, entry: &Entry, key: &Key, base: u32)
    ensures { (value : Named → Option ℕ) → or_zero (value key.now) ≡ base → Relocates value (fixes_naming key.now entry.now) image.old image.new }
{
    let positions = entry.positions(key);
    patch_placed(image, entry.placed(), positions, base);
}

// Makes the relocations at positions of an entry again, if it is in object form; they all add to one base.
fn patch_placed(image: &mut Image, entry: &Placed, positions: &[usize], base: u32)
    ensures { (value : Named → Option ℕ) → AllAddTo value entry.now base positions.now → Relocates value (fixes_placed entry.now positions.now) image.old image.new }
{
    match entry.form {
        Form::Source => {}
        Form::Object => patch_positions(image, entry, positions, base),
    }
}

// Makes the relocations at positions of an entry again, which all add to one base.
fn patch_positions(image: &mut Image, entry: &Placed, positions: &[usize], base: u32)
    ensures { (value : Named → Option ℕ) → AllAddTo value entry.now base positions.now → Relocates value (flat_map (fixes_at_position entry.now) positions.now) image.old image.new }
{
    for (n, _) in positions.iter().enumerate() {
        patch_nth(image, entry, positions, n, base);
    }
}

// Makes the relocation of an entry again whose position stands at a place of a list.
fn patch_nth(image: &mut Image, entry: &Placed, positions: &[usize], n: usize, base: u32)
    ensures { (value : Named → Option ℕ) (at : ℕ) → AllAddTo value entry.now base positions.now → slice_get positions.now n ≡ Some at → Relocates value (fixes_at_position entry.now at) image.old image.new }
{
    match position_in(positions, n) {
        Some(at) => patch_position(image, entry, at, base),
        None => {}
    }
}

// The position at a place of a list.
fn position_in(positions: &[usize], n: usize) -> Option<&usize>
    ensures { option_copied result ≡ slice_get positions.now n }
{
    positions.get(n)
}

// Makes the relocation at a position of an entry again.
fn patch_position(image: &mut Image, entry: &Placed, at: &usize, base: u32)
    ensures { (value : Named → Option ℕ) → ((r : Relocation) → slice_get entry.now.object.relocs at.now ≡ Some r → adds_to value entry.now r ≡ base) → Relocates value (fixes_at_position entry.now at.now) image.old image.new }
{
    match reloc_at(entry, *at) {
        Some(reloc) => relocate_one(image, entry, reloc, base),
        None => {}
    }
}

// The relocation at a position of an entry.
fn reloc_at(entry: &Placed, at: usize) -> Option<&Reloc>
    ensures { option_copied result ≡ slice_get entry.now.object.relocs at }
{
    entry.object.get().relocs.as_slice().get(at)
}
