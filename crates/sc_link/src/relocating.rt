// The relocations of placed texts, made on an image.
ghost use Rattle.std.specs.Prelude.{◌≡◌, ℕ, ◌+◌, ◌%◌, ◌^◌, if◌then◌else◌, nat_lt, true, None, map, flat_map, slice_get, Option, Some, IfOk, OnOk};
ghost use Rattle.sc_base.specs.declared.key.Key.{Key as Named};
ghost use Rattle.sc_isa_image.specs.Lookups.{value_of, word_at};
ghost use Rattle.sc_link.specs.declared.placed.Placed.{Placed as Entry};
ghost use Rattle.sc_link.specs.Entries.{base_of, fixes_from, fixes_if, fixes_in, fixes_of, has_second, spot_of};
ghost use Rattle.sc_link.specs.Linked.{base_value, or_zero};
ghost use Rattle.sc_link.specs.Steps.{FixesWord, Relocates};

use crate::placed::{Placed, TEXTS};
use crate::relocation::{CALL, relocated, target_of};
use crate::symbol::{is_literal, is_text, key_of, place_of};
use sc_base::{Form, NoMemory};
use sc_isa_image::Image;
use sc_object::{Reloc, Symbol};
use std::alloc::Global;

/// Makes the relocations of all entries in object form, with the values that the image has for keys.
pub fn relocate(alloc: Global, image: &mut Image, placed: &[Placed]) -> Result<(), NoMemory>
    ensures { (value : Named → Option ℕ) → ((key : Named) → value_of image.old key ≡ value key) → OnOk result (Relocates value (fixes_in placed.now) image.old image.new) }
{
    for entry in placed {
        relocate_entry(alloc, image, entry)?;
    }
    Ok(())
}

/// Makes the relocations of an entry in object form.
pub fn relocate_entry(alloc: Global, image: &mut Image, entry: &Placed) -> Result<(), NoMemory>
    ensures { (value : Named → Option ℕ) → ((key : Named) → value_of image.old key ≡ value key) → OnOk result (Relocates value (fixes_if entry.now) image.old image.new) }
{
    match entry.form {
        Form::Source => Ok(()),
        Form::Object => {
            let bases = bases_of(alloc, image, entry)?;
            relocate_all(image, entry, bases.as_slice());
            Ok(())
        }
    }
}

/// To what the relocations of an entry add: for each symbol the value of its key, or a literal's place.
pub fn bases_of(alloc: Global, image: &Image, entry: &Placed) -> Result<Vec<u32>, NoMemory>
    ensures { IfOk result (λ bases. bases.items ≡ map (λ s. base_value (value_of image.now) (base_of entry.now (Some s))) entry.now.object.symbols) }
{
    let symbols = entry.object.get().symbols.as_slice();
    let mut bases = Vec::with_capacity(alloc, symbols.len())?;
    for symbol in symbols {
        bases.push(base_of(alloc, image, entry, symbol)?)?;
    }
    Ok(bases)
}

// To what the relocations that name a symbol add.
fn base_of(alloc: Global, image: &Image, entry: &Placed, symbol: &Symbol) -> Result<u32, NoMemory>
    ensures { IfOk result (λ base. base ≡ base_value (value_of image.now) (base_of entry.now (Some symbol.now))) }
{
    if is_literal(symbol.name.as_slice()) {
        return Ok(or_zero(place_of(entry, symbol)));
    }
    match key_of(alloc, &entry.home, symbol)? {
        Some(key) => {
            let value = or_zero(image.value(&key));
            Ok(value)
        }
        None => Ok(0),
    }
}

// What has no value has 0.
fn or_zero(value: Option<u32>) -> u32
    ensures { result ≡ or_zero value }
{
    match value {
        Some(value) => value,
        None => 0,
    }
}

// Makes the relocations of an entry, by what the symbols stand for.
fn relocate_all(image: &mut Image, entry: &Placed, bases: &[u32])
    ensures { (value : Named → Option ℕ) → bases.now ≡ map (λ s. base_value value (base_of entry.now (Some s))) entry.now.object.symbols → Relocates value (flat_map (fixes_of entry.now) entry.now.object.relocs) image.old image.new }
{
    for reloc in entry.object.get().relocs.as_slice() {
        let base = base_at(bases, reloc.symbol);
        relocate_one(image, entry, reloc, base);
    }
}

// What a symbol stands for, 0 where there is none.
fn base_at(bases: &[u32], symbol: u32) -> u32
    ensures { result ≡ or_zero (slice_get bases.now symbol) }
{
    or_zero(bases.get(symbol as usize).copied())
}

/// Makes a relocation of an entry, by what its symbol stands for.
pub fn relocate_one(image: &mut Image, entry: &Placed, reloc: &Reloc, base: u32)
    ensures { (value : Named → Option ℕ) → base_value value (base_of entry.now (slice_get entry.now.object.symbols reloc.now.symbol)) ≡ base → Relocates value (fixes_of entry.now reloc.now) image.old image.new }
{
    match spot_of(entry, reloc) {
        Some(spot) => fix_words(image, reloc, base, spot),
        None => {}
    }
}

// The address of a relocation in a text, and the length of the text in bytes.
fn spot_of(entry: &Placed, reloc: &Reloc) -> Option<(u32, usize)>
    ensures { result ≡ spot_of entry.now reloc.now }
{
    let section = entry
        .object
        .get()
        .sections
        .as_slice()
        .get(reloc.section as usize)?;
    let start = entry.places.as_slice().get(reloc.section as usize)?;
    let len = section.bytes.as_slice().len();
    if is_text(section.kind) && reloc.at as usize + 4 <= len {
        Some((start.wrapping_add(reloc.at), len))
    } else {
        None
    }
}

// Puts a relocation's parts of an address into its words.
fn fix_words(image: &mut Image, reloc: &Reloc, base: u32, spot: (u32, usize))
    ensures { (value : Named → Option ℕ) (e : Entry) → base_value value (base_of e (slice_get e.object.symbols reloc.now.symbol)) ≡ base → Relocates value (fixes_from e reloc.now spot) image.old image.new }
{
    let target = target_of(reloc.kind, base, reloc.addend, spot.0);
    fix_word(image, spot.0, reloc.kind, false, target);
    if has_second(reloc, spot.1) {
        fix_second(image, spot.0, reloc.kind, target);
    }
}

// Whether a relocation changes two words of a text.
fn has_second(reloc: &Reloc, len: usize) -> bool
    ensures { result ≡ has_second reloc.now len }
{
    reloc.kind == CALL && reloc.at as usize + 8 <= len
}

// Puts a relocation's part of an address into the word behind its first one.
fn fix_second(image: &mut Image, place: u32, kind: u8, target: u32)
    ensures { FixesWord ((place + 4) % 2 ^ 32) kind true target image.old image.new }
{
    fix_word(image, place.wrapping_add(4), kind, true, target);
}

// Puts a relocation's part of an address into the word at an address of the text area, if there is one.
fn fix_word(image: &mut Image, at: u32, kind: u8, second: bool, target: u32)
    ensures { FixesWord at kind second target image.old image.new }
{
    match text_word(image, at) {
        Some(word) => {
            let word = relocated(kind, second, target, word);
            image.set_word(at, word);
        }
        None => {}
    }
}

// The word at an address of the text area.
fn text_word(image: &Image, at: u32) -> Option<u32>
    ensures { result ≡ (if nat_lt at 0x00100000 then None else word_at image.now at) }
{
    if at < TEXTS { None } else { image.word(at) }
}
