// The places that the sections of a module keep in a running program.
ghost use Rattle.std.specs.Prelude.{◌≡◌, IfOk};
ghost use Rattle.std.specs.List.{list_any};
ghost use Rattle.std.specs.Option.{option_copied};
ghost use Rattle.sc_isa_image.specs.Literals.{literal_of};
ghost use Rattle.sc_isa_image.specs.Lookups.{key_eq};
ghost use Rattle.sc_link.specs.Linked.{is_literal_at, literal_place, place_in};
ghost use Rattle.sc_image.specs.Running as spec;

use crate::module::Linking;
use sc_base::{Key, Name, NoMemory};
use sc_link::{LiteralAt, Placed, is_literal, key_of, literals_in, section_of, statics_in};
use sc_object::{Object, Section, Symbol};
use std::alloc::Global;

// Whether this is the literal of a module with these bytes.
fn is_same(home: &Name, bytes: &[u8], literal: &LiteralAt) -> bool
    ensures { result ≡ is_literal_at (literal_of home.now bytes.now) literal.now }
{
    literal.module.as_slice() == home.as_slice() && literal.bytes.as_slice() == bytes
}

// The place of a literal, in the last entry that holds it.
fn literal_at(literals: &[LiteralAt], home: &Name, bytes: &[u8]) -> Option<u32>
    ensures { result ≡ literal_place literals.now (literal_of home.now bytes.now) }
{
    let mut left = literals;
    'looking: while let Some((last, rest)) = left.split_last() {
        if is_same(home, bytes, last) {
            return Some(last.at);
        }
        left = rest;
    }
    None
}

// Whether a key is one of these.
fn is_among(keys: &[Key], key: &Key) -> bool
    ensures { result ≡ list_any (λ k. key_eq k key.now) keys.now }
{
    for k in keys {
        if *k == *key {
            return true;
        }
    }
    false
}

// The place of an object.
fn static_at(statics: &[(Key, u32)], key: &Key) -> Option<u32>
    ensures { result ≡ place_in statics.now key.now }
{
    let mut left = statics;
    'looking: while let [first, rest @ ..] = left {
        if first.0 == *key {
            return Some(first.1);
        }
        left = rest;
    }
    None
}

// The place that a literal keeps.
fn literal_kept(literals: &[LiteralAt], home: &Name, section: Option<&Section>) -> Option<u32>
    ensures { result ≡ spec.literal_kept literals.now home.now (option_copied section.entry) }
{
    match section {
        None => None,
        Some(section) => literal_at(literals, home, section.bytes.as_slice()),
    }
}

// The place that an object keeps.
fn static_kept(statics: &[(Key, u32)], kept: &[Key], key: &Option<Key>) -> Option<u32>
    ensures { result ≡ spec.static_kept statics.now kept.now key.now }
{
    match key {
        None => None,
        Some(key) => {
            if is_among(kept, key) {
                static_at(statics, key)
            } else {
                None
            }
        }
    }
}

// The place that what a symbol names keeps.
fn kept_place(
    alloc: Global,
    literals: &[LiteralAt],
    statics: &[(Key, u32)],
    kept: &[Key],
    home: &Name,
    object: &Object,
    symbol: &Symbol,
) -> Result<Option<u32>, NoMemory>
    ensures { IfOk result (λ place. place ≡ spec.kept_place literals.now statics.now kept.now home.now object.now symbol.now) }
{
    if is_literal(symbol.name.as_slice()) {
        return Ok(literal_kept(literals, home, section_of(object, symbol)));
    }
    let key = key_of(alloc, home, symbol)?;
    Ok(static_kept(statics, kept, &key))
}

// A section keeps a place, where there are both.
fn put_kept(section: Option<u32>, place: Option<u32>, keeps: &mut Vec<Option<u32>>)
    ensures { keeps.new.items ≡ spec.put_kept section place keeps.old.items }
{
    match section {
        None => (),
        Some(section) => match place {
            None => (),
            Some(at) => {
                if let Some(keep) = keeps.get_mut(section as usize) {
                    *keep = Some(at);
                }
            }
        },
    }
}

// The places that sections keep, one symbol after another.
fn all_kept(
    alloc: Global,
    literals: &[LiteralAt],
    statics: &[(Key, u32)],
    kept: &[Key],
    module: &Linking,
    keeps: &mut Vec<Option<u32>>,
) -> Result<(), NoMemory>
    ensures { IfOk result (λ _. keeps.new.items ≡ spec.all_kept (spec.kept_place literals.now statics.now kept.now «module».now.name «module».now.object) «module».now.object.symbols keeps.old.items) }
{
    let object = module.object.get();
    let mut left = object.symbols.as_slice();
    'keeping: while let [symbol, rest @ ..] = left {
        let place = kept_place(alloc, literals, statics, kept, &module.name, object, symbol)?;
        put_kept(symbol.section, place, keeps);
        left = rest;
    }
    Ok(())
}

/// The places that the sections of a module keep in a list of entries, where the objects with these keys stay, and all literals.
pub fn kept_places(
    alloc: Global,
    placed: &[Placed],
    module: &Linking,
    kept: &[Key],
) -> Result<Vec<Option<u32>>, NoMemory>
    ensures { IfOk result (λ keeps. keeps.items ≡ spec.kept_places placed.now «module».now kept.now) }
{
    let literals = literals_in(alloc, placed)?;
    let statics = statics_in(alloc, placed)?;
    let mut keeps = Vec::from_elem(alloc, None, module.object.get().sections.len())?;
    all_kept(
        alloc,
        literals.as_slice(),
        statics.as_slice(),
        kept,
        module,
        &mut keeps,
    )?;
    Ok(keeps)
}
