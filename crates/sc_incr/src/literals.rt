// The literals that an image loses with an entry.
ghost use Rattle.std.specs.Prelude.{◌≡◌, ℕ, ◌++◌, [], ◌∷◌, IfOk, OnOk, map, option_to_list};
ghost use Rattle.std.specs.List.{list_any};
ghost use Rattle.std.specs.Option.{option_copied, option_map};
ghost use Rattle.sc_isa_image.specs.Literals.{literal_of as named};
ghost use Rattle.sc_link.specs.Entries.{literals_of};
ghost use Rattle.sc_link.specs.Linked.{literal_of};
ghost use Rattle.sc_link.specs.Symbols as symbols;
ghost use Rattle.sc_incr.specs.Literals as spec;

use crate::entry::Entry;
use sc_base::{Name, NoMemory};
use sc_isa_image::Image;
use sc_link::{LiteralAt, Placed, add_literals, is_literal, place_of, section_of};
use sc_object::{Section, Symbol};
use std::alloc::Global;

/// Takes the literals of an entry out of an image that no other entry holds. It takes no memory.
pub fn take_literals(image: &mut Image, rest: &[Entry], entry: &Placed)
    ensures { spec.TakesLiterals rest.now (map literal_of (literals_of entry.now)) image.old image.new }
{
    for symbol in entry.object.get().symbols.as_slice() {
        take_literal(image, rest, entry, symbol);
    }
}

// Takes the literal that a symbol names out, if it names one and no entry holds it.
fn take_literal(image: &mut Image, rest: &[Entry], entry: &Placed, symbol: &Symbol)
    ensures { spec.TakesLiterals rest.now (map literal_of (option_to_list (symbols.literal_of entry.now symbol.now))) image.old image.new }
{
    match literal_section(entry, symbol) {
        Some(section) => take_unheld(image, rest, &entry.home, section),
        None => {}
    }
}

// The section of the literal that a symbol names.
fn literal_section<'a>(entry: &'a Placed, symbol: &Symbol) -> Option<&'a Section>
    ensures { spec.literal_by entry.now.home (option_copied result) ≡ option_map literal_of (symbols.literal_of entry.now symbol.now) }
{
    if !is_literal(symbol.name.as_slice()) {
        return None;
    }
    let Some(section) = section_of(entry.object.get(), symbol) else {
        return None;
    };
    match place_of(entry, symbol) {
        Some(_) => Some(section),
        None => None,
    }
}

// Takes the literal of a section out, if no entry holds it.
fn take_unheld(image: &mut Image, rest: &[Entry], home: &Name, section: &Section)
    ensures { spec.TakesLiterals rest.now (named home.now section.now.bytes ∷ []) image.old image.new }
{
    if !is_held(rest, home, section.bytes.as_slice()) {
        take_found(image, home, section.bytes.as_slice());
    }
}

// Takes a literal out, if it is there.
fn take_found(image: &mut Image, home: &Name, bytes: &[u8])
    ensures { spec.TakesLiterals [] (named home.now bytes.now ∷ []) image.old image.new }
{
    match image.literal(home, bytes) {
        Some(at) => image.take_literal(at),
        None => {}
    }
}

// Whether an entry of a list holds a literal.
fn is_held(entries: &[Entry], home: &Name, bytes: &[u8]) -> bool
    ensures { result ≡ spec.is_held entries.now (named home.now bytes.now) }
{
    entries
        .iter()
        .any(|entry| holds(entry.placed(), home, bytes))
}

// Whether an entry holds a literal.
fn holds(entry: &Placed, home: &Name, bytes: &[u8]) -> bool
    ensures { result ≡ spec.entry_holds (named home.now bytes.now) entry.now }
{
    entry.home.as_slice() == home.as_slice() && names_one(entry, home, bytes)
}

// Whether a symbol of an entry names a literal.
fn names_one(entry: &Placed, home: &Name, bytes: &[u8]) -> bool
    ensures { result ≡ list_any (spec.symbol_holds (named home.now bytes.now) entry.now) entry.now.object.symbols }
{
    let symbols = entry.object.get().symbols.as_slice();
    symbols
        .iter()
        .any(|symbol| names(entry, symbol, home, bytes))
}

// Whether a symbol of an entry names a literal.
fn names(entry: &Placed, symbol: &Symbol, home: &Name, bytes: &[u8]) -> bool
    ensures { result ≡ spec.symbol_holds (named home.now bytes.now) entry.now symbol.now }
{
    if !is_literal(symbol.name.as_slice()) {
        return false;
    }
    let Some(section) = section_of(entry.object.get(), symbol) else {
        return false;
    };
    match place_of(entry, symbol) {
        Some(_) => entry.home.as_slice() == home.as_slice() && section.bytes.as_slice() == bytes,
        None => false,
    }
}

/// The literals of the entries of a module, with their places.
pub fn literals_at_home(
    alloc: Global,
    entries: &[Entry],
    home: &Name,
) -> Result<Vec<LiteralAt>, NoMemory>
    ensures { IfOk result (λ literals. literals.items ≡ spec.literals_at_home home.now entries.now) }
{
    let mut literals = Vec::new(alloc);
    for entry in entries {
        add_at_home(alloc, &mut literals, entry.placed(), home)?;
    }
    Ok(literals)
}

// Appends the literals of an entry of a module.
fn add_at_home(
    alloc: Global,
    literals: &mut Vec<LiteralAt>,
    entry: &Placed,
    home: &Name,
) -> Result<(), NoMemory>
    ensures { OnOk result (literals.new.items ≡ literals.old.items ++ spec.literals_at_home home.now (entry.now ∷ [])) }
{
    if entry.home.as_slice() == home.as_slice() {
        return add_literals(alloc, literals, entry);
    }
    Ok(())
}
