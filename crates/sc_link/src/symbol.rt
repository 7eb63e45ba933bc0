// What a symbol of a placed object stands for.
ghost use Rattle.std.specs.Prelude.{◌≡◌, IfOk};
ghost use Rattle.std.specs.Option.{option_copied};
ghost use Rattle.sc_link.specs.Symbols as spec;

use crate::placed::{LiteralAt, Placed};
use sc_base::{Duplicate, Key, Name, NameFault, NoMemory};
use sc_object::{Object, Section, SectionKind, Symbol};
use std::alloc::Global;

/// The key that a symbol of a module names; none where its name has no byte or more than 255.
pub fn key_of(alloc: Global, home: &Name, symbol: &Symbol) -> Result<Option<Key>, NoMemory>
    ensures { IfOk result (λ key. key ≡ spec.key_of home.now symbol.now) }
{
    let name = match Name::new(alloc, symbol.name.as_slice()) {
        Ok(name) => name,
        Err(NameFault::Empty) => return Ok(None),
        Err(NameFault::TooLong) => return Ok(None),
        Err(NameFault::NoMemory) => return Err(NoMemory),
    };
    let module = home_if(alloc, symbol.global, home)?;
    Ok(Some(Key { module, name }))
}

fn home_if(alloc: Global, global: bool, home: &Name) -> Result<Option<Name>, NoMemory>
    ensures { IfOk result (λ m. m ≡ spec.home_if global home.now) }
{
    if global {
        return Ok(None);
    }
    let home = home.copy(alloc)?;
    Ok(Some(home))
}

/// Whether a symbol names a literal.
pub fn is_literal(name: &[u8]) -> bool
    ensures { result ≡ spec.is_literal name.now }
{
    match name.first() {
        Some(first) => *first == b'$',
        None => false,
    }
}

/// The section in which a symbol is defined.
pub fn section_of<'a>(object: &'a Object, symbol: &Symbol) -> Option<&'a Section>
    ensures { option_copied result ≡ spec.section_of object.now symbol.now }
{
    let index = symbol.section?;
    object.sections.as_slice().get(index as usize)
}

/// The place of the section in which a symbol is defined.
pub fn place_of(entry: &Placed, symbol: &Symbol) -> Option<u32>
    ensures { result ≡ spec.place_of entry.now symbol.now }
{
    let index = symbol.section?;
    entry.places.as_slice().get(index as usize).copied()
}

/// Whether a section holds instructions.
pub fn is_text(kind: SectionKind) -> bool
    ensures { result ≡ spec.is_text kind }
{
    match kind {
        SectionKind::Text => true,
        SectionKind::Data => false,
        SectionKind::Rodata => false,
        SectionKind::Bss => false,
    }
}

/// The object of static storage duration that a symbol defines, with its place.
pub fn static_of(
    alloc: Global,
    entry: &Placed,
    symbol: &Symbol,
) -> Result<Option<(Key, u32)>, NoMemory>
    ensures { IfOk result (λ object. object ≡ spec.static_of entry.now symbol.now) }
{
    if is_literal(symbol.name.as_slice()) {
        return Ok(None);
    }
    let Some(section) = section_of(entry.object.get(), symbol) else {
        return Ok(None);
    };
    let Some(at) = place_of(entry, symbol) else {
        return Ok(None);
    };
    if is_text(section.kind) {
        return Ok(None);
    }
    let key = key_of(alloc, &entry.home, symbol)?;
    Ok(key.map(|key| (key, at)))
}

/// The literal that a symbol defines, with its place.
pub fn literal_of(
    alloc: Global,
    entry: &Placed,
    symbol: &Symbol,
) -> Result<Option<LiteralAt>, NoMemory>
    ensures { IfOk result (λ literal. literal ≡ spec.literal_of entry.now symbol.now) }
{
    if !is_literal(symbol.name.as_slice()) {
        return Ok(None);
    }
    let Some(section) = section_of(entry.object.get(), symbol) else {
        return Ok(None);
    };
    let Some(at) = place_of(entry, symbol) else {
        return Ok(None);
    };
    let module = entry.home.copy(alloc)?;
    let bytes = section.bytes.copy(alloc)?;
    Ok(Some(LiteralAt { module, bytes, at }))
}
