// Where modules have a name, and of which types it is.
ghost use Rattle.std.specs.Prelude.{◌≡◌, ◌++◌, IfOk, MatchOption, OnOk, None, Some};
ghost use Rattle.sc_session_show.specs.References as spec;

use crate::frames::put_line;
use crate::names::linked_if;
use crate::types::put_type;
use sc_base::{Bytes, Duplicate, Items, Name, NoMemory};
use sc_core::Core;
use sc_core_names::{DeclaredName, entity_in};
use sc_session_texts::{put, put_decimal};
use sc_types::CType;
use sc_xref::{Place, PlaceKind};
use std::alloc::Global;

// ---- places

/// A place of a name in a module: what the name is there, the module, and the line.
#[derive(Drop)]
pub struct Found {
    pub kind: PlaceKind,
    pub home: Name,
    pub line: u32,
}

// A place of a module, where it is one of the name.
fn put_if(
    found: &mut Items<Found>,
    alloc: Global,
    home: &Name,
    name: &Name,
    p: &Place,
) -> Result<(), NoMemory>
    ensures { OnOk result (found.new ≡ found.old ++ spec.found_if name.now home.now p.now) }
{
    if p.name == *name {
        let home = home.copy(alloc)?;
        found.push(Found {
            kind: p.kind,
            home,
            line: p.line,
        })?;
    }
    Ok(())
}

/// Puts the places of a name in a module behind others.
pub fn put_found(
    found: &mut Items<Found>,
    alloc: Global,
    home: &Name,
    name: &Name,
    places: &[Place],
) -> Result<(), NoMemory>
    ensures { OnOk result (found.new ≡ found.old ++ spec.found_in name.now home.now places.now) }
{
    for p in places {
        put_if(found, alloc, home, name, p)?;
    }
    Ok(())
}

fn kind_text(kind: PlaceKind) -> &'static [u8]
    ensures { result.now ≡ spec.kind_text kind }
{
    match kind {
        PlaceKind::Def => b"def",
        PlaceKind::Decl => b"decl",
        PlaceKind::Call => b"call",
        PlaceKind::Use => b"use",
    }
}

fn put_place(text: &mut Vec<u8>, alloc: Global, f: &Found) -> Result<(), NoMemory>
    ensures { OnOk result (text.new.items ≡ text.old.items ++ spec.place_line f.now) }
{
    let mut said = Vec::new(alloc);
    put(&mut said, kind_text(f.kind))?;
    put(&mut said, b" ")?;
    put(&mut said, f.home.as_slice())?;
    put(&mut said, b":")?;
    put_decimal(&mut said, alloc, f.line)?;
    put_line(text, said.as_slice())
}

fn put_count(text: &mut Vec<u8>, alloc: Global, n: usize) -> Result<(), NoMemory>
    ensures { OnOk result (text.new.items ≡ text.old.items ++ spec.count_line n) }
{
    let digits = n.to_string(alloc)?;
    let mut said = Vec::new(alloc);
    put(&mut said, digits.as_bytes())?;
    put(&mut said, b" places")?;
    put_line(text, said.as_slice())
}

/// A line for each place, and one that says how many there are.
pub fn places_text(alloc: Global, found: &[Found]) -> Result<Bytes, NoMemory>
    ensures { IfOk result (λ text. text ≡ spec.places_text found.now) }
{
    let mut text = Vec::new(alloc);
    for f in found {
        put_place(&mut text, alloc, f)?;
    }
    put_count(&mut text, alloc, found.len())?;
    Ok(Bytes::from_vec(text))
}

// ---- types

// The type of the function or object that the file declares under a name.
fn file_type<'a>(core: &'a Core, file: &[DeclaredName], name: &Name) -> Option<&'a CType>
    ensures { MatchOption result (spec.file_type core.now file.now name.now ≡ None) (λ t. spec.file_type core.now file.now name.now ≡ Some t.now) }
{
    match linked_if(core, name, entity_in(file, name)) {
        Some(l) => Some(l.of),
        None => None,
    }
}

/// Whether the file declares a function or an object under a name.
pub fn is_declared_in(core: &Core, file: &[DeclaredName], name: &Name) -> bool
    ensures { result ≡ spec.is_declared_in core.now file.now name.now }
{
    match file_type(core, file, name) {
        Some(_) => true,
        None => false,
    }
}

// The line of a type.
fn put_typed(text: &mut Vec<u8>, alloc: Global, core: &Core, of: &CType) -> Result<(), NoMemory>
    ensures { OnOk result (text.new.items ≡ text.old.items ++ spec.typed_line core.now of.now) }
{
    let mut said = Vec::new(alloc);
    put(&mut said, core.name.as_slice())?;
    put(&mut said, b" ")?;
    put_type(&mut said, alloc, core.structs.as_slice(), of)?;
    put_line(text, said.as_slice())
}

/// Puts the line of a module behind a text, where its file declares a function or an object under a name: the module and the type.
pub fn put_type_line(
    text: &mut Vec<u8>,
    alloc: Global,
    core: &Core,
    file: &[DeclaredName],
    name: &Name,
) -> Result<(), NoMemory>
    ensures { OnOk result (text.new.items ≡ text.old.items ++ spec.type_line core.now file.now name.now) }
{
    match file_type(core, file, name) {
        Some(of) => put_typed(text, alloc, core, of),
        None => Ok(()),
    }
}
