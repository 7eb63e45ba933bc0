// The image of a list of entries, from nothing.
ghost use Rattle.std.specs.Prelude.{◌≡◌, ◌≤◌, ◌<◌, false, length, IfErr, IfOk, OnOk, IsTrue};
ghost use Rattle.std.specs.List.{list_all};
ghost use Rattle.sc_isa_image.specs.Lookups.{function_room, literal_room, text_room, value_room};
ghost use Rattle.sc_link.specs.Areas.{AreInside, IsRefused, are_statics_inside, in_text, is_inside};
ghost use Rattle.sc_link.specs.Entries as spec;
ghost use Rattle.sc_link.specs.Linked.{AreApart, AreDistinct, AreOnePlaced, IsLinked};
ghost use Rattle.sc_link.specs.Steps.{HasParts, IsBare};

use crate::collect::{copies, jumps_in, literals_in, statics_in, texts_in};
use crate::literals::put_literals;
use crate::placed::{
    Area, LinkFault, LiteralAt, MOST_FUNCTIONS, Placed, STATICS, STATICS_END, TEXTS, TEXTS_END,
};
use crate::relocating::relocate;
use crate::steps::{put_functions, put_statics, put_texts, set_jumps};
use crate::symbol::{is_text, place_of, section_of};
use sc_base::{Key, NoMemory};
use sc_isa_image::{Image, Text};
use sc_object::Symbol;
use std::alloc::Global;

/// The image of a list of entries and of the functions by their numbers. Its words are those of the texts of all entries
/// in object form, former ones too, relocated under the keys that the present entries define. `Space` names the first
/// area, in the order of their addresses, which has no room for what is placed in it.
pub fn link(alloc: Global, placed: &[Placed], funs: &[Key]) -> Result<Image, LinkFault>
    requires functions { AreDistinct funs.now }
    requires texts { AreApart (spec.texts_in placed.now) }
    requires literals { AreOnePlaced (spec.literals_in placed.now) }
    ensures linked { IfOk result (IsLinked placed.now funs.now) }
    ensures inside { OnOk result (AreInside placed.now funs.now) }
    ensures refused { IfErr result (IsRefused placed.now funs.now) }
{
    if funs.len() > MOST_FUNCTIONS {
        return Err(LinkFault::Space(Area::Stubs));
    }
    let texts = match texts_in(alloc, placed) {
        Ok(texts) => texts,
        Err(_) => return Err(LinkFault::NoMemory),
    };
    if !are_texts_inside(texts.as_slice()) {
        drop(texts);
        return Err(LinkFault::Space(Area::Text));
    }
    if !are_statics_inside(placed) {
        drop(texts);
        return Err(LinkFault::Space(Area::Static));
    }
    match assemble(alloc, placed, funs, texts) {
        Ok(image) => Ok(image),
        Err(_) => Err(LinkFault::NoMemory),
    }
}

// The image of entries whose texts are given.
fn assemble(
    alloc: Global,
    placed: &[Placed],
    funs: &[Key],
    texts: Vec<Text>,
) -> Result<Image, NoMemory>
    requires functions { AreDistinct funs.now }
    requires few { length funs.now ≤ MOST_FUNCTIONS }
    requires same { texts.items ≡ spec.texts_in placed.now }
    requires texts { AreApart (spec.texts_in placed.now) }
    requires inside { IsTrue (list_all in_text (spec.texts_in placed.now)) }
    requires literals { AreOnePlaced (spec.literals_in placed.now) }
    ensures { IfOk result (IsLinked placed.now funs.now) }
{
    let keys = copies(alloc, funs)?;
    let statics = statics_in(alloc, placed)?;
    let jumps = jumps_in(alloc, placed)?;
    let literals = literals_in(alloc, placed)?;
    let mut image = empty(alloc, &texts, &statics, &literals, &keys)?;
    put_all(&mut image, keys, statics, texts, jumps, literals);
    relocate(alloc, &mut image, placed)?;
    Ok(image)
}

// An image in which nothing is, with room for these.
fn empty(
    alloc: Global,
    texts: &Vec<Text>,
    statics: &Vec<(Key, u32)>,
    literals: &Vec<LiteralAt>,
    keys: &Vec<Key>,
) -> Result<Image, NoMemory>
    ensures bare { IfOk result IsBare }
    ensures texts { IfOk result (λ i. length texts.now.items ≤ text_room i) }
    ensures statics { IfOk result (λ i. length statics.now.items ≤ value_room i) }
    ensures literals { IfOk result (λ i. length literals.now.items ≤ literal_room i) }
    ensures functions { IfOk result (λ i. length keys.now.items ≤ function_room i) }
{
    let mut image = Image::new(alloc);
    image.make_room(texts.len(), statics.len(), literals.len(), keys.len())?;
    Ok(image)
}

// Puts all that an image has but relocations.
fn put_all(
    image: &mut Image,
    keys: Vec<Key>,
    statics: Vec<(Key, u32)>,
    texts: Vec<Text>,
    jumps: Vec<(Key, u32)>,
    literals: Vec<LiteralAt>,
)
    requires bare { IsBare image.old }
    requires texts_room { length texts.items ≤ text_room image.old }
    requires statics_room { length statics.items ≤ value_room image.old }
    requires literals_room { length literals.items ≤ literal_room image.old }
    requires functions_room { length keys.items ≤ function_room image.old }
    requires functions { AreDistinct keys.items }
    requires few { length keys.items ≤ MOST_FUNCTIONS }
    requires apart { AreApart texts.items }
    requires inside { IsTrue (list_all in_text texts.items) }
    requires one { AreOnePlaced literals.items }
    ensures { HasParts keys.items statics.items jumps.items texts.items literals.items image.new }
{
    put_functions(image, keys);
    put_statics(image, statics);
    put_texts(image, texts);
    set_jumps(image, jumps);
    put_literals(image, literals);
}

// Whether all texts are inside their area.
fn are_texts_inside(texts: &[Text]) -> bool
    ensures { result ≡ list_all in_text texts.now }
{
    texts.iter().all(|text| is_text_inside(text))
}

fn is_text_inside(text: &Text) -> bool
    ensures { result ≡ in_text text.now }
{
    let len = text.words.as_slice().len();
    text.at.start >= TEXTS
        && len <= ((TEXTS_END - TEXTS) / 4) as usize
        && text.at.start as usize + 4 * len <= TEXTS_END as usize
}

// Whether all objects of static storage duration are inside their area, former ones and literals too.
fn are_statics_inside(placed: &[Placed]) -> bool
    ensures { result ≡ are_statics_inside placed.now }
{
    placed.iter().all(|entry| is_entry_inside(entry))
}

fn is_entry_inside(entry: &Placed) -> bool
    ensures { result ≡ list_all (is_inside entry.now) entry.now.object.symbols }
{
    let symbols = entry.object.get().symbols.as_slice();
    symbols.iter().all(|symbol| is_inside(entry, symbol))
}

fn is_inside(entry: &Placed, symbol: &Symbol) -> bool
    ensures { result ≡ is_inside entry.now symbol.now }
{
    let Some(section) = section_of(entry.object.get(), symbol) else {
        return true;
    };
    let Some(at) = place_of(entry, symbol) else {
        return true;
    };
    is_text(section.kind)
        || (at >= STATICS && u64::from(at) + u64::from(section.size) <= u64::from(STATICS_END))
}
