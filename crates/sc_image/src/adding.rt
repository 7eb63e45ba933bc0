// A module is placed behind all that a list has placed.
ghost use Rattle.std.specs.Prelude.{◌≡◌, ◌≤◌, ◌<◌, false, IfErr, IfOk, MatchOption};
ghost use Rattle.sc_link.specs.Entries.{is_object};
ghost use Rattle.sc_places.specs.Layout as layout;
ghost use Rattle.sc_image.specs.Running as spec;

use crate::module::{Linking, is_object};
use sc_base::{Duplicate, Form, Items, Key, NoMemory};
use sc_link::{Area, LinkFault, MOST_FUNCTIONS, Placed, STATICS_END, TEXTS_END};
use sc_object::Object;
use sc_places::{place_sections, static_end, static_top, text_end, text_top};
use std::alloc::Global;

// The address behind all texts of a list.
pub(crate) fn behind_texts(list: &[Placed]) -> u64
    ensures { result ≡ layout.behind_texts list.now }
{
    let mut top = 0;
    let mut left = list;
    'looking: while let [entry, rest @ ..] = left {
        top = text_top(entry).max(top);
        left = rest;
    }
    top.max(0x0010_0000)
}

// The address behind all objects of a list.
pub(crate) fn behind_statics(list: &[Placed]) -> u64
    ensures { result ≡ layout.behind_statics list.now }
{
    let mut top = 0;
    let mut left = list;
    'looking: while let [entry, rest @ ..] = left {
        top = static_top(entry).max(top);
        left = rest;
    }
    top.max(0x0800_0000)
}

// The address behind all texts of a list, if those of a module fit behind it.
fn text_start(list: &[Placed], form: Form, object: &Object) -> Option<u32>
    ensures { MatchOption result (TEXTS_END < layout.text_end (is_object form) (layout.behind_texts list.now) object.now.sections) (λ text. (text ≡ layout.behind_texts list.now) × (layout.text_end (is_object form) (layout.behind_texts list.now) object.now.sections ≤ TEXTS_END)) }
{
    let text = behind_texts(list);
    if text > u64::from(TEXTS_END) {
        return None;
    }
    let text = text as u32;
    match text_end(is_object(form), text, object.sections.as_slice()) {
        Some(_) => Some(text),
        None => None,
    }
}

// The address behind all objects of a list, if those of an object fit behind it.
fn static_start(list: &[Placed], object: &Object, kept: &[Option<u32>]) -> Option<u32>
    ensures { MatchOption result (STATICS_END < layout.static_end (layout.behind_statics list.now) object.now.sections kept.now) (λ statics. (statics ≡ layout.behind_statics list.now) × (layout.static_end (layout.behind_statics list.now) object.now.sections kept.now ≤ STATICS_END)) }
{
    let statics = behind_statics(list);
    if statics > u64::from(STATICS_END) {
        return None;
    }
    let statics = statics as u32;
    match static_end(statics, object.sections.as_slice(), kept) {
        Some(_) => Some(statics),
        None => None,
    }
}

// The entry of a module with places.
fn entry_of(alloc: Global, module: &Linking, places: Items<u32>) -> Result<Placed, NoMemory>
    ensures { IfOk result (λ e. e ≡ record { number = «module».now.number; home = «module».now.name; form = «module».now.form; object = «module».now.object; places = places; retired = false }) }
{
    let home = module.name.copy(alloc)?;
    let object = module.object.share()?;
    Ok(Placed {
        number: module.number,
        home,
        form: module.form,
        object,
        places,
        retired: false,
    })
}

// The same, placed from two addresses on, where it fits.
fn entry_at(
    alloc: Global,
    text: u32,
    statics: u32,
    module: &Linking,
    keeps: &[Option<u32>],
) -> Result<Placed, NoMemory>
    requires texts { layout.text_end (is_object «module».now.form) text «module».now.object.sections ≤ TEXTS_END }
    requires statics { layout.static_end statics «module».now.object.sections keeps.now ≤ STATICS_END }
    ensures { IfOk result (λ e. e ≡ record { number = «module».now.number; home = «module».now.name; form = «module».now.form; object = «module».now.object; places = layout.places_from (is_object «module».now.form) text statics «module».now.object.sections keeps.now; retired = false }) }
{
    let sections = module.object.get().sections.as_slice();
    let places = place_sections(
        alloc,
        is_object(module.form),
        text,
        statics,
        sections,
        keeps,
    )?;
    entry_of(alloc, module, places)
}

/// The entry of a module that is placed behind all that a list has placed; some sections keep the places that they have. `Space`
/// names the first area, in the order of their addresses, that has no room for it.
pub fn entry_behind(
    alloc: Global,
    list: &[Placed],
    functions: &[Key],
    module: &Linking,
    keeps: &[Option<u32>],
) -> Result<Placed, LinkFault>
    ensures ok { IfOk result (λ e. e ≡ spec.entry_behind list.now «module».now keeps.now) }
    ensures short { IfErr result (spec.IsShortOf list.now functions.now «module».now keeps.now) }
{
    if functions.len() > MOST_FUNCTIONS {
        return Err(LinkFault::Space(Area::Stubs));
    }
    let Some(text) = text_start(list, module.form, module.object.get()) else {
        return Err(LinkFault::Space(Area::Text));
    };
    let Some(statics) = static_start(list, module.object.get(), keeps) else {
        return Err(LinkFault::Space(Area::Static));
    };
    match entry_at(alloc, text, statics, module, keeps) {
        Ok(entry) => Ok(entry),
        Err(_) => Err(LinkFault::NoMemory),
    }
}
