// The places of sections.
ghost use Rattle.std.specs.Prelude.{◌≡◌, ◌≤◌, IfOk};
ghost use Rattle.sc_places.specs.Layout as spec;

use crate::ends::{first_kept, rest_kept, static_after, text_after};
use sc_base::{Items, NoMemory};
use sc_link::{STATICS_END, TEXTS_END, is_text};
use sc_object::Section;
use std::alloc::Global;

/// The places of sections, each behind the one before, from two addresses on; some sections keep the places that they
/// have. All of them fit.
pub fn place_sections(
    alloc: Global,
    object: bool,
    text: u32,
    statics: u32,
    sections: &[Section],
    kept: &[Option<u32>],
) -> Result<Items<u32>, NoMemory>
    requires texts { spec.text_end object text sections.now ≤ TEXTS_END }
    requires statics { spec.static_end statics sections.now kept.now ≤ STATICS_END }
    ensures { IfOk result (λ places. places ≡ spec.places_from object text statics sections.now kept.now) }
{
    let mut places = Items::new(alloc);
    let mut text = text;
    let mut statics = statics;
    let mut left = sections;
    let mut keeps = kept;
    'placing: while let [section, rest @ ..] = left {
        let keep = first_kept(keeps);
        places.push(place(object, text, statics, section, keep))?;
        text = behind_text(object, text, section);
        statics = behind_static(statics, section, keep);
        left = rest;
        keeps = rest_kept(keeps);
    }
    Ok(places)
}

// The place of a section.
fn place(object: bool, text: u32, statics: u32, section: &Section, kept: Option<u32>) -> u32
    ensures { result ≡ spec.place_one object text statics section.now kept }
{
    if is_text(section.kind) {
        return if object { text } else { 0 };
    }
    match kept {
        Some(at) => at,
        None => statics,
    }
}

// The address behind a section whose text fits.
fn behind_text(object: bool, text: u32, section: &Section) -> u32
    requires low { text ≤ TEXTS_END }
    requires fits { spec.text_after object text section.now ≤ TEXTS_END }
    ensures { result ≡ spec.text_after object text section.now }
{
    match text_after(object, text, section) {
        Some(after) => after,
        None => text,
    }
}

// The address behind a section whose object fits.
fn behind_static(statics: u32, section: &Section, kept: Option<u32>) -> u32
    requires low { statics ≤ STATICS_END }
    requires fits { spec.static_after statics section.now kept ≤ STATICS_END }
    ensures { result ≡ spec.static_after statics section.now kept }
{
    match static_after(statics, section, kept) {
        Some(after) => after,
        None => statics,
    }
}
