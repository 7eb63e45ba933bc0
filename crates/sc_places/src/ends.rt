// The addresses behind sections that are placed.
ghost use Rattle.std.specs.Prelude.{◌≡◌, ◌≤◌, ◌<◌, MatchOption};
ghost use Rattle.sc_places.specs.Layout as spec;

use sc_link::{STATICS_END, TEXTS_END, is_text};
use sc_object::Section;

/// The address behind the texts of sections that are placed from an address on: none where they do not fit into the area.
pub fn text_end(object: bool, text: u32, sections: &[Section]) -> Option<u32>
    requires { text ≤ TEXTS_END }
    ensures { MatchOption result (TEXTS_END < spec.text_end object text sections.now) (λ end. (end ≡ spec.text_end object text sections.now) × (end ≤ TEXTS_END)) }
{
    let mut end = text;
    let mut left = sections;
    'placing: while let [section, rest @ ..] = left {
        match text_after(object, end, section) {
            Some(after) => end = after,
            None => return None,
        }
        left = rest;
    }
    Some(end)
}

/// The address behind a section whose text is placed at an address: none where it does not fit into the area.
pub fn text_after(object: bool, text: u32, section: &Section) -> Option<u32>
    requires { text ≤ TEXTS_END }
    ensures { MatchOption result (TEXTS_END < spec.text_after object text section.now) (λ end. (end ≡ spec.text_after object text section.now) × (end ≤ TEXTS_END)) }
{
    if is_text(section.kind) && object {
        behind_text(text, section.bytes.as_slice().len())
    } else {
        Some(text)
    }
}

// The address behind a text of this many bytes.
fn behind_text(text: u32, len: usize) -> Option<u32>
    requires { text ≤ TEXTS_END }
    ensures { MatchOption result (TEXTS_END < spec.behind_text text len) (λ end. (end ≡ spec.behind_text text len) × (end ≤ TEXTS_END)) }
{
    if len > TEXTS_END as usize {
        return None;
    }
    let end = text + (len as u32 + 3) / 4 * 4;
    if end > TEXTS_END {
        return None;
    }
    Some(end)
}

/// The address behind the objects of sections that are placed from an address on, but for those that keep a place: none
/// where they do not fit into the area.
pub fn static_end(statics: u32, sections: &[Section], kept: &[Option<u32>]) -> Option<u32>
    requires { statics ≤ STATICS_END }
    ensures { MatchOption result (STATICS_END < spec.static_end statics sections.now kept.now) (λ end. (end ≡ spec.static_end statics sections.now kept.now) × (end ≤ STATICS_END)) }
{
    let mut end = statics;
    let mut left = sections;
    let mut keeps = kept;
    'placing: while let [section, rest @ ..] = left {
        match static_after(end, section, first_kept(keeps)) {
            Some(after) => end = after,
            None => return None,
        }
        left = rest;
        keeps = rest_kept(keeps);
    }
    Some(end)
}

/// The address behind a section whose object is placed at an address, or keeps its place: none where it does not fit into
/// the area.
pub fn static_after(statics: u32, section: &Section, kept: Option<u32>) -> Option<u32>
    requires { statics ≤ STATICS_END }
    ensures { MatchOption result (STATICS_END < spec.static_after statics section.now kept) (λ end. (end ≡ spec.static_after statics section.now kept) × (end ≤ STATICS_END)) }
{
    if is_text(section.kind) {
        return Some(statics);
    }
    match kept {
        Some(_) => Some(statics),
        None => behind_static(statics, section.size),
    }
}

// The address behind an object of this size.
fn behind_static(statics: u32, size: u32) -> Option<u32>
    requires { statics ≤ STATICS_END }
    ensures { MatchOption result (STATICS_END < spec.behind_static statics size) (λ end. (end ≡ spec.behind_static statics size) × (end ≤ STATICS_END)) }
{
    let end = u64::from(statics) + u64::from(size) / 4 * 4 + 4;
    if end > u64::from(STATICS_END) {
        return None;
    }
    Some(end as u32)
}

/// The place that the first section keeps.
pub fn first_kept(kept: &[Option<u32>]) -> Option<u32>
    ensures { result ≡ spec.first_kept kept.now }
{
    match kept {
        [first, ..] => *first,
        [] => None,
    }
}

/// The places that the sections behind the first one keep.
pub fn rest_kept(kept: &[Option<u32>]) -> &[Option<u32>]
    ensures { result.now ≡ spec.rest_kept kept.now }
{
    match kept {
        [_, rest @ ..] => rest,
        [] => kept,
    }
}
