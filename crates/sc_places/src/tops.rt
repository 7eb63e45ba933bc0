// The addresses behind what an entry has placed.
ghost use Rattle.std.specs.Prelude.{◌≡◌, ◌+◌, ◌*◌, ◌/◌, ◌^◌, min};
ghost use Rattle.sc_places.specs.Layout as spec;

use sc_base::Form;
use sc_link::{Placed, is_text};
use sc_object::Section;

/// The address behind the last text of an entry, 0 where none is placed.
pub fn text_top(entry: &Placed) -> u64
    ensures { result ≡ spec.text_top entry.now }
{
    match entry.form {
        Form::Source => 0,
        Form::Object => texts_top(
            entry.object.get().sections.as_slice(),
            entry.places.as_slice(),
        ),
    }
}

// The address behind the last text of sections with places.
fn texts_top(sections: &[Section], places: &[u32]) -> u64
    ensures { result ≡ spec.top_of spec.text_reach sections.now places.now }
{
    let mut top = 0;
    let mut left = sections;
    let mut at = places;
    'looking: while let [section, rest @ ..] = left {
        top = text_reach_at(section, first_place(at)).max(top);
        left = rest;
        at = rest_places(at);
    }
    top
}

// The address behind the text of a section with a place.
fn text_reach(section: &Section, place: u32) -> u64
    ensures { result ≡ spec.text_reach section.now place }
{
    if !is_text(section.kind) {
        return 0;
    }
    behind(place, section.bytes.as_slice().len())
}

// The address behind a text of this many bytes, at most 2^32.
fn behind(place: u32, len: usize) -> u64
    ensures { result ≡ min (place + (len + 3) / 4 * 4) (2 ^ 32) }
{
    if len > u32::MAX as usize {
        return 1 << 32;
    }
    (u64::from(place) + (len as u64 + 3) / 4 * 4).min(1 << 32)
}

/// The address behind the last object of an entry, 0 where it has none.
pub fn static_top(entry: &Placed) -> u64
    ensures { result ≡ spec.static_top entry.now }
{
    statics_top(
        entry.object.get().sections.as_slice(),
        entry.places.as_slice(),
    )
}

// The address behind the last object of sections with places.
fn statics_top(sections: &[Section], places: &[u32]) -> u64
    ensures { result ≡ spec.top_of spec.static_reach sections.now places.now }
{
    let mut top = 0;
    let mut left = sections;
    let mut at = places;
    'looking: while let [section, rest @ ..] = left {
        top = static_reach_at(section, first_place(at)).max(top);
        left = rest;
        at = rest_places(at);
    }
    top
}

// The address behind the object of a section with a place.
fn static_reach(section: &Section, place: u32) -> u64
    ensures { result ≡ spec.static_reach section.now place }
{
    if is_text(section.kind) {
        return 0;
    }
    (u64::from(place) + u64::from(section.size) / 4 * 4 + 4).min(1 << 32)
}

// The address behind the text of a section, 0 where it has no place.
fn text_reach_at(section: &Section, place: Option<u32>) -> u64
    ensures { result ≡ spec.reach_by spec.text_reach section.now place }
{
    match place {
        Some(at) => text_reach(section, at),
        None => 0,
    }
}

// The address behind the object of a section, 0 where it has no place.
fn static_reach_at(section: &Section, place: Option<u32>) -> u64
    ensures { result ≡ spec.reach_by spec.static_reach section.now place }
{
    match place {
        Some(at) => static_reach(section, at),
        None => 0,
    }
}

// The first place.
fn first_place(places: &[u32]) -> Option<u32>
    ensures { result ≡ spec.first_place places.now }
{
    match places {
        [first, ..] => Some(*first),
        [] => None,
    }
}

// The places behind the first one.
fn rest_places(places: &[u32]) -> &[u32]
    ensures { result.now ≡ spec.rest_places places.now }
{
    match places {
        [_, rest @ ..] => rest,
        [] => places,
    }
}
