// An entry in another form.
ghost use Rattle.std.specs.Prelude.{◌≡◌, ◌<◌, ◌++◌, ◌∷◌, [], length, map, slice_get, IfErr, IfOk, OnErr, OnOk, Some};
ghost use Rattle.sc_link.specs.declared.placed.Placed.{Placed as Listed};
ghost use Rattle.sc_incr.specs.Leaving.{IsAt};
ghost use Rattle.sc_incr.specs.Modules as spec;
ghost use Rattle.sc_incr.specs.Plans.{IsForm};
ghost use Rattle.sc_incr.specs.Program.{left_of};
ghost use Rattle.sc_incr.specs.Settled.{Agrees, IsPatched};
ghost use Rattle.sc_incr.specs.Sound.{IsSound};

use crate::changing::exchange_at;
use crate::entry::Entry;
use crate::planning::places_behind;
use sc_base::{Duplicate, Form, Items, Key, NoMemory};
use sc_isa_image::Image;
use sc_link::{LinkFault, Placed};
use std::alloc::Global;

/// The entry at a position goes, or stays as a former text, and is placed again behind all others in another form. Its
/// objects and literals keep their places.
pub fn form_at(
    alloc: Global,
    entries: &mut Vec<Entry>,
    funs: &mut Vec<Key>,
    image: &mut Image,
    at: usize,
    form: Form,
    keep_old: bool,
) -> Result<(), LinkFault>
    requires patched { IsPatched entries.old.items funs.old.items image.old }
    requires at { IsAt entries.old.items at }
    requires sound { (e : IsAt entries.old.items at) → IsSound e.entry.object }
    requires agrees { (e : IsAt entries.old.items at) → Agrees (e.front ++ (left_of keep_old e.entry ++ e.back)) funs.old.items (spec.in_form entries.old.items form e.entry) [] }
    ensures patched { IsPatched entries.new.items funs.new.items image.new }
    ensures entries { (e : IsAt entries.old.items at) → OnOk result (entries.new.items ≡ (e.front ++ (left_of keep_old e.entry ++ e.back)) ++ spec.in_form entries.old.items form e.entry ∷ []) }
    ensures funs { funs.new.items ≡ funs.old.items }
    ensures old { OnErr result (entries.new.items ≡ entries.old.items) }
    ensures full { (e : IsAt entries.old.items at) → IfErr result (spec.IsFull entries.old.items funs.old.items form e.entry.object (map Some e.entry.places) []) }
{
    let placed = match placed_in(alloc, entries.as_slice(), at, form) {
        Ok(placed) => placed,
        Err(fault) => return Err(fault),
    };
    match exchange_at(
        alloc,
        entries,
        funs,
        image,
        at,
        keep_old,
        placed,
        Vec::new(alloc),
    ) {
        Ok(()) => Ok(()),
        Err(_) => Err(LinkFault::NoMemory),
    }
}

// The entry at a position in another form.
fn placed_in(alloc: Global, entries: &[Entry], at: usize, form: Form) -> Result<Placed, LinkFault>
    requires { at < length entries.now }
    ensures ok { IfOk result (λ placed. (e : Listed) → slice_get entries.now at ≡ Some e → IsForm entries.now form e placed) }
    ensures full { IfErr result (λ fault. (e : Listed) → slice_get entries.now at ≡ Some e → spec.IsFull entries.now [] form e.object (map Some e.places) [] fault) }
{
    let entry = entries[at].placed();
    let kept = match kept_places(alloc, entry.places.as_slice()) {
        Ok(kept) => kept,
        Err(_) => return Err(LinkFault::NoMemory),
    };
    let places = match places_behind(alloc, entries, form, entry.object.get(), kept.as_slice()) {
        Ok(places) => places,
        Err(fault) => return Err(fault),
    };
    match in_form(alloc, entry, form, places) {
        Ok(placed) => Ok(placed),
        Err(_) => Err(LinkFault::NoMemory),
    }
}

// All places, as those that sections keep.
fn kept_places(alloc: Global, places: &[u32]) -> Result<Vec<Option<u32>>, NoMemory>
    ensures { IfOk result (λ kept. kept.items ≡ map Some places.now) }
{
    let mut kept = Vec::with_capacity(alloc, places.len())?;
    for place in places {
        kept.push(Some(*place))?;
    }
    Ok(kept)
}

// An entry in another form, with places.
fn in_form(
    alloc: Global,
    entry: &Placed,
    form: Form,
    places: Items<u32>,
) -> Result<Placed, NoMemory>
    ensures { IfOk result (λ e. e ≡ spec.formed entry.now form places) }
{
    let home = entry.home.copy(alloc)?;
    let object = entry.object.share()?;
    Ok(Placed {
        number: entry.number,
        home,
        form,
        object,
        places,
        retired: false,
    })
}
