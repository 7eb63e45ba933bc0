// What the versions of a program bear in a run that goes through them (ANSI 3.1.2.4).
ghost use Rattle.std.specs.Prelude.{◌≡◌, ◌++◌, ◌∷◌, [], not, IfOk, Some};
ghost use Rattle.sc_meaning.specs.Versions.{object_in as object_by_key};
ghost use Rattle.sc_session_conflicts.specs.Births as spec;

use crate::clash::is_other;
use crate::space::{room_for, size_if, statics_with, sum};
use sc_base::{Duplicate, Items, Key, NoMemory};
use sc_core_held::{Definition, Text, object_in};
use sc_interp_changes::is_kept;
use sc_interp_parts::births_of;
use sc_interp_world::same_id;
use sc_program::StaticId;
use std::alloc::Global;

fn stays_by(alloc: Global, old: &[Text], new: &[Text], id: &StaticId) -> Result<bool, NoMemory>
    ensures { IfOk result (λ stays. stays ≡ spec.stays_by old.now new.now id.now) }
{
    match id {
        StaticId::Named(key) => is_kept(alloc, old, new, key),
        StaticId::Literal(_, _) => Ok(true),
    }
}

fn borne_among(
    alloc: Global,
    old: &[Text],
    new: &[Text],
    births: &[StaticId],
) -> Result<Items<StaticId>, NoMemory>
    ensures { IfOk result (λ ids. ids ≡ spec.borne_among old.now new.now births.now) }
{
    let mut ids = Items::new(alloc);
    for id in births {
        if !stays_by(alloc, old, new, id)? {
            ids.push(id.copy(alloc)?)?;
        }
    }
    Ok(ids)
}

// The objects with a name that the change from one version to another bears.
fn borne(alloc: Global, old: &[Text], new: &[Text]) -> Result<Items<StaticId>, NoMemory>
    ensures { IfOk result (λ ids. ids ≡ spec.borne old.now new.now) }
{
    let births = births_of(alloc, new)?;
    borne_among(alloc, old, new, births.as_slice())
}

fn is_among(id: &StaticId, ids: &[StaticId]) -> bool
    ensures { result ≡ spec.is_among id.now ids.now }
{
    ids.iter().any(|other| same_id(id, other))
}

fn was_there(ever: &[StaticId], id: &StaticId) -> bool
    ensures { result ≡ spec.was_there ever.now id.now }
{
    match id {
        StaticId::Named(_) => true,
        StaticId::Literal(_, _) => is_among(id, ever),
    }
}

fn literals_among(
    alloc: Global,
    ever: &[StaticId],
    births: &[StaticId],
) -> Result<Items<StaticId>, NoMemory>
    ensures { IfOk result (λ ids. ids ≡ spec.literals_among ever.now births.now) }
{
    let mut ids = Items::new(alloc);
    for id in births {
        if !was_there(ever, id) {
            ids.push(id.copy(alloc)?)?;
        }
    }
    Ok(ids)
}

// The literals that a version bears, where these objects and literals were ever there.
fn literals_borne(
    alloc: Global,
    ever: &[StaticId],
    new: &[Text],
) -> Result<Items<StaticId>, NoMemory>
    ensures { IfOk result (λ ids. ids ≡ spec.literals_borne ever.now new.now) }
{
    let births = births_of(alloc, new)?;
    literals_among(alloc, ever, births.as_slice())
}

fn borne_through(
    alloc: Global,
    first: &Items<Text>,
    later: &[Items<Text>],
) -> Result<Items<StaticId>, NoMemory>
    ensures { IfOk result (λ ids. ids ≡ spec.borne_through first.now later.now) }
{
    let mut ids = Items::new(alloc);
    let mut old = first;
    for new in later {
        ids.append(borne(alloc, old.as_slice(), new.as_slice())?)?;
        old = new;
    }
    Ok(ids)
}

/// The objects that a run has to bear that goes through these versions, from the first on.
pub fn waits(alloc: Global, versions: &[Items<Text>]) -> Result<Items<StaticId>, NoMemory>
    ensures { IfOk result (λ ids. ids ≡ spec.waits versions.now) }
{
    match versions {
        [] => Ok(Items::new(alloc)),
        [first, later @ ..] => borne_through(alloc, first, later),
    }
}

// The bytes of static storage that an object takes.
fn object_room(d: &Definition) -> Result<u64, NoMemory>
    ensures { IfOk result (λ n. n ≡ spec.defined_room (Some d.now)) }
{
    let text = d.text;
    let object = d.object;
    room_for(size_if(&object.of, &text.core.get().structs))
}

fn named_room(texts: &[Text], key: &Key) -> Result<u64, NoMemory>
    ensures { IfOk result (λ n. n ≡ spec.defined_room (object_by_key texts.now key.now)) }
{
    match object_in(texts, key) {
        None => Ok(0),
        Some(d) => object_room(&d),
    }
}

// The bytes of static storage that the object or literal with a name takes.
fn id_room(texts: &[Text], id: &StaticId) -> Result<u64, NoMemory>
    ensures { IfOk result (λ n. n ≡ spec.id_room texts.now id.now) }
{
    match id {
        StaticId::Named(key) => named_room(texts, key),
        StaticId::Literal(_, bytes) => room_for(bytes.as_slice().len() as u64),
    }
}

fn ids_room(texts: &[Text], ids: &[StaticId]) -> Result<u64, NoMemory>
    ensures { IfOk result (λ n. n ≡ spec.ids_room texts.now ids.now) }
{
    let mut total = 0u64;
    for id in ids {
        total = sum(total, id_room(texts, id)?)?;
    }
    Ok(total)
}

// What one version bears behind another.
fn step_room(alloc: Global, ever: &[StaticId], old: &[Text], new: &[Text]) -> Result<u64, NoMemory>
    ensures { IfOk result (λ n. n ≡ spec.step_room ever.now old.now new.now) }
{
    let objects = borne(alloc, old, new)?;
    let literals = literals_borne(alloc, ever, new)?;
    let room = ids_room(new, objects.as_slice())?;
    sum(room, ids_room(new, literals.as_slice())?)
}

// What some versions bear, and one more behind them.
fn room_through(alloc: Global, versions: &[Items<Text>], last: &[Text]) -> Result<u64, NoMemory>
    ensures { IfOk result (λ n. n ≡ spec.room_through [] [] versions.now last.now) }
{
    let mut ever = Items::new(alloc);
    let mut old: &[Text] = &[];
    let mut total = 0u64;
    for new in versions {
        let new = new.as_slice();
        total = sum(total, step_room(alloc, ever.as_slice(), old, new)?)?;
        ever.append(births_of(alloc, new)?)?;
        old = new;
    }
    sum(total, step_room(alloc, ever.as_slice(), old, last)?)
}

// The texts with one that is new, behind those of other modules.
fn with_text(alloc: Global, new: &Text, present: &[Text]) -> Result<Items<Text>, NoMemory>
    ensures { IfOk result (λ texts. texts ≡ spec.with_text new.now present.now) }
{
    let mut texts = Items::new(alloc);
    for t in present {
        if is_other(new.core.get(), t) {
            texts.push(t.copy(alloc)?)?;
        }
    }
    texts.push(new.copy(alloc)?)?;
    Ok(texts)
}

/// The bytes of static storage that a program takes with a text that is new: outside of a run those of its modules; in a run that
/// began with the first of these versions all that it has borne, and all that it bears with the text.
pub fn statics_by(
    alloc: Global,
    versions: &[Items<Text>],
    present: &[Text],
    new: &Text,
) -> Result<u64, NoMemory>
    ensures { IfOk result (λ n. n ≡ spec.statics_by versions.now present.now new.now) }
{
    match versions {
        [] => statics_with(new.core.get(), present),
        [_, ..] => {
            let last = with_text(alloc, new, present)?;
            room_through(alloc, versions, last.as_slice())
        }
    }
}
