// The modules of a session change.
ghost use Rattle.std.specs.Prelude.{◌≡◌, Some, None, IfOk, OnOk, OnErr, MatchOption, MatchResult};
ghost use Rattle.sc_session_conflicts.specs.Clashes.{is_other};
ghost use Rattle.sc_session.specs.Loading as spec;
ghost use Rattle.sc_session.specs.Modules.{texts};

use crate::present::{Present, is_named, texts_of};
use sc_base::{Duplicate, Items, Name, NoMemory};
use sc_core::Core;
use sc_core_held::{Numbers, Text};
use sc_session_conflicts::{Named, clashing, doubled, is_other, over_limit, statics_by};
use sc_words::Denied;
use std::alloc::Global;

/// What became of a module that was translated.
#[derive(Drop)]
pub enum Taken {
    Joined,
    Denied(Denied),
    NoMemory,
}

fn doubled_name(alloc: Global, found: Named) -> Result<Option<Denied>, NoMemory>
    ensures { IfOk result (λ d. d ≡ spec.if_doubled (Some found.entry) None) }
{
    let name = found.name.copy(alloc)?;
    let home = found.home.copy(alloc)?;
    Ok(Some(Denied::Doubled(name, home)))
}

fn clashing_name(alloc: Global, found: Named) -> Result<Option<Denied>, NoMemory>
    ensures { IfOk result (λ d. d ≡ spec.if_clashing (Some found.entry) None) }
{
    let name = found.name.copy(alloc)?;
    let home = found.home.copy(alloc)?;
    Ok(Some(Denied::Clash(name, home)))
}

// Why the names of a module do not go with those of the others.
fn name_conflict(alloc: Global, texts: &[Text], core: &Core) -> Result<Option<Denied>, NoMemory>
    ensures { IfOk result (λ d. d ≡ spec.name_conflict texts.now core.now) }
{
    match doubled(alloc, texts, core)? {
        Some(found) => doubled_name(alloc, found),
        None => match clashing(alloc, texts, core)? {
            Some(found) => clashing_name(alloc, found),
            None => Ok(None),
        },
    }
}

// Gives the functions of a module their numbers, where there is room for it.
fn make_room(
    alloc: Global,
    versions: &[Items<Text>],
    texts: &[Text],
    numbers: &mut Numbers,
    new: &Text,
) -> Result<Option<Denied>, NoMemory>
    ensures { MatchResult result (λ d. spec.Fills versions.now texts.now numbers.old new.now d numbers.new) (λ _. numbers.new ≡ numbers.old) }
{
    let core = new.core.get();
    let statics = statics_by(alloc, versions, texts, new)?;
    let before = numbers.len();
    numbers.mention(alloc, core)?;
    match over_limit(core, texts, numbers.len(), statics) {
        Some(area) => {
            numbers.truncate(before);
            Ok(Some(Denied::Space(area)))
        }
        None => Ok(None),
    }
}

// Whether a module goes with texts. Its functions have their numbers then.
fn judged(
    alloc: Global,
    versions: &[Items<Text>],
    texts: &[Text],
    numbers: &mut Numbers,
    new: &Text,
) -> Result<Option<Denied>, NoMemory>
    ensures { MatchResult result (λ d. spec.Judges versions.now texts.now numbers.old new.now d numbers.new) (λ _. numbers.new ≡ numbers.old) }
{
    match name_conflict(alloc, texts, new.core.get()) {
        Ok(Some(denied)) => Ok(Some(denied)),
        Ok(None) => make_room(alloc, versions, texts, numbers, new),
        Err(e) => Err(e),
    }
}

// Whether a module goes with the others.
fn judged_among(
    alloc: Global,
    versions: &[Items<Text>],
    modules: &[Present],
    numbers: &mut Numbers,
    new: &Text,
) -> Result<Option<Denied>, NoMemory>
    ensures { MatchResult result (λ d. spec.Judges versions.now (texts modules.now) numbers.old new.now d numbers.new) (λ _. numbers.new ≡ numbers.old) }
{
    match texts_of(alloc, modules) {
        Ok(texts) => judged(alloc, versions, texts.as_slice(), numbers, new),
        Err(e) => Err(e),
    }
}

fn push_module(modules: &mut Vec<Present>, new: Present) -> Result<(), NoMemory>
    ensures ok { OnOk result (modules.new.items ≡ spec.with_module modules.old.items new) }
    ensures err { OnErr result (modules.new.items ≡ modules.old.items) }
{
    modules.push(new)?;
    Ok(())
}

/// A module is put behind the others, where it goes with them.
pub fn take_new(
    alloc: Global,
    versions: &[Items<Text>],
    modules: &mut Vec<Present>,
    numbers: &mut Numbers,
    new: Present,
) -> Taken
    ensures { spec.Takes versions.now modules.old.items numbers.old new (spec.with_module modules.old.items new) result modules.new.items numbers.new }
{
    let before = numbers.len();
    match judged_among(alloc, versions, modules.as_slice(), numbers, &new.text) {
        Ok(None) => match push_module(modules, new) {
            Ok(()) => Taken::Joined,
            Err(_) => {
                numbers.truncate(before);
                Taken::NoMemory
            }
        },
        Ok(Some(denied)) => {
            drop(new);
            Taken::Denied(denied)
        }
        Err(_) => {
            drop(new);
            Taken::NoMemory
        }
    }
}

// Whether a module has another name than one that is present.
fn is_beside(new: &Present, p: &Present) -> bool
    ensures { result ≡ is_other new.now.text.core p.now.text }
{
    is_other(new.text.core.get(), &p.text)
}

// The place of the module that has a module's name, behind others.
fn place_of(new: &Present, modules: &[Present]) -> Option<usize>
    ensures { MatchOption result (spec.in_place modules.now new.now ≡ modules.now) (λ i. spec.IsPlace modules.now new.now i) }
{
    for i in 0..modules.len() {
        if !is_beside(new, &modules[i]) {
            return Some(i);
        }
    }
    None
}

// A module takes the place of the one that has its name.
fn put_in_place(modules: &mut Vec<Present>, new: Present)
    ensures { modules.new.items ≡ spec.in_place modules.old.items new }
{
    match place_of(&new, modules.as_slice()) {
        Some(i) => modules[i] = new,
        None => drop(new),
    }
}

/// A module takes the place of the one that has its name, where it goes with the others.
pub fn take_anew(
    alloc: Global,
    versions: &[Items<Text>],
    modules: &mut Vec<Present>,
    numbers: &mut Numbers,
    new: Present,
) -> Taken
    ensures { spec.Takes versions.now modules.old.items numbers.old new (spec.in_place modules.old.items new) result modules.new.items numbers.new }
{
    match judged_among(alloc, versions, modules.as_slice(), numbers, &new.text) {
        Ok(None) => {
            put_in_place(modules, new);
            Taken::Joined
        }
        Ok(Some(denied)) => {
            drop(new);
            Taken::Denied(denied)
        }
        Err(_) => {
            drop(new);
            Taken::NoMemory
        }
    }
}

/// The module with this name is taken away.
pub fn take_away(modules: &mut Vec<Present>, name: &Name)
    ensures { modules.new.items ≡ spec.without name.now modules.old.items }
{
    modules.retain(|p| !is_named(name, p));
}
