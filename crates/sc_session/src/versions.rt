// The versions of the modules in a run that stands at a stop.
ghost use Rattle.std.specs.Prelude.{◌≡◌, ◌++◌, ◌∷◌, [], drop, length, IfOk, MatchOption, None, OnErr, OnOk, Some};
ghost use Rattle.sc_session.specs.Changing as spec;

use crate::present::{Present, compiled_of, scopes_numbered, texts_of};
use crate::state::State;
use sc_base::{Items, Key, NoMemory};
use sc_core_held::Text;
use sc_core_names::Scopes;
use sc_image::Placements;
use sc_interp_world::World;
use sc_mixed::place_run;
use sc_session_forms::Compiled;
use sc_world::Run;
use std::alloc::Global;

/// Whether a run stands so that it stays as the modules change.
pub fn stays(state: &State) -> bool
    ensures { result ≡ spec.stays state.now }
{
    match state {
        State::Stopped(_) => true,
        State::StoppedMixed(_) => true,
        State::Idle => false,
        State::Paused(_) => false,
        State::PausedMixed(_) => false,
        State::Ended => false,
    }
}

fn all_texts(alloc: Global, past: &[Items<Present>]) -> Result<Items<Items<Text>>, NoMemory>
    ensures { IfOk result (λ all. all ≡ spec.all_texts past.now) }
{
    let mut all = Items::new(alloc);
    for modules in past {
        all.push(texts_of(alloc, modules.as_slice())?)?;
    }
    Ok(all)
}

/// The texts before each change of a run that stays, and the present ones; where none stays there are none.
pub fn versions_of(
    alloc: Global,
    stayed: bool,
    past: &[Items<Present>],
    modules: &[Present],
) -> Result<Items<Items<Text>>, NoMemory>
    ensures { IfOk result (λ versions. versions ≡ spec.versions_by stayed past.now modules.now) }
{
    if !stayed {
        return Ok(Items::new(alloc));
    }
    let mut versions = all_texts(alloc, past)?;
    versions.push(texts_of(alloc, modules)?)?;
    Ok(versions)
}

/// How many changes were kept.
pub fn kept_count(past: &Vec<Items<Present>>) -> usize
    ensures { result ≡ length past.now.items }
{
    past.as_slice().len()
}

/// The versions behind so many.
pub fn versions_from(versions: &[Items<Text>], come: usize) -> &[Items<Text>]
    ensures { result.now ≡ drop come versions.now }
{
    if come >= versions.len() {
        return &[];
    }
    let (_, rest) = versions.split_at(come);
    rest
}

// What the next version bears stands where its modules are placed. The placements of the versions behind it are given back.
fn place_next<'a>(
    run: &mut Run,
    placed: &'a [Placements],
    functions: &[Key],
) -> Result<&'a [Placements], NoMemory>
    ensures { run.new ≡ run.old }
{
    match placed {
        [] => Ok(placed),
        [next, later @ ..] => {
            place_run(run, next.as_slice(), functions)?;
            Ok(later)
        }
    }
}

fn through(
    run: &mut Run,
    first: &Items<Text>,
    later: &[Items<Text>],
    placed: &[Placements],
    functions: &[Key],
) -> Result<(), NoMemory>
    ensures { IfOk result (λ _. run.new ≡ spec.through first.now later.now run.old) }
{
    let mut old = first;
    let mut rest = placed;
    for new in later {
        rest = place_next(run, rest, functions)?;
        run.change(old.as_slice(), new.as_slice())?;
        old = new;
    }
    Ok(())
}

/// A run of the first of some versions goes through the others, one after the other: `placed` says where their modules are placed.
///
/// # Errors
///
/// `NoMemory`. Nothing is known of the run then.
pub fn go_through(
    run: &mut Run,
    versions: &[Items<Text>],
    placed: &[Placements],
    functions: &[Key],
) -> Result<(), NoMemory>
    ensures { IfOk result (λ _. run.new ≡ spec.gone_through versions.now run.old) }
{
    match versions {
        [] => Ok(()),
        [first, later @ ..] => through(run, first, later, placed, functions),
    }
}

/// Puts the modules behind what they were before. Where memory runs out all stays.
pub fn put_version(past: &mut Vec<Items<Present>>, modules: Items<Present>) -> Result<(), NoMemory>
    ensures ok { OnOk result (past.new.items ≡ past.old.items ++ modules ∷ []) }
    ensures err { OnErr result (past.new.items ≡ past.old.items) }
{
    past.push(modules)?;
    Ok(())
}

/// The texts of which calls may be active in a run.
pub fn texts_held(
    alloc: Global,
    past: &[Items<Present>],
    modules: &[Present],
) -> Result<Items<Text>, NoMemory>
    ensures { IfOk result (λ texts. texts ≡ spec.texts_held past.now modules.now) }
{
    let mut texts = Items::new(alloc);
    for before in past {
        texts.append(texts_of(alloc, before.as_slice())?)?;
    }
    texts.append(texts_of(alloc, modules)?)?;
    Ok(texts)
}

/// The objects of these texts, by the numbers of the texts.
pub fn compiled_held(
    alloc: Global,
    past: &[Items<Present>],
    modules: &[Present],
) -> Result<Items<Compiled>, NoMemory>
    ensures { IfOk result (λ objects. objects ≡ spec.compiled_held past.now modules.now) }
{
    let mut objects = Items::new(alloc);
    for before in past {
        objects.append(compiled_of(alloc, before.as_slice())?)?;
    }
    objects.append(compiled_of(alloc, modules)?)?;
    Ok(objects)
}

/// What the text with a number declares.
pub fn scopes_held<'a>(
    past: &'a [Items<Present>],
    modules: &'a [Present],
    n: u32,
) -> Option<&'a Scopes>
    ensures { MatchOption result (spec.scopes_held past.now modules.now n ≡ None) (λ s. spec.scopes_held past.now modules.now n ≡ Some s.now) }
{
    for before in past {
        if let Some(scopes) = scopes_numbered(before.as_slice(), n) {
            return Some(scopes);
        }
    }
    scopes_numbered(modules, n)
}

/// What the text declares that the innermost call runs.
pub fn scopes_at<'a>(
    past: &'a [Items<Present>],
    modules: &'a [Present],
    world: &World,
) -> Option<&'a Scopes>
    ensures { MatchOption result (spec.scopes_at past.now modules.now world.now.frames ≡ None) (λ s. spec.scopes_at past.now modules.now world.now.frames ≡ Some s.now) }
{
    match world.innermost() {
        None => None,
        Some(f) => scopes_held(past, modules, f.text),
    }
}
