// Where the modules of a run are placed, version by version.
ghost use Rattle.std.specs.Prelude.{◌≡◌, ◌++◌, ◌∷◌, [], map, IfErr, IfOk, MatchOption, None, OnOk, Some};
ghost use Rattle.sc_image.specs.Placing.{IsFull};
ghost use Rattle.sc_image.specs.Running as running;
ghost use Rattle.sc_mixed.specs.Changing as changing;
ghost use Rattle.sc_session.specs.Linking.{linking_of};
ghost use Rattle.sc_session.specs.Modules.{texts};
ghost use Rattle.sc_session.specs.Placing as spec;

use crate::choice::Choice;
use crate::linking::{ImageFault, area_of, image_fault, linking, linkings};
use crate::present::{Present, is_named, texts_of};
use sc_base::{Form, Items, Key, Name, NoMemory};
use sc_image::Placements;
use sc_link::Area as Place;
use sc_mixed::kept_keys;
use sc_words::Area;
use std::alloc::Global;

// The module of a version with a name.
fn named<'a>(name: &Name, modules: &'a [Present]) -> Option<&'a Present>
    ensures { MatchOption result (spec.named name.now modules.now ≡ None) (λ p. spec.named name.now modules.now ≡ Some p.now) }
{
    for p in modules {
        if is_named(name, p) {
            return Some(p);
        }
    }
    None
}

/// What a module is beside that of its name in the version before: new; translated anew; in another form or with its other object; or
/// the same.
#[derive(Clone, Copy)]
pub enum Way {
    New,
    Again,
    Formed,
    Same,
}

fn way_by_choice(before: Choice, choice: Choice) -> Way
    ensures { result ≡ spec.way_by_choice before choice }
{
    match before {
        Choice::Plain => match choice {
            Choice::Plain => Way::Same,
            Choice::Fast => Way::Formed,
        },
        Choice::Fast => match choice {
            Choice::Plain => Way::Formed,
            Choice::Fast => Way::Same,
        },
    }
}

// By the forms, and where both are objects by which they are.
fn way_by(before: &Present, p: &Present) -> Way
    ensures { result ≡ spec.way_by before.now.text.form before.now.choice p.now.text.form p.now.choice }
{
    match before.text.form {
        Form::Source => match p.text.form {
            Form::Source => Way::Same,
            Form::Object => Way::Formed,
        },
        Form::Object => match p.text.form {
            Form::Source => Way::Formed,
            Form::Object => way_by_choice(before.choice, p.choice),
        },
    }
}

// Two texts with one number are the same text.
fn way_from(before: &Present, p: &Present) -> Way
    ensures { result ≡ spec.way_from (Some before.now) p.now }
{
    if before.text.number == p.text.number {
        way_by(before, p)
    } else {
        Way::Again
    }
}

fn way_of(old: &[Present], p: &Present) -> Way
    ensures { result ≡ spec.way_of old.now p.now }
{
    match named(&p.text.core.get().name, old) {
        Some(before) => way_from(before, p),
        None => Way::New,
    }
}

// The keys of the objects that stay as one version follows another.
fn kept_between(alloc: Global, old: &[Present], new: &[Present]) -> Result<Items<Key>, NoMemory>
    ensures { IfOk result (λ keys. keys ≡ changing.kept_keys (texts old.now) (texts new.now)) }
{
    let old = texts_of(alloc, old)?;
    let new = texts_of(alloc, new)?;
    kept_keys(alloc, old.as_slice(), new.as_slice())
}

// A module more, or one that is translated anew.
fn with_module(
    alloc: Global,
    placed: &Placements,
    p: &Present,
    kept: &[Key],
    functions: &[Key],
) -> Result<Placements, ImageFault>
    ensures ok { IfOk result (λ es. es ≡ running.with_module placed.now (linking_of p.now) kept.now) }
    ensures short { IfErr result (spec.IsLacking (spec.LacksFor placed.now functions.now p.now kept.now)) }
{
    let Ok(module) = linking(alloc, p) else {
        return Err(ImageFault::NoMemory);
    };
    match placed.with(alloc, &module, kept, functions) {
        Ok(next) => Ok(next),
        Err(fault) => Err(image_fault(fault)),
    }
}

// A module in another form, or with its other object.
fn formed(
    alloc: Global,
    placed: &Placements,
    p: &Present,
    functions: &[Key],
) -> Result<Placements, ImageFault>
    ensures ok { IfOk result (λ es. es ≡ running.in_form (linking_of p.now) placed.now) }
    ensures short { IfErr result (spec.IsLacking (spec.LacksFormed placed.now functions.now p.now)) }
{
    let Ok(module) = linking(alloc, p) else {
        return Err(ImageFault::NoMemory);
    };
    match placed.formed(alloc, &module, functions) {
        Ok(next) => Ok(next),
        Err(fault) => Err(image_fault(fault)),
    }
}

// A module behind all that was placed before it.
fn placed_so(
    alloc: Global,
    placed: &Placements,
    way: Way,
    p: &Present,
    kept: &[Key],
    functions: &[Key],
) -> Result<Placements, ImageFault>
    ensures ok { IfOk result (λ es. es ≡ spec.placed_so way kept.now p.now placed.now) }
    ensures short { IfErr result (spec.IsLacking (spec.LacksSo way functions.now kept.now p.now placed.now)) }
{
    match way {
        Way::New => with_module(alloc, placed, p, &[], functions),
        Way::Again => with_module(alloc, placed, p, kept, functions),
        Way::Formed => formed(alloc, placed, p, functions),
        Way::Same => match placed.copy(alloc) {
            Ok(same) => Ok(same),
            Err(_) => Err(ImageFault::NoMemory),
        },
    }
}

// The same of a module of a version, where the modules of the version before were these.
fn module_placed(
    alloc: Global,
    placed: &Placements,
    old: &[Present],
    p: &Present,
    kept: &[Key],
    functions: &[Key],
) -> Result<Placements, ImageFault>
    ensures ok { IfOk result (λ es. es ≡ spec.placed_so (spec.way_of old.now p.now) kept.now p.now placed.now) }
    ensures short { IfErr result (spec.IsLacking (spec.LacksSo (spec.way_of old.now p.now) functions.now kept.now p.now placed.now)) }
{
    let way = way_of(old, p);
    placed_so(alloc, placed, way, p, kept, functions)
}

// The modules of a version, behind those of the version before.
fn modules_placed(
    alloc: Global,
    placed: &Placements,
    old: &[Present],
    new: &[Present],
    kept: &[Key],
    functions: &[Key],
) -> Result<Placements, ImageFault>
    ensures ok { IfOk result (λ es. es ≡ spec.modules_over old.now kept.now new.now placed.now) }
    ensures short { IfErr result (spec.IsLacking (spec.LacksAmong old.now functions.now kept.now new.now placed.now)) }
{
    let Ok(same) = placed.copy(alloc) else {
        return Err(ImageFault::NoMemory);
    };
    let mut next = same;
    for p in new {
        match module_placed(alloc, &next, old, p, kept, functions) {
            Ok(more) => next = more,
            Err(fault) => return Err(fault),
        }
    }
    Ok(next)
}

// Without a module of the version before, where it is gone.
fn without_if(
    alloc: Global,
    placed: Placements,
    p: &Present,
    new: &[Present],
) -> Result<Placements, NoMemory>
    ensures { IfOk result (λ es. es ≡ spec.without_if (spec.named p.now.text.core.name new.now) p.now.text.core.name placed) }
{
    let name = &p.text.core.get().name;
    match named(name, new) {
        Some(_) => Ok(placed),
        None => placed.without(alloc, name),
    }
}

// Without all of them that are gone.
fn without_gone(
    alloc: Global,
    placed: Placements,
    old: &[Present],
    new: &[Present],
) -> Result<Placements, NoMemory>
    ensures { IfOk result (λ es. es ≡ spec.without_gone old.now new.now placed) }
{
    let mut placed = placed;
    for p in old {
        placed = without_if(alloc, placed, p, new)?;
    }
    Ok(placed)
}

// A version behind the one before it.
fn version_placed(
    alloc: Global,
    placed: &Placements,
    old: &[Present],
    new: &[Present],
    functions: &[Key],
) -> Result<Placements, ImageFault>
    ensures ok { IfOk result (λ es. es ≡ spec.version_over old.now new.now placed.now) }
    ensures short { IfErr result (spec.IsLacking (spec.LacksIn functions.now old.now new.now placed.now)) }
{
    let Ok(kept) = kept_between(alloc, old, new) else {
        return Err(ImageFault::NoMemory);
    };
    match modules_placed(alloc, placed, old, new, kept.as_slice(), functions) {
        Ok(next) => match without_gone(alloc, next, old, new) {
            Ok(next) => Ok(next),
            Err(_) => Err(ImageFault::NoMemory),
        },
        Err(fault) => Err(fault),
    }
}

// The modules of the first version.
fn first_placed(
    alloc: Global,
    modules: &[Present],
    functions: &[Key],
) -> Result<Placements, ImageFault>
    ensures ok { IfOk result (λ es. es ≡ spec.placed_first modules.now) }
    ensures short { IfErr result (spec.IsLacking (IsFull (map linking_of modules.now) functions.now)) }
{
    let Ok(modules) = linkings(alloc, modules) else {
        return Err(ImageFault::NoMemory);
    };
    match Placements::start(alloc, modules.as_slice(), functions) {
        Ok(placed) => Ok(placed),
        Err(fault) => Err(image_fault(fault)),
    }
}

fn add(all: &mut Items<Placements>, placed: Placements) -> Result<(), NoMemory>
    ensures { OnOk result (all.new ≡ all.old ++ placed ∷ []) }
{
    all.push(placed)?;
    Ok(())
}

// Some lists with two more.
fn with_both(
    all: Items<Placements>,
    placed: Placements,
    last: Placements,
) -> Result<Items<Placements>, NoMemory>
    ensures { IfOk result (λ more. more ≡ all ++ placed ∷ last ∷ []) }
{
    let mut all = all;
    add(&mut all, placed)?;
    add(&mut all, last)?;
    Ok(all)
}

// The present modules behind all versions before them.
fn last_placed(
    alloc: Global,
    all: Items<Placements>,
    placed: Placements,
    old: &[Present],
    modules: &[Present],
    functions: &[Key],
) -> Result<Items<Placements>, ImageFault>
    ensures ok { IfOk result (λ more. more ≡ all ++ spec.each_over old.now (modules.now ∷ []) placed) }
    ensures short { IfErr result (spec.IsLacking (spec.LacksAfter functions.now old.now (modules.now ∷ []) placed)) }
{
    match version_placed(alloc, &placed, old, modules, functions) {
        Ok(last) => match with_both(all, placed, last) {
            Ok(more) => Ok(more),
            Err(_) => Err(ImageFault::NoMemory),
        },
        Err(fault) => Err(fault),
    }
}

fn all_placed(
    alloc: Global,
    first: &Items<Present>,
    later: &[Items<Present>],
    modules: &[Present],
    functions: &[Key],
) -> Result<Items<Placements>, ImageFault>
    ensures ok { IfOk result (λ all. all ≡ spec.each_placed (first.now ∷ later.now) modules.now) }
    ensures short { IfErr result (spec.IsLacking (spec.LacksPlaces (first.now ∷ later.now) modules.now functions.now)) }
{
    let mut all = Items::new(alloc);
    let mut old = first;
    let mut placed = match first_placed(alloc, first.as_slice(), functions) {
        Ok(start) => start,
        Err(fault) => return Err(fault),
    };
    for new in later {
        let next = match version_placed(alloc, &placed, old.as_slice(), new.as_slice(), functions) {
            Ok(next) => next,
            Err(fault) => return Err(fault),
        };
        let Ok(_) = add(&mut all, placed) else {
            return Err(ImageFault::NoMemory);
        };
        placed = next;
        old = new;
    }
    last_placed(alloc, all, placed, old.as_slice(), modules, functions)
}

fn one_placed(
    alloc: Global,
    modules: &[Present],
    functions: &[Key],
) -> Result<Items<Placements>, ImageFault>
    ensures ok { IfOk result (λ all. all ≡ spec.placed_first modules.now ∷ []) }
    ensures short { IfErr result (spec.IsLacking (IsFull (map linking_of modules.now) functions.now)) }
{
    let placed = match first_placed(alloc, modules, functions) {
        Ok(placed) => placed,
        Err(fault) => return Err(fault),
    };
    let mut all = Items::new(alloc);
    match add(&mut all, placed) {
        Ok(_) => Ok(all),
        Err(_) => Err(ImageFault::NoMemory),
    }
}

// Where the modules of each version of a run are placed: those before its changes, and the present ones.
pub fn placed_versions(
    alloc: Global,
    past: &[Items<Present>],
    modules: &[Present],
    functions: &[Key],
) -> Result<Items<Placements>, ImageFault>
    ensures ok { IfOk result (λ all. all ≡ spec.each_placed past.now modules.now) }
    ensures short { IfErr result (spec.IsLacking (spec.LacksPlaces past.now modules.now functions.now)) }
{
    match past {
        [] => one_placed(alloc, modules, functions),
        [first, later @ ..] => all_placed(alloc, first, later, modules, functions),
    }
}

// The first area that has no room for what is placed behind the last version.
fn full_last(placed: &[Placements], functions: &[Key]) -> Option<Place>
    ensures { MatchOption result (spec.LastWithin placed.now functions.now) (spec.LastOver placed.now functions.now) }
{
    match placed.last() {
        Some(last) => last.full_area(functions),
        None => None,
    }
}

// Why there is no image where a module had no room. The bytes of static objects were counted as each module was loaded: that their
// area has no room cannot be.
fn lacking(fault: ImageFault) -> ImageFault
    ensures { result ≡ spec.lacking fault }
{
    match fault {
        ImageFault::Space(area) => match area {
            Area::Modules => ImageFault::Space(Area::Modules),
            Area::Stubs => ImageFault::Space(Area::Stubs),
            Area::Text => ImageFault::Space(Area::Text),
            Area::Static => ImageFault::NoMemory,
        },
        ImageFault::NoMemory => ImageFault::NoMemory,
    }
}

/// Where the modules of each version of a run are placed, if no area lacks room for all of it. Else the first area is told, in the
/// order of their addresses, that does.
pub fn placed_within(
    alloc: Global,
    past: &[Items<Present>],
    modules: &[Present],
    functions: &[Key],
) -> Result<Items<Placements>, ImageFault>
    ensures ok { IfOk result (λ all. all ≡ spec.each_placed past.now modules.now) }
    ensures room { OnOk result (running.AreWithin (spec.placed_over past.now modules.now) functions.now) }
    ensures short { IfErr result (spec.IsLacking (running.IsOver (spec.placed_over past.now modules.now) functions.now)) }
{
    let placed = match placed_versions(alloc, past, modules, functions) {
        Ok(placed) => placed,
        Err(fault) => return Err(lacking(fault)),
    };
    match full_last(placed.as_slice(), functions) {
        None => Ok(placed),
        Some(area) => {
            drop(placed);
            Err(ImageFault::Space(area_of(area)))
        }
    }
}
