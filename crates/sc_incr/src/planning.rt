// The entry that a module gets, before anything is changed.
ghost use Rattle.std.specs.Prelude.{◌≡◌, ℕ, ◌+◌, ◌<◌, ◌≤◌, [], length, IfErr, IfOk, MatchBool, MatchOption, OnOk};
ghost use Rattle.sc_isa_image.specs.Lookups.{key_of};
ghost use Rattle.sc_link.specs.Entries as entries;
ghost use Rattle.sc_link.specs.Linked.{key_in};
ghost use Rattle.sc_places.specs.Layout as layout;
ghost use Rattle.sc_incr.specs.Modules as spec;
ghost use Rattle.sc_incr.specs.Plans.{Fits, IsPlan};

use crate::entry::Entry;
use crate::module::Module;
use sc_base::{Duplicate, Form, Items, Key, NoMemory};
use sc_isa_image::Image;
use sc_link::{Area, LinkFault, MOST_FUNCTIONS, Placed, STATICS_END, TEXTS_END};
use sc_object::Object;
use sc_places::{place_sections, static_end, text_end};
use std::alloc::Global;

/// The entry that a module gets, and its functions that have no number yet.
#[derive(Drop)]
pub struct Plan {
    pub placed: Placed,
    pub functions: Vec<Key>,
}

/// The entry of a module behind all that a list has placed, with its functions that have no number yet.
pub fn make_plan(
    alloc: Global,
    list: &[Entry],
    funs: &[Key],
    image: &Image,
    module: &Module,
    kept: &[Option<u32>],
) -> Result<Plan, LinkFault>
    requires { (at : ℕ) → key_of image.now at ≡ key_in funs.now at }
    ensures ok { IfOk result (IsPlan list.now funs.now «module».now kept.now) }
    ensures full { IfErr result (spec.IsFull list.now funs.now «module».now.form (spec.chosen «module».now) kept.now (spec.new_functions funs.now «module».now.functions)) }
{
    let functions = match new_functions(alloc, image, funs, module.functions.as_slice()) {
        Ok(functions) => functions,
        Err(_) => return Err(LinkFault::NoMemory),
    };
    if !has_numbers(funs, functions.as_slice()) {
        drop(functions);
        return Err(LinkFault::Space(Area::Stubs));
    }
    let places = match places_behind(alloc, list, module.form, module.chosen().get(), kept) {
        Ok(places) => places,
        Err(fault) => {
            drop(functions);
            return Err(fault);
        }
    };
    match entry_of(alloc, module, places) {
        Ok(placed) => Ok(Plan { placed, functions }),
        Err(_) => {
            drop(functions);
            Err(LinkFault::NoMemory)
        }
    }
}

// Whether there are numbers for these functions, too.
fn has_numbers(funs: &[Key], functions: &[Key]) -> bool
    ensures { MatchBool result (length funs.now + length functions.now ≤ 65536) (65536 < length funs.now + length functions.now) }
{
    funs.len() <= MOST_FUNCTIONS
        && functions.len() <= MOST_FUNCTIONS
        && funs.len() + functions.len() <= MOST_FUNCTIONS
}

// The entry of a module with places.
fn entry_of(alloc: Global, module: &Module, places: Items<u32>) -> Result<Placed, NoMemory>
    ensures { IfOk result (λ e. e ≡ spec.entry_of «module».now places) }
{
    let home = module.name.copy(alloc)?;
    let object = module.chosen().share()?;
    Ok(Placed {
        number: module.number,
        home,
        form: module.form,
        object,
        places,
        retired: false,
    })
}

/// The functions of a module that have no number yet.
pub fn new_functions(
    alloc: Global,
    image: &Image,
    funs: &[Key],
    functions: &[Key],
) -> Result<Vec<Key>, NoMemory>
    requires { (at : ℕ) → key_of image.now at ≡ key_in funs.now at }
    ensures { IfOk result (λ new. new.items ≡ spec.new_functions funs.now functions.now) }
{
    let mut new = Vec::new(alloc);
    for key in functions {
        if !is_numbered(image, funs, key) {
            new.push(key.copy(alloc)?)?;
        }
    }
    Ok(new)
}

// Whether a function has a number.
fn is_numbered(image: &Image, funs: &[Key], key: &Key) -> bool
    requires { (at : ℕ) → key_of image.now at ≡ key_in funs.now at }
    ensures { result ≡ spec.is_numbered funs.now key.now }
{
    let _ = funs;
    image.is_function(key)
}

/// The places of an object behind all that a list has placed, where they fit.
pub fn places_behind(
    alloc: Global,
    list: &[Entry],
    form: Form,
    object: &Object,
    kept: &[Option<u32>],
) -> Result<Items<u32>, LinkFault>
    ensures ok { IfOk result (λ places. places ≡ spec.places_behind list.now form object.now kept.now) }
    ensures fits { OnOk result (Fits list.now form object.now kept.now) }
    ensures full { IfErr result (spec.IsFull list.now [] form object.now kept.now []) }
{
    let sections = object.sections.as_slice();
    let text = match text_start(list, form, object) {
        Some(text) => text,
        None => return Err(LinkFault::Space(Area::Text)),
    };
    let statics = match static_start(list, object, kept) {
        Some(statics) => statics,
        None => return Err(LinkFault::Space(Area::Static)),
    };
    match place_sections(alloc, is_object(form), text, statics, sections, kept) {
        Ok(places) => Ok(places),
        Err(_) => Err(LinkFault::NoMemory),
    }
}

// Whether a module in this form is placed in the text area.
fn is_object(form: Form) -> bool
    ensures { result ≡ entries.is_object form }
{
    match form {
        Form::Object => true,
        Form::Source => false,
    }
}

// The address behind all texts of a list, if those of an object fit behind it.
fn text_start(list: &[Entry], form: Form, object: &Object) -> Option<u32>
    ensures { MatchOption result (TEXTS_END < layout.text_end (entries.is_object form) (layout.behind_texts list.now) object.now.sections) (λ text. (text ≡ layout.behind_texts list.now) × (layout.text_end (entries.is_object form) (layout.behind_texts list.now) object.now.sections ≤ TEXTS_END)) }
{
    let text = behind_texts(list);
    if text > u64::from(TEXTS_END) {
        return None;
    }
    let text = text as u32;
    match text_end(is_object(form), text, object.sections.as_slice()) {
        Some(_) => Some(text),
        None => None,
    }
}

// The address behind all objects of a list, if those of an object fit behind it.
fn static_start(list: &[Entry], object: &Object, kept: &[Option<u32>]) -> Option<u32>
    ensures { MatchOption result (STATICS_END < layout.static_end (layout.behind_statics list.now) object.now.sections kept.now) (λ statics. (statics ≡ layout.behind_statics list.now) × (layout.static_end (layout.behind_statics list.now) object.now.sections kept.now ≤ STATICS_END)) }
{
    let statics = behind_statics(list);
    if statics > u64::from(STATICS_END) {
        return None;
    }
    let statics = statics as u32;
    match static_end(statics, object.sections.as_slice(), kept) {
        Some(_) => Some(statics),
        None => None,
    }
}

// The address behind all texts of a list.
fn behind_texts(list: &[Entry]) -> u64
    ensures { result ≡ layout.behind_texts list.now }
{
    let mut top = 0;
    let mut left = list;
    'looking: while let [entry, rest @ ..] = left {
        top = entry.text_top().max(top);
        left = rest;
    }
    top.max(0x0010_0000)
}

// The address behind all objects of a list.
fn behind_statics(list: &[Entry]) -> u64
    ensures { result ≡ layout.behind_statics list.now }
{
    let mut top = 0;
    let mut left = list;
    'looking: while let [entry, rest @ ..] = left {
        top = entry.static_top().max(top);
        left = rest;
    }
    top.max(0x0800_0000)
}
