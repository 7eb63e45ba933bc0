// What `disas` shows: the words of a function's text in the image of the modules.
ghost use Rattle.std.specs.Prelude.{◌≡◌, ◌++◌, IfOk, MatchOption, OnOk, None, Some};
ghost use Rattle.sc_session.specs.Disassembling as spec;
ghost use Rattle.sc_session.specs.Modules.{texts};

use crate::linking::ImageFault;
use crate::present::Present;
use crate::session::Session;
use sc_base::{Bytes, Duplicate, Form, Key, Name, NoMemory};
use sc_core::{Core, Fun};
use sc_image::Placements;
use sc_isa_image::{Image, Text as Code};
use sc_link::{Placed, add_texts};
use sc_session_forms::code_lines;
use sc_session_show::defined_key;
use sc_words::{Answer, Denied};
use std::alloc::Global;

// ---- the function

// The function with external linkage.
fn external_in<'a>(name: &Name, core: &'a Core) -> Option<&'a Fun>
    ensures { MatchOption result (spec.meant_in None name.now core.now ≡ None) (λ f. spec.meant_in None name.now core.now ≡ Some f.now) }
{
    let fun = core.fun(name)?;
    if fun.external { Some(fun) } else { None }
}

// The function that is meant in a module: the external one, or either where the module is named.
fn meant_in<'a>(home: &Option<Name>, name: &Name, core: &'a Core) -> Option<&'a Fun>
    ensures { MatchOption result (spec.meant_in home.now name.now core.now ≡ None) (λ f. spec.meant_in home.now name.now core.now ≡ Some f.now) }
{
    match home {
        Some(home) => {
            if core.name == *home {
                core.fun(name)
            } else {
                None
            }
        }
        None => external_in(name, core),
    }
}

// Its key, where the module is in object form.
fn coded_in(
    alloc: Global,
    home: &Option<Name>,
    name: &Name,
    p: &Present,
) -> Result<Option<Key>, NoMemory>
    ensures { IfOk result (λ k. k ≡ spec.coded_in home.now name.now p.now.text.core p.now.text.form) }
{
    match p.text.form {
        Form::Source => Ok(None),
        Form::Object => {
            let core = p.text.core.get();
            match meant_in(home, name, core) {
                Some(fun) => Ok(Some(defined_key(alloc, &core.name, fun)?)),
                None => Ok(None),
            }
        }
    }
}

// And among the present modules.
fn coded(
    alloc: Global,
    home: &Option<Name>,
    name: &Name,
    modules: &[Present],
) -> Result<Option<Key>, NoMemory>
    ensures { IfOk result (λ k. k ≡ spec.coded home.now name.now (texts modules.now)) }
{
    for p in modules {
        if let Some(key) = coded_in(alloc, home, name, p)? {
            return Ok(Some(key));
        }
    }
    Ok(None)
}

// ---- its text

// The texts of an entry that is no former one.
fn add_present(alloc: Global, texts: &mut Vec<Code>, e: &Placed) -> Result<(), NoMemory>
    ensures { OnOk result (texts.new.items ≡ texts.old.items ++ spec.present_if e.now) }
{
    if e.retired {
        return Ok(());
    }
    add_texts(alloc, texts, e)
}

fn present_texts(alloc: Global, placed: &[Placed]) -> Result<Vec<Code>, NoMemory>
    ensures { IfOk result (λ texts. texts.items ≡ spec.present_texts placed.now) }
{
    let mut texts = Vec::new(alloc);
    for e in placed {
        add_present(alloc, &mut texts, e)?;
    }
    Ok(texts)
}

fn text_keyed<'a>(key: &Key, texts: &'a [Code]) -> Option<&'a Code>
    ensures { MatchOption result (spec.text_keyed key.now texts.now ≡ None) (λ t. spec.text_keyed key.now texts.now ≡ Some t.now) }
{
    for t in texts {
        if t.at.fun == *key {
            return Some(t);
        }
    }
    None
}

// ---- its lines

// The lines of the function with a key in an image of what is placed.
fn code_text(alloc: Global, image: &Image, placed: &[Placed], key: &Key) -> Result<Bytes, NoMemory>
    ensures { IfOk result (λ lines. lines ≡ spec.code_text image.now placed.now key.now) }
{
    let texts = present_texts(alloc, placed)?;
    match text_keyed(key, texts.as_slice()) {
        Some(text) => code_lines(alloc, image, text.at.start, text.words.as_slice()),
        None => Ok(Bytes::from_vec(Vec::new(alloc))),
    }
}

// The same in the image of what is placed behind the last version, which has room.
fn last_text(
    alloc: Global,
    placed: &[Placements],
    functions: &[Key],
    key: &Key,
) -> Result<Bytes, NoMemory>
    ensures { IfOk result (spec.ShowsLast placed.now functions.now key.now) }
{
    let Some(last) = placed.last() else {
        return Err(NoMemory);
    };
    match last.image(alloc, functions) {
        Ok(image) => code_text(alloc, &image, last.as_slice(), key),
        Err(_) => Err(NoMemory),
    }
}

// ---- the answers

// Why there is no image.
fn unlinked(fault: ImageFault) -> Answer
    ensures { result ≡ spec.unlinked fault }
{
    match fault {
        ImageFault::Space(area) => Answer::Refused(Denied::Space(area)),
        ImageFault::NoMemory => Answer::NoMemory,
    }
}

impl Session {
    /// The answer to `disas`.
    pub(crate) fn disas(&self, alloc: Global, home: Option<Name>, name: Name) -> Answer
        ensures { spec.Disassembles self.now home name result }
    {
        match coded(alloc, &home, &name, self.modules.as_slice()) {
            Ok(found) => self.shown_if(alloc, home, name, found),
            Err(_) => {
                drop(home);
                drop(name);
                Answer::NoMemory
            }
        }
    }

    // Where the function that is meant was found or not.
    fn shown_if(&self, alloc: Global, home: Option<Name>, name: Name, found: Option<Key>) -> Answer
        ensures { spec.ShowsMeant self.now home name found result }
    {
        match found {
            Some(key) => {
                drop(home);
                drop(name);
                self.code(alloc, &key)
            }
            None => Answer::Refused(Denied::NoText(home, name)),
        }
    }

    // The lines of the function with a key in the image of all that is placed.
    fn code(&self, alloc: Global, key: &Key) -> Answer
        ensures { spec.ShowsCode self.now key.now result }
    {
        let plan = match self.plan(alloc) {
            Ok(plan) => plan,
            Err(fault) => return unlinked(fault),
        };
        match last_text(
            alloc,
            plan.placed.as_slice(),
            plan.functions.as_slice(),
            key,
        ) {
            Ok(lines) => Answer::Shown(lines),
            Err(_) => Answer::NoMemory,
        }
    }
}
