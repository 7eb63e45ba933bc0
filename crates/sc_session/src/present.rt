// The modules that are present.
ghost use Rattle.std.specs.Prelude.{◌≡◌, IfOk, MatchOption, None, Some};
ghost use Rattle.std.specs.Str.{bytes_eq};
ghost use Rattle.sc_session_conflicts.specs.Clashes.{is_present};
ghost use Rattle.sc_session.specs.Modules as spec;

use crate::choice::Choice;
use sc_base::{Duplicate, Form, Items, Name, NoMemory, Shared};
use sc_build::Built;
use sc_core_held::Text;
use sc_core_names::Scopes;
use sc_eval::Kept;
use sc_object::Object;
use sc_session_forms::Compiled;
use sc_xref::Place;
use std::alloc::Global;

/// A module that is present: its text, what its scopes declare, where it has the names of the file, what is kept of the text, its
/// objects, and which of them it runs in object form.
#[derive(Drop)]
pub struct Present {
    pub text: Text,
    pub scopes: Shared<Scopes>,
    pub places: Shared<Items<Place>>,
    pub kept: Shared<Kept>,
    pub object: Shared<Object>,
    pub fast: Shared<Object>,
    pub choice: Choice,
}

/// A module that was translated. Its text gets this number.
pub fn present_of(alloc: Global, number: u32, built: Built) -> Result<Present, NoMemory>
    ensures { IfOk result (λ p. p ≡ spec.present_of number built) }
{
    let Built {
        core,
        scopes,
        places,
        kept,
        object,
        fast,
    } = built;
    match Text::new(alloc, number, Form::Source, core) {
        Ok(text) => Ok(Present {
            text,
            scopes,
            places,
            kept,
            object,
            fast,
            choice: Choice::Plain,
        }),
        Err(_) => {
            drop(scopes);
            drop(places);
            drop(kept);
            drop(object);
            drop(fast);
            Err(NoMemory)
        }
    }
}

fn module_copied(alloc: Global, p: &Present) -> Result<Present, NoMemory>
    ensures { IfOk result (λ copy. copy ≡ p.now) }
{
    Ok(Present {
        text: p.text.copy(alloc)?,
        scopes: p.scopes.share()?,
        places: p.places.share()?,
        kept: p.kept.share()?,
        object: p.object.share()?,
        fast: p.fast.share()?,
        choice: p.choice,
    })
}

/// The same modules. What they have is shared, and not copied.
pub fn modules_copied(alloc: Global, modules: &[Present]) -> Result<Items<Present>, NoMemory>
    ensures { IfOk result (λ copies. copies ≡ modules.now) }
{
    let mut copies = Items::new(alloc);
    for p in modules {
        copies.push(module_copied(alloc, p)?)?;
    }
    Ok(copies)
}

/// The texts of modules, in their order. They are shared, and not copied.
pub fn texts_of(alloc: Global, modules: &[Present]) -> Result<Items<Text>, NoMemory>
    ensures { IfOk result (λ texts. texts ≡ spec.texts modules.now) }
{
    let mut texts = Items::new(alloc);
    for p in modules {
        texts.push(p.text.copy(alloc)?)?;
    }
    Ok(texts)
}

/// Whether a module has this name.
pub fn is_named(name: &Name, p: &Present) -> bool
    ensures { result ≡ bytes_eq p.now.text.core.name name.now }
{
    p.text.core.get().name == *name
}

/// Whether a module of this name is present.
pub fn is_present(name: &Name, modules: &[Present]) -> bool
    ensures { result ≡ is_present name.now (spec.texts modules.now) }
{
    for p in modules {
        if is_named(name, p) {
            return true;
        }
    }
    false
}

/// What the text with a number declares.
pub fn scopes_numbered(modules: &[Present], n: u32) -> Option<&Scopes>
    ensures { MatchOption result (spec.scopes_numbered modules.now n ≡ None) (λ s. spec.scopes_numbered modules.now n ≡ Some s.now) }
{
    for p in modules {
        if p.text.number == n {
            return Some(p.scopes.get());
        }
    }
    None
}

/// That object of a module.
pub fn object_by(p: &Present, choice: Choice) -> &Shared<Object>
    ensures { result.now ≡ spec.object_by choice p.now }
{
    match choice {
        Choice::Plain => &p.object,
        Choice::Fast => &p.fast,
    }
}

/// That object of the module with a name.
pub fn object_named<'a>(modules: &'a [Present], name: &Name, choice: Choice) -> Option<&'a Object>
    ensures { MatchOption result (spec.object_named modules.now name.now choice ≡ None) (λ o. spec.object_named modules.now name.now choice ≡ Some o.now) }
{
    for p in modules {
        if is_named(name, p) {
            return Some(object_by(p, choice).get());
        }
    }
    None
}

/// What is kept of the text of the module with a name.
pub fn kept_named<'a>(modules: &'a [Present], name: &Name) -> Option<&'a Kept>
    ensures { MatchOption result (spec.kept_named modules.now name.now ≡ None) (λ k. spec.kept_named modules.now name.now ≡ Some k.now) }
{
    for p in modules {
        if is_named(name, p) {
            return Some(p.kept.get());
        }
    }
    None
}

/// The plain objects of modules by the numbers of their texts. They are shared, and not copied.
pub fn compiled_of(alloc: Global, modules: &[Present]) -> Result<Items<Compiled>, NoMemory>
    ensures { IfOk result (λ compiled. compiled ≡ spec.compiled modules.now) }
{
    let mut compiled = Items::new(alloc);
    for p in modules {
        compiled.push(Compiled {
            number: p.text.number,
            object: p.object.share()?,
        })?;
    }
    Ok(compiled)
}
