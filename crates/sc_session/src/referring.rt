// What `xref` and `whatis` show: where the present modules have a name, and of which types it is.
ghost use Rattle.std.specs.Prelude.{◌≡◌, IfOk};
ghost use Rattle.sc_session.specs.Referring as spec;
ghost use Rattle.sc_session_show.specs.References as show;

use crate::present::Present;
use crate::session::Session;
use sc_base::{Bytes, Items, Name, NoMemory};
use sc_session_show::{Found, is_declared_in, places_text, put_found, put_type_line};
use sc_words::{Answer, Denied};
use std::alloc::Global;

// ---- places

// The places of a name in the modules.
fn places_named(alloc: Global, name: &Name, modules: &[Present]) -> Result<Items<Found>, NoMemory>
    ensures { IfOk result (λ found. found ≡ spec.places_named name.now modules.now) }
{
    let mut found = Items::new(alloc);
    for p in modules {
        let home = &p.text.core.get().name;
        put_found(&mut found, alloc, home, name, p.places.get().as_slice())?;
    }
    Ok(found)
}

fn places_shown(alloc: Global, name: &Name, modules: &[Present]) -> Result<Bytes, NoMemory>
    ensures { IfOk result (λ text. text ≡ show.places_text (spec.places_named name.now modules.now)) }
{
    let found = places_named(alloc, name, modules)?;
    places_text(alloc, found.as_slice())
}

// ---- types

// Whether a module declares a function or an object under the name at file scope.
fn declares(name: &Name, p: &Present) -> bool
    ensures { result ≡ spec.declares name.now p.now }
{
    is_declared_in(p.text.core.get(), p.scopes.get().file.as_slice(), name)
}

// Whether some module does.
fn is_declared(name: &Name, modules: &[Present]) -> bool
    ensures { result ≡ spec.is_declared name.now modules.now }
{
    for p in modules {
        if declares(name, p) {
            return true;
        }
    }
    false
}

// A line for each module that does.
fn types_shown(alloc: Global, name: &Name, modules: &[Present]) -> Result<Bytes, NoMemory>
    ensures { IfOk result (λ text. text ≡ spec.type_lines name.now modules.now) }
{
    let mut text = Vec::new(alloc);
    for p in modules {
        let core = p.text.core.get();
        let file = p.scopes.get().file.as_slice();
        put_type_line(&mut text, alloc, core, file, name)?;
    }
    Ok(Bytes::from_vec(text))
}

// ---- the answers

impl Session {
    /// The answer to `xref`.
    pub(crate) fn xref(&self, alloc: Global, name: Name) -> Answer
        ensures { spec.Locates self.now name result }
    {
        match places_shown(alloc, &name, self.modules.as_slice()) {
            Ok(lines) => Answer::Shown(lines),
            Err(_) => Answer::NoMemory,
        }
    }

    /// The answer to `whatis`.
    pub(crate) fn whatis(&self, alloc: Global, name: Name) -> Answer
        ensures { spec.Describes self.now name result }
    {
        if !is_declared(&name, self.modules.as_slice()) {
            return Answer::Refused(Denied::NotDeclared(name));
        }
        match types_shown(alloc, &name, self.modules.as_slice()) {
            Ok(lines) => Answer::Shown(lines),
            Err(_) => Answer::NoMemory,
        }
    }
}
