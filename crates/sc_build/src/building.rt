// A module is translated (ANSI 2.1.1.2).
ghost use Rattle.std.specs.Prelude.{◌≡◌, ◌≤◌, IfOk};
ghost use Rattle.sc_core_names.specs.Scopes.{scopes_of as scopes_in};
ghost use Rattle.sc_eval.specs.Texts.{IsUnit};
ghost use Rattle.sc_xref.specs.Walks.{places_of as places_in};
ghost use Rattle.sc_build.specs.Builds.{Answers, Checks, InFile, names_of, of_files};

use crate::compiling::compiled;
use sc_base::{Bytes, Fault, Items, Name, NoMemory, Refusal, Shared};
use sc_check::check;
use sc_core::Core;
use sc_core_names::{Scopes, scopes_of};
use sc_eval::Kept;
use sc_lex::Token;
use sc_object::Object;
use sc_outside::Files;
use sc_parse::parse;
use sc_pp::{PpFault, preprocess};
use sc_tree::Unit;
use sc_xref::{Place, places_of};
use std::alloc::Global;

/// Why there is no module: its text is refused; its file is missing or has more than 8,388,608 bytes; a file could not be
/// read; no memory was left.
#[derive(Drop)]
pub enum BuildFault {
    Refused(Refusal),
    Missing,
    TooLong,
    File(Bytes),
    NoMemory,
}

/// A module that was translated, what each of its scopes declares, where it has the names of the file, what is kept of its text,
/// and its objects: that of the plain compiler and the faster one. All but the module can be shared.
#[derive(Drop)]
pub struct Built {
    pub core: Core,
    pub scopes: Shared<Scopes>,
    pub places: Shared<Items<Place>>,
    pub kept: Shared<Kept>,
    pub object: Shared<Object>,
    pub fast: Shared<Object>,
}

/// What is kept beside a module: what each of its scopes declares, where it has the names of the file, and its text.
#[derive(Drop)]
pub struct Names {
    pub scopes: Shared<Scopes>,
    pub places: Shared<Items<Place>>,
    pub kept: Shared<Kept>,
}

// What preprocessing fails with.
fn of_files(fault: PpFault) -> BuildFault
    ensures { result ≡ of_files fault }
{
    match fault {
        PpFault::Refused(refusal) => BuildFault::Refused(refusal),
        PpFault::Missing => BuildFault::Missing,
        PpFault::TooLong => BuildFault::TooLong,
        PpFault::File(name) => BuildFault::File(name),
        PpFault::NoMemory => BuildFault::NoMemory,
    }
}

// A refusal of the grammar or of the rules of types, which stands in the module's own file.
fn in_file(alloc: Global, file: &str, fault: Fault) -> BuildFault
    ensures { InFile file.now fault result }
{
    match fault {
        Fault::NoMemory => BuildFault::NoMemory,
        Fault::Refused(refusal) => match Bytes::from_slice(alloc, file.as_bytes()) {
            Ok(file) => BuildFault::Refused(Refusal {
                kind: refusal.kind,
                file,
                line: refusal.line,
            }),
            Err(_) => BuildFault::NoMemory,
        },
    }
}

fn shared_scopes(alloc: Global, unit: &Unit) -> Result<Shared<Scopes>, NoMemory>
    ensures { IfOk result (λ scopes. scopes ≡ scopes_in unit.now.items) }
{
    let scopes = scopes_of(alloc, unit)?;
    Ok(Shared::new(alloc, scopes)?)
}

fn shared_places(alloc: Global, unit: &Unit) -> Result<Shared<Items<Place>>, NoMemory>
    ensures { IfOk result (λ places. places ≡ places_in unit.now.items) }
{
    let places = places_of(alloc, unit)?;
    Ok(Shared::new(alloc, places)?)
}

// The names of a unit.
fn names_of(alloc: Global, tokens: Items<Token>, unit: &Unit) -> Result<Names, NoMemory>
    ensures { IfOk result (λ names. names ≡ names_of tokens unit.now.items) }
{
    let kept = Shared::new(alloc, Kept { tokens })?;
    let Ok(scopes) = shared_scopes(alloc, unit) else {
        drop(kept);
        return Err(NoMemory);
    };
    let Ok(places) = shared_places(alloc, unit) else {
        drop(scopes);
        drop(kept);
        return Err(NoMemory);
    };
    Ok(Names {
        scopes,
        places,
        kept,
    })
}

// The module of a unit.
fn checked(
    alloc: Global,
    name: &Name,
    file: &str,
    tokens: Items<Token>,
    unit: Unit,
) -> Result<Built, BuildFault>
    requires { IsUnit tokens unit.items }
    ensures { Checks tokens file.now name.now result }
{
    match check(alloc, name, &unit) {
        Ok(core) => {
            let Ok(names) = names_of(alloc, tokens, &unit) else {
                drop(unit);
                drop(core);
                return Err(BuildFault::NoMemory);
            };
            drop(unit);
            compiled(alloc, file, core, names)
        }
        Err(fault) => {
            drop(unit);
            drop(tokens);
            Err(in_file(alloc, file, fault))
        }
    }
}

// The module of some tokens.
fn parsed(alloc: Global, name: &Name, file: &str, tokens: Items<Token>) -> Result<Built, BuildFault>
    ensures { Checks tokens file.now name.now result }
{
    match parse(alloc, tokens.as_slice()) {
        Ok(unit) => checked(alloc, name, file, tokens, unit),
        Err(fault) => {
            drop(tokens);
            Err(in_file(alloc, file, fault))
        }
    }
}

/// The module in a file, with this name, its scopes, its places, its tokens and its objects. The refusal of a text is the first of preprocessing, with the file in
/// which its line stands; else the grammar's, else that of the rules of types, else that of the limits of objects, of the plain one
/// before the faster, in the module's own file. `File` is the name of a file that was asked for and could not be read, only where the count of faults rose.
pub fn build<F: Files>(
    alloc: Global,
    name: &Name,
    file: &str,
    files: &mut F,
) -> Result<Built, BuildFault>
    ensures answers { Answers (F.held files.old) (F.faults files.old) (F.faults files.new) file.now name.now result }
    ensures held { F.held files.new ≡ F.held files.old }
    ensures later { F.faults files.old ≤ F.faults files.new }
{
    match preprocess(alloc, file, files) {
        Ok(tokens) => parsed(alloc, name, file, tokens),
        Err(fault) => Err(of_files(fault)),
    }
}
