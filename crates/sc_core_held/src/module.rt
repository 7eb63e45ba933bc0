// A module in which a function is found by a hash of its name, and an object by one of its key (ANSI 3.1.2.2, 3.7).
ghost use Rattle.std.specs.Prelude.{◌≡◌, Some, None, MatchOption, IfOk};
ghost use Rattle.std.specs.HashMap.{get};
ghost use Rattle.std.specs.Str.{bytes_eq};
ghost use Rattle.sc_core.specs.Modules as spec;
ghost use Rattle.sc_meaning.specs.Versions as versions;
ghost use Rattle.sc_core_held.specs.Finding.{Adds, AddsPlace, Finds, FindsPlaces};
ghost use Rattle.sc_core_held.specs.Numbers.{key_eq};

use sc_base::{Duplicate, Key, Name, NoMemory, Shared};
use sc_core::{Core, Fun, StaticObj};
use std::alloc::Global;
use std::collections::HashMap;
use std::marker::Model;

/// A module, with its functions by their names and the places of its objects by their keys.
#[derive(Drop)]
struct Indexed {
    core: Core,
    functions: HashMap<Name, Shared<Fun>>,
    places: HashMap<Key, usize>,
}

impl Model for Indexed {
    ghost use Rattle.std.specs.Coded.{codes};
    ghost use Rattle.std.specs.HashMap.{get};
    ghost use Rattle.std.specs.Str.{bytes_eq};
    ghost use Rattle.sc_types.specs.contracts.ctype.CType as types;
    ghost use Rattle.sc_types.specs.contracts.ctype.Signature as signatures;
    ghost use Rattle.sc_core.specs.contracts.expression.CoreExpr as expressions;
    ghost use Rattle.sc_core.specs.contracts.statement.CoreStmt as statements;
    ghost use Rattle.sc_core.specs.declared.module.Core.{Core};
    ghost use Rattle.sc_core_held.specs.Finding.{Finds, FindsPlaces};
    ghost use Rattle.sc_core_held.specs.Numbers.{key_eq};

    ghost Value = { Core };

    ghost coded = { Prim.hlevel (codes, types.the_row.coded, signatures.the_row.coded, expressions.the_row.coded, statements.the_row.coded) };

    ghost view = { λ m. m.core };

    ghost invariant = { λ m. Finds (get bytes_eq m.functions) m.core.funs × FindsPlaces (get key_eq m.places) m.core.objects };
}

/// A module that several owners hold, seen as the module itself. A function is found in it by a hash of its name, an object by
/// one of its key.
#[derive(Drop)]
pub struct Module {
    inner: Shared<Indexed>,
}

impl Model for Module {
    ghost use Rattle.std.specs.Coded.{codes};
    ghost use Rattle.sc_types.specs.contracts.ctype.CType as types;
    ghost use Rattle.sc_types.specs.contracts.ctype.Signature as signatures;
    ghost use Rattle.sc_core.specs.contracts.expression.CoreExpr as expressions;
    ghost use Rattle.sc_core.specs.contracts.statement.CoreStmt as statements;
    ghost use Rattle.sc_core.specs.declared.module.Core.{Core};

    ghost Value = { Core };

    ghost coded = { Prim.hlevel (codes, types.the_row.coded, signatures.the_row.coded, expressions.the_row.coded, statements.the_row.coded) };

    ghost view = { λ m. m.inner };
}

// A function more, where none has its name.
fn add(
    alloc: Global,
    functions: &mut HashMap<Name, Shared<Fun>>,
    f: &Shared<Fun>,
) -> Result<(), NoMemory>
    ensures { IfOk result (λ _. Adds (get bytes_eq functions.old) f.now (get bytes_eq functions.new)) }
{
    let name = f.get().name.copy(alloc)?;
    if !functions.contains_key(&name) {
        functions.insert(name, f.share()?)?;
    }
    Ok(())
}

// The functions by their names.
fn by_name(alloc: Global, funs: &[Shared<Fun>]) -> Result<HashMap<Name, Shared<Fun>>, NoMemory>
    ensures { IfOk result (λ functions. Finds (get bytes_eq functions) funs.now) }
{
    let mut functions = HashMap::new(alloc);
    for f in funs {
        add(alloc, &mut functions, f)?;
    }
    Ok(functions)
}

// A place more, where none has its key.
fn add_place(
    alloc: Global,
    places: &mut HashMap<Key, usize>,
    key: &Key,
    place: usize,
) -> Result<(), NoMemory>
    ensures { IfOk result (λ _. AddsPlace (get key_eq places.old) key.now place (get key_eq places.new)) }
{
    if !places.contains_key(key) {
        places.insert(key.copy(alloc)?, place)?;
    }
    Ok(())
}

// The places of the objects by their keys.
fn by_key(alloc: Global, objects: &[StaticObj]) -> Result<HashMap<Key, usize>, NoMemory>
    ensures { IfOk result (λ places. FindsPlaces (get key_eq places) objects.now) }
{
    let mut places = HashMap::new(alloc);
    for (place, object) in objects.iter().enumerate() {
        add_place(alloc, &mut places, &object.key, place)?;
    }
    Ok(places)
}

impl Module {
    /// A module, with its functions by their names and its objects by their keys.
    pub fn new(alloc: Global, core: Core) -> Result<Module, NoMemory>
        ensures { IfOk result (λ m. m ≡ core) }
    {
        let functions = by_name(alloc, core.funs.as_slice())?;
        let places = by_key(alloc, core.objects.as_slice())?;
        let indexed = Indexed {
            core,
            functions,
            places,
        };
        Ok(Module {
            inner: Shared::new(alloc, indexed)?,
        })
    }

    /// The module itself.
    pub fn get(&self) -> &Core
        ensures { result.now ≡ self.now }
    {
        &self.inner.get().core
    }

    /// The function of this name, where the module defines one.
    pub fn function(&self, name: &Name) -> Option<&Shared<Fun>>
        ensures { MatchOption result (spec.function_of name.now self.now.funs ≡ None) (λ f. spec.function_of name.now self.now.funs ≡ Some f.now) }
    {
        self.inner.get().functions.get(name)
    }

    /// The object of this key, where the module defines one.
    pub(crate) fn object(&self, key: &Key) -> Option<&StaticObj>
        ensures { MatchOption result (versions.object_by self.now.objects key.now ≡ None) (λ o. versions.object_by self.now.objects key.now ≡ Some o.now) }
    {
        let indexed = self.inner.get();
        match indexed.places.get(key) {
            None => None,
            Some(place) => indexed.core.objects.as_slice().get(*place),
        }
    }

    /// One more owner of the same module. It takes no memory, and fails only where the count of owners is full.
    pub fn share(&self) -> Result<Module, NoMemory>
        ensures { IfOk result (λ m. m ≡ self.now) }
    {
        Ok(Module {
            inner: self.inner.share()?,
        })
    }
}
