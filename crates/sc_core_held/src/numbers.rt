// The numbers of functions.
ghost use Rattle.std.specs.Prelude.{◌≡◌, [], length, take, OnOk, OnErr};
ghost use Rattle.sc_types.specs.declared.ctype.CType.{out-CType};
ghost use Rattle.indexmap.specs.IndexSet.{insert_key};
ghost use Rattle.sc_core_held.specs.Numbers as spec;

use crate::library::library_fun;
use indexmap::IndexSet;
use sc_base::{Duplicate, Key, NoMemory};
use sc_core::{Core, Declared};
use sc_types::CType;
use std::alloc::Global;
use std::marker::Model;

/// The functions that have a number behind those of the library, seen as the list of their keys in the order of the
/// numbers.
#[derive(Drop)]
pub struct Numbers {
    keys: IndexSet<Key>,
}

impl Model for Numbers {
    ghost use Rattle.std.specs.Prelude.{List};
    ghost use Rattle.sc_base.specs.declared.key.Key.{Key};

    ghost Value = { List Key };

    ghost view = { λ n. n.keys.keys };
}

fn is_function(t: &CType) -> bool
    ensures { result ≡ spec.layer_is_function (out-CType t.now) }
{
    match t {
        CType::Function(_) => true,
        CType::Void(_)
        | CType::Int(_, _)
        | CType::Pointer(_, _)
        | CType::Array(_, _)
        | CType::Struct(_, _) => false,
    }
}

fn is_library(key: &Key) -> bool
    ensures { result ≡ spec.is_library key.now }
{
    !key.module.is_some() && library_fun(&key.name).is_some()
}

fn takes_number(d: &Declared) -> bool
    ensures { result ≡ spec.takes_number d.now }
{
    is_function(&d.of) && !is_library(&d.key)
}

/// Puts a key behind some others, where it is not among them.
pub fn insert_key(keys: &mut IndexSet<Key>, key: Key) -> Result<(), NoMemory>
    ensures ok { OnOk result (keys.new.keys ≡ insert_key spec.key_eq keys.old.keys key) }
    ensures err { OnErr result (keys.new.keys ≡ keys.old.keys) }
{
    let _ = keys.insert(key)?;
    Ok(())
}

// Declarations are gone through; where memory runs out, what was found so far stays.
#[tactic(auto, using(crate::proofs::NumberLemmas::insert_front, crate::proofs::NumberLemmas::insert_long))]
fn mention_all(
    alloc: Global,
    keys: &mut IndexSet<Key>,
    declared: &[Declared],
) -> Result<(), NoMemory>
    ensures ok { OnOk result (keys.new.keys ≡ spec.mentioned keys.old.keys declared.now) }
    ensures front { take (length keys.old.keys) keys.new.keys ≡ keys.old.keys }
{
    for d in declared {
        if takes_number(d) {
            insert_key(keys, d.key.copy(alloc)?)?;
        }
    }
    Ok(())
}

impl Numbers {
    /// No function has a number but those of the library.
    pub fn new(alloc: Global) -> Numbers
        ensures { result ≡ [] }
    {
        Numbers {
            keys: IndexSet::new(alloc),
        }
    }

    /// How many functions have a number behind those of the library.
    pub fn len(&self) -> usize
        ensures { result ≡ length self.now }
    {
        self.keys.len()
    }

    /// The keys in the order of their numbers.
    pub fn as_slice(&self) -> &[Key]
        ensures { result.now ≡ self.now }
    {
        self.keys.as_slice()
    }

    /// Each function that a module declares gets the next number, where it has none yet.
    ///
    /// # Errors
    ///
    /// Where memory runs out, all stays as it was.
    pub fn mention(&mut self, alloc: Global, core: &Core) -> Result<(), NoMemory>
        ensures ok { OnOk result (self.new ≡ spec.mentioned self.old core.now.declared) }
        ensures err { OnErr result (self.new ≡ self.old) }
        ensures front { take (length self.old) self.new ≡ self.old }
    {
        let len = self.keys.len();
        match mention_all(alloc, &mut self.keys, core.declared.as_slice()) {
            Ok(_) => Ok(()),
            Err(e) => {
                self.keys.truncate(len);
                Err(e)
            }
        }
    }

    /// Keeps the first ones, at most this many.
    pub fn truncate(&mut self, len: usize)
        ensures { self.new ≡ take len self.old }
    {
        self.keys.truncate(len);
    }
}
