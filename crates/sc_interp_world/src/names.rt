// The names of objects of static storage duration (ANSI 3.1.2.4). What has a name is found by a hash of it.
ghost use Rattle.std.specs.Prelude.{◌≡◌, ◌&&◌, ℕ, List, [], ◌∷◌, OnOk, OnErr};
ghost use Rattle.std.specs.Borrow.{ftrue};
ghost use Rattle.std.specs.Str.{bytes_eq};
ghost use Rattle.std.specs.Cmp.Rules.{hashing};
ghost use Rattle.std.proofs.Common.{rules};
ghost use Rattle.sc_meaning.specs.World as spec;
ghost use Rattle.sc_program.specs.declared.storage.StaticId.{StaticId as Id};

use indexmap::{Equivalent, IndexMap};
use sc_base::{Bytes, Key, Name, NoMemory};
use sc_meaning_values::same_key;
use sc_program::StaticId;
use std::alloc::Global;
use std::marker::Model;

/// An object with a name.
#[derive(Drop)]
pub struct Named {
    pub id: StaticId,
    pub object: u32,
}

impl Model for Named {
    ghost use Rattle.std.specs.Prelude.{ℕ};
    ghost use Rattle.sc_program.specs.declared.storage.StaticId.{StaticId};

    ghost Value = { StaticId × ℕ };

    ghost view = { λ n. (n.id, n.object) };
}

/// Whether two names are the same.
pub fn same_id(a: &StaticId, b: &StaticId) -> bool
    ensures { result ≡ spec.same_id a.now b.now }
{
    match (a, b) {
        (StaticId::Named(k), StaticId::Named(l)) => same_key(k, l),
        (StaticId::Literal(m, s), StaticId::Literal(n, t)) => *m == *n && *s == *t,
        _ => false,
    }
}

/// The names that stand, the latest first. It takes no room, and its functions do nothing while a program runs.
#[derive(Drop)]
pub struct Roll {
    pub ghost names: { List (Id × ℕ) },
}

impl Model for Roll {
    ghost also_owns = { λ _. ftrue };
}

impl Roll {
    fn new() -> Roll
        ensures { result.names ≡ [] }
    {
        Roll {}
    }

    fn with(_before: &Roll, _named: &Named) -> Roll
        ensures { result.names ≡ _named.now ∷ _before.now.names }
    {
        Roll {}
    }

    fn without(_before: &Roll, _id: &StaticId) -> Roll
        ensures { result.names ≡ spec.without_name _before.now.names _id.now }
    {
        Roll {}
    }
}

/// A literal: its module, and its bytes.
#[derive(Drop, PartialEq, Eq, Hash)]
struct Literal {
    home: Name,
    bytes: Bytes,
}

/// A literal that is looked for.
#[derive(Clone, Copy, PartialEq, Eq, Hash)]
struct Sought<'a> {
    home: &'a Name,
    bytes: &'a Bytes,
}

impl<'a> Equivalent<Literal> for Sought<'a> {
    ghost equivalent = { λ q l. bytes_eq q.home.now l.home && bytes_eq q.bytes.now l.bytes };

    ghost respects_hash = { Prim.search (hashing, rules) };

    ghost respects_eq = { Prim.search (hashing, rules) };

    fn equivalent(&self, key: &Literal) -> bool {
        *self.home == key.home && *self.bytes == key.bytes
    }
}

/// The names of objects with these objects, seen as the list of them, the latest first.
#[derive(Drop)]
pub struct Names {
    roll: Roll,
    declared: IndexMap<Key, u32>,
    literals: IndexMap<Literal, u32>,
}

impl Model for Names {
    ghost use Rattle.std.specs.Prelude.{ℕ, List};
    ghost use Rattle.sc_program.specs.declared.storage.StaticId.{StaticId};
    ghost use Rattle.indexmap.specs.IndexMap.{get};
    ghost use Rattle.sc_interp_world.specs.Naming.{IsFound, key_eq, literal_eq};

    ghost Value = { List (StaticId × ℕ) };

    ghost view = { λ n. n.roll.names };

    ghost invariant = { λ n. IsFound (get key_eq n.declared) (get literal_eq n.literals) n.roll.names };
}

impl Names {
    /// No names.
    pub fn new(alloc: Global) -> Names
        ensures { result ≡ [] }
    {
        Names {
            roll: Roll::new(),
            declared: IndexMap::new(alloc),
            literals: IndexMap::new(alloc),
        }
    }

    /// The object with the name that a key is.
    pub fn keyed(&self, key: &Key) -> Option<u32>
        ensures { result ≡ spec.named_in self.now (StaticId.Named key.now) }
    {
        self.declared.get(key).copied()
    }

    /// The object of a module's literal with these bytes.
    pub fn literal(&self, home: &Name, bytes: &Bytes) -> Option<u32>
        ensures { result ≡ spec.named_in self.now (StaticId.Literal home.now bytes.now) }
    {
        self.literals.get(Sought { home, bytes }).copied()
    }

    /// The object with a name.
    pub fn named(&self, id: &StaticId) -> Option<u32>
        ensures { result ≡ spec.named_in self.now id.now }
    {
        match id {
            StaticId::Named(key) => self.keyed(key),
            StaticId::Literal(home, bytes) => self.literal(home, bytes),
        }
    }

    /// An object has this name from here on. Where memory runs out nothing changes.
    pub fn put(&mut self, id: StaticId, object: u32) -> Result<(), NoMemory>
        ensures ok { OnOk result (self.new ≡ (id, object) ∷ self.old) }
        ensures err { OnErr result (self.new ≡ self.old) }
    {
        let named = Named { id, object };
        let roll = Roll::with(&self.roll, &named);
        match named.id {
            StaticId::Named(key) => {
                self.declared.insert(key, object)?;
            }
            StaticId::Literal(home, bytes) => {
                self.literals.insert(Literal { home, bytes }, object)?;
            }
        }
        self.roll = roll;
        Ok(())
    }

    /// No object has this name from here on.
    pub fn take(&mut self, id: &StaticId)
        ensures { self.new ≡ spec.without_name self.old id.now }
    {
        match id {
            StaticId::Named(key) => {
                self.declared.swap_remove(key);
            }
            StaticId::Literal(home, bytes) => {
                self.literals.swap_remove(Sought { home, bytes });
            }
        }
        self.roll = Roll::without(&self.roll, id);
    }
}
