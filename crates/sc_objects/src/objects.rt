// The objects of a run by number, and the one live object at an address.
ghost use Rattle.std.specs.Prelude.{◌≡◌, ◌↔◌, ◌+◌, ℕ, ◌∷◌, List, [], length, IfOk, OnErr, IsSome, IsTrue, None, Some, Err, true, ◌<◌, ◌^◌};
ghost use Rattle.sc_objects.specs.declared.objects.Obj.{Obj};

use sc_base::{Kind, NoMemory};
use std::alloc::Global;
use std::collections::BTreeMap;
use std::marker::Model;

/// An object: its size in bytes, its kind, the address of its first byte, and whether it lives.
#[derive(Clone, Copy, Debug, PartialEq, Eq)]
pub struct Obj {
    pub size: u32,
    pub kind: Kind,
    pub base: u32,
    pub live: bool,
}

/// Why an object is not born: the births of a run are used up, or no memory was left.
#[derive(Clone, Copy, Debug, PartialEq, Eq)]
pub enum BirthFault {
    Limit,
    NoMemory,
}

/// All objects that were born, seen as the list of them; the number of an object is its place in the list, counted
/// from 1. An object that has died stays, and is no longer live. No two live objects share an address from the base
/// through base + size.
#[derive(Drop)]
pub struct Objects {
    table: Vec<Obj>,
    live: BTreeMap<u32, u32>,
}

impl Model for Objects {
    ghost use Rattle.std.specs.Prelude.{List};
    ghost use Rattle.sc_objects.specs.declared.objects.Obj.{Obj};

    ghost Value = { List Obj };

    ghost view = { λ s. s.table.items };

    ghost use Rattle.sc_objects.specs.Kept.{Kept};

    ghost invariant = { λ s. Kept s.table.items s.live };
}

impl Objects {
    ghost use Rattle.sc_objects.specs.Numbered.{object_of, IsLive, AreApart, IsClear, IsObjectAt, born, ended};

    /// The births of a run.
    pub const MOST: usize = 4000000000;

    /// No object is born.
    pub fn new(alloc: Global) -> Result<Objects, NoMemory>
        ensures { IfOk result (λ objects. objects ≡ []) }
    {
        Ok(Objects {
            table: Vec::new(alloc),
            live: BTreeMap::new(alloc),
        })
    }

    /// A new live object, by its number. The addresses from `base` through `base + size` are not those of a live
    /// object. `Limit` comes exactly at the birth after the last. After a fault the objects are as before.
    pub fn birth(&mut self, size: u32, kind: Kind, base: u32) -> Result<u32, BirthFault>
        requires { IsClear self.old base size }
        ensures id { IfOk result (λ id. id ≡ length self.old + 1) }
        ensures born { IfOk result (λ id. self.new ≡ born self.old (record { size = size; kind = kind; base = base; live = true })) }
        ensures fault { OnErr result (self.new ≡ self.old) }
        ensures limit { (result ≡ Err BirthFault.Limit) ↔ (length self.old ≡ Objects.MOST) }
    {
        if self.table.len() >= Self::MOST {
            return Err(BirthFault::Limit);
        }
        let id = self.table.len() as u32 + 1;
        let object = Obj {
            size,
            kind,
            base,
            live: true,
        };
        if self.table.push(object).is_err() {
            return Err(BirthFault::NoMemory);
        }
        match self.live.insert(base, id) {
            Ok(_) => Ok(id),
            Err(_) => {
                let _ = self.table.pop();
                Err(BirthFault::NoMemory)
            }
        }
    }

    /// Ends the life of a live object. It takes no memory.
    pub fn death(&mut self, id: u32)
        requires { (o : Obj) × IsLive self.old id o }
        ensures { self.new ≡ ended self.old id }
    {
        let object = &mut self.table[id as usize - 1];
        object.live = false;
        let base = object.base;
        let _ = self.live.remove(&base);
    }

    /// The object with a number: `None` exactly for a number that is not born.
    pub fn find(&self, id: u32) -> Option<Obj>
        ensures object { result ≡ object_of self.now id }
        ensures apart { AreApart self.now }
    {
        let table = &self.table;
        if id == 0 {
            return None;
        }
        let place = id as usize - 1;
        if place < table.len() {
            Some(table[place])
        } else {
            None
        }
    }

    /// How many objects were born.
    pub fn len(&self) -> u32
        ensures { result ≡ length self.now }
    {
        let table = &self.table;
        table.len() as u32
    }

    /// Whether no address from `base` through `base + size` is that of a live object.
    pub fn is_clear(&self, base: u32, size: u32) -> bool
        requires { base + size < 2 ^ 32 }
        ensures { IsTrue result ↔ IsClear self.now base size }
    {
        let Some((start, id)) = self.live.range(..=base + size).next_back() else {
            return true;
        };
        let object = &self.table[*id as usize - 1];
        u64::from(*start) + u64::from(object.size) < u64::from(base)
    }

    /// The number of the one live object with `base <= address <= base + size`.
    pub fn at(&self, address: u32) -> Option<u32>
        ensures object { IsObjectAt self.now address result }
        ensures apart { AreApart self.now }
    {
        let Some((base, id)) = self.live.range(..=address).next_back() else {
            return None;
        };
        let object = &self.table[*id as usize - 1];
        if address - *base <= object.size {
            Some(*id)
        } else {
            None
        }
    }
}
