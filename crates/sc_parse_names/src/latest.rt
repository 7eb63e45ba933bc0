// What each name in scope was last declared as.
ghost use Rattle.std.specs.Prelude.{◌≡◌, [], ◌∷◌, ◌++◌, drop, OnOk, OnErr};
ghost use Rattle.sc_parse_names.specs.Latest as spec;

use crate::scopes::Entry;
use indexmap::IndexMap;
use sc_base::{Bytes, Duplicate, Name, NoMemory, Stack};
use std::alloc::Global;
use std::marker::Model;

/// The names of all scopes, seen as the list of them, the latest first, each with whether a typedef declares it. A name is
/// found in one step, however many there are.
#[derive(Drop)]
pub struct Latest {
    rows: Stack<(Bytes, bool)>,
    hidden: Stack<Option<bool>>,
    found: IndexMap<Bytes, bool>,
}

impl Model for Latest {
    ghost use Rattle.std.specs.Prelude.{ℕ, Bool, List};
    ghost use Rattle.std.specs.Str.{bytes_eq};
    ghost use Rattle.indexmap.specs.IndexMap.{get};
    ghost use Rattle.sc_parse_names.specs.Latest.{IsKept};

    ghost Value = { List (List ℕ × Bool) };

    ghost view = { λ s. s.rows };

    ghost invariant = { λ s. IsKept s.rows s.hidden (get bytes_eq s.found) };
}

impl Latest {
    /// No name, which takes no memory.
    pub fn new(alloc: Global) -> Latest
        ensures { result ≡ [] }
    {
        Latest {
            rows: Stack::new(alloc),
            hidden: Stack::new(alloc),
            found: IndexMap::new(alloc),
        }
    }

    /// Whether the latest declaration of the name is a typedef; nothing where it has none.
    pub fn find(&self, name: &Bytes) -> Option<bool>
        ensures { result ≡ spec.latest name.now self.now }
    {
        self.found.get(name).copied()
    }

    /// One more name. Where memory runs out nothing changes.
    pub fn declare(&mut self, alloc: Global, name: &Name, typedef: bool) -> Result<(), NoMemory>
        ensures ok { OnOk result (self.new ≡ (name.now, typedef) ∷ self.old) }
        ensures err { OnErr result (self.new ≡ self.old) }
    {
        let row = name.as_bytes().copy(alloc)?;
        let key = name.as_bytes().copy(alloc)?;
        let hidden = self.found.get(&key).copied();
        self.hidden.push(hidden)?;
        match self.rows.push((row, typedef)) {
            Ok(()) => {}
            Err(_) => {
                self.hidden.pop();
                return Err(NoMemory);
            }
        }
        match self.found.insert(key, typedef) {
            Ok(_) => Ok(()),
            Err(_) => {
                self.rows.pop();
                self.hidden.pop();
                Err(NoMemory)
            }
        }
    }

    /// Takes the latest name away.
    fn forget(&mut self)
        ensures { self.new ≡ drop 1 self.old }
    {
        let row = self.rows.pop();
        let hidden = self.hidden.pop();
        match row {
            Some((name, _)) => match hidden {
                Some(Some(typedef)) => match self.found.insert(name, typedef) {
                    Ok(_) => {}
                    Err(_) => unreachable!(),
                },
                Some(None) | None => {
                    self.found.swap_remove(&name);
                }
            },
            None => {}
        }
    }

    /// Takes so many of the latest names away.
    pub fn leave(&mut self, count: usize)
        ensures { self.new ≡ drop count self.old }
    {
        let mut left = count;
        while left > 0 {
            self.forget();
            left -= 1;
        }
    }

    /// The names of a scope, in order. Where memory runs out nothing changes.
    pub fn declare_all(&mut self, alloc: Global, scope: &[Entry]) -> Result<(), NoMemory>
        ensures ok { OnOk result (self.new ≡ spec.rows_of scope.now self.old) }
        ensures err { OnErr result (self.new ≡ self.old) }
    {
        for (done, entry) in scope.iter().enumerate() {
            match self.declare(alloc, &entry.name, entry.typedef) {
                Ok(()) => {}
                Err(_) => {
                    self.leave(done);
                    return Err(NoMemory);
                }
            }
        }
        Ok(())
    }
}
