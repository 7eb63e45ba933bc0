// What a body keeps to find by name: how many static objects of a name there are.
ghost use Rattle.std.specs.Prelude.{◌≡◌, ℕ, List, [], OnOk, IfOk};
ghost use Rattle.sc_check_body.specs.Progress as spec;

use indexmap::IndexMap;
use sc_base::{Duplicate, Name, NoMemory};
use std::alloc::Global;
use std::marker::Model;

/// Names, each with how many objects of static storage duration it has named in a function, seen as the list of them in the order
/// of their first objects.
#[derive(Drop)]
pub struct Counts {
    numbers: IndexMap<Name, u32>,
}

impl Model for Counts {
    ghost use Rattle.std.specs.Prelude.{ℕ, List};

    ghost Value = { List (List ℕ × ℕ) };

    ghost view = { λ s. s.numbers.entries };
}

impl Counts {
    /// No names, which takes no memory.
    pub fn new(alloc: Global) -> Counts
        ensures { result ≡ [] }
    {
        Counts {
            numbers: IndexMap::new(alloc),
        }
    }

    /// How many objects a name has named.
    pub fn count(&self, name: &Name) -> u32
        ensures { result ≡ spec.count name.now self.now }
    {
        match self.numbers.get(name) {
            Some(count) => *count,
            None => 0,
        }
    }

    /// One more object of a name; the answer is how many there were.
    pub fn add(&mut self, alloc: Global, name: &Name) -> Result<u32, NoMemory>
        ensures count { IfOk result (λ n. n ≡ spec.count name.now self.old) }
        ensures one_more { OnOk result (self.new ≡ spec.counted name.now self.old) }
    {
        let count = self.count(name);
        let Some(next) = count.checked_add(1) else {
            return Err(NoMemory);
        };
        let name = name.copy(alloc)?;
        self.numbers.insert(name, next)?;
        Ok(count)
    }
}
