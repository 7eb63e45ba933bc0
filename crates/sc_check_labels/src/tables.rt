// What is found by name, by number or by value: the names of labels, where labels stand, and the values of a `switch`.
ghost use Rattle.std.specs.Prelude.{◌≡◌, [], ◌∷◌, ◌++◌, length, nat_eq, false, OnOk, IfOk};
ghost use Rattle.std.specs.List.{list_any};
ghost use Rattle.std.specs.Map.{lookup};
ghost use Rattle.indexmap.specs.IndexMap.{insert_entry};
ghost use Rattle.sc_check_labels.specs.Jumps as spec;

use indexmap::{IndexMap, IndexSet};
use sc_base::{Duplicate, Name, NoMemory};
use std::alloc::Global;
use std::marker::Model;

/// The names of a function's labels, seen as the list of them in the order in which they are first mentioned; the place of each is
/// its number.
#[derive(Drop)]
pub struct LabelNames {
    names: IndexSet<Name>,
}

impl Model for LabelNames {
    ghost use Rattle.std.specs.Prelude.{ℕ, List};

    ghost Value = { List (List ℕ) };

    ghost view = { λ s. s.names.keys };
}

impl LabelNames {
    /// No names, which takes no memory.
    pub fn new(alloc: Global) -> LabelNames
        ensures { result ≡ [] }
    {
        LabelNames {
            names: IndexSet::new(alloc),
        }
    }

    /// The number of a name, which is added where it is new.
    pub fn number(&mut self, alloc: Global, name: &Name) -> Result<u32, NoMemory>
        ensures number { IfOk result (λ n. n ≡ spec.number_in name.now self.old) }
        ensures added { OnOk result (self.new ≡ spec.with_name name.now self.old) }
    {
        let name = name.copy(alloc)?;
        let (number, _) = self.names.insert_full(name)?;
        match u32::try_from(number) {
            Ok(number) => Ok(number),
            Err(_) => Err(NoMemory),
        }
    }
}

/// The labels that label a statement, each with the block in whose list that stands, if it stands in one; seen as the list of them.
#[derive(Drop)]
pub struct LabelBlocks {
    blocks: IndexMap<u32, Option<u32>>,
}

impl Model for LabelBlocks {
    ghost use Rattle.std.specs.Prelude.{ℕ, List, Option};

    ghost Value = { List (ℕ × Option ℕ) };

    ghost view = { λ s. s.blocks.entries };
}

impl LabelBlocks {
    /// No labels, which takes no memory.
    pub fn new(alloc: Global) -> LabelBlocks
        ensures { result ≡ [] }
    {
        LabelBlocks {
            blocks: IndexMap::new(alloc),
        }
    }

    /// What is known of a label.
    pub fn find(&self, label: u32) -> Option<Option<u32>>
        ensures { result ≡ lookup (nat_eq label) self.now }
    {
        match self.blocks.get(&label) {
            Some(block) => Some(*block),
            None => None,
        }
    }

    /// One more label.
    pub fn put(&mut self, label: u32, block: Option<u32>) -> Result<(), NoMemory>
        ensures { OnOk result (self.new ≡ insert_entry nat_eq self.old label block) }
    {
        self.blocks.insert(label, block)?;
        Ok(())
    }
}

/// Values that differ, seen as the list of them in their order.
#[derive(Drop)]
pub struct Values {
    values: IndexSet<u32>,
}

impl Model for Values {
    ghost use Rattle.std.specs.Prelude.{ℕ, List};

    ghost Value = { List ℕ };

    ghost view = { λ s. s.values.keys };
}

impl Values {
    /// No values, which takes no memory.
    pub fn new(alloc: Global) -> Values
        ensures { result ≡ [] }
    {
        Values {
            values: IndexSet::new(alloc),
        }
    }

    /// How many there are.
    pub fn len(&self) -> usize
        ensures { result ≡ length self.now }
    {
        self.values.len()
    }

    /// Whether a value is among them.
    pub fn has(&self, value: u32) -> bool
        ensures { result ≡ list_any (nat_eq value) self.now }
    {
        self.values.contains(&value)
    }

    /// One more value, which is not there yet.
    pub fn push(&mut self, value: u32) -> Result<(), NoMemory>
        requires { list_any (nat_eq value) self.old ≡ false }
        ensures { OnOk result (self.new ≡ self.old ++ value ∷ []) }
    {
        self.values.insert(value)?;
        Ok(())
    }
}
