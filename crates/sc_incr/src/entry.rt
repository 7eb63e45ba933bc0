// An entry of the list with the index of its relocations.
ghost use Rattle.std.specs.Prelude.{◌≡◌, IfOk};
ghost use Rattle.sc_places.specs.Layout as layout;
ghost use Rattle.sc_incr.specs.Program.{retired};
ghost use Rattle.sc_incr.specs.Uses as spec;

use crate::uses::{Uses, index, positions};
use sc_base::{Key, NoMemory};
use sc_link::Placed;
use sc_places::{static_top, text_top};
use std::alloc::Global;
use std::marker::Model;

/// An entry of the list, seen as what `link` takes. It keeps its relocations by the keys that they name, and the addresses
/// behind all that it has placed.
#[derive(Drop)]
pub struct Entry {
    placed: Placed,
    uses: Uses,
    text_top: u64,
    static_top: u64,
}

impl Model for Entry {
    ghost use Rattle.sc_link.specs.declared.placed.Placed.{Placed};
    ghost use Rattle.std.specs.Prelude.{◌≡◌};
    ghost use Rattle.sc_places.specs.Layout as layout;
    ghost use Rattle.sc_incr.specs.Uses.{IsIndex};

    ghost Value = { Placed };

    ghost view = { λ e. e.placed };

    ghost invariant = { λ e. IsIndex e.placed.home e.placed.object e.uses × ((e.text_top ≡ layout.text_top e.placed) × (e.static_top ≡ layout.static_top e.placed)) };
}

impl Entry {
    /// An entry with its index.
    pub fn new(alloc: Global, placed: Placed) -> Result<Entry, NoMemory>
        ensures { IfOk result (λ entry. entry ≡ placed) }
    {
        let uses = index(alloc, &placed.home, placed.object.get())?;
        let text_top = text_top(&placed);
        let static_top = static_top(&placed);
        Ok(Entry {
            placed,
            uses,
            text_top,
            static_top,
        })
    }

    /// What is placed.
    pub fn placed(&self) -> &Placed
        ensures { result.now ≡ self.now }
    {
        &self.placed
    }

    /// The address behind its texts, 0 where none is placed.
    pub fn text_top(&self) -> u64
        ensures { result ≡ layout.text_top self.now }
    {
        self.text_top
    }

    /// The address behind its objects, 0 where it has none.
    pub fn static_top(&self) -> u64
        ensures { result ≡ layout.static_top self.now }
    {
        self.static_top
    }

    /// Makes the entry a former text.
    pub fn retire(&mut self)
        ensures { self.new ≡ retired self.old }
    {
        self.placed.retired = true;
    }

    /// The positions of the relocations that name a key.
    pub fn positions(&self, key: &Key) -> &[usize]
        ensures { result.now ≡ spec.uses_of self.now.home self.now.object key.now }
    {
        positions(&self.uses, key)
    }
}
