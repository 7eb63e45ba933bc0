// The objects as the meaning has them. Only proofs read them.
ghost use Rattle.std.specs.Prelude.{◌≡◌, List, []};
ghost use Rattle.std.specs.Borrow.{ftrue};
ghost use Rattle.sc_meaning.specs.World as spec;
ghost use Rattle.sc_mem_store.specs.Changes.{changed};

use crate::cell::Cell;
use sc_base::Kind;
use sc_meaning_values::Value;
use std::marker::Model;
use std::snapshot::Snapshot;

/// What changes the objects.
#[derive(Drop)]
pub enum Change {
    Birth(u32, Kind),
    Death(u32),
    Put(u32, u32, Snapshot<Cell>),
    Store(u32, u32, u8, Snapshot<Value>),
}

/// One change: an object of a size and kind is born; one dies; a byte is put into one at an offset, or so many
/// bytes of a value.
#[derive(Drop)]
pub struct Item {
    pub change: Change,
}

impl Model for Item {
    ghost use Rattle.sc_mem_store.specs.Changes.{item_of};
    ghost use Rattle.sc_meaning.specs.World as spec;

    ghost Value = { spec.Item };

    ghost view = { λ i. item_of i.change };
}

/// All objects that were born, the dead ones with the bytes that they had. It takes no room, and its functions do nothing
/// while a program runs.
#[derive(Drop)]
pub struct History {
    pub ghost objects: { List spec.Object },
}

impl Model for History {
    ghost also_owns = { λ _. ftrue };
}

impl History {
    /// No object is born.
    pub fn new() -> History
        ensures { result.objects ≡ [] }
    {
        History {}
    }

    /// The objects after a change.
    pub fn with(_before: &History, _item: &Item) -> History
        ensures { result.objects ≡ changed _before.now.objects _item.now }
    {
        History {}
    }
}
