// What a run shows, and the single things that change a world (ANSI 2.1.2.3).
ghost use Rattle.std.specs.Prelude.{◌≡◌, IfOk};
ghost use Rattle.sc_meaning.specs.World as spec;

use crate::object::{Born, Frame};
use sc_base::{Duplicate, Items, Key, Kind, Name, NoMemory};
use sc_meaning::Spot;
use sc_meaning_values::Value;
use sc_mem_store::Cell;
use sc_program::StaticId;
use std::alloc::Global;
use std::marker::Model;
use std::snapshot::Snapshot;

/// What is shown.
#[derive(Drop)]
pub enum Showing {
    Enter(Key, Name),
    Leave,
    At(Name, u32, u64),
    Out(u8),
}

/// An event: a function of a module is entered; one is left; a line of a module is reached, in the call with this
/// count; a byte is written.
#[derive(Drop)]
pub struct Event {
    pub showing: Showing,
}

impl Model for Event {
    ghost use Rattle.sc_interp_world.specs.Showings.{event_of};
    ghost use Rattle.sc_meaning.specs.World as spec;

    ghost Value = { spec.Event };

    ghost view = { λ e. event_of e.showing };
}

impl Event {
    /// A function of a module is entered.
    pub fn enter(key: Key, home: Name) -> Event
        ensures { result ≡ spec.Enter key home }
    {
        Event {
            showing: Showing::Enter(key, home),
        }
    }

    /// A function is left.
    pub fn leave() -> Event
        ensures { result ≡ spec.Leave }
    {
        Event {
            showing: Showing::Leave,
        }
    }

    /// A line of a module is reached, in the call with this count.
    pub fn at(home: Name, line: u32, enter: u64) -> Event
        ensures { result ≡ spec.At home line enter }
    {
        Event {
            showing: Showing::At(home, line, enter),
        }
    }

    /// A byte is written.
    pub fn out(byte: u8) -> Event
        ensures { result ≡ spec.Out byte }
    {
        Event {
            showing: Showing::Out(byte),
        }
    }
}

impl Duplicate for Event {
    fn copy(&self, alloc: Global) -> Result<Event, NoMemory> {
        match &self.showing {
            Showing::Enter(key, home) => entering(alloc, key, home),
            Showing::Leave => Ok(Event::leave()),
            Showing::At(home, line, enter) => Ok(Event::at(home.copy(alloc)?, *line, *enter)),
            Showing::Out(byte) => Ok(Event::out(*byte)),
        }
    }
}

fn entering(alloc: Global, key: &Key, home: &Name) -> Result<Event, NoMemory>
    ensures { IfOk result (λ e. e ≡ spec.Enter key.now home.now) }
{
    let key = key.copy(alloc)?;
    let home = home.copy(alloc)?;
    Ok(Event::enter(key, home))
}

/// What happens. What only the trail is told of is a snapshot, which takes no room.
#[derive(Drop)]
pub enum Change {
    Work(u32),
    Begin,
    End,
    GoesOut,
    ComesBack,
    Declares(u32),
    Happens(Event),
    Birth(u32, Kind, Snapshot<Spot>),
    Death(u32),
    Put(u32, u32, Snapshot<Items<Cell>>),
    Byte(u32, u32, Snapshot<Cell>),
    Store(u32, u32, u32, Snapshot<Value>),
    Copy(u32, u32, u32, u32, u32),
    TakeFree(u32),
    TakeNew(u64),
    Give(u32),
    Stack(u64),
    Read,
    Seed(u32),
    Push(Snapshot<Frame>),
    Pop,
    OpenBlock(Snapshot<Born>),
    CloseBlock,
    Name(StaticId, u32),
    Unname(StaticId),
}

/// One thing that happens in a run.
#[derive(Drop)]
pub struct Item {
    pub change: Change,
}

impl Model for Item {
    ghost use Rattle.sc_interp_world.specs.Happenings.{item_of};
    ghost use Rattle.sc_meaning.specs.World as spec;

    ghost Value = { spec.Item };

    ghost view = { λ i. item_of i.change };
}
