// Where runs stop.
ghost use Rattle.std.specs.Prelude.{◌≡◌, IfOk};
ghost use Rattle.sc_words.specs.Stops.{is_matched, stops_at};

use sc_base::{Duplicate, Key, Name, NoMemory};
use std::alloc::Global;

/// A place at which runs stop.
#[derive(Debug, Drop, PartialEq, Eq)]
pub enum StopAt {
    /// The entry of a function: the external one, or the one that the module defines.
    InFun(Option<Name>, Name),
    /// The line of a module.
    AtLine(Name, u32),
}

impl Duplicate for StopAt {
    fn copy(&self, alloc: Global) -> Result<StopAt, NoMemory> {
        match self {
            StopAt::InFun(module, fun) => {
                let module = copy_of(alloc, module)?;
                let fun = fun.copy(alloc)?;
                Ok(StopAt::InFun(module, fun))
            }
            StopAt::AtLine(module, line) => {
                let module = module.copy(alloc)?;
                Ok(StopAt::AtLine(module, *line))
            }
        }
    }
}

fn copy_of(alloc: Global, name: &Option<Name>) -> Result<Option<Name>, NoMemory>
    ensures { IfOk result (λ copy. copy ≡ name.now) }
{
    match name {
        Some(name) => {
            let copy = name.copy(alloc)?;
            Ok(Some(copy))
        }
        None => Ok(None),
    }
}

/// How far a run goes on: to the next stop, to the next line, or to the next line of a call that is active already.
#[derive(Clone, Copy, Debug, PartialEq, Eq)]
pub enum Walk {
    Cont,
    Step,
    Next,
}

/// What a run comes to.
#[derive(Debug, Drop, PartialEq, Eq)]
pub enum Event {
    /// The entry of a function, with the module that defines it.
    Enter(Key, Name),
    /// A line of a module.
    At(Name, u32),
}

/// Whether one of the stops is at the event.
pub fn matched(stops: &[StopAt], event: &Event) -> bool
    ensures { result ≡ is_matched stops.now event.now }
{
    stops.iter().any(|stop| stops_at(event, stop))
}

fn stops_at(event: &Event, stop: &StopAt) -> bool
    ensures { result ≡ stops_at event.now stop.now }
{
    match (event, stop) {
        (Event::Enter(key, _), StopAt::InFun(None, fun)) => {
            key.module.is_none() && key.name == *fun
        }
        (Event::Enter(key, home), StopAt::InFun(Some(module), fun)) => {
            home == module && key.name == *fun
        }
        (Event::Enter(..), StopAt::AtLine(..)) => false,
        (Event::At(..), StopAt::InFun(..)) => false,
        (Event::At(home, line), StopAt::AtLine(module, number)) => {
            home == module && *line == *number
        }
    }
}
