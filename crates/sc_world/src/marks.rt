// The stops that are set. Where they are many, whether one is at an event is found by a hash of it.
ghost use Rattle.std.specs.Prelude.{◌≡◌, ◌&&◌, List, IfOk, OnOk, Some, None};
ghost use Rattle.std.specs.List.{list_any};
ghost use Rattle.sc_words.specs.Stops as words;
ghost use Rattle.sc_words.specs.declared.stop.Event.TheVariants as event;
ghost use Rattle.sc_words.specs.declared.stop.StopAt.{StopAt as Stop};
ghost use Rattle.sc_world.specs.Marks as spec;

use indexmap::IndexSet;
use sc_base::{Key, Name, NoMemory};
use sc_words::StopAt;
use std::alloc::Global;
use std::marker::Model;

/// The most stops that are looked at one after another.
const FEW: usize = 16;

/// A line of a module.
#[derive(Clone, Copy, PartialEq, Eq, Hash)]
struct Line<'a> {
    home: &'a Name,
    line: u32,
}

/// A function behind its module, or an external one alone.
#[derive(Clone, Copy, PartialEq, Eq, Hash)]
struct Function<'a> {
    home: Option<&'a Name>,
    name: &'a Name,
}

/// The places at which stops are set.
#[derive(Drop)]
struct Places<'a> {
    lines: IndexSet<Line<'a>>,
    functions: IndexSet<Function<'a>>,
}

// One more stop.
fn mark<'a>(places: &mut Places<'a>, stop: &'a StopAt) -> Result<(), NoMemory>
    ensures { (before : List Stop) → spec.Finds places.old before → OnOk result (spec.Finds places.new (spec.with_one before stop.now)) }
{
    match stop {
        StopAt::AtLine(home, line) => {
            places.lines.insert(Line { home, line: *line })?;
        }
        StopAt::InFun(home, name) => {
            let home = home.as_ref();
            places.functions.insert(Function { home, name })?;
        }
    }
    Ok(())
}

// The places of all these stops.
fn marked<'a>(alloc: Global, stops: &'a [StopAt]) -> Result<Places<'a>, NoMemory>
    ensures { IfOk result (λ places. spec.Finds places stops.now) }
{
    let mut places = Places {
        lines: IndexSet::new(alloc),
        functions: IndexSet::new(alloc),
    };
    for stop in stops {
        mark(&mut places, stop)?;
    }
    Ok(places)
}

// The places of stops that are many, where memory is left for them.
fn places_of<'a>(alloc: Global, stops: &'a [StopAt]) -> Option<Places<'a>>
    ensures { spec.FindsAll result stops.now }
{
    if stops.len() <= FEW {
        return None;
    }
    match marked(alloc, stops) {
        Ok(places) => Some(places),
        Err(_) => None,
    }
}

// Whether a stop is set at this line.
fn is_at_line(stop: &StopAt, home: &Name, line: u32) -> bool
    ensures { result ≡ words.stops_at (event.At home.now line) stop.now }
{
    match stop {
        StopAt::InFun(_, _) => false,
        StopAt::AtLine(module, number) => *home == *module && line == *number,
    }
}

// Whether it is set at this function.
fn is_at_entry(stop: &StopAt, key: &Key, home: &Name) -> bool
    ensures { result ≡ words.stops_at (event.Enter key.now home.now) stop.now }
{
    match stop {
        StopAt::InFun(None, fun) => key.module.is_none() && key.name == *fun,
        StopAt::InFun(Some(module), fun) => *home == *module && key.name == *fun,
        StopAt::AtLine(_, _) => false,
    }
}

// Whether the places have this line.
fn has_line(places: &Places, home: &Name, line: u32) -> bool
    ensures { (stops : List Stop) → spec.Finds places.now stops → result ≡ words.is_matched stops (event.At home.now line) }
{
    places.lines.contains(&Line { home, line })
}

// Whether they have the function that a module defines.
fn has_behind<'a>(places: &Places, home: &'a Name, name: &'a Name) -> bool
    ensures { (stops : List Stop) → spec.Finds places.now stops → result ≡ list_any (spec.at_function (Some home.now) name.now) stops }
{
    let home = Some(home);
    places.functions.contains(&Function { home, name })
}

// Whether they have the external function.
fn has_alone(places: &Places, name: &Name) -> bool
    ensures { (stops : List Stop) → spec.Finds places.now stops → result ≡ list_any (spec.at_function None name.now) stops }
{
    places.functions.contains(&Function { home: None, name })
}

// Whether they have a function as an external one.
fn has_external(places: &Places, key: &Key) -> bool
    ensures { (stops : List Stop) → spec.Finds places.now stops → result ≡ (words.is_external key.now.«module» && list_any (spec.at_function None key.now.name) stops) }
{
    if key.module.is_some() {
        return false;
    }
    has_alone(places, &key.name)
}

// Whether they have a function, behind its module or as an external one.
fn has_function(places: &Places, key: &Key, home: &Name) -> bool
    ensures { (stops : List Stop) → spec.Finds places.now stops → result ≡ words.is_matched stops (event.Enter key.now home.now) }
{
    let behind = has_behind(places, home, &key.name);
    if behind {
        return true;
    }
    has_external(places, key)
}

/// The stops that are set, seen as the list of them.
#[derive(Drop)]
pub struct Marks<'a> {
    stops: &'a [StopAt],
    places: Option<Places<'a>>,
}

impl<'a> Model for Marks<'a> {
    ghost use Rattle.std.specs.Prelude.{List};
    ghost use Rattle.sc_words.specs.declared.stop.StopAt.{StopAt};
    ghost use Rattle.sc_world.specs.Marks.{FindsAll};

    ghost Value = { List StopAt };

    ghost view = { λ m. m.stops.now };

    ghost invariant = { λ m. FindsAll m.places m.stops.now };
}

impl<'a> Marks<'a> {
    /// These stops. Where no memory is left to find them by a hash, they are looked at one after another.
    pub fn new(alloc: Global, stops: &'a [StopAt]) -> Marks<'a>
        ensures { result ≡ stops.now }
    {
        Marks {
            stops,
            places: places_of(alloc, stops),
        }
    }

    /// Whether one is at a line of a module.
    pub fn at_line(&self, home: &Name, line: u32) -> bool
        ensures { result ≡ words.is_matched self.now (event.At home.now line) }
    {
        match &self.places {
            Some(places) => has_line(places, home, line),
            None => self.stops.iter().any(|stop| is_at_line(stop, home, line)),
        }
    }

    /// Whether one is at the entry of a function, which a module defines.
    pub fn at_entry(&self, key: &Key, home: &Name) -> bool
        ensures { result ≡ words.is_matched self.now (event.Enter key.now home.now) }
    {
        match &self.places {
            Some(places) => has_function(places, key, home),
            None => self.stops.iter().any(|stop| is_at_entry(stop, key, home)),
        }
    }
}
