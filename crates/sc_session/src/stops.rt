// The stops of a session.
ghost use Rattle.std.specs.Prelude.{◌≡◌, ◌++◌, ◌∷◌, [], not, IfOk, OnOk, OnErr};
ghost use Rattle.std.specs.List.{filter, list_any};
ghost use Rattle.sc_session.specs.States.{is_numbered};
ghost use Rattle.sc_session.specs.Stopping as spec;

use sc_base::{Duplicate, Items, NoMemory};
use sc_words::StopAt;
use std::alloc::Global;

/// A stop, with the number that it got when it was set.
#[derive(Drop)]
pub struct Stop {
    pub number: u32,
    pub place: StopAt,
}

/// Whether a stop has this number.
pub fn is_numbered(k: u32, s: &Stop) -> bool
    ensures { result ≡ is_numbered k s.now }
{
    s.number == k
}

/// Whether there is a stop with this number.
pub fn has_stop(k: u32, stops: &[Stop]) -> bool
    ensures { result ≡ list_any (is_numbered k) stops.now }
{
    stops.iter().any(|s| is_numbered(k, s))
}

/// Puts a stop behind the others. After want of memory they are as before.
pub fn put_stop(stops: &mut Vec<Stop>, number: u32, place: StopAt) -> Result<(), NoMemory>
    ensures ok { OnOk result (stops.new.items ≡ stops.old.items ++ record { number = number; place = place } ∷ []) }
    ensures err { OnErr result (stops.new.items ≡ stops.old.items) }
{
    stops.push(Stop { number, place })?;
    Ok(())
}

/// Takes the stop with this number away.
pub fn delete_stop(stops: &mut Vec<Stop>, k: u32)
    ensures { stops.new.items ≡ filter (λ s. not (is_numbered k s)) stops.old.items }
{
    stops.retain(|s| !is_numbered(k, s));
}

/// Where the stops are.
pub fn places(alloc: Global, stops: &[Stop]) -> Result<Items<StopAt>, NoMemory>
    ensures { IfOk result (λ places. places ≡ spec.places stops.now) }
{
    let mut places = Items::new(alloc);
    for s in stops {
        places.push(s.place.copy(alloc)?)?;
    }
    Ok(places)
}
