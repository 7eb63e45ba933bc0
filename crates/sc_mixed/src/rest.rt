// Where a run rests.
ghost use Rattle.std.specs.Prelude.{◌≡◌};
ghost use Rattle.sc_mixed.specs.Goes as goes;
ghost use Rattle.sc_mixed.specs.Parts as parts;
ghost use Rattle.sc_mixed.specs.Standing as spec;
ghost use Rattle.sc_mixed.specs.declared.course.Course.TheVariants.{On};

use crate::calls::{Calls, Next};
use crate::course::Course;
use crate::ended::MixedEnd;
use sc_interp::{Going, Shown, status_of};
use sc_interp_access::Ended;
use sc_interp_world::World;
use sc_meaning_values::Answer;
use sc_world::{Halt, Want, halt_if, wanted};

// The status of an answer that no call waits for.
fn status_among(a: &Answer, calls: &Calls) -> Option<u32>
    ensures { result ≡ spec.status_among a.now calls.now.callers calls.now.lower }
{
    match calls.callers.top() {
        Some(_) => None,
        None => match calls.lower.top() {
            Some(_) => None,
            None => Some(status_of(a)),
        },
    }
}

fn status_in(going: &Going, calls: &Calls) -> Option<u32>
    ensures { result ≡ spec.status_in going.now calls.now }
{
    match going {
        Going::Runs(_, _, _, _) => None,
        Going::Makes(_, _, _, _) => None,
        Going::Answers(a) => status_among(a, calls),
    }
}

// The status of the answer with which a run is over: no call waits for it.
fn status_at(next: &Next, calls: &Calls) -> Option<u32>
    ensures { result ≡ spec.status_at next.now calls.now }
{
    match next {
        Next::Steps(going) => status_in(going, calls),
        Next::Executes => None,
        Next::Serves(_) => None,
    }
}

/// What halts the run where it stands, if anything does: what it shows, or that it is over.
#[tactic(auto, using(crate::proofs::Resting::event_halts, crate::proofs::Resting::end_halts))]
pub fn halts(want: &Want, next: &Next, shown: Shown, calls: &Calls, world: &World) -> Option<Halt>
    ensures { result ≡ goes.halts_in want.now calls.now world.now (On next.now shown) }
{
    match wanted(want, shown, world) {
        Some(halt) => Some(halt),
        None => match status_at(next, calls) {
            Some(_) => Some(Halt::Ended),
            None => None,
        },
    }
}

/// What ends a go where the run stands, if anything does: what halts it there, or that the turns were taken.
pub fn rests(
    want: &Want,
    took: u64,
    next: &Next,
    shown: Shown,
    calls: &Calls,
    world: &World,
) -> Option<Halt>
    ensures { result ≡ goes.rests_in want.now took calls.now world.now (On next.now shown) }
{
    match halts(want, next, shown, calls, world) {
        Some(halt) => Some(halt),
        None => halt_if(want.turns <= took, Halt::Paused(took)),
    }
}

// The answer of the entry ends the run with its status.
fn come_back(status: u32, world: &mut World) -> MixedEnd
    ensures { parts.ComesBackSo status world.old result world.new }
{
    match world.comes_back() {
        Ok(()) => MixedEnd::Meant(Ended::Exit(status)),
        Err(_) => MixedEnd::Meant(Ended::NoRoom),
    }
}

/// A run comes to rest: what was shown is looked at once; where the entry came back it is over.
pub fn closed(next: Next, calls: &Calls, world: &mut World) -> Course
    ensures { parts.ClosesSo (spec.status_at next calls.now) next world.old result world.new }
{
    match status_at(&next, calls) {
        Some(status) => {
            drop(next);
            Course::Over(come_back(status, world))
        }
        None => Course::On(next, Shown::Nothing),
    }
}
