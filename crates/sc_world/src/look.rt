// Whether a run halts where it stands.
ghost use Rattle.std.specs.Prelude.{◌≡◌};
ghost use Rattle.sc_world.specs.Wants as spec;

use crate::halt::Halt;
use crate::marks::Marks;
use sc_interp::Shown;
use sc_interp_world::{Frame, World};
use sc_words::Walk;
use std::marker::Model;

/// What a go halts at: the stops that are set, and the walk, where `since` calls were entered as the go began; and the turns that it may
/// take, where the run had taken so many `before`.
#[derive(Drop)]
pub struct Want<'a> {
    pub stops: Marks<'a>,
    pub walk: Walk,
    pub since: u64,
    pub turns: u64,
    pub before: u64,
}

impl<'a> Model for Want<'a> {
    ghost use Rattle.sc_world.specs.Wants as spec;

    ghost Value = { spec.Want };

    ghost view = { λ w. record { stops = w.stops; walk = w.walk; since = w.since; turns = w.turns; before = w.before } };
}

// Whether a walk halts at a line of a call.
fn walks(walk: Walk, since: u64, frame: &Frame) -> bool
    ensures { result ≡ spec.walks walk since frame.now }
{
    match walk {
        Walk::Cont => false,
        Walk::Step => true,
        Walk::Next => frame.enter <= since,
    }
}

/// A halt where there is a reason for it.
pub fn halt_if(here: bool, halt: Halt) -> Option<Halt>
    ensures { result ≡ spec.halt_if here halt }
{
    if here { Some(halt) } else { None }
}

// Whether a line that was reached is wanted.
fn line_wanted(want: &Want, line: u32, frame: &Frame) -> Option<Halt>
    ensures { result ≡ spec.line_wanted want.now line frame.now }
{
    let stops_here = want.stops.at_line(&frame.home, line);
    let halts_here = stops_here || walks(want.walk, want.since, frame);
    halt_if(halts_here, Halt::AtLine)
}

// Whether a function that was entered is wanted.
fn entry_wanted(want: &Want, frame: &Frame) -> Option<Halt>
    ensures { result ≡ spec.entry_wanted want.now frame.now }
{
    let stops_here = want.stops.at_entry(&frame.key, &frame.home);
    halt_if(stops_here, Halt::Entered)
}

/// Whether what was shown, in the innermost call, halts the run. Where nothing was shown, no stop is looked at.
pub fn wanted(want: &Want, shown: Shown, world: &World) -> Option<Halt>
    ensures { result ≡ spec.wanted want.now shown world.now.frames }
{
    match shown {
        Shown::Nothing => None,
        Shown::Line(line) => match world.innermost() {
            Some(frame) => line_wanted(want, line, frame),
            None => None,
        },
        Shown::Entered => match world.innermost() {
            Some(frame) => entry_wanted(want, frame),
            None => None,
        },
    }
}
