// How a run stands in a session.
ghost use Rattle.std.specs.Prelude.{◌≡◌};
ghost use Rattle.sc_session.specs.Changing as spec;

use sc_mixed::MixedRun;
use sc_world::Run;
use std::mem;

/// No run; one that stopped at a function or a line; one whose turns were used up; the same of a run of both forms; or one that
/// ended.
#[derive(Drop)]
pub enum State {
    Idle,
    Stopped(Run),
    Paused(Run),
    StoppedMixed(MixedRun),
    PausedMixed(MixedRun),
    Ended,
}

/// Whether no run goes on.
pub fn is_over(state: &State) -> bool
    ensures { result ≡ spec.is_over state.now }
{
    match state {
        State::Idle => true,
        State::Ended => true,
        State::Stopped(_) => false,
        State::Paused(_) => false,
        State::StoppedMixed(_) => false,
        State::PausedMixed(_) => false,
    }
}

/// Puts a state in the place of another, which is let go.
pub fn put_state(place: &mut State, state: State)
    ensures { place.new ≡ state }
{
    drop(mem::replace(place, state));
}
