// Which commands are refused before they are carried out.
ghost use Rattle.std.specs.Prelude.{◌≡◌};
ghost use Rattle.sc_session.specs.Modules.{texts};
ghost use Rattle.sc_session.specs.States as spec;

use crate::present::{Present, is_present};
use crate::state::State;
use crate::stops::{Stop, has_stop};
use sc_base::Name;
use sc_mixed::MixedRun;
use sc_words::{Denied, StopAt};

/// Why the modules cannot be changed.
fn changing(state: &State) -> Option<Denied>
    ensures { result ≡ spec.changing state.now }
{
    match state {
        State::Idle => None,
        State::Stopped(_) => None,
        State::Paused(_) => Some(Denied::NotAtStop),
        State::StoppedMixed(_) => None,
        State::PausedMixed(_) => Some(Denied::NotAtStop),
        State::Ended => None,
    }
}

/// Why no run can begin.
pub fn starting(state: &State) -> Option<Denied>
    ensures { result ≡ spec.starting state.now }
{
    match state {
        State::Idle => None,
        State::Stopped(_) => Some(Denied::RunActive),
        State::Paused(_) => Some(Denied::RunActive),
        State::StoppedMixed(_) => Some(Denied::RunActive),
        State::PausedMixed(_) => Some(Denied::RunActive),
        State::Ended => None,
    }
}

// Why no stop can be set or taken away.
fn marking(state: &State) -> Option<Denied>
    ensures { result ≡ spec.marking state.now }
{
    match state {
        State::Idle => None,
        State::Stopped(_) => None,
        State::Paused(_) => Some(Denied::NotAtStop),
        State::StoppedMixed(_) => None,
        State::PausedMixed(_) => Some(Denied::NotAtStop),
        State::Ended => None,
    }
}

/// Why a run can neither go to a line nor be looked at.
pub fn stepping(state: &State) -> Option<Denied>
    ensures { result ≡ spec.stepping state.now }
{
    match state {
        State::Idle => Some(Denied::NoRun),
        State::Stopped(_) => None,
        State::Paused(_) => Some(Denied::NotAtStop),
        State::StoppedMixed(_) => None,
        State::PausedMixed(_) => Some(Denied::NotAtStop),
        State::Ended => Some(Denied::NotAtStop),
    }
}

/// Why a run cannot go on.
pub fn continuing(state: &State) -> Option<Denied>
    ensures { result ≡ spec.continuing state.now }
{
    match state {
        State::Idle => Some(Denied::NoRun),
        State::Stopped(_) => None,
        State::Paused(_) => None,
        State::StoppedMixed(_) => None,
        State::PausedMixed(_) => None,
        State::Ended => Some(Denied::NotAtStop),
    }
}

// Why no instruction of a run of both forms can be carried out.
fn if_not_object(run: &MixedRun) -> Option<Denied>
    ensures { result ≡ spec.if_not_object run.now.world.frames }
{
    if run.in_object() {
        None
    } else {
        Some(Denied::NotObject)
    }
}

/// Why no instruction can be carried out.
pub fn instructing(state: &State) -> Option<Denied>
    ensures { result ≡ spec.instructing state.now }
{
    match state {
        State::Idle => Some(Denied::NoRun),
        State::Stopped(_) => Some(Denied::NotObject),
        State::Paused(_) => Some(Denied::NotObject),
        State::StoppedMixed(run) => if_not_object(run),
        State::PausedMixed(run) => if_not_object(run),
        State::Ended => Some(Denied::NotAtStop),
    }
}

/// Why the machine cannot be looked at.
pub fn machining(state: &State) -> Option<Denied>
    ensures { result ≡ spec.machining state.now }
{
    match state {
        State::Idle => Some(Denied::NoRun),
        State::Stopped(_) => None,
        State::Paused(_) => None,
        State::StoppedMixed(_) => None,
        State::PausedMixed(_) => None,
        State::Ended => None,
    }
}

/// Why there is no probe of this number, of so many, if there is none.
pub fn if_no_probe(k: u32, probes: usize) -> Option<Denied>
    ensures { result ≡ spec.if_no_probe k probes }
{
    if (k as usize) < probes {
        None
    } else {
        Some(Denied::NoProbe(k))
    }
}

/// Why a probe cannot be dropped, if it cannot: the first never is.
pub fn if_not_droppable(k: u32, probes: usize) -> Option<Denied>
    ensures { result ≡ spec.if_not_droppable k probes }
{
    if 0 < k && (k as usize) < probes {
        None
    } else {
        Some(Denied::NoProbe(k))
    }
}

fn if_present(name: &Name, modules: &[Present]) -> Option<Denied>
    ensures { result ≡ spec.if_present name.now (texts modules.now) }
{
    if is_present(name, modules) {
        Some(Denied::ModuleThere)
    } else {
        None
    }
}

/// Whether a module that has to be there is absent.
pub fn if_absent(name: &Name, modules: &[Present]) -> Option<Denied>
    ensures { result ≡ spec.if_absent name.now (texts modules.now) }
{
    if is_present(name, modules) {
        None
    } else {
        Some(Denied::NoModule)
    }
}

// A place may name a module.
fn if_nowhere(place: &StopAt, modules: &[Present]) -> Option<Denied>
    ensures { result ≡ spec.if_nowhere place.now (texts modules.now) }
{
    match place {
        StopAt::InFun(None, _) => None,
        StopAt::InFun(Some(home), _) => if_absent(home, modules),
        StopAt::AtLine(home, _) => if_absent(home, modules),
    }
}

fn if_unset(k: u32, stops: &[Stop]) -> Option<Denied>
    ensures { result ≡ spec.if_unset k stops.now }
{
    if has_stop(k, stops) {
        None
    } else {
        Some(Denied::NoStop(k))
    }
}

/// Why `load` is refused.
pub fn loading(state: &State, name: &Name, modules: &[Present]) -> Option<Denied>
    ensures { result ≡ spec.or_else (spec.changing state.now) (spec.if_present name.now (texts modules.now)) }
{
    match changing(state) {
        Some(denied) => Some(denied),
        None => if_present(name, modules),
    }
}

/// Why `unload`, `swap` and `edit` are refused before a file is looked at.
pub fn replacing(state: &State, name: &Name, modules: &[Present]) -> Option<Denied>
    ensures { result ≡ spec.or_else (spec.changing state.now) (spec.if_absent name.now (texts modules.now)) }
{
    match changing(state) {
        Some(denied) => Some(denied),
        None => if_absent(name, modules),
    }
}

/// Why `eval` is refused before its line is looked at.
pub fn valuing(state: &State, name: &Name, modules: &[Present]) -> Option<Denied>
    ensures { result ≡ spec.or_else (spec.starting state.now) (spec.if_absent name.now (texts modules.now)) }
{
    match starting(state) {
        Some(denied) => Some(denied),
        None => if_absent(name, modules),
    }
}

/// Why `stop` is refused.
pub fn setting(state: &State, place: &StopAt, modules: &[Present]) -> Option<Denied>
    ensures { result ≡ spec.or_else (spec.marking state.now) (spec.if_nowhere place.now (texts modules.now)) }
{
    match marking(state) {
        Some(denied) => Some(denied),
        None => if_nowhere(place, modules),
    }
}

/// Why `delete` is refused.
pub fn deleting(state: &State, k: u32, stops: &[Stop]) -> Option<Denied>
    ensures { result ≡ spec.or_else (spec.marking state.now) (spec.if_unset k stops.now) }
{
    match marking(state) {
        Some(denied) => Some(denied),
        None => if_unset(k, stops),
    }
}
