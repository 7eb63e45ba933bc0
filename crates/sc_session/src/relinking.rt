// A run that stands at a stop goes over to another image.
ghost use Rattle.std.specs.Prelude.{◌≡◌, ◌+◌, [], false, drop, slice_get, IfErr, IfOk, MatchOption, MatchResult, None, OnOk, Some};
ghost use Rattle.sc_image.specs.Running as running;
ghost use Rattle.sc_session_forms.specs.Forms.{functions_by};
ghost use Rattle.sc_session.specs.Mixing as spec;
ghost use Rattle.sc_session.specs.Placing as placing;

use crate::linking::ImageFault;
use crate::placing::placed_within;
use crate::present::texts_of;
use crate::session::Session;
use crate::state::{State, put_state};
use sc_base::{Items, Key, NoMemory};
use sc_image::Placements;
use sc_isa_image::Image;
use sc_mixed::take_over;
use sc_session_forms::{are_sources, functions_by};
use std::alloc::Global;
use std::mem;

/// What an image is for: the functions by their numbers, and where the modules of each version are placed.
#[derive(Drop)]
pub struct Plan {
    pub functions: Items<Key>,
    pub placed: Items<Placements>,
}

impl Plan {
    /// Nothing is placed.
    pub fn nowhere(alloc: Global) -> Plan
        ensures { result ≡ record { functions = []; placed = [] } }
    {
        Plan {
            functions: Items::new(alloc),
            placed: Items::new(alloc),
        }
    }
}

// Whether a run in a state has to go over to an image, where all modules are interpreted or not.
fn needs_image(state: &State, sources: bool) -> bool
    ensures { result ≡ spec.needs_image sources state.now }
{
    match state {
        State::Stopped(_) => !sources,
        State::StoppedMixed(_) => true,
        State::Idle => false,
        State::Paused(_) => false,
        State::PausedMixed(_) => false,
        State::Ended => false,
    }
}

// A state whose run goes over to this image.
fn gone_over(alloc: Global, state: State, image: Image) -> State
    ensures { spec.Relinks (λ i. i ≡ image) false state result }
{
    match state {
        State::StoppedMixed(run) => {
            let mut run = run;
            run.relink(image);
            State::StoppedMixed(run)
        }
        State::Stopped(run) => State::StoppedMixed(take_over(alloc, run, image)),
        State::Idle => {
            drop(image);
            State::Idle
        }
        State::Paused(run) => {
            drop(image);
            State::Paused(run)
        }
        State::PausedMixed(run) => {
            drop(image);
            State::PausedMixed(run)
        }
        State::Ended => {
            drop(image);
            State::Ended
        }
    }
}

/// The entries of the versions behind the one with a number.
pub fn placed_from(placed: &[Placements], come: usize) -> &[Placements]
    ensures { result.now ≡ drop (come + 1) placed.now }
{
    if come >= placed.len() {
        return &[];
    }
    let (_, later) = placed.split_at(come + 1);
    later
}

// The image of what is placed behind the last version, which has room: that the linker finds none cannot be.
fn last_image(alloc: Global, placed: &[Placements], functions: &[Key]) -> Result<Image, NoMemory>
    ensures { IfOk result (placing.IsLast placed.now functions.now) }
{
    let Some(last) = placed.last() else {
        return Err(NoMemory);
    };
    match last.image(alloc, functions) {
        Ok(image) => Ok(image),
        Err(_) => Err(NoMemory),
    }
}

impl Session {
    /// What the image of a run is for that stays, if no area lacks room.
    pub(crate) fn plan(&self, alloc: Global) -> Result<Plan, ImageFault>
        ensures ok { IfOk result (λ plan. plan ≡ placing.plan_of self.now) }
        ensures room { OnOk result (running.AreWithin (placing.placed_over self.now.past self.now.modules) (functions_by self.now.numbers)) }
        ensures short { IfErr result (placing.IsLacking (running.IsOver (placing.placed_over self.now.past self.now.modules) (functions_by self.now.numbers))) }
    {
        let past = self.past.as_slice();
        let modules = self.modules.as_slice();
        let Ok(functions) = functions_by(alloc, &self.numbers) else {
            return Err(ImageFault::NoMemory);
        };
        match placed_within(alloc, past, modules, functions.as_slice()) {
            Ok(placed) => Ok(Plan { functions, placed }),
            Err(fault) => Err(fault),
        }
    }

    // A run that stays, and needs an image, goes over to that of the present modules.
    pub(crate) fn relink(&mut self, alloc: Global) -> Result<(), ImageFault>
        ensures { MatchResult result (λ _. spec.Becomes self.old self.new) (λ f. spec.IsUnlinked self.old f × (self.new ≡ self.old)) }
    {
        let Ok(texts) = texts_of(alloc, self.modules.as_slice()) else {
            return Err(ImageFault::NoMemory);
        };
        if needs_image(&self.state, are_sources(texts.as_slice())) {
            self.relink_planned(alloc)
        } else {
            Ok(())
        }
    }

    fn relink_planned(&mut self, alloc: Global) -> Result<(), ImageFault>
        ensures { MatchResult result (λ _. spec.BecomesBy false self.old self.new) (λ f. placing.IsLacking (running.IsOver (placing.placed_over self.old.past self.old.modules) (functions_by self.old.numbers)) f × (self.new ≡ self.old)) }
    {
        let plan = match self.plan(alloc) {
            Ok(plan) => plan,
            Err(fault) => return Err(fault),
        };
        match last_image(alloc, plan.placed.as_slice(), plan.functions.as_slice()) {
            Ok(image) => {
                self.go_over(alloc, image);
                Ok(())
            }
            Err(_) => Err(ImageFault::NoMemory),
        }
    }

    fn go_over(&mut self, alloc: Global, image: Image)
        ensures { spec.BecomesOver (λ i. i ≡ image) false self.old self.new }
    {
        let state = mem::replace(&mut self.state, State::Idle);
        let over = gone_over(alloc, state, image);
        put_state(&mut self.state, over);
    }
}
