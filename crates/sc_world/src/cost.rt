// What a step touches, and so costs (ANSI 3.3.2.2, 3.3.16.1, 3.5.7).
ghost use Rattle.std.specs.Prelude.{◌≡◌, List, Some};
ghost use Rattle.sc_meaning.specs.Outcomes as outcomes;
ghost use Rattle.sc_meaning.specs.World as worlds;
ghost use Rattle.sc_interp_machine.specs.Runs as runs;
ghost use Rattle.sc_interp_access.specs.Gives.{ending_of};
ghost use Rattle.sc_interp_world.specs.Outputs.{bytes_moved};
ghost use Rattle.sc_world.specs.Costs as spec;
ghost use Rattle.sc_world.specs.Standing.{state_of};
ghost use Rattle.sc_world.specs.Turns.{IsBefore};

use sc_interp::Going;
use sc_interp_access::Stop;
use sc_interp_world::World;

/// How a run stood before a step: whether a call was to be made, the units of work so far, and the bytes that births and copies of
/// structures touched.
#[derive(Clone, Copy)]
pub struct Before {
    pub calls: bool,
    pub work: u64,
    pub moved: u64,
}

fn is_call(going: &Going) -> bool
    ensures { (cs : List runs.Caller) (w : worlds.World) → result ≡ spec.is_call (state_of going.now cs w) }
{
    match going {
        Going::Runs(_, _, _, _) => false,
        Going::Makes(_, _, _, _) => true,
        Going::Answers(_) => false,
    }
}

fn is_back(going: &Going) -> bool
    ensures { (cs : List runs.Caller) (w : worlds.World) → result ≡ spec.is_back (state_of going.now cs w) }
{
    match going {
        Going::Runs(_, _, _, _) => false,
        Going::Makes(_, _, _, _) => false,
        Going::Answers(_) => true,
    }
}

/// How a run stands before a step.
pub fn noted(going: &Going, world: &World) -> Before
    ensures { (cs : List runs.Caller) → IsBefore result (state_of going.now cs world.now) }
{
    Before {
        calls: is_call(going),
        work: world.work_done(),
        moved: world.moved(),
    }
}

fn touched(in_library: bool, before: Before, ended: u64, world: &World) -> u64
    ensures { (v : worlds.World) → before.work ≡ worlds.work v.trail → before.moved ≡ bytes_moved v.trail → result ≡ spec.touched in_library v ended world.now }
{
    if in_library {
        world
            .work_done()
            .saturating_sub(before.work)
            .saturating_sub(ended)
    } else {
        world.moved().saturating_sub(before.moved)
    }
}

/// The bytes that a step touched behind which a run goes on.
pub fn touched_on(before: Before, going: &Going, world: &World) -> u64
    ensures { (s : runs.State) (cs : List runs.Caller) → IsBefore before s → result ≡ spec.bytes_touched s (state_of going.now cs world.now) }
{
    touched(before.calls && is_back(going), before, 0, world)
}

// The statements that end as a run ends so.
fn statements_ended(stop: &Stop, world: &World) -> u64
    ensures { (e : outcomes.Ending) → ending_of stop.now world.now ≡ Some e → result ≡ spec.statements_ended e }
{
    match stop {
        Stop::Exit(_) => world.begun(),
        Stop::NoRoom => 0,
        Stop::Undefined(_) => 0,
        Stop::StackFull(_) => 0,
        Stop::BirthLimit => 0,
    }
}

/// The bytes that a step touched in which a run ended.
pub fn touched_last(before: Before, stop: &Stop, world: &World) -> u64
    ensures { (s : runs.State) (e : outcomes.Ending) → IsBefore before s → ending_of stop.now world.now ≡ Some e → result ≡ spec.bytes_touched s (runs.Ends e) }
{
    touched(before.calls, before, statements_ended(stop, world), world)
}
