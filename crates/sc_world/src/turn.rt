// Turns one after another, up to a place where a go ends.
ghost use Rattle.std.specs.Prelude.{◌≡◌, ◌≤◌, Err, IfOk, List, Some, length};
ghost use Rattle.sc_meaning.specs.Outcomes as outcomes;
ghost use Rattle.sc_meaning.specs.World as worlds;
ghost use Rattle.sc_interp_machine.specs.Runs as runs;
ghost use Rattle.sc_interp.specs.Steps as course;
ghost use Rattle.sc_interp.specs.declared.stepped.Shown as showing;
ghost use Rattle.sc_interp.specs.declared.stepped.Shown.TheVariants.{Nothing};
ghost use Rattle.sc_interp_access.specs.Gives.{ending_of};
ghost use Rattle.sc_interp_world.specs.Outputs.{output};
ghost use Rattle.sc_outside.specs.Causes.{Rose};
ghost use Rattle.sc_world.specs.Goes as goes;
ghost use Rattle.sc_world.specs.Standing.{state_of};
ghost use Rattle.sc_world.specs.Turns.{Comes, IsBefore, Onward, PostsTo, WaitsFew, standing_at};
ghost use Rattle.sc_world.specs.Wants as spec;
ghost use Rattle.sc_world.specs.declared.post.Unsent.TheVariants as unsent;

use crate::cost::{Before, noted, touched_last, touched_on};
use crate::count::{Count, counted};
use crate::halt::Halt;
use crate::look::{Want, halt_if, wanted};
use crate::post::{Unsent, post};
use sc_base::Stack;
use sc_core_held::Text;
use sc_interp::{Caller, Going, Shown, step_run};
use sc_interp_access::Stop;
use sc_interp_world::World;
use sc_outside::Sink;

// Whether the run is over: no caller waits for its answer.
fn is_over(going: &Going, callers: &Stack<Caller>) -> bool
    ensures { (w : worlds.World) → result ≡ course.is_over (state_of going.now callers.now w) }
{
    match going {
        Going::Answers(_) => callers.is_empty(),
        Going::Runs(_, _, _, _) => false,
        Going::Makes(_, _, _, _) => false,
    }
}

fn else_over(halt: Option<Halt>, over: bool) -> Option<Halt>
    ensures { result ≡ spec.else_over halt over }
{
    match halt {
        Some(halt) => Some(halt),
        None => halt_if(over, Halt::Ended),
    }
}

fn else_paused(halt: Option<Halt>, turns: u64, took: u64) -> Option<Halt>
    ensures { result ≡ spec.else_paused halt turns took }
{
    match halt {
        Some(here) => Some(here),
        None => halt_if(turns <= took, Halt::Paused(took)),
    }
}

// What ends a go where the run stands, if anything does.
#[tactic(auto, using(crate::proofs::Courses::rests_there))]
fn rests(
    want: &Want,
    going: &Going,
    shown: Shown,
    callers: &Stack<Caller>,
    count: Count,
    world: &World,
) -> Option<Halt>
    ensures { result ≡ spec.rests want.now (standing_at (state_of going.now callers.now world.now) shown count) }
{
    let event = wanted(want, shown, world);
    let halt = else_over(event, is_over(going, callers));
    else_paused(halt, want.turns, count.turns.saturating_sub(want.before))
}

// A step behind which the run goes on is counted.
fn went_on(
    shown: Shown,
    before: Before,
    going: &Going,
    count: &mut Count,
    world: &World,
) -> Result<Shown, Stop>
    ensures { (s : runs.State) (x : showing.Shown) (cs : List runs.Caller) → IsBefore before s → Onward (goes.moved_on (standing_at s x count.old) (state_of going.now cs world.now) shown) result going.now cs world.now count.new }
{
    match counted(*count, touched_on(before, going, world)) {
        Ok(next) => {
            *count = next;
            Ok(shown)
        }
        Err(_) => Err(Stop::NoRoom),
    }
}

// A step in which the run ended is counted.
fn ended(stop: Stop, before: Before, count: &mut Count, world: &World) -> Stop
    ensures same { (e : outcomes.Ending) → ending_of result world.now ≡ Some e → ending_of stop world.now ≡ Some e }
    ensures counted { (s : runs.State) (x : showing.Shown) (e : outcomes.Ending) → IsBefore before s → ending_of result world.now ≡ Some e → goes.moved_on (standing_at s x count.old) (runs.Ends e) Nothing ≡ standing_at (runs.Ends e) Nothing count.new }
{
    match counted(*count, touched_last(before, &stop, world)) {
        Ok(next) => {
            *count = next;
            stop
        }
        Err(_) => {
            drop(stop);
            Stop::NoRoom
        }
    }
}

// One step of the machine, with its cost.
fn onward(
    texts: &[Text],
    going: &mut Going,
    callers: &mut Stack<Caller>,
    count: &mut Count,
    world: &mut World,
) -> Result<Shown, Stop>
    ensures { (x : showing.Shown) → Onward (goes.stepped texts.now (standing_at (state_of going.old callers.old world.old) x count.old)) result going.new callers.new world.new count.new }
{
    let before = noted(going, world);
    match step_run(texts, going, callers, world) {
        Ok(shown) => went_on(shown, before, going, count, world),
        Err(stop) => Err(ended(stop, before, count, world)),
    }
}

/// What turns come to: a place where a go ends, or how the run ended in them, but for an end by the answer of `main`, with which it
/// rests.
#[derive(Drop)]
pub enum Turned {
    Rests(Halt),
    Over(Stop),
}

/// Turns one after another, up to a place that halts the run, or where the turns were taken. Behind each what the program wrote is
/// posted where it is much.
///
/// # Errors
///
/// `Unsent` where it could not be written.
pub fn turns_taken<K: Sink>(
    texts: &[Text],
    want: &Want,
    first: Shown,
    going: &mut Going,
    callers: &mut Stack<Caller>,
    count: &mut Count,
    world: &mut World,
    sent: &mut usize,
    out: &mut K,
) -> Result<Turned, Unsent>
    ensures comes { IfOk result (λ turned. Comes texts.now want.now (standing_at (state_of going.old callers.old world.old) first count.old) turned going.new callers.new world.new count.new) }
    ensures sends { sent.old ≡ length (output world.old.trail) → PostsTo (K.written out.old) (K.written out.new) (length (output world.old.trail)) sent.new want.now texts.now (standing_at (state_of going.old callers.old world.old) first count.old) world.new result }
    ensures few { sent.old ≡ length (output world.old.trail) → IfOk result (λ turned. WaitsFew turned (output world.new.trail) sent.new) }
    ensures later { K.faults out.old ≤ K.faults out.new }
    ensures failed { result ≡ Err unsent.Failed → Rose (K.faults out.old) (K.faults out.new) }
{
    let mut shown = first;
    'turning: loop {
        match rests(want, going, shown, callers, *count, world) {
            Some(halt) => return Ok(Turned::Rests(halt)),
            None => match onward(texts, going, callers, count, world) {
                Ok(next) => match post(world.output(), sent, out) {
                    Ok(()) => shown = next,
                    Err(unsent) => return Err(unsent),
                },
                Err(stop) => return Ok(Turned::Over(stop)),
            },
        }
    }
}
