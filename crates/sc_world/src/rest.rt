// Where a go leaves a run.
ghost use Rattle.std.specs.Prelude.{◌≡◌, ◌≤◌, [], Err, IfOk, MatchResult, length};
ghost use Rattle.sc_meaning.specs.World as worlds;
ghost use Rattle.sc_interp_machine.specs.Runs as runs;
ghost use Rattle.sc_interp.specs.Ends.{end_of};
ghost use Rattle.sc_interp.specs.declared.stepped.Shown.TheVariants.{Nothing};
ghost use Rattle.sc_interp_access.specs.Gives.{ending_of};
ghost use Rattle.sc_interp_world.specs.Outputs.{output};
ghost use Rattle.sc_outside.specs.Causes.{Rose};
ghost use Rattle.sc_world.specs.Goes as goes;
ghost use Rattle.sc_world.specs.Sends.{LeavesFew, Sends, SendsFirst, SendsSome, SendsTo};
ghost use Rattle.sc_world.specs.Standing as standing;
ghost use Rattle.sc_world.specs.Turns.{IsLeft, standing_at};
ghost use Rattle.sc_world.specs.declared.course.Course.TheVariants.{On};
ghost use Rattle.sc_world.specs.declared.post.Unsent.TheVariants as unsent;
ghost use Rattle.sc_world.specs.declared.count.Count as counts;

use crate::count::Count;
use crate::course::Course;
use crate::halt::Halt;
use crate::look::Want;
use crate::post::Unsent;
use crate::turn::{Turned, turns_taken};
use sc_base::Stack;
use sc_core_held::Text;
use sc_interp::{Caller, Going, Shown, status_of};
use sc_interp_access::{Ended, Stop};
use sc_interp_world::World;
use sc_meaning_values::Answer;
use sc_outside::Sink;

/// Why a go halted, and how the run goes on from there, or ended.
#[derive(Drop)]
pub struct Rested {
    pub halt: Halt,
    pub course: Course,
}

// A run that could not go on is over.
fn over_by(stop: Stop) -> Ended
    ensures { (w : worlds.World) → end_of result w ≡ ending_of stop w }
{
    match stop {
        Stop::NoRoom => Ended::NoRoom,
        Stop::Undefined(told) => Ended::Undefined(told),
        Stop::Exit(status) => Ended::Exit(status),
        Stop::StackFull(key) => Ended::StackFull(key),
        Stop::BirthLimit => Ended::BirthLimit,
    }
}

// A run that goes on from there.
fn stays(halt: Halt, going: Going) -> Rested
    ensures halt { result.halt ≡ halt }
    ensures course { result.course ≡ On going Nothing }
{
    Rested {
        halt,
        course: Course::On(going, Shown::Nothing),
    }
}

// The answer of `main` ends the run with its status.
fn came_back(halt: Halt, a: &Answer, world: &mut World) -> Rested
    ensures { (c : counts.Count) → goes.Closes halt (standing_at (runs.Answers a.now [] world.old) Nothing c) result.halt (standing.standing result.course [] world.new c) }
{
    match world.comes_back() {
        Ok(()) => Rested {
            halt,
            course: Course::Over(Ended::Exit(status_of(a))),
        },
        Err(_) => Rested {
            halt: Halt::Ended,
            course: Course::Over(Ended::NoRoom),
        },
    }
}

// An answer is the run's where no caller waits for it.
fn answered(halt: Halt, a: Answer, callers: &Stack<Caller>, world: &mut World) -> Rested
    ensures { (c : counts.Count) → goes.Closes halt (standing_at (runs.Answers a callers.now world.old) Nothing c) result.halt (standing.standing result.course callers.now world.new c) }
{
    if callers.is_empty() {
        came_back(halt, &a, world)
    } else {
        stays(halt, Going::Answers(a))
    }
}

// A run that rests; where `main` came back it is over.
fn closed(halt: Halt, going: Going, callers: &Stack<Caller>, world: &mut World) -> Rested
    ensures { (c : counts.Count) → goes.Closes halt (standing_at (standing.state_of going callers.now world.old) Nothing c) result.halt (standing.standing result.course callers.now world.new c) }
{
    match going {
        Going::Answers(a) => answered(halt, a, callers, world),
        Going::Runs(doing, stmts, env, active) => {
            stays(halt, Going::Runs(doing, stmts, env, active))
        }
        Going::Makes(t, v, vs, caller) => stays(halt, Going::Makes(t, v, vs, caller)),
    }
}

// What the turns of a go came to.
fn left_by(turned: Turned, going: Going, callers: &Stack<Caller>, world: &mut World) -> Rested
    ensures { (c : counts.Count) → IsLeft turned going callers.now world.old c result.halt (standing.standing result.course callers.now world.new c) }
{
    match turned {
        Turned::Rests(halt) => closed(halt, going, callers, world),
        Turned::Over(stop) => {
            drop(going);
            Rested {
                halt: Halt::Ended,
                course: Course::Over(over_by(stop)),
            }
        }
    }
}

// A go of a run that goes on.
fn goes_on<K: Sink>(
    texts: &[Text],
    want: &Want,
    shown: Shown,
    mut going: Going,
    callers: &mut Stack<Caller>,
    count: &mut Count,
    world: &mut World,
    sent: &mut usize,
    out: &mut K,
) -> Result<Rested, Unsent>
    ensures goes { IfOk result (λ r. goes.Leaves texts.now want.now (standing_at (standing.state_of going callers.old world.old) shown count.old) r.halt (standing.standing r.course callers.new world.new count.new)) }
    ensures sends { sent.old ≡ length (output world.old.trail) → MatchResult result (λ r. SendsTo (K.written out.old) (K.written out.new) want.now texts.now (standing_at (standing.state_of going callers.old world.old) shown count.old) sent.new (standing.standing r.course callers.new world.new count.new)) (λ _. SendsFirst (K.written out.old) (K.written out.new) want.now texts.now (standing_at (standing.state_of going callers.old world.old) shown count.old)) }
    ensures few { sent.old ≡ length (output world.old.trail) → IfOk result (λ r. LeavesFew r.halt sent.new (standing.standing r.course callers.new world.new count.new)) }
    ensures later { K.faults out.old ≤ K.faults out.new }
    ensures failed { result ≡ Err unsent.Failed → Rose (K.faults out.old) (K.faults out.new) }
{
    match turns_taken(
        texts, want, shown, &mut going, callers, count, world, sent, out,
    ) {
        Ok(turned) => Ok(left_by(turned, going, callers, world)),
        Err(unsent) => {
            drop(going);
            Err(unsent)
        }
    }
}

/// A go of a run. One that is over stays so.
///
/// # Errors
///
/// `Unsent` where what the program wrote could not be written.
pub fn goes_from<K: Sink>(
    course: Course,
    texts: &[Text],
    want: &Want,
    callers: &mut Stack<Caller>,
    count: &mut Count,
    world: &mut World,
    sent: &mut usize,
    out: &mut K,
) -> Result<Rested, Unsent>
    ensures goes { want.now.since ≡ world.old.enters → want.now.before ≡ count.old.turns → IfOk result (λ r. goes.Goes texts.now want.now.stops want.now.walk want.now.turns (standing.standing course callers.old world.old count.old) r.halt (standing.standing r.course callers.new world.new count.new)) }
    ensures sends { want.now.since ≡ world.old.enters → want.now.before ≡ count.old.turns → sent.old ≡ length (output world.old.trail) → MatchResult result (λ r. Sends (K.written out.old) (K.written out.new) texts.now want.now.stops want.now.walk want.now.turns (standing.standing course callers.old world.old count.old) sent.new (standing.standing r.course callers.new world.new count.new)) (λ _. SendsSome (K.written out.old) (K.written out.new) texts.now want.now.stops want.now.walk want.now.turns (standing.standing course callers.old world.old count.old)) }
    ensures few { sent.old ≡ length (output world.old.trail) → IfOk result (λ r. LeavesFew r.halt sent.new (standing.standing r.course callers.new world.new count.new)) }
    ensures later { K.faults out.old ≤ K.faults out.new }
    ensures failed { result ≡ Err unsent.Failed → Rose (K.faults out.old) (K.faults out.new) }
{
    match course {
        Course::Over(ended) => Ok(Rested {
            halt: Halt::Ended,
            course: Course::Over(ended),
        }),
        Course::On(going, shown) => {
            goes_on(texts, want, shown, going, callers, count, world, sent, out)
        }
    }
}
