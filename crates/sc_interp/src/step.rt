// One step of a run, in place (ANSI 2.1.2.2, 2.1.2.3).
ghost use Rattle.std.specs.Prelude.{◌≡◌, List, IfOk};
ghost use Rattle.sc_meaning.specs.Calls as spec;
ghost use Rattle.sc_meaning.specs.Versions as versions;
ghost use Rattle.sc_meaning.specs.World as worlds;
ghost use Rattle.sc_interp_machine.specs.Runs as runs;
ghost use Rattle.sc_lib.specs.Quiet.{IsQuiet};
ghost use Rattle.sc_interp.specs.Steady as steady;
ghost use Rattle.sc_interp.specs.Ran.{Leaves, RunsTo, Sends, Sent};
ghost use Rattle.sc_interp.specs.Shows as shows;
ghost use Rattle.sc_interp.specs.declared.going.Going.TheVariants as going;
ghost use Rattle.sc_interp.specs.declared.stepped.Shown.{Shown as Shows};
ghost use Rattle.sc_interp.specs.declared.stepped.Shown.TheVariants.{Nothing};
ghost use Rattle.sc_interp.specs.Steps.{Is, Steps};

use crate::calls::{answer_of, leave, makes, reach};
use crate::going::{Active, Caller, Going};
use crate::stepped::{Ran, Shown, entry};
use sc_base::{NoMemory, Stack};
use sc_core_held::Text;
use sc_interp_access::Stop;
use sc_interp_body::{Move, step_body};
use sc_interp_expr::{Env, call_out};
use sc_interp_machine::{Doing, Focus, Pending, Slot, Use};
use sc_interp_world::World;
use sc_meaning_values::{Answer, Way};
use std::mem;

// A line is reached.
#[inline(never)]
fn lined(l: u32, world: &mut World) -> Result<(), NoMemory>
    ensures { IfOk result (λ _. world.new ≡ steady.on_line l world.old) }
{
    reach(l, world)
}

// One step of the innermost body, in place.
#[inline(always)]
fn runs(
    doing: &mut Doing,
    stmts: &mut Stack<Pending>,
    env: &mut Env,
    active: &Active,
    callers: &Stack<Caller>,
    world: &mut World,
) -> Result<Ran, Stop>
    ensures { (h : versions.History) (texts : List versions.Text) → RunsTo (steady.advance h texts (runs.Runs doing.old stmts.old env.old active.now callers.now world.old)) (shows.shown h texts (runs.Runs doing.old stmts.old env.old active.now callers.now world.old)) result (going.Runs doing.new stmts.new env.new active.now) callers.now world.new }
{
    match step_body(doing, stmts, env, world) {
        Ok(Move::On) => Ok(Ran::On(Shown::Nothing)),
        Ok(Move::Line(l)) => match lined(l, world) {
            Ok(()) => Ok(Ran::On(Shown::Line(l))),
            Err(_) => Err(Stop::NoRoom),
        },
        Ok(Move::Call) => Ok(Ran::Calls),
        Ok(Move::Leave) => Ok(Ran::Leaves),
        Err(stop) => Err(stop),
    }
}

// How the run goes on takes the place of the former.
fn becomes(going: &mut Going, next: Going)
    ensures { going.new ≡ next }
{
    drop(mem::replace(going, next));
}

// How the run goes on is taken, and an answer without a value is left in its place.
fn taken(going: &mut Going) -> Going
    ensures { result ≡ going.old }
{
    mem::replace(going, Going::Answers(Answer::nothing()))
}

// A call goes out: what was done waits for its answer.
fn waits(
    focus: Focus,
    items: Stack<Slot>,
    user: Use,
    stmts: Stack<Pending>,
    env: Env,
    active: Active,
    callers: &Stack<Caller>,
    world: &World,
) -> Result<Going, Stop>
    ensures { (s : runs.State) → Sent s items user stmts env active callers.now world.now → Steps s result callers.now world.now }
{
    let mut items = items;
    match call_out(&mut items, world.alloc()) {
        Ok(call) => {
            let caller = Caller {
                focus,
                items,
                user,
                stmts,
                env,
                active,
            };
            Ok(Going::Makes(call.of, call.callee, call.arguments, caller))
        }
        Err(_) => {
            drop(focus);
            drop(items);
            drop(user);
            drop(stmts);
            drop(env);
            drop(active);
            Err(Stop::NoRoom)
        }
    }
}

fn sent_within(
    doing: Doing,
    stmts: Stack<Pending>,
    env: Env,
    active: Active,
    callers: &Stack<Caller>,
    world: &World,
) -> Result<Going, Stop>
    ensures { (s : runs.State) → Sends s (going.Runs doing stmts env active) callers.now world.now → Steps s result callers.now world.now }
{
    match doing {
        Doing::Within(focus, items, user) => waits(
            focus, items, user, stmts, env, active, callers, world,
        ),
        other => {
            drop(other);
            drop(stmts);
            drop(env);
            drop(active);
            Err(Stop::NoRoom)
        }
    }
}

fn sent(going: Going, callers: &Stack<Caller>, world: &World) -> Result<Going, Stop>
    ensures { (s : runs.State) → Sends s going callers.now world.now → Steps s result callers.now world.now }
{
    match going {
        Going::Runs(doing, stmts, env, active) => {
            sent_within(doing, stmts, env, active, callers, world)
        }
        other => {
            drop(other);
            Err(Stop::NoRoom)
        }
    }
}

#[inline(never)]
fn sends(going: &mut Going, callers: &Stack<Caller>, world: &World) -> Result<Shown, Stop>
    ensures { (s : runs.State) (now : Shows) → Sends s going.old callers.now world.now → Nothing ≡ now → shows.StepsShowing s now result going.new callers.now world.now }
{
    match sent(taken(going), callers, world) {
        Ok(next) => {
            becomes(going, next);
            Ok(Shown::Nothing)
        }
        Err(stop) => Err(stop),
    }
}

// A call ends, and its answer goes to its caller.
fn comes_back(
    way: Way,
    active: &Active,
    callers: &Stack<Caller>,
    world: &mut World,
) -> Result<Going, Stop>
    ensures { Steps (runs.Answers (spec.answer_of way) callers.now (steady.without_call active.now.ids active.now.cost world.old)) result callers.now world.new }
{
    leave(active, world)?;
    Ok(Going::Answers(answer_of(way)))
}

fn left_by(
    doing: Doing,
    stmts: Stack<Pending>,
    env: Env,
    active: &Active,
    callers: &Stack<Caller>,
    world: &mut World,
) -> Result<Going, Stop>
    ensures { (s : runs.State) → Leaves s (going.Runs doing stmts env active.now) callers.now world.old → Steps s result callers.now world.new }
{
    drop(stmts);
    drop(env);
    match doing {
        Doing::Leave(way) => comes_back(way, active, callers, world),
        other => {
            drop(other);
            Err(Stop::NoRoom)
        }
    }
}

fn left(going: Going, callers: &Stack<Caller>, world: &mut World) -> Result<Going, Stop>
    ensures { (s : runs.State) → Leaves s going callers.now world.old → Steps s result callers.now world.new }
{
    match going {
        Going::Runs(doing, stmts, env, active) => {
            let next = left_by(doing, stmts, env, &active, callers, world);
            drop(active);
            next
        }
        other => {
            drop(other);
            Err(Stop::NoRoom)
        }
    }
}

#[inline(never)]
fn leaves(going: &mut Going, callers: &Stack<Caller>, world: &mut World) -> Result<Shown, Stop>
    ensures { (s : runs.State) (now : Shows) → Leaves s going.old callers.now world.old → Nothing ≡ now → shows.StepsShowing s now result going.new callers.now world.new }
{
    match left(taken(going), callers, world) {
        Ok(next) => {
            becomes(going, next);
            Ok(Shown::Nothing)
        }
        Err(stop) => Err(stop),
    }
}

// An answer comes to the innermost caller.
fn answers(a: Answer, callers: &mut Stack<Caller>, world: &World) -> Result<Going, Stop>
    ensures { (h : versions.History) (texts : List versions.Text) → Steps (steady.advance h texts (runs.Answers a callers.old world.now)) result callers.new world.now }
{
    match callers.pop() {
        None => Ok(Going::Answers(a)),
        Some(c) => {
            let mut focus = c.focus;
            focus.gives = true;
            drop(mem::replace(&mut focus.answer, a));
            let doing = Doing::Within(focus, c.items, c.user);
            Ok(Going::Runs(doing, c.stmts, c.env, c.active))
        }
    }
}

// A step that shows nothing takes its place.
fn quietly(given: Result<Going, Stop>, going: &mut Going) -> Result<Shown, Stop>
    ensures { (s : runs.State) (cs : List runs.Caller) (w : worlds.World) → Steps s given cs w → shows.StepsShowing s Nothing result going.new cs w }
{
    match given {
        Ok(next) => {
            becomes(going, next);
            Ok(Shown::Nothing)
        }
        Err(stop) => Err(stop),
    }
}

// A step that makes a call takes its place.
fn entered(given: Result<Going, Stop>, going: &mut Going) -> Result<Shown, Stop>
    ensures { (s : runs.State) (cs : List runs.Caller) (w : worlds.World) → Steps s given cs w → shows.StepsShowing s (shows.entry_shown s) result going.new cs w }
{
    match given {
        Ok(next) => {
            let shown = entry(&next);
            becomes(going, next);
            Ok(shown)
        }
        Err(stop) => Err(stop),
    }
}

// A step while no body runs.
fn between_of(
    texts: &[Text],
    now: Going,
    going: &mut Going,
    callers: &mut Stack<Caller>,
    world: &mut World,
) -> Result<Shown, Stop>
    ensures { (h : versions.History) → IsQuiet h → (s : runs.State) → Is s now callers.old world.old → shows.StepsShowing (steady.advance h texts.now s) (shows.shown h texts.now s) result going.new callers.new world.new }
{
    match now {
        Going::Runs(doing, stmts, env, active) => {
            drop(doing);
            drop(stmts);
            drop(env);
            drop(active);
            Err(Stop::NoRoom)
        }
        Going::Makes(t, v, vs, caller) => {
            let given = makes(texts, &t, v, vs.as_slice(), caller, callers, world);
            entered(given, going)
        }
        Going::Answers(a) => {
            let given = answers(a, callers, world);
            quietly(given, going)
        }
    }
}

// The same in place.
#[inline(never)]
fn between(
    texts: &[Text],
    going: &mut Going,
    callers: &mut Stack<Caller>,
    world: &mut World,
) -> Result<Shown, Stop>
    ensures { (h : versions.History) → IsQuiet h → (s : runs.State) → Is s going.old callers.old world.old → shows.StepsShowing (steady.advance h texts.now s) (shows.shown h texts.now s) result going.new callers.new world.new }
{
    let now = taken(going);
    between_of(texts, now, going, callers, world)
}

/// One step of a run in place: exactly the machine's, in a run in which nothing changes behind an event. It answers what it shows.
///
/// # Errors
///
/// How the run ends in it.
pub fn step_run(
    texts: &[Text],
    going: &mut Going,
    callers: &mut Stack<Caller>,
    world: &mut World,
) -> Result<Shown, Stop>
    ensures { (h : versions.History) → IsQuiet h → (s : runs.State) → Is s going.old callers.old world.old → shows.StepsShowing (steady.advance h texts.now s) (shows.shown h texts.now s) result going.new callers.new world.new }
{
    match going {
        Going::Runs(doing, stmts, env, active) => {
            match runs(doing, stmts, env, active, callers, world) {
                Ok(Ran::On(shown)) => Ok(shown),
                Ok(Ran::Calls) => sends(going, callers, world),
                Ok(Ran::Leaves) => leaves(going, callers, world),
                Err(stop) => Err(stop),
            }
        }
        Going::Makes(_, _, _, _) => between(texts, going, callers, world),
        Going::Answers(_) => between(texts, going, callers, world),
    }
}
