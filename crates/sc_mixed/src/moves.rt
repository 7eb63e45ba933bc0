// One move of a run of both forms.
ghost use Rattle.std.specs.Prelude.{◌≡◌, ◌<◌, IfOk, List};
ghost use Rattle.sc_interp_machine.specs.Runs as runs;
ghost use Rattle.sc_interp_machine.specs.Runs.{Caller as Waiting};
ghost use Rattle.sc_mixed.specs.Machine as spec;
ghost use Rattle.sc_mixed.specs.Parts as parts;
ghost use Rattle.sc_world.specs.Costs.{cost};
ghost use Rattle.sc_world.specs.Standing.{state_of};
ghost use Rattle.sc_world.specs.Turns.{IsBefore};

use crate::bridge::{give_back, goes_to_code, make_in_code, return_code};
use crate::broken::Break;
use crate::calls::{Calls, Moved, Next};
use crate::execute::{Executed, Went, execute_counted};
use crate::serve::serve;
use sc_base::NoMemory;
use sc_core_held::Text;
use sc_interp::{Going, Shown, step_run};
use sc_interp_access::Stop;
use sc_interp_world::World;
use sc_isa_image::Image;
use sc_meaning_values::Answer;
use sc_world::{Before, noted, touched_on};
use std::mem;

/// Where a step of interpreted calls leads.
#[derive(Clone, Copy)]
pub enum Way {
    Stays,
    ToCode,
    Back,
}

fn way_of(texts: &[Text], going: &Going, calls: &Calls, world: &World) -> Result<Way, NoMemory>
    ensures { IfOk result (λ way. way ≡ spec.way texts.now going.now calls.now) }
{
    match going {
        Going::Runs(_, _, _, _) => Ok(Way::Stays),
        Going::Makes(t, v, _, caller) => match goes_to_code(world.alloc(), texts, t, v, caller) {
            Ok(true) => Ok(Way::ToCode),
            Ok(false) => Ok(Way::Stays),
            Err(_) => Err(NoMemory),
        },
        Going::Answers(_) => match calls.callers.top() {
            None => Ok(Way::Back),
            Some(_) => Ok(Way::Stays),
        },
    }
}

// A step behind which the run goes on, with its turns: one, and one more for each byte that it touched.
fn stepped(shown: Shown, before: Before, going: &Going, world: &World) -> Result<Moved, NoMemory>
    ensures { (s t : runs.State) (cs : List Waiting) → IsBefore before s → t ≡ state_of going.now cs world.now → IfOk result (λ moved. (moved.shown ≡ shown) × (moved.turns ≡ cost s t)) }
{
    match touched_on(before, going, world).checked_add(1) {
        Some(turns) => Ok(Moved { shown, turns }),
        None => Err(NoMemory),
    }
}

// A step of the interpreted calls: the meaning's, with all that it ends in.
fn step(
    texts: &[Text],
    going: &mut Going,
    calls: &mut Calls,
    world: &mut World,
) -> Result<Moved, Break>
    ensures { spec.StepsFrom texts.now (state_of going.old calls.old.callers world.old) calls.old result (Next.Steps going.new) calls.new world.new }
{
    let before = noted(going, world);
    match step_run(texts, going, &mut calls.callers, world) {
        Ok(shown) => match stepped(shown, before, going, world) {
            Ok(moved) => Ok(moved),
            Err(_) => Err(Break::Meant(Stop::NoRoom)),
        },
        Err(stop) => Err(Break::Meant(stop)),
    }
}

// How the interpreted calls go on is taken, and an answer without a value is left in its place.
fn taken(going: &mut Going) -> Going
    ensures { result ≡ going.old }
{
    mem::replace(going, Going::Answers(Answer::nothing()))
}

// The answer of the last interpreted call goes to what waits below.
fn back(going: Going, calls: &mut Calls, world: &mut World) -> Result<Next, NoMemory>
    ensures gives { IfOk result (λ next. spec.GivesAnswer world.old going calls.old next calls.new) }
    ensures stays { world.new ≡ world.old }
{
    match going {
        Going::Answers(a) => give_back(a, calls, world),
        Going::Runs(doing, stmts, env, active) => {
            drop(doing);
            drop(stmts);
            drop(env);
            drop(active);
            Err(NoMemory)
        }
        Going::Makes(t, v, vs, caller) => {
            drop(t);
            drop(v);
            drop(vs);
            drop(caller);
            Err(NoMemory)
        }
    }
}

// A move that crosses takes its place.
fn crossed(given: Result<Next, NoMemory>, next: &mut Next) -> Result<Moved, Break>
    ensures { parts.CrossesTo given result next.new }
{
    match given {
        Ok(there) => {
            drop(mem::replace(next, there));
            Ok(Moved::quietly())
        }
        Err(_) => Err(Break::Meant(Stop::NoRoom)),
    }
}

// So many moves that show nothing: what comes next takes its place.
fn so_many(there: Next, count: u64, next: &mut Next) -> Moved
    ensures moved { result ≡ record { shown = Shown.Nothing; turns = count } }
    ensures next { next.new ≡ there }
{
    drop(mem::replace(next, there));
    Moved {
        shown: Shown::Nothing,
        turns: count,
    }
}

// Compiled code returned, as the last of so many instructions.
fn after_return(
    count: u64,
    next: &mut Next,
    calls: &mut Calls,
    world: &World,
) -> Result<Moved, Break>
    ensures { parts.AfterLast Went.Returned count calls.old world.now result next.new calls.new }
{
    match return_code(calls, world) {
        Ok(back) => Ok(so_many(back, count, next)),
        Err(broken) => Err(broken),
    }
}

// What the instructions came to, where the last of them stands. Where compiled code returned, its registers are kept.
fn after(
    done: Executed,
    next: &mut Next,
    calls: &mut Calls,
    world: &mut World,
) -> Result<Moved, Break>
    ensures last { parts.AfterLast done.went done.count calls.old world.old result next.new calls.new }
    ensures stays { world.new ≡ world.old }
{
    match done.went {
        Went::On => Ok(so_many(Next::Executes, done.count, next)),
        Went::Asks(n) => Ok(so_many(Next::Serves(n), done.count, next)),
        Went::Returned => {
            world.leave_code(calls.regs.pc(), calls.regs.words());
            after_return(done.count, next, calls, world)
        }
        Went::Stopped(crash) => Err(Break::Crashed(calls.regs.pc(), crash)),
        Went::NoRoom => Err(Break::Meant(Stop::NoRoom)),
    }
}

// So many instructions at most. Each is a move.
#[tactic(auto, using(crate::proofs::Running::executes_upto, crate::proofs::Running::no_room_upto))]
fn execute_all(
    image: &Image,
    most: u64,
    next: &mut Next,
    calls: &mut Calls,
    world: &mut World,
) -> Result<Moved, Break>
    requires { 0 < most }
    ensures { parts.ExecutesUpto image.now most calls.old world.old result next.new calls.new world.new }
{
    match execute_counted(image, most, &mut calls.regs, world) {
        Ok(done) => after(done, next, calls, world),
        Err(_) => Err(Break::Meant(Stop::NoRoom)),
    }
}

/// A step of interpreted calls, a crossing of the bridge, a service, or so many instructions at most.
pub fn move_on(
    texts: &[Text],
    image: &Image,
    most: u64,
    next: &mut Next,
    calls: &mut Calls,
    world: &mut World,
) -> Result<Moved, Break>
    requires { 0 < most }
    ensures { parts.MovesUpto texts.now image.now most next.old calls.old world.old result next.new calls.new world.new }
{
    match next {
        Next::Executes => execute_all(image, most, next, calls, world),
        Next::Serves(n) => {
            let n = *n;
            serve(n, texts, image, next, calls, world)
        }
        Next::Steps(going) => match way_of(texts, going, calls, world) {
            Ok(Way::Stays) => step(texts, going, calls, world),
            Ok(Way::ToCode) => {
                let going = taken(going);
                crossed(make_in_code(going, image, calls, world), next)
            }
            Ok(Way::Back) => {
                let going = taken(going);
                crossed(back(going, calls, world), next)
            }
            Err(_) => Err(Break::Meant(Stop::NoRoom)),
        },
    }
}
