// The service that an `ecall` asks for.
ghost use Rattle.std.specs.Prelude.{◌≡◌, ◌+◌, IfOk, List};
ghost use Rattle.sc_emu.specs.Operations.{difference};
ghost use Rattle.sc_emu.specs.Registers.{register};
ghost use Rattle.sc_emu.specs.declared.outcome.Crash.TheVariants as crashes;
ghost use Rattle.sc_interp_machine.specs.Runs as runs;
ghost use Rattle.sc_interp_machine.specs.Runs.{Caller as Waiting};
ghost use Rattle.sc_interp_world.specs.Outputs.{bytes_moved};
ghost use Rattle.sc_meaning.specs.World as worlds;
ghost use Rattle.sc_mixed.specs.Bridge as bridge;
ghost use Rattle.sc_mixed.specs.Machine as spec;
ghost use Rattle.sc_mixed.specs.Parts as parts;
ghost use Rattle.sc_mixed.specs.Serving.{service};
ghost use Rattle.sc_mixed.specs.declared.broken.Break.TheVariants as broken;
ghost use Rattle.sc_services.specs.Copying.{CopiesBytes};
ghost use Rattle.sc_world.specs.Costs as costs;
ghost use Rattle.sc_world.specs.Standing.{state_of};

use crate::broken::Break;
use crate::calls::{Calls, Lower, Moved, Next};
use crate::service::{Service, service_of};
use sc_base::{Key, NoMemory, Note};
use sc_core_held::Text;
use sc_emu::{Crash, Regs};
use sc_interp::{Going, Shown, entry, key_called};
use sc_interp_access::Stop;
use sc_interp_world::World;
use sc_isa_image::Image;
use sc_meaning_values::{Answer, Value};
use sc_services::{
    Asked, Copied, Entered, Left, Served, called, copy, enter, fall, leave, tag, value_of,
};
use std::mem;

/// The register of a result.
const RESULT: u8 = 10;

// The test of a service fails: the run stands at its `ecall`.
fn refused(regs: &Regs) -> Break
    ensures { result ≡ broken.Crashed (difference regs.now.pc 4) crashes.Service }
{
    Break::Crashed(regs.pc().wrapping_sub(4), Crash::Service)
}

// One turn, and one more for each byte that a move touched.
fn turns_for(bytes: u64) -> Result<u64, NoMemory>
    ensures { IfOk result (λ n. n ≡ 1 + bytes) }
{
    match bytes.checked_add(1) {
        Some(n) => Ok(n),
        None => Err(NoMemory),
    }
}

// Compiled code waits for a call.
fn wait(calls: &mut Calls) -> Result<(), NoMemory>
    ensures { IfOk result (λ _. calls.new ≡ bridge.waiting calls.old) }
{
    let regs = mem::replace(&mut calls.regs, Regs::new());
    let given = mem::replace(&mut calls.given, None);
    calls.lower.push(Lower::InCode { regs, given })
}

// Whether a call is over in the step that makes it.
fn is_back(going: &Going) -> bool
    ensures { (cs : List Waiting) (w : worlds.World) → result ≡ costs.is_back (state_of going.now cs w) }
{
    match going {
        Going::Runs(_, _, _, _) => false,
        Going::Makes(_, _, _, _) => false,
        Going::Answers(_) => true,
    }
}

// The bytes that a call touched in the move that made it: those of the library where it is over, else those of births.
fn bytes_of(is_over: bool, work: u64, moved: u64, world: &World) -> u64
    ensures { (w : worlds.World) → work ≡ worlds.work w.trail → moved ≡ bytes_moved w.trail → result ≡ costs.touched is_over w 0 world.now }
{
    if is_over {
        world.work_done().saturating_sub(work)
    } else {
        world.moved().saturating_sub(moved)
    }
}

// What a call shows that goes on so, and its turns, where so much work was done before it and so many bytes were moved.
fn moved_by(going: &Going, work: u64, moved: u64, world: &World) -> Result<Moved, NoMemory>
    ensures { (s : runs.State) (cs : List Waiting) (w : worlds.World) → work ≡ worlds.work w.trail → moved ≡ bytes_moved w.trail → s ≡ state_of going.now cs world.now → IfOk result (λ moved. spec.IsCallMoved s w moved world.now) }
{
    let bytes = bytes_of(is_back(going), work, moved, world);
    let turns = turns_for(bytes)?;
    Ok(Moved {
        shown: entry(going),
        turns,
    })
}

// A call of this function goes on as an interpreted one would.
fn call_key(
    texts: &[Text],
    key: Key,
    vs: &[Value],
    next: &mut Next,
    calls: &Calls,
    world: &mut World,
) -> Result<Moved, Stop>
    ensures { parts.CallsKey (spec.called_state texts.now key vs.now calls.now.callers world.old) calls.now.callers world.old result next.new world.new }
{
    let work = world.work_done();
    let moved = world.moved();
    match key_called(texts, key, vs, &calls.callers, world) {
        Ok(going) => match moved_by(&going, work, moved, world) {
            Ok(moved) => {
                drop(mem::replace(next, Next::Steps(going)));
                Ok(moved)
            }
            Err(_) => {
                drop(going);
                Err(Stop::NoRoom)
            }
        },
        Err(stop) => Err(stop),
    }
}

// Compiled code calls a function of interpreted code or of the library.
fn call_out(
    texts: &[Text],
    key: Key,
    vs: &[Value],
    next: &mut Next,
    calls: &mut Calls,
    world: &mut World,
) -> Result<Moved, Break>
    ensures { parts.CallsKeyOut (spec.called_state texts.now key vs.now calls.old.callers world.old) calls.old world.old result next.new calls.new world.new }
{
    world.leave_code(calls.regs.pc(), calls.regs.words());
    match wait(calls) {
        Ok(()) => (),
        Err(_) => {
            drop(key);
            return Err(Break::Meant(Stop::NoRoom));
        }
    }
    match call_key(texts, key, vs, next, calls, world) {
        Ok(moved) => Ok(moved),
        Err(stop) => Err(Break::Meant(stop)),
    }
}

#[tactic(auto, using(crate::proofs::Serving::called_out))]
fn serve_call(
    texts: &[Text],
    image: &Image,
    next: &mut Next,
    calls: &mut Calls,
    world: &mut World,
) -> Result<Moved, Break>
    ensures { spec.ServesCall texts.now image.now calls.old world.old result next.new calls.new world.new }
{
    match called(texts, &calls.regs, image, world) {
        Ok(Asked::Refused) => Err(refused(&calls.regs)),
        Ok(Asked::Call(key, vs)) => call_out(texts, key, vs.as_slice(), next, calls, world),
        Err(_) => Err(Break::Meant(Stop::NoRoom)),
    }
}

// A call or a block was entered, where so many bytes had been touched before.
fn entered(how: Entered, moved: u64, regs: &Regs, world: &World) -> Result<Moved, Break>
    ensures { (w : worlds.World) → moved ≡ bytes_moved w.trail → parts.EnteredSo how regs.now w world.now result }
{
    match how {
        Entered::Refused => Err(refused(regs)),
        Entered::Call => {
            let turns = turns_for(world.moved().saturating_sub(moved))?;
            Ok(Moved {
                shown: Shown::Entered,
                turns,
            })
        }
        Entered::Block => {
            let turns = turns_for(world.moved().saturating_sub(moved))?;
            Ok(Moved {
                shown: Shown::Nothing,
                turns,
            })
        }
    }
}

#[tactic(auto, using(crate::proofs::Serving::entered_so))]
fn serve_enter(
    texts: &[Text],
    image: &Image,
    calls: &Calls,
    world: &mut World,
) -> Result<Moved, Break>
    ensures { spec.ServesEnter texts.now image.now calls.now world.old result world.new }
{
    let moved = world.moved();
    match enter(texts, &calls.regs, image, world) {
        Ok(how) => entered(how, moved, &calls.regs, world),
        Err(stop) => Err(Break::Meant(stop)),
    }
}

// How many calls were active as the innermost compiled code was called.
fn depth_of(calls: &Calls) -> usize
    ensures { result ≡ spec.depth_of calls.now.lower }
{
    match calls.lower.top() {
        None => 0,
        Some(Lower::InBodies { depth, .. }) => *depth,
        Some(Lower::InCode { .. }) => 0,
    }
}

// What the call that left gave is kept, where it was the outermost one of the innermost compiled code.
fn give(a: Answer, calls: &mut Calls, world: &World)
    ensures { calls.new ≡ spec.given_by a calls.old world.now }
{
    if world.frames().len() == depth_of(calls) {
        drop(mem::replace(&mut calls.given, Some(a)));
    } else {
        drop(a);
    }
}

// A block of compiled code was left, or a call, which gave this.
fn left(how: Left, a: Answer, calls: &mut Calls, world: &World) -> Result<Moved, Break>
    ensures { parts.LeftSo how a calls.old world.now result calls.new }
{
    match how {
        Left::Refused => {
            drop(a);
            Err(refused(&calls.regs))
        }
        Left::Block => {
            drop(a);
            Ok(Moved::quietly())
        }
        Left::Call => {
            give(a, calls, world);
            Ok(Moved::quietly())
        }
    }
}

#[tactic(auto, using(crate::proofs::Serving::left_so))]
fn leave_with(a: Answer, calls: &mut Calls, world: &mut World) -> Result<Moved, Break>
    ensures { spec.LeavesWith (register calls.old.regs 6).bits a calls.old world.old result calls.new world.new }
{
    match leave(&calls.regs, world) {
        Ok(how) => left(how, a, calls, world),
        Err(_) => {
            drop(a);
            Err(Break::Meant(Stop::NoRoom))
        }
    }
}

fn serve_leave(calls: &mut Calls, world: &mut World) -> Result<Moved, Break>
    ensures { spec.ServesLeave calls.old world.old result calls.new world.new }
{
    match value_of(calls.regs.get(RESULT), world) {
        Ok(v) => leave_with(Answer::plain(v), calls, world),
        Err(_) => Err(Break::Meant(Stop::NoRoom)),
    }
}

#[tactic(auto, using(crate::proofs::Serving::left_so))]
fn serve_fall(calls: &mut Calls, world: &mut World) -> Result<Moved, Break>
    ensures { spec.ServesFall calls.old world.old result calls.new world.new }
{
    match fall(world) {
        Ok(how) => left(how, Answer::nothing(), calls, world),
        Err(_) => Err(Break::Meant(Stop::NoRoom)),
    }
}

fn serve_tag(calls: &mut Calls, world: &World) -> Result<Moved, Break>
    ensures { spec.ServesTag calls.old world.now result calls.new }
{
    match tag(&mut calls.regs, world) {
        Served::Done => Ok(Moved::quietly()),
        Served::Refused => Err(refused(&calls.regs)),
    }
}

// The bytes that a copy was of are told.
fn tell_copy(copied: Copied, regs: &Regs, world: &mut World) -> Result<(), NoMemory>
    ensures { world.new ≡ world.old }
{
    match copied {
        Copied::Bytes(size) => {
            let to = regs.get(RESULT).bits;
            let from = regs.get(RESULT + 1).bits;
            world.record(Note::Copy { to, from, size })
        }
        Copied::Refused => Ok(()),
    }
}

// Bytes are copied, and one note tells of all of them.
fn copy_told(regs: &Regs, world: &mut World) -> Result<Copied, NoMemory>
    ensures { IfOk result (λ copied. CopiesBytes regs.now world.old copied world.new) }
{
    world.hush(true);
    let done = copy(regs, world);
    world.hush(false);
    let copied = done?;
    tell_copy(copied, regs, world)?;
    Ok(copied)
}

fn serve_copy(calls: &Calls, world: &mut World) -> Result<Moved, Break>
    ensures { spec.ServesCopy calls.now world.old result world.new }
{
    match copy_told(&calls.regs, world) {
        Ok(Copied::Bytes(n)) => Ok(Moved {
            shown: Shown::Nothing,
            turns: u64::from(n) + 1,
        }),
        Ok(Copied::Refused) => Err(refused(&calls.regs)),
        Err(_) => Err(Break::Meant(Stop::NoRoom)),
    }
}

// An instruction is next, where a service was served.
fn then_executes(served: Result<Moved, Break>, next: &mut Next) -> Result<Moved, Break>
    ensures served { result ≡ served }
    ensures next { spec.NextIfOn served next.new }
{
    match served {
        Ok(moved) => {
            drop(mem::replace(next, Next::Executes));
            Ok(moved)
        }
        Err(broken) => Err(broken),
    }
}

/// The service with this number is served: 1 a call, 2 a block is entered, 3 one is left, 4 a number gets its tag, 5 bytes are copied, 6 a call
/// is left that gives no value. A service without a number, or whose test fails, is a crash at its `ecall`.
pub fn serve(
    n: u32,
    texts: &[Text],
    image: &Image,
    next: &mut Next,
    calls: &mut Calls,
    world: &mut World,
) -> Result<Moved, Break>
    ensures { spec.ServedBy (service n) texts.now image.now calls.old world.old result next.new calls.new world.new }
{
    match service_of(n) {
        Service::Call => serve_call(texts, image, next, calls, world),
        Service::Enter => then_executes(serve_enter(texts, image, calls, world), next),
        Service::Leave => then_executes(serve_leave(calls, world), next),
        Service::Tag => then_executes(serve_tag(calls, world), next),
        Service::Copy => then_executes(serve_copy(calls, world), next),
        Service::Fall => then_executes(serve_fall(calls, world), next),
        Service::Unknown => Err(refused(&calls.regs)),
    }
}
