// A whole run (ANSI 2.1.2.2, 2.1.2.3).
ghost use Rattle.std.specs.Prelude.{◌≡◌, [], ℕ, IfOk};
ghost use Rattle.sc_meaning.specs.Behaviour as behaviour;
ghost use Rattle.sc_meaning.specs.Versions as versions;
ghost use Rattle.sc_meaning.specs.World as worlds;
ghost use Rattle.sc_lib.specs.Quiet.{IsQuiet};
ghost use Rattle.sc_interp.specs.Ends.{EndsSo, Finishes, start_of};
ghost use Rattle.sc_interp.specs.Steady as steady;
ghost use Rattle.sc_interp.specs.Steps.{Brings, Steps};

use crate::calls::key_next;
use crate::drive::{Reached, drive};
use crate::going::{Caller, Going};
use sc_base::{Duplicate, Items, Key, Name, NoMemory, Shared, Stack};
use sc_core_held::Text;
use sc_interp_access::{Ended, Stop, bits};
use sc_interp_parts::{layout_of, statics_born};
use sc_interp_world::World;
use sc_meaning_values::{Answer, Held};
use std::alloc::Global;

/// The bytes that the stack and the heap may have, and how many steps a run may take.
#[derive(Clone, Copy)]
pub struct Limits {
    pub stack: u64,
    pub heap: u64,
    pub steps: u64,
}

/// What came of a run: how it ended, and the world at its end, with all that happened.
#[derive(Drop)]
pub struct Finished {
    pub ended: Ended,
    pub world: World,
}

/// The key of `main`, the entry of a program's run.
///
/// # Errors
///
/// `NoMemory` alone.
pub fn main_key(alloc: Global) -> Result<Key, NoMemory>
    ensures { IfOk result (λ key. key ≡ behaviour.main_key) }
{
    let Ok(name) = Name::new(alloc, b"main") else {
        return Err(NoMemory)
    };
    Ok(Key { module: None, name })
}

/// The status with which the answer of the entry ends the run.
pub fn status_of(a: &Answer) -> u32
    ensures { result ≡ behaviour.status_of a.now }
{
    match &a.held {
        Held::Plain(v) => bits(v),
        Held::Place(_) => 0,
        Held::Part(_, _) => 0,
        Held::Nothing => 0,
    }
}

/// The call of the entry, the function with this key, goes out, behind the births.
///
/// # Errors
///
/// `U17` where nothing defines it, `StackFull`, `BirthLimit`, and what a function of the library ends with.
pub fn call_entry(
    texts: &[Text],
    key: &Key,
    callers: &Stack<Caller>,
    world: &mut World,
) -> Result<Going, Stop>
    ensures { (h : versions.History) → IsQuiet h → Steps (steady.callee_next h key.now [] (versions.callee_of texts.now key.now) callers.now (worlds.pass worlds.GoesOut world.old)) result callers.now world.new }
{
    let alloc = world.alloc();
    let own = key.copy(alloc)?;
    world.goes_out()?;
    let none = Items::new(alloc);
    key_next(texts, own, none.as_slice(), callers, world)
}

// The entry is called, and comes back.
fn entry_called(texts: &[Text], key: &Key, steps: u64, world: &mut World) -> Result<Reached, Stop>
    ensures { (h : versions.History) → IsQuiet h → Brings (steady.ran steps h texts.now (steady.callee_next h key.now [] (versions.callee_of texts.now key.now) [] (worlds.pass worlds.GoesOut world.old))) result world.new }
{
    let mut callers = Stack::new(world.alloc());
    let going = call_entry(texts, key, &callers, world)?;
    drive(texts, going, &mut callers, steps, world)
}

// From the births on.
fn started(texts: &[Text], key: &Key, steps: u64, world: &mut World) -> Result<Ended, Stop>
    ensures { (s : behaviour.Start) → s.history ≡ steady.alone texts.now → s.entry ≡ key.now → world.old ≡ behaviour.first_world s → Finishes steps s result world.new }
{
    statics_born(texts, world)?;
    match entry_called(texts, key, steps, world)? {
        Reached::Answer(a) => {
            world.comes_back()?;
            Ok(Ended::Exit(status_of(&a)))
        }
        Reached::Nowhere => Ok(Ended::OutOfSteps),
    }
}

// How an end is told.
fn end_told(given: Result<Ended, Stop>) -> Ended
    ensures { (steps : ℕ) (s : behaviour.Start) (w : worlds.World) → Finishes steps s given w → EndsSo steps s result w }
{
    match given {
        Ok(end) => end,
        Err(Stop::NoRoom) => Ended::NoRoom,
        Err(Stop::Undefined(told)) => Ended::Undefined(told),
        Err(Stop::Exit(status)) => Ended::Exit(status),
        Err(Stop::StackFull(key)) => Ended::StackFull(key),
        Err(Stop::BirthLimit) => Ended::BirthLimit,
    }
}

/// A run of a program that does not change, from its start on, in at most so many steps of the machine: the function with this key
/// is called. It ends as the meaning has it at every bound greater than these steps. Where the steps were used up, the run was not
/// over behind them.
pub fn run(
    alloc: Global,
    texts: &[Text],
    key: &Key,
    limits: Limits,
    input: Items<u8>,
) -> Result<Finished, NoMemory>
    ensures { IfOk result (λ r. EndsSo limits.steps (start_of texts.now key.now limits.stack limits.heap input) r.ended r.world) }
{
    let layout = layout_of(alloc, texts)?;
    let mut world = World::aside(alloc, limits.stack, limits.heap, input, layout, false)?;
    let ended = end_told(started(texts, key, limits.steps, &mut world));
    Ok(Finished { ended, world })
}
