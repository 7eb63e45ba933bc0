// Moves one after another, up to a place where a go ends.
ghost use Rattle.std.specs.Prelude.{◌≡◌, ◌<◌, ◌+◌, ◌-◌, IfOk};
ghost use Rattle.sc_mixed.specs.Parts as parts;
ghost use Rattle.sc_mixed.specs.Standing.{standing_on};

use crate::broken::Break;
use crate::calls::{Calls, Next};
use crate::moves::move_on;
use crate::rest::rests;
use crate::service::{Service, service_of};
use sc_base::{NoMemory, Note};
use sc_core_held::Text;
use sc_interp::Shown;
use sc_interp_access::Stop;
use sc_interp_world::World;
use sc_isa_image::Image;
use sc_world::{Halt, Want};

/// The register of a result.
const RESULT: u8 = 10;

// Whether the service that tags a0 is served next.
fn tags_next(next: &Next) -> bool {
    match next {
        Next::Serves(n) => match service_of(*n) {
            Service::Tag => true,
            _ => false,
        },
        Next::Steps(_) => false,
        Next::Executes => false,
    }
}

// A tag that a0 got is told. The service itself cannot want for memory.
fn tell_tag(calls: &Calls, world: &mut World) -> Result<(), NoMemory>
    ensures { world.new ≡ world.old }
{
    let word = calls.regs.get(RESULT);
    world.record(Note::Tag { word })
}

// A move that is done: the turns so far have its turns too, and its tag is told where it gave one.
fn counted(
    tags: bool,
    turns: u64,
    calls: &Calls,
    world: &mut World,
    took: &mut u64,
) -> Result<(), NoMemory>
    ensures counts { IfOk result (λ _. took.new ≡ took.old + turns) }
    ensures stays { world.new ≡ world.old }
{
    if tags {
        tell_tag(calls, world)?;
    }
    match took.checked_add(turns) {
        Some(n) => {
            *took = n;
            Ok(())
        }
        None => Err(NoMemory),
    }
}

/// One move, or instructions up to where the turns are taken: what it shows.
pub fn moved(
    texts: &[Text],
    image: &Image,
    most: u64,
    next: &mut Next,
    calls: &mut Calls,
    world: &mut World,
    took: &mut u64,
) -> Result<Shown, Break>
    requires { 0 < most }
    ensures { parts.MovedUpto texts.now image.now most next.old calls.old world.old took.old result next.new calls.new world.new took.new }
{
    let tags = tags_next(next);
    match move_on(texts, image, most, next, calls, world) {
        Ok(moved) => match counted(tags, moved.turns, calls, world, took) {
            Ok(()) => Ok(moved.shown),
            Err(_) => Err(Break::Meant(Stop::NoRoom)),
        },
        Err(broken) => Err(broken),
    }
}

// The turns that are left, where there are any.
fn turns_left(turns: u64, took: u64) -> Option<u64>
    ensures { parts.TurnsLeft turns took result }
{
    match turns.checked_sub(took) {
        None => None,
        Some(0) => None,
        Some(left) => Some(left),
    }
}

// Moves up to where the turns are taken, where any are left.
fn moved_on(
    texts: &[Text],
    image: &Image,
    turns: u64,
    next: &mut Next,
    calls: &mut Calls,
    world: &mut World,
    took: &mut u64,
) -> Result<Shown, Break>
    ensures { took.old < turns → parts.MovedUpto texts.now image.now (turns - took.old) next.old calls.old world.old took.old result next.new calls.new world.new took.new }
{
    match turns_left(turns, *took) {
        Some(most) => moved(texts, image, most, next, calls, world, took),
        None => Err(Break::Meant(Stop::NoRoom)),
    }
}

/// What turns come to: a place where a go ends, or why the run ended in them, but for an end by the answer of the entry, with which it
/// rests.
#[derive(Drop)]
pub enum Turned {
    Rests(Halt),
    Over(Break),
}

/// Moves one after another, up to a place that halts the run, or where the turns were taken.
pub fn turns_taken(
    texts: &[Text],
    image: &Image,
    want: &Want,
    first: Shown,
    next: &mut Next,
    calls: &mut Calls,
    world: &mut World,
) -> Turned
    ensures { parts.Comes texts.now image.now want.now (standing_on image.now calls.old world.old next.old first) result next.new calls.new world.new }
{
    let mut shown = first;
    let mut took: u64 = 0;
    for _ in 0..want.turns {
        match rests(want, took, next, shown, calls, world) {
            Some(halt) => return Turned::Rests(halt),
            None => match moved_on(texts, image, want.turns, next, calls, world, &mut took) {
                Ok(now) => shown = now,
                Err(broken) => return Turned::Over(broken),
            },
        }
    }
    match rests(want, took, next, shown, calls, world) {
        Some(halt) => Turned::Rests(halt),
        None => Turned::Over(Break::Meant(Stop::NoRoom)),
    }
}
