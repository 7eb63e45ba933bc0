// What is said of the end of an evaluation.
ghost use Rattle.std.specs.Prelude.{◌≡◌, ◌++◌, Some, IfOk};
ghost use Rattle.std.specs.Fmt.{signed_decimal};
ghost use Rattle.sc_base.specs.declared.integer.Int.TheVariants.{Int as PlainInt};
ghost use Rattle.sc_ops.specs.Numbers.{number_of};
ghost use Rattle.sc_session_texts.specs.Ends as spec;

use crate::halt::end_text;
use crate::word::{put, put_signed};
use sc_base::{Int, NoMemory};
use sc_interp_access::{Ended, number_of};
use sc_interp_world::World;
use std::alloc::Global;

// Whether the function of an evaluation is active no more.
fn came_back(world: &World) -> &'static [u8]
    ensures { result.now ≡ spec.came_back world.now.frames }
{
    match world.innermost() {
        None => b"value ",
        Some(_) => b"exit ",
    }
}

fn number_text(alloc: Global, status: u32, world: &World) -> Result<Vec<u8>, NoMemory>
    ensures { IfOk result (λ text. text.items ≡ spec.came_back world.now.frames ++ signed_decimal (number_of PlainInt status)) }
{
    let mut text = Vec::new(alloc);
    put(&mut text, came_back(world))?;
    put_signed(&mut text, alloc, number_of(Int::Int, status))?;
    Ok(text)
}

fn evaluation_text(alloc: Global, ended: &Ended, world: &World) -> Result<Vec<u8>, NoMemory>
    ensures { IfOk result (λ text. Some text.items ≡ spec.evaluation_text ended.now world.now) }
{
    match ended {
        Ended::Exit(status) => number_text(alloc, *status, world),
        Ended::OutOfSteps => end_text(alloc, ended, world),
        Ended::NoRoom => end_text(alloc, ended, world),
        Ended::Undefined(_) => end_text(alloc, ended, world),
        Ended::StackFull(_) => end_text(alloc, ended, world),
        Ended::BirthLimit => end_text(alloc, ended, world),
    }
}

/// How a run ended. Of an evaluation it is the value, where its function came back.
///
/// # Errors
///
/// `NoMemory`, also where the run found no room or has not ended.
pub fn outcome_text(
    alloc: Global,
    valued: bool,
    ended: &Ended,
    world: &World,
) -> Result<Vec<u8>, NoMemory>
    ensures { IfOk result (λ text. Some text.items ≡ spec.outcome_text valued ended.now world.now) }
{
    if valued {
        evaluation_text(alloc, ended, world)
    } else {
        end_text(alloc, ended, world)
    }
}
