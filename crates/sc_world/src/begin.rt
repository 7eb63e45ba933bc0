// A run begins: static objects are born, and the entry is called (ANSI 2.1.2.2, 3.5.7).
ghost use Rattle.std.specs.Prelude.{◌≡◌, IfOk, List, Some};
ghost use Rattle.sc_meaning.specs.World as worlds;
ghost use Rattle.sc_interp_machine.specs.Runs as runs;
ghost use Rattle.sc_interp.specs.Steps.{Steps};
ghost use Rattle.sc_world.specs.Goes as goes;
ghost use Rattle.sc_world.specs.Standing.{standing};

use crate::course::Course;
use sc_base::{Key, NoMemory, Stack};
use sc_core_held::Text;
use sc_interp::{Caller, Going, call_entry, entry};
use sc_interp_access::{Ended, Stop};
use sc_interp_parts::statics_born;
use sc_interp_world::World;

/// From the births on, to where the call of the entry, the function with this key, went out.
///
/// # Errors
///
/// How the run ends in it.
pub fn begun(
    texts: &[Text],
    key: &Key,
    callers: &Stack<Caller>,
    world: &mut World,
) -> Result<Going, Stop>
    ensures { Steps (goes.first_from texts.now key.now callers.now world.old) result callers.now world.new }
{
    statics_born(texts, world)?;
    call_entry(texts, key, callers, world)
}

/// How a run that began so goes on, or that it is over at once.
///
/// # Errors
///
/// `NoMemory` where no room was left.
pub fn course_of(first: Result<Going, Stop>) -> Result<Course, NoMemory>
    ensures { IfOk result (λ course. (s : runs.State) (cs : List runs.Caller) (w : worlds.World) → Steps s first cs w → standing course cs w (record { steps = 0; turns = 0 }) ≡ Some (goes.first_standing s)) }
{
    match first {
        Ok(going) => {
            let shown = entry(&going);
            Ok(Course::On(going, shown))
        }
        Err(Stop::NoRoom) => Err(NoMemory),
        Err(Stop::Undefined(told)) => Ok(Course::Over(Ended::Undefined(told))),
        Err(Stop::Exit(status)) => Ok(Course::Over(Ended::Exit(status))),
        Err(Stop::StackFull(key)) => Ok(Course::Over(Ended::StackFull(key))),
        Err(Stop::BirthLimit) => Ok(Course::Over(Ended::BirthLimit)),
    }
}
