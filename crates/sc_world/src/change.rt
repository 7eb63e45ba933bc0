// The texts of a run become others while it stands (ANSI 3.1.2.4).
ghost use Rattle.std.specs.Prelude.{◌≡◌, IfOk, List, Some};
ghost use Rattle.sc_meaning.specs.Outcomes as outcomes;
ghost use Rattle.sc_meaning.specs.World as worlds;
ghost use Rattle.sc_interp.specs.Ends.{end_of};
ghost use Rattle.sc_interp_access.specs.Gives.{ending_of};
ghost use Rattle.sc_interp_machine.specs.Runs as runs;
ghost use Rattle.sc_world.specs.Changing.{changed_run};
ghost use Rattle.sc_world.specs.Standing.{standing};
ghost use Rattle.sc_world.specs.declared.count.Count as counts;

use crate::course::Course;
use sc_base::NoMemory;
use sc_core_held::Text;
use sc_interp_access::{Ended, Stop};
use sc_interp_changes::change;
use sc_interp_world::World;

// How a run ended that could not go on.
fn ended_by(stop: Stop) -> Result<Ended, NoMemory>
    ensures { IfOk result (λ ended. (w : worlds.World) → (e : outcomes.Ending) × (ending_of stop w ≡ Some e) × (end_of ended w ≡ Some e)) }
{
    match stop {
        Stop::NoRoom => Err(NoMemory),
        Stop::Undefined(told) => Ok(Ended::Undefined(told)),
        Stop::Exit(status) => Ok(Ended::Exit(status)),
        Stop::StackFull(key) => Ok(Ended::StackFull(key)),
        Stop::BirthLimit => Ok(Ended::BirthLimit),
    }
}

/// How a run goes on as its texts become others: from the same place in a changed world, or it is over as one object too many
/// would be born. A run that is over stays as it is.
///
/// # Errors
///
/// `NoMemory` where no room was left. The world may be changed in part then.
pub fn changed(
    course: Course,
    old: &[Text],
    new: &[Text],
    world: &mut World,
) -> Result<Course, NoMemory>
    ensures { IfOk result (λ next. (cs : List runs.Caller) (c : counts.Count) → standing next cs world.new c ≡ changed_run old.now new.now (standing course cs world.old c)) }
{
    match course {
        Course::Over(ended) => Ok(Course::Over(ended)),
        Course::On(going, shown) => match change(old, new, world) {
            Ok(()) => Ok(Course::On(going, shown)),
            Err(stop) => {
                drop(going);
                Ok(Course::Over(ended_by(stop)?))
            }
        },
    }
}
