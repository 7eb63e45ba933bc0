// Which object a run initialises where it stands.
ghost use Rattle.std.specs.Prelude.{◌≡◌, List, Some};
ghost use Rattle.sc_interp_machine.specs.Runs.{Caller as Waiting};
ghost use Rattle.sc_meaning.specs.World.{World};
ghost use Rattle.sc_world.specs.Declaring as spec;
ghost use Rattle.sc_world.specs.declared.count.Count.{Count};
ghost use Rattle.sc_world.specs.Standing.{Standing, standing, state_of};

use crate::course::Course;
use sc_interp::Going;
use sc_interp_machine::Doing;
use sc_interp_parts::id_of;

fn declaring_by(doing: &Doing) -> Option<u32>
    ensures { result ≡ spec.declaring_by doing.now }
{
    match doing {
        Doing::Pieces(p, _) => Some(id_of(p)),
        _ => None,
    }
}

fn declaring_in(going: &Going) -> Option<u32>
    ensures { (cs : List Waiting) (w : World) → result ≡ spec.declaring_at (state_of going.now cs w) }
{
    match going {
        Going::Runs(doing, _, _, _) => declaring_by(doing),
        Going::Makes(_, _, _, _) => None,
        Going::Answers(_) => None,
    }
}

/// The object whose initialiser comes next where a run stands.
pub fn declaring_of(course: &Course) -> Option<u32>
    ensures { (cs : List Waiting) (w : World) (c : Count) (m : Standing) → standing course.now cs w c ≡ Some m → result ≡ spec.declaring_at m.state }
{
    match course {
        Course::On(going, _) => declaring_in(going),
        Course::Over(_) => None,
    }
}
