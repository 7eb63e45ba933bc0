// Where a go leaves a run.
ghost use Rattle.std.specs.Prelude.{◌≡◌};
ghost use Rattle.sc_mixed.specs.Goes.{Goes};
ghost use Rattle.sc_mixed.specs.Parts as parts;
ghost use Rattle.sc_mixed.specs.Standing as spec;
ghost use Rattle.sc_mixed.specs.declared.course.Course.TheVariants.{Over};
ghost use Rattle.sc_mixed.specs.declared.ended.MixedEnd as ends;

use crate::broken::end_of;
use crate::calls::{Calls, Next};
use crate::course::Course;
use crate::rest::closed;
use crate::turn::{Turned, turns_taken};
use sc_core_held::Text;
use sc_interp::Shown;
use sc_interp_world::World;
use sc_isa_image::Image;
use sc_world::{Halt, Want};

/// Why a go halted, and how the run goes on from there, or ended.
#[derive(Drop)]
pub struct Rested {
    pub halt: Halt,
    pub course: Course,
}

// What the turns of a go came to.
#[tactic(auto, using(crate::proofs::Resting::rests_so, crate::proofs::Resting::ends_so))]
fn left_by(
    texts: &[Text],
    image: &Image,
    want: &Want,
    turned: Turned,
    next: Next,
    calls: &Calls,
    world: &mut World,
) -> Rested
    ensures { (first : spec.Standing) → parts.Comes texts.now image.now want.now first turned next calls.now world.old → Goes texts.now want.now first result.halt (parts.standing_at image.now calls.now world.new result.course) }
{
    match turned {
        Turned::Rests(halt) => Rested {
            halt,
            course: closed(next, calls, world),
        },
        Turned::Over(broken) => {
            drop(next);
            Rested {
                halt: Halt::Ended,
                course: Course::Over(end_of(broken)),
            }
        }
    }
}

// A go of a run that goes on.
fn goes_on(
    texts: &[Text],
    image: &Image,
    want: &Want,
    shown: Shown,
    mut next: Next,
    calls: &mut Calls,
    world: &mut World,
) -> Rested
    ensures { Goes texts.now want.now (spec.standing_on image.now calls.old world.old next shown) result.halt (parts.standing_at image.now calls.new world.new result.course) }
{
    let turned = turns_taken(texts, image, want, shown, &mut next, calls, world);
    left_by(texts, image, want, turned, next, calls, world)
}

/// A go of a run. One that is over stays so.
#[tactic(auto, using(crate::proofs::Resting::over_stays))]
pub fn goes_from(
    course: Course,
    texts: &[Text],
    image: &Image,
    want: &Want,
    calls: &mut Calls,
    world: &mut World,
) -> Rested
    ensures goes { Goes texts.now want.now (parts.standing_at image.now calls.old world.old course) result.halt (parts.standing_at image.now calls.new world.new result.course) }
    ensures over { (end : ends.MixedEnd) → course ≡ Over end → (result.course ≡ Over end) × (calls.new ≡ calls.old) × (world.new ≡ world.old) }
{
    match course {
        Course::Over(end) => Rested {
            halt: Halt::Ended,
            course: Course::Over(end),
        },
        Course::On(next, shown) => goes_on(texts, image, want, shown, next, calls, world),
    }
}
