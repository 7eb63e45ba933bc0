// Steps one after another.
ghost use Rattle.std.specs.Prelude.{◌≡◌, Ok};
ghost use Rattle.sc_meaning.specs.Versions as versions;
ghost use Rattle.sc_meaning.specs.World as worlds;
ghost use Rattle.sc_interp_machine.specs.Runs as runs;
ghost use Rattle.sc_lib.specs.Quiet.{IsQuiet};
ghost use Rattle.sc_interp.specs.Steady as steady;
ghost use Rattle.sc_interp.specs.Steps.{Brings, Is};
ghost use Rattle.sc_interp.specs.Steps as course;

use crate::going::{Caller, Going};
use crate::step::step_run;
use sc_base::Stack;
use sc_core_held::Text;
use sc_interp_access::Stop;
use sc_interp_world::World;
use sc_meaning_values::Answer;

/// Where a run was brought: to the answer of its first call, or not so far in so many steps.
#[derive(Drop)]
pub enum Reached {
    Answer(Answer),
    Nowhere,
}

// Whether the run is over.
#[tactic(auto, using(crate::proofs::Whole::over_where))]
fn is_over(going: &Going, callers: &Stack<Caller>) -> bool
    ensures { (s : runs.State) (w : worlds.World) → Is s going.now callers.now w → result ≡ course.is_over s }
{
    match going {
        Going::Answers(_) => callers.is_empty(),
        Going::Runs(_, _, _, _) => false,
        Going::Makes(_, _, _, _) => false,
    }
}

// Where the run is.
#[tactic(auto, using(crate::proofs::Whole::goes_on))]
fn destination(going: Going, callers: &Stack<Caller>) -> Reached
    ensures { (s : runs.State) (w : worlds.World) → Is s going callers.now w → Brings s (Ok result) w }
{
    match going {
        Going::Answers(a) => {
            if callers.is_empty() {
                Reached::Answer(a)
            } else {
                Reached::Nowhere
            }
        }
        Going::Runs(doing, stmts, env, active) => {
            drop(doing);
            drop(stmts);
            drop(env);
            drop(active);
            Reached::Nowhere
        }
        Going::Makes(t, v, vs, caller) => {
            drop(t);
            drop(v);
            drop(vs);
            drop(caller);
            Reached::Nowhere
        }
    }
}

/// At most so many steps, as many as are given where the run is not over before.
///
/// # Errors
///
/// How the run ends in them.
pub fn drive(
    texts: &[Text],
    first: Going,
    callers: &mut Stack<Caller>,
    steps: u64,
    world: &mut World,
) -> Result<Reached, Stop>
    ensures { (h : versions.History) → IsQuiet h → (s : runs.State) → Is s first callers.old world.old → Brings (steady.ran steps h texts.now s) result world.new }
{
    let mut going = first;
    let mut left = steps;
    'stepping: while 0 < left {
        if is_over(&going, callers) {
            return Ok(destination(going, callers));
        }
        match step_run(texts, &mut going, callers, world) {
            Ok(_) => left -= 1,
            Err(stop) => {
                drop(going);
                return Err(stop);
            }
        }
    }
    Ok(destination(going, callers))
}
