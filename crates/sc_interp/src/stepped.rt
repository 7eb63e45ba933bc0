// What a step of a run leaves and shows (ANSI 2.1.2.3).
ghost use Rattle.std.specs.Prelude.{◌≡◌, List};
ghost use Rattle.sc_meaning.specs.World as worlds;
ghost use Rattle.sc_interp_machine.specs.Runs as runs;
ghost use Rattle.sc_interp.specs.Shows.{entry_shown};
ghost use Rattle.sc_interp.specs.Steps.{Is};

use crate::going::Going;

/// What a step shows to one who watches the run: a line is reached, or a function of a text is entered. It is of the innermost
/// call, as it is behind the step.
#[derive(Clone, Copy)]
pub enum Shown {
    Nothing,
    Line(u32),
    Entered,
}

/// What a step of the innermost body came to.
#[derive(Clone, Copy)]
pub enum Ran {
    /// It goes on, and shows this.
    On(Shown),
    /// A call goes out of its expression.
    Calls,
    /// It is left, in the way that is there.
    Leaves,
}

/// What is shown where a call that was to be made goes on so.
pub fn entry(going: &Going) -> Shown
    ensures { (s : runs.State) (cs : List runs.Caller) (w : worlds.World) → Is s going.now cs w → result ≡ entry_shown s }
{
    match going {
        Going::Runs(_, _, _, _) => Shown::Entered,
        Going::Makes(_, _, _, _) => Shown::Nothing,
        Going::Answers(_) => Shown::Nothing,
    }
}
