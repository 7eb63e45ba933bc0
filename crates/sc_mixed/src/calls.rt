// The calls of a run, of both forms.
ghost use Rattle.std.specs.Prelude.{◌≡◌};

use sc_base::Stack;
use sc_emu::Regs;
use sc_interp::{Caller, Going, Shown};
use sc_meaning_values::Answer;

/// Calls that wait below the innermost ones of the other form. Interpreted calls wait for compiled code: with the stack pointer and the
/// number of active calls as it was called; no caller waits where the run began with compiled code. Compiled code waits for an interpreted call or the library: with
/// its registers, and what its outermost call gave, where that has left.
#[derive(Drop)]
pub enum Lower {
    InBodies {
        callers: Stack<Caller>,
        sp: u32,
        depth: usize,
    },
    InCode {
        regs: Regs,
        given: Option<Answer>,
    },
}

/// The calls of a run: the interpreted callers that wait above the innermost compiled call; what waits below; what the outermost
/// call of the innermost compiled code gave, where that has left; and the registers.
#[derive(Drop)]
pub struct Calls {
    pub callers: Stack<Caller>,
    pub lower: Stack<Lower>,
    pub given: Option<Answer>,
    pub regs: Regs,
}

/// What comes next: a step of interpreted calls; an instruction; or the service that the last instruction asked for.
#[derive(Drop)]
pub enum Next {
    Steps(Going),
    Executes,
    Serves(u32),
}

/// What a move shows, and how many turns it takes: one, and one more for each byte that it touches.
#[derive(Clone, Copy)]
pub struct Moved {
    pub shown: Shown,
    pub turns: u64,
}

impl Moved {
    /// A move that shows nothing and touches no byte.
    pub fn quietly() -> Moved
        ensures { result ≡ record { shown = Shown.Nothing; turns = 1 } }
    {
        Moved {
            shown: Shown::Nothing,
            turns: 1,
        }
    }
}
