// What a go recorded, and what is answered from it.
ghost use Rattle.std.specs.Prelude.{◌≡◌, None, false, MatchOption};
ghost use Rattle.sc_session.specs.Probing as spec;

use crate::state::State;
use sc_base::Items;
use sc_interp_world::{Machine, Taken};
use sc_mixed::MixedRun;
use sc_session_forms::machine_lines;
use sc_words::Answer;
use sc_world::{Halt, Run};
use std::alloc::Global;

/// What a go recorded, where some probe listens: whether it is still to be handed on; the record of a run that ended, since that of one that
/// stays is in the run; and the registers behind the go.
#[derive(Drop)]
pub struct Heard {
    pub due: bool,
    pub record: Taken,
    pub machine: Machine,
}

/// Nothing was recorded.
pub fn nothing_taken(alloc: Global) -> Taken
    ensures { result.whole ≡ false }
{
    Taken {
        entries: Items::new(alloc),
        before: 0,
        whole: false,
    }
}

impl Heard {
    /// Nothing was recorded, and no instruction was carried out.
    pub fn nothing(alloc: Global) -> Heard {
        Heard {
            due: false,
            record: nothing_taken(alloc),
            machine: Machine::new(),
        }
    }
}

/// What a go of a run of interpreted modules recorded that halted so.
pub fn heard_in(alloc: Global, run: &mut Run, halt: Halt) -> Heard
    ensures { run.new ≡ run.old }
{
    let machine = run.machine();
    let record = match halt {
        Halt::Ended => run.take_record(),
        Halt::Entered | Halt::AtLine | Halt::Paused(_) => nothing_taken(alloc),
    };
    Heard {
        due: true,
        record,
        machine,
    }
}

/// What a go of a run of both forms recorded that halted so.
pub fn mixed_heard_in(alloc: Global, run: &mut MixedRun, halt: Halt) -> Heard
    ensures { run.new ≡ run.old }
{
    let machine = run.machine();
    let record = match halt {
        Halt::Ended => run.take_record(),
        Halt::Entered | Halt::AtLine | Halt::Paused(_) => nothing_taken(alloc),
    };
    Heard {
        due: true,
        record,
        machine,
    }
}

/// The record of a run that stays.
pub fn taken_in(state: &mut State) -> Option<Taken>
    ensures same { state.new ≡ state.old }
    ensures taken { MatchOption result (spec.staying state.old ≡ None) (λ taken. spec.IsRecordOf state.old taken) }
{
    match state {
        State::Stopped(run) => Some(run.take_record()),
        State::Paused(run) => Some(run.take_record()),
        State::StoppedMixed(run) => Some(run.take_record()),
        State::PausedMixed(run) => Some(run.take_record()),
        State::Idle => None,
        State::Ended => None,
    }
}

/// The answer to `machine`.
pub fn shown_machine(alloc: Global, machine: &Machine) -> Answer
    ensures { spec.ShowsMachine result }
{
    match machine_lines(alloc, machine) {
        Ok(lines) => Answer::Shown(lines),
        Err(_) => Answer::NoMemory,
    }
}
