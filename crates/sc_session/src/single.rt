// A run of both forms goes on by one instruction.
ghost use Rattle.std.specs.Prelude.{◌≡◌, true};
ghost use Rattle.sc_session.specs.Mixing as mixing;
ghost use Rattle.sc_session.specs.Single as spec;

use crate::hearing::mixed_heard_in;
use crate::mixing::mixed_state;
use crate::session::Session;
use crate::state::{State, put_state};
use sc_core_held::Text;
use sc_mixed::MixedRun;
use sc_session_forms::step_gone;
use sc_words::{Answer, StopAt};
use sc_world::Halt;
use std::alloc::Global;

// The state behind a step that halted the run so, or did not.
fn single_state(halt: Option<Halt>, run: MixedRun) -> State
    ensures { result ≡ spec.single_state halt run }
{
    match halt {
        Some(halt) => mixed_state(halt, run),
        None => State::PausedMixed(run),
    }
}

// A step that did not halt the run leaves it paused.
fn or_paused(halt: Option<Halt>) -> Halt {
    match halt {
        Some(halt) => halt,
        None => Halt::Paused(0),
    }
}

impl Session {
    // One instruction of compiled code is carried out.
    pub(crate) fn step_one(&mut self, alloc: Global) -> Answer
        requires { mixing.is_mixed self.old.state ≡ true }
        ensures { spec.CarriesOne self.old result self.new }
    {
        let Ok(texts) = self.going_texts(alloc) else {
            return Answer::NoMemory;
        };
        let Ok(stops) = self.going_stops(alloc) else {
            return Answer::NoMemory;
        };
        match self.take_mixed(alloc) {
            Some(run) => self.go_one(alloc, texts.as_slice(), stops.as_slice(), run),
            None => Answer::NoMemory,
        }
    }

    // A run of both forms, which was taken out, goes on by one.
    fn go_one(&mut self, alloc: Global, texts: &[Text], stops: &[StopAt], run: MixedRun) -> Answer
        requires { self.old.state ≡ State.Ended }
        ensures { spec.SingleGoes self.old texts.now stops.now run result self.new }
    {
        let valued = self.is_valued();
        match step_gone(alloc, texts, stops, valued, run) {
            Ok(told) => {
                let mut run = told.run;
                self.heard = mixed_heard_in(alloc, &mut run, or_paused(told.halt));
                put_state(&mut self.state, single_state(told.halt, run));
                self.catch_up();
                Answer::Ran(told.text)
            }
            Err(_) => Answer::NoMemory,
        }
    }
}
