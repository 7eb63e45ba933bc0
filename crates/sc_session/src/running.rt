// A session's run begins and goes on.
ghost use Rattle.std.specs.Prelude.{◌≡◌, ◌≤◌, true, Err, MatchOption};
ghost use Rattle.sc_meaning.specs.Behaviour.{main_key};
ghost use Rattle.sc_outside.specs.Causes.{Rose};
ghost use Rattle.sc_words.specs.Commands.{IsFile};
ghost use Rattle.sc_session_forms.specs.Forms as forms;
ghost use Rattle.sc_session.specs.Going as going;
ghost use Rattle.sc_session.specs.Linking as linking;
ghost use Rattle.sc_session.specs.Mixing as mixing;
ghost use Rattle.sc_session.specs.Modules.{texts};
ghost use Rattle.sc_session.specs.Transcript as spec;
ghost use Rattle.sc_session.specs.Transcript.{moment};
ghost use Rattle.sc_world.specs.declared.post.Unsent.TheVariants as unsent;

use crate::going::{Lost, gone, has_main, run_out_of};
use crate::hearing::mixed_heard_in;
use crate::input::{Input, input_of};
use crate::linking::{ImageFault, linked};
use crate::mixing::{is_fresh, is_mixed, mixed_go_through, mixed_out_of, mixed_state};
use crate::placing::placed_versions;
use crate::present::texts_of;
use crate::relinking::{Plan, placed_from};
use crate::session::Session;
use crate::state::{State, put_state};
use crate::versions::{go_through, versions_from};
use sc_base::{Items, Key, Name, NoMemory};
use sc_core_held::Text;
use sc_interp::main_key;
use sc_interp_world::Layout;
use sc_isa_image::Image;
use sc_mixed::{MixedRun, layout_placed};
use sc_outside::{Files, Sink};
use sc_session_forms::{are_sources, functions_by, mixed_gone};
use sc_words::{Answer, Denied, StopAt, Walk};
use sc_world::{Run, Unsent};
use std::alloc::Global;
use std::mem;

impl Session {
    // The run goes on from where it stands.
    pub(crate) fn walk<K: Sink>(
        &mut self,
        alloc: Global,
        walk: Walk,
        out: &mut K,
    ) -> Result<Answer, Unsent>
        requires { mixing.IsActive self.old.state }
        ensures walks { spec.WalksOutBy (mixing.is_mixed self.old.state) (K.written out.old) (K.written out.new) self.old walk result self.new }
        ensures later { K.faults out.old ≤ K.faults out.new }
        ensures failed { result ≡ Err unsent.Failed → Rose (K.faults out.old) (K.faults out.new) }
    {
        if is_mixed(&self.state) {
            Ok(self.walk_mixed(alloc, walk))
        } else {
            self.walk_source(alloc, walk, out)
        }
    }

    fn walk_mixed(&mut self, alloc: Global, walk: Walk) -> Answer
        requires { mixing.is_mixed self.old.state ≡ true }
        ensures { mixing.MixedWalks self.old walk result self.new }
    {
        let Ok(texts) = self.going_texts(alloc) else {
            return Answer::NoMemory;
        };
        let Ok(stops) = self.going_stops(alloc) else {
            return Answer::NoMemory;
        };
        match self.take_mixed(alloc) {
            Some(run) => self.go_mixed(alloc, texts.as_slice(), stops.as_slice(), walk, run),
            None => Answer::NoMemory,
        }
    }

    // A run of both forms is taken out of the session, and goes through the changes that wait for it. Where no memory is left it is over,
    // or all stays.
    pub(crate) fn take_mixed(&mut self, alloc: Global) -> Option<MixedRun>
        requires { mixing.is_mixed self.old.state ≡ true }
        ensures { MatchOption result (going.IsGivenUp self.old self.new) (λ run. mixing.TakesMixed self.old run self.new) }
    {
        let Ok(versions) = self.versions(alloc) else {
            return None;
        };
        let Ok(plan) = self.plan_heard(alloc, versions.as_slice().len()) else {
            return None;
        };
        let mut run = mixed_out_of(mem::replace(&mut self.state, State::Ended));
        match mixed_go_through(
            &mut run,
            versions_from(versions.as_slice(), self.come),
            placed_from(plan.placed.as_slice(), self.come),
            plan.functions.as_slice(),
        ) {
            Ok(()) => Some(run),
            Err(_) => {
                drop(run);
                None
            }
        }
    }

    // A run of both forms goes on.
    fn go_mixed(
        &mut self,
        alloc: Global,
        texts: &[Text],
        stops: &[StopAt],
        walk: Walk,
        run: MixedRun,
    ) -> Answer
        requires { self.old.state ≡ State.Ended }
        ensures { mixing.MixedGoes self.old texts.now stops.now walk run result self.new }
    {
        let valued = self.is_valued();
        match mixed_gone(alloc, texts, stops, walk, self.limits.turns, valued, run) {
            Ok(told) => {
                let mut run = told.run;
                self.heard = mixed_heard_in(alloc, &mut run, told.halt);
                put_state(&mut self.state, mixed_state(told.halt, run));
                self.catch_up();
                Answer::Ran(told.text)
            }
            Err(_) => Answer::NoMemory,
        }
    }

    fn walk_source<K: Sink>(
        &mut self,
        alloc: Global,
        walk: Walk,
        out: &mut K,
    ) -> Result<Answer, Unsent>
        requires { going.IsGoing self.old.state }
        ensures walks { going.WalksOut (K.written out.old) (K.written out.new) self.old walk result self.new }
        ensures later { K.faults out.old ≤ K.faults out.new }
        ensures failed { result ≡ Err unsent.Failed → Rose (K.faults out.old) (K.faults out.new) }
    {
        let Ok(texts) = self.going_texts(alloc) else {
            return Ok(Answer::NoMemory);
        };
        let Ok(stops) = self.going_stops(alloc) else {
            return Ok(Answer::NoMemory);
        };
        let valued = self.is_valued();
        let Some(run) = self.take_run(alloc) else {
            return Ok(Answer::NoMemory);
        };
        match gone(
            alloc,
            texts.as_slice(),
            stops.as_slice(),
            walk,
            self.limits.turns,
            valued,
            self.in_line,
            run,
            out,
        ) {
            Ok(told) => {
                self.heard = told.heard;
                put_state(&mut self.state, told.state);
                self.catch_up();
                Ok(Answer::Ran(told.text))
            }
            Err(lost) => match lost {
                Lost::NoMemory(within) => {
                    self.in_line = within;
                    Ok(Answer::NoMemory)
                }
                Lost::Unsent(unsent) => Err(unsent),
            },
        }
    }

    // The run is taken out of the session, and goes through the changes that wait for it. Where no memory is left it is over, or all
    // stays.
    fn take_run(&mut self, alloc: Global) -> Option<Run>
        requires { going.IsGoing self.old.state }
        ensures { MatchOption result (going.IsGivenUp self.old self.new) (λ run. going.TakesRun self.old run self.new) }
    {
        let Ok(versions) = self.versions(alloc) else {
            return None;
        };
        let Ok(plan) = self.plan_heard(alloc, versions.as_slice().len()) else {
            return None;
        };
        let mut run = run_out_of(mem::replace(&mut self.state, State::Ended));
        match go_through(
            &mut run,
            versions_from(versions.as_slice(), self.come),
            placed_from(plan.placed.as_slice(), self.come),
            plan.functions.as_slice(),
        ) {
            Ok(()) => Some(run),
            Err(_) => {
                drop(run);
                None
            }
        }
    }

    pub(crate) fn run<K: Sink, F: Files>(
        &mut self,
        alloc: Global,
        file: Option<Name>,
        out: &mut K,
        files: &mut F,
    ) -> Result<Answer, Unsent>
        requires { IsFile file }
        ensures runs { spec.RunsOutBy (forms.are_sources (texts self.old.modules)) (K.written out.old) (K.written out.new) (moment self.old (F.held files.old) (F.faults files.old)) file result (moment self.new (F.held files.new) (F.faults files.new)) }
        ensures out_later { K.faults out.old ≤ K.faults out.new }
        ensures failed { result ≡ Err unsent.Failed → Rose (K.faults out.old) (K.faults out.new) }
        ensures later { F.faults files.old ≤ F.faults files.new }
        ensures held { F.held files.new ≡ F.held files.old }
    {
        let Ok(texts) = texts_of(alloc, self.modules.as_slice()) else {
            return Ok(Answer::NoMemory);
        };
        if are_sources(texts.as_slice()) {
            self.run_sources(alloc, file, out, files)
        } else {
            Ok(self.run_mixed(alloc, file, files))
        }
    }

    // Runs a program that has modules in object form.
    fn run_mixed<F: Files>(&mut self, alloc: Global, file: Option<Name>, files: &mut F) -> Answer
        requires { IsFile file }
        ensures runs { spec.MixedRuns (moment self.old (F.held files.old) (F.faults files.old)) file result (moment self.new (F.held files.new) (F.faults files.new)) }
        ensures later { F.faults files.old ≤ F.faults files.new }
        ensures held { F.held files.new ≡ F.held files.old }
    {
        match has_main(alloc, self.modules.as_slice()) {
            Ok(true) => self.run_mixed_with(alloc, file, files),
            Ok(false) => Answer::Refused(Denied::NoMain),
            Err(_) => Answer::NoMemory,
        }
    }

    fn run_mixed_with<F: Files>(
        &mut self,
        alloc: Global,
        file: Option<Name>,
        files: &mut F,
    ) -> Answer
        requires file { IsFile file }
        requires main { going.has_main (texts self.old.modules) ≡ true }
        ensures runs { spec.MixedRuns (moment self.old (F.held files.old) (F.faults files.old)) file result (moment self.new (F.held files.new) (F.faults files.new)) }
        ensures later { F.faults files.old ≤ F.faults files.new }
        ensures held { F.held files.new ≡ F.held files.old }
    {
        match input_of(alloc, &file, files) {
            Input::Bytes(bytes) => self.start_main_mixed(alloc, bytes),
            Input::Denied(denied) => Answer::Refused(denied),
            Input::NoMemory => Answer::NoMemory,
        }
    }

    // The run of a program of both forms goes from its start on, by a call of `main`.
    fn start_main_mixed(&mut self, alloc: Global, input: Items<u8>) -> Answer
        ensures { mixing.MixedBegins self.old main_key input result self.new }
    {
        match main_key(alloc) {
            Ok(key) => self.start_mixed(alloc, &key, input),
            Err(_) => {
                drop(input);
                Answer::NoMemory
            }
        }
    }

    // It goes from its start on, by a call of the function with this key.
    pub(crate) fn start_mixed(&mut self, alloc: Global, key: &Key, input: Items<u8>) -> Answer
        ensures { mixing.MixedBegins self.old key.now input result self.new }
    {
        match linked(alloc, self.modules.as_slice(), &self.numbers) {
            Ok(image) => self.start_in(alloc, key, image, input),
            Err(_) => {
                drop(input);
                Answer::NoMemory
            }
        }
    }

    // The same in an image.
    fn start_in(&mut self, alloc: Global, key: &Key, image: Image, input: Items<u8>) -> Answer
        requires { linking.IsImage self.old.modules self.old.numbers image }
        ensures { mixing.MixedBegins self.old key.now input result self.new }
    {
        let Ok(texts) = self.going_texts(alloc) else {
            return Answer::NoMemory;
        };
        let Ok(stops) = self.going_stops(alloc) else {
            return Answer::NoMemory;
        };
        let stack = u64::from(self.limits.stack);
        let heap = u64::from(self.limits.heap);
        let Ok(run) = MixedRun::start(
            alloc,
            texts.as_slice(),
            image,
            key,
            stack,
            heap,
            input,
            self.listened,
        ) else {
            return Answer::NoMemory;
        };
        // No start of a run writes: this cannot be.
        if !is_fresh(&run) {
            drop(run);
            return Answer::NoMemory;
        }
        put_state(&mut self.state, State::Ended);
        self.go_mixed(alloc, texts.as_slice(), stops.as_slice(), Walk::Cont, run)
    }

    // Runs a program whose modules are all interpreted.
    fn run_sources<K: Sink, F: Files>(
        &mut self,
        alloc: Global,
        file: Option<Name>,
        out: &mut K,
        files: &mut F,
    ) -> Result<Answer, Unsent>
        requires { IsFile file }
        ensures runs { spec.RunsOut (K.written out.old) (K.written out.new) (moment self.old (F.held files.old) (F.faults files.old)) file result (moment self.new (F.held files.new) (F.faults files.new)) }
        ensures out_later { K.faults out.old ≤ K.faults out.new }
        ensures failed { result ≡ Err unsent.Failed → Rose (K.faults out.old) (K.faults out.new) }
        ensures later { F.faults files.old ≤ F.faults files.new }
        ensures held { F.held files.new ≡ F.held files.old }
    {
        match has_main(alloc, self.modules.as_slice()) {
            Ok(true) => self.run_with(alloc, file, out, files),
            Ok(false) => Ok(Answer::Refused(Denied::NoMain)),
            Err(_) => Ok(Answer::NoMemory),
        }
    }

    // Runs a program that has a `main`.
    fn run_with<K: Sink, F: Files>(
        &mut self,
        alloc: Global,
        file: Option<Name>,
        out: &mut K,
        files: &mut F,
    ) -> Result<Answer, Unsent>
        requires file { IsFile file }
        requires main { going.has_main (texts self.old.modules) ≡ true }
        ensures runs { spec.RunsOut (K.written out.old) (K.written out.new) (moment self.old (F.held files.old) (F.faults files.old)) file result (moment self.new (F.held files.new) (F.faults files.new)) }
        ensures out_later { K.faults out.old ≤ K.faults out.new }
        ensures failed { result ≡ Err unsent.Failed → Rose (K.faults out.old) (K.faults out.new) }
        ensures later { F.faults files.old ≤ F.faults files.new }
        ensures held { F.held files.new ≡ F.held files.old }
    {
        match input_of(alloc, &file, files) {
            Input::Bytes(bytes) => self.start_main(alloc, bytes, out),
            Input::Denied(denied) => Ok(Answer::Refused(denied)),
            Input::NoMemory => Ok(Answer::NoMemory),
        }
    }

    // Where the program stands in memory: where its image would have it.
    fn layout_heard(&self, alloc: Global) -> Result<Layout, NoMemory> {
        let functions = functions_by(alloc, &self.numbers)?;
        // The modules were found to have room as they were loaded: a fault is memory.
        let Ok(versions) = placed_versions(
            alloc,
            &[],
            self.modules.as_slice(),
            functions.as_slice(),
        ) else {
            return Err(NoMemory);
        };
        match versions.as_slice().last() {
            None => Err(NoMemory),
            Some(placed) => layout_placed(alloc, placed.as_slice(), functions.as_slice()),
        }
    }

    // Where the modules of so many versions are placed, where the run has not come to the last of them; else nothing is asked of it.
    fn plan_heard(&self, alloc: Global, versions: usize) -> Result<Plan, ImageFault> {
        if self.come.saturating_add(1) < versions {
            self.plan(alloc)
        } else {
            Ok(Plan::nowhere(alloc))
        }
    }

    // The run of the program goes from its start on, by a call of `main`.
    fn start_main<K: Sink>(
        &mut self,
        alloc: Global,
        input: Items<u8>,
        out: &mut K,
    ) -> Result<Answer, Unsent>
        ensures begins { going.BeginsOut (K.written out.old) (K.written out.new) self.old main_key input result self.new }
        ensures later { K.faults out.old ≤ K.faults out.new }
        ensures failed { result ≡ Err unsent.Failed → Rose (K.faults out.old) (K.faults out.new) }
    {
        match main_key(alloc) {
            Ok(key) => self.start(alloc, &key, input, out),
            Err(_) => {
                drop(input);
                Ok(Answer::NoMemory)
            }
        }
    }

    // It goes from its start on, by a call of the function with this key.
    pub(crate) fn start<K: Sink>(
        &mut self,
        alloc: Global,
        key: &Key,
        input: Items<u8>,
        out: &mut K,
    ) -> Result<Answer, Unsent>
        ensures begins { going.BeginsOut (K.written out.old) (K.written out.new) self.old key.now input result self.new }
        ensures later { K.faults out.old ≤ K.faults out.new }
        ensures failed { result ≡ Err unsent.Failed → Rose (K.faults out.old) (K.faults out.new) }
    {
        let Ok(texts) = self.going_texts(alloc) else {
            return Ok(Answer::NoMemory);
        };
        let Ok(stops) = self.going_stops(alloc) else {
            return Ok(Answer::NoMemory);
        };
        let stack = u64::from(self.limits.stack);
        let heap = u64::from(self.limits.heap);
        let Ok(layout) = self.layout_heard(alloc) else {
            return Ok(Answer::NoMemory);
        };
        let valued = self.is_valued();
        let Ok(run) = Run::start(
            alloc,
            texts.as_slice(),
            key,
            stack,
            heap,
            input,
            layout,
            self.listened,
        ) else {
            return Ok(Answer::NoMemory);
        };
        put_state(&mut self.state, State::Ended);
        match gone(
            alloc,
            texts.as_slice(),
            stops.as_slice(),
            Walk::Cont,
            self.limits.turns,
            valued,
            self.in_line,
            run,
            out,
        ) {
            Ok(told) => {
                self.heard = told.heard;
                put_state(&mut self.state, told.state);
                Ok(Answer::Ran(told.text))
            }
            Err(lost) => match lost {
                Lost::NoMemory(within) => {
                    self.in_line = within;
                    Ok(Answer::NoMemory)
                }
                Lost::Unsent(unsent) => Err(unsent),
            },
        }
    }
}
