// A session: the modules that are present, the stops, a run, and the commands that change them.
ghost use Rattle.std.specs.Prelude.{◌≡◌, ◌≤◌, true, false, [], None, Err, IfOk, MatchResult};
ghost use Rattle.sc_outside.specs.Causes.{Rose};
ghost use Rattle.sc_words.specs.Commands.{IsNamed};
ghost use Rattle.sc_words.specs.Parts.{is_module_name};
ghost use Rattle.sc_session.specs.Asking as asking;
ghost use Rattle.sc_session.specs.Changing as changing;
ghost use Rattle.sc_session.specs.Compiling as compiling;
ghost use Rattle.sc_session.specs.Going as going;
ghost use Rattle.sc_session.specs.Mixing as mixing;
ghost use Rattle.sc_session.specs.Modules.{texts};
ghost use Rattle.sc_session.specs.Plain.{Plain};
ghost use Rattle.sc_session.specs.Probing as probing;
ghost use Rattle.sc_session.specs.Showing as showing;
ghost use Rattle.sc_session.specs.States.{if_absent, refusal_of};
ghost use Rattle.sc_session.specs.Stopping as stopping;
ghost use Rattle.sc_session.specs.Transcript as spec;
ghost use Rattle.sc_session.specs.Transcript.{moment, BreaksOff, Does, Speaks};
ghost use Rattle.sc_world.specs.declared.post.Unsent.TheVariants as unsent;

use crate::asking::{Asked, Deed, Go, ask_for};
use crate::choice::Choice;
use crate::compiling::write_compiled;
use crate::going::{run_in, stays_in_line};
use crate::hearing::{Heard, nothing_taken, shown_machine, taken_in};
use crate::limits::Limits;
use crate::listing::{Sight, calls_told, list_text, value_told};
use crate::mixing::{is_mixed, mixed_calls_told, mixed_in, mixed_value_told};
use crate::present::{Present, object_named, texts_of};
use crate::refusal::{
    continuing, deleting, if_absent, if_no_probe, if_not_droppable, instructing, loading,
    machining, replacing, setting, starting, stepping, valuing,
};
use crate::state::{State, is_over, put_state};
use crate::stops::{Stop, delete_stop, put_stop};
use crate::versions::{kept_count, scopes_at, stays, texts_held, versions_from, versions_of};
use sc_base::{Bytes, Duplicate, Items, Name, NoMemory};
use sc_core_held::{Numbers, Text};
use sc_interp_world::Taken;
use sc_outside::{Files, Sink};
use sc_session_conflicts::waits;
use sc_words::{Answer, Command, Denied, Options, StopAt, Walk};
use sc_world::Unsent;
use std::alloc::Global;
use std::marker::Model;
use std::mem;

/// The modules that are present, in the order in which they were loaded; what they were before each change of a run that goes on, and how
/// many of these changes it has gone through; how many texts were loaded; the functions that have numbers; the stops; how a run
/// stands; the text of an evaluation; and how many probes there are. Beside that, whether some probe listens to a run that begins, and
/// what the last go recorded with the registers behind it.
#[derive(Drop)]
pub struct Session {
    pub(crate) limits: Limits,
    pub(crate) modules: Vec<Present>,
    pub(crate) past: Vec<Items<Present>>,
    pub(crate) come: usize,
    pub(crate) loaded: u32,
    pub(crate) numbers: Numbers,
    pub(crate) stops: Vec<Stop>,
    pub(crate) last: u32,
    pub(crate) state: State,
    pub(crate) evaluating: Option<Text>,
    pub(crate) in_line: bool,
    pub(crate) probes: usize,
    pub(crate) over: bool,
    pub(crate) listened: bool,
    pub(crate) heard: Heard,
}

impl Model for Session {
    ghost use Rattle.std.specs.Coded.{codes};
    ghost use Rattle.sc_isa_image.specs.contracts.image.Image as images;
    ghost use Rattle.sc_types.specs.contracts.ctype.CType as types;
    ghost use Rattle.sc_types.specs.contracts.ctype.Signature as signatures;
    ghost use Rattle.sc_core.specs.contracts.expression.CoreExpr as expressions;
    ghost use Rattle.sc_core.specs.contracts.statement.CoreStmt as statements;
    ghost use Rattle.sc_session.specs.Plain.{Plain};

    ghost Value = { Plain };

    ghost coded = { Prim.hlevel (codes, images.the_row.coded, types.the_row.coded, signatures.the_row.coded, expressions.the_row.coded, statements.the_row.coded) };

    ghost view = { λ s. record { limits = s.limits; modules = s.modules.items; past = s.past.items; come = s.come; loaded = s.loaded; numbers = s.numbers; stops = s.stops.items; last = s.last; state = s.state; evaluating = s.evaluating; in_line = s.in_line; probes = s.probes; over = s.over } };
}

impl Session {
    /// A session without a module, beside so many probes. Each of its runs has these bytes of stack and heap, and each go so many turns.
    pub fn new(alloc: Global, options: &Options, probes: usize) -> Self
        ensures { result ≡ spec.empty (spec.limits_of options.now) probes }
    {
        Session {
            limits: Limits {
                stack: options.stack,
                heap: options.heap,
                turns: options.turns,
            },
            modules: Vec::new(alloc),
            past: Vec::new(alloc),
            come: 0,
            loaded: 0,
            numbers: Numbers::new(alloc),
            stops: Vec::new(alloc),
            last: 0,
            state: State::Idle,
            evaluating: None,
            in_line: false,
            probes,
            over: false,
            listened: false,
            heard: Heard::nothing(alloc),
        }
    }

    /// Whether `quit` was accepted.
    pub fn is_over(&self) -> bool
        ensures { result ≡ self.now.over }
    {
        self.over
    }

    /// Whether a line of the program is open, so that an answer has to end it first.
    pub fn is_in_line(&self) -> bool
        ensures { result ≡ self.now.in_line }
    {
        self.in_line
    }

    /// An answer was given: no line is open behind it, but where a probe's text ends within one. A command without an answer leaves
    /// all as it is.
    pub fn tell(&mut self, said: &Answer)
        ensures { self.new ≡ spec.told said.now self.old }
    {
        self.in_line = is_open(self.in_line, said);
    }

    /// Whether some probe listens: a run that begins from here on is recorded, or is not.
    pub fn listen(&mut self, yes: bool)
        ensures { self.new ≡ self.old }
    {
        self.listened = yes;
    }

    /// What was recorded of the last go, and was not taken yet. Of a run that stays it is, where it is whole, the record of all that happened
    /// in the run since it was last taken.
    pub fn take_record(&mut self, alloc: Global) -> Taken
        ensures same { self.new ≡ self.old }
        ensures record { probing.IsRecordOf self.old.state result }
    {
        if !self.heard.due {
            return nothing_taken(alloc);
        }
        self.heard.due = false;
        match taken_in(&mut self.state) {
            Some(taken) => taken,
            None => mem::replace(&mut self.heard.record, nothing_taken(alloc)),
        }
    }

    /// Lets the session go, with all that it holds.
    pub fn close(self) {
        drop(self);
    }

    /// Carries out a command. A refused command leaves the session as it was, but that `run` forgets a run that ended. What the program
    /// writes goes out while it goes on, whenever much of it waits: the answer is what is left to be written behind it.
    ///
    /// # Errors
    ///
    /// `Unsent` where that could not be written.
    pub fn carry_out<K: Sink, F: Files>(
        &mut self,
        alloc: Global,
        command: Command,
        out: &mut K,
        files: &mut F,
    ) -> Result<Answer, Unsent>
        requires named { IsNamed command }
        requires running { self.old.over ≡ false }
        ensures step { MatchResult result (λ said. Speaks (K.written out.old) (K.written out.new) (moment self.old (F.held files.old) (F.faults files.old)) command said (moment self.new (F.held files.new) (F.faults files.new)))
            (λ _. BreaksOff (K.written out.old) (K.written out.new) (moment self.old (F.held files.old) (F.faults files.old)) command (F.held files.new)) }
        ensures out_later { K.faults out.old ≤ K.faults out.new }
        ensures failed { result ≡ Err unsent.Failed → Rose (K.faults out.old) (K.faults out.new) }
        ensures later { F.faults files.old ≤ F.faults files.new }
        ensures sources { compiling.KeepsSources (F.held files.old) (F.held files.new) }
    {
        match ask_for(command) {
            Asked::Go(go) => self.let_go(alloc, go, out, files),
            Asked::Do(deed) => Ok(self.undertake(alloc, deed, files)),
            Asked::Refused(denied) => Ok(Answer::Refused(denied)),
        }
    }

    // Lets the program go on, where that is not refused.
    fn let_go<K: Sink, F: Files>(
        &mut self,
        alloc: Global,
        go: Go,
        out: &mut K,
        files: &mut F,
    ) -> Result<Answer, Unsent>
        requires named { IsNamed (asking.go_command go) }
        ensures step { MatchResult result (λ said. Speaks (K.written out.old) (K.written out.new) (moment self.old (F.held files.old) (F.faults files.old)) (asking.go_command go) said (moment self.new (F.held files.new) (F.faults files.new)))
            (λ _. BreaksOff (K.written out.old) (K.written out.new) (moment self.old (F.held files.old) (F.faults files.old)) (asking.go_command go) (F.held files.new)) }
        ensures out_later { K.faults out.old ≤ K.faults out.new }
        ensures failed { result ≡ Err unsent.Failed → Rose (K.faults out.old) (K.faults out.new) }
        ensures later { F.faults files.old ≤ F.faults files.new }
        ensures held { F.held files.new ≡ F.held files.old }
    {
        self.ask(&go);
        match self.going_denied(&go) {
            Some(denied) => {
                drop(go);
                Ok(Answer::Refused(denied))
            }
            None => self.go_on(alloc, go, out, files),
        }
    }

    // A run that ended is forgotten as `run` is asked for.
    fn ask(&mut self, go: &Go)
        ensures { self.new ≡ spec.asked (asking.go_command go.now) self.old }
    {
        match go {
            Go::Run(_) => self.forget(),
            Go::Eval(..) => {}
            Go::Walk(_) => {}
            Go::One => {}
        }
    }

    // A run that ended is forgotten, with the text of an evaluation.
    pub(crate) fn forget(&mut self)
        ensures { self.new ≡ changing.forgotten self.old }
    {
        if is_over(&self.state) {
            self.rest();
            drop(self.evaluating.take());
        }
    }

    // There is no run any more.
    pub(crate) fn rest(&mut self)
        ensures { self.new ≡ changing.at_rest self.old }
    {
        self.past.clear();
        self.come = 0;
        put_state(&mut self.state, State::Idle);
    }

    // No change waits for the run any more.
    pub(crate) fn catch_up(&mut self)
        ensures { self.new ≡ changing.caught_up self.old }
    {
        self.come = kept_count(&self.past);
    }

    // Why the program cannot go on.
    fn going_denied(&self, go: &Go) -> Option<Denied>
        ensures { result ≡ refusal_of self.now (asking.go_command go.now) }
    {
        match go {
            Go::Run(_) => starting(&self.state),
            Go::Eval(name, _) => valuing(&self.state, name, self.modules.as_slice()),
            Go::Walk(walk) => self.walk_denied(*walk),
            Go::One => instructing(&self.state),
        }
    }

    fn walk_denied(&self, walk: Walk) -> Option<Denied>
        ensures { result ≡ refusal_of self.now (asking.walk_command walk) }
    {
        match walk {
            Walk::Step => stepping(&self.state),
            Walk::Next => stepping(&self.state),
            Walk::Cont => continuing(&self.state),
        }
    }

    // Lets the program go on.
    fn go_on<K: Sink, F: Files>(
        &mut self,
        alloc: Global,
        go: Go,
        out: &mut K,
        files: &mut F,
    ) -> Result<Answer, Unsent>
        requires named { IsNamed (asking.go_command go) }
        requires allowed { refusal_of self.old (asking.go_command go) ≡ None }
        ensures step { spec.GoesOut (K.written out.old) (K.written out.new) (moment self.old (F.held files.old) (F.faults files.old)) (asking.go_command go) result (moment self.new (F.held files.new) (F.faults files.new)) }
        ensures out_later { K.faults out.old ≤ K.faults out.new }
        ensures failed { result ≡ Err unsent.Failed → Rose (K.faults out.old) (K.faults out.new) }
        ensures later { F.faults files.old ≤ F.faults files.new }
        ensures held { F.held files.new ≡ F.held files.old }
    {
        match go {
            Go::Run(file) => self.run(alloc, file, out, files),
            Go::Eval(name, line) => self.eval(alloc, name, line, out),
            Go::Walk(walk) => self.walk(alloc, walk, out),
            Go::One => Ok(self.step_one(alloc)),
        }
    }

    // Does what no program goes on for, where that is not refused.
    fn undertake<F: Files>(&mut self, alloc: Global, deed: Deed, files: &mut F) -> Answer
        requires named { IsNamed (asking.deed_command deed) }
        ensures step { spec.AnswersTo (moment self.old (F.held files.old) (F.faults files.old)) (asking.deed_command deed) [] result (moment self.new (F.held files.new) (F.faults files.new)) }
        ensures later { F.faults files.old ≤ F.faults files.new }
        ensures sources { compiling.KeepsSources (F.held files.old) (F.held files.new) }
    {
        match self.deed_denied(&deed) {
            Some(denied) => {
                drop(deed);
                Answer::Refused(denied)
            }
            None => self.carry(alloc, deed, files),
        }
    }

    // Why something is refused before it is done.
    fn deed_denied(&self, deed: &Deed) -> Option<Denied>
        ensures { result ≡ refusal_of self.now (asking.deed_command deed.now) }
    {
        match deed {
            Deed::Nothing => None,
            Deed::Load(name) => loading(&self.state, name, self.modules.as_slice()),
            Deed::Unload(name) => replacing(&self.state, name, self.modules.as_slice()),
            Deed::Swap(name, _) => replacing(&self.state, name, self.modules.as_slice()),
            Deed::SwapFast(name) => replacing(&self.state, name, self.modules.as_slice()),
            Deed::Edit(name, _) => replacing(&self.state, name, self.modules.as_slice()),
            Deed::Compile(name) => if_absent(name, self.modules.as_slice()),
            Deed::CompileFast(name) => if_absent(name, self.modules.as_slice()),
            Deed::Stop(place) => setting(&self.state, place, self.modules.as_slice()),
            Deed::Delete(k) => deleting(&self.state, *k, self.stops.as_slice()),
            Deed::Frames => stepping(&self.state),
            Deed::Print(_) => stepping(&self.state),
            Deed::Machine => machining(&self.state),
            Deed::Disas(..) => None,
            Deed::Xref(_) => None,
            Deed::Whatis(_) => None,
            Deed::List => None,
            Deed::Report(k) => if_no_probe(*k, self.probes),
            Deed::Drop(k) => if_not_droppable(*k, self.probes),
            Deed::Reset => None,
            Deed::Quit => None,
        }
    }

    // Does what is not refused.
    fn carry<F: Files>(&mut self, alloc: Global, deed: Deed, files: &mut F) -> Answer
        requires named { IsNamed (asking.deed_command deed) }
        requires allowed { refusal_of self.old (asking.deed_command deed) ≡ None }
        ensures step { Does (moment self.old (F.held files.old) (F.faults files.old)) (asking.deed_command deed) result (moment self.new (F.held files.new) (F.faults files.new)) }
        ensures later { F.faults files.old ≤ F.faults files.new }
    {
        match deed {
            Deed::Nothing => Answer::Silent,
            Deed::Load(name) => self.load(alloc, name, files),
            Deed::Unload(name) => self.unload(alloc, name),
            Deed::Swap(name, form) => self.swap(alloc, name, form, files),
            Deed::SwapFast(name) => self.swap_to_object(alloc, name, Choice::Fast, files),
            Deed::Edit(name, file) => self.edit(alloc, name, file, files),
            Deed::Compile(name) => self.compile(alloc, name, Choice::Plain, files),
            Deed::CompileFast(name) => self.compile(alloc, name, Choice::Fast, files),
            Deed::Stop(place) => self.stop(alloc, place),
            Deed::Delete(k) => self.delete(k),
            Deed::Frames => self.frames(alloc),
            Deed::Print(name) => self.print(alloc, name),
            Deed::Machine => shown_machine(alloc, &self.heard.machine),
            Deed::Disas(home, fun) => self.disas(alloc, home, fun),
            Deed::Xref(name) => self.xref(alloc, name),
            Deed::Whatis(name) => self.whatis(alloc, name),
            Deed::List => self.list(alloc),
            Deed::Report(k) => self.report(alloc, k),
            Deed::Drop(k) => self.drop_probe(k),
            Deed::Reset => self.reset(),
            Deed::Quit => self.quit(),
        }
    }

    // Writes that object of a module to its file.
    fn compile<F: Files>(&self, alloc: Global, name: Name, choice: Choice, files: &mut F) -> Answer
        requires named { is_module_name name ≡ true }
        requires present { if_absent name (texts self.now.modules) ≡ None }
        ensures compiles { compiling.Compiles self.now (F.held files.old) (F.faults files.old) name choice result (F.held files.new) (F.faults files.new) }
        ensures later { F.faults files.old ≤ F.faults files.new }
    {
        match object_named(self.modules.as_slice(), &name, choice) {
            Some(object) => write_compiled(alloc, name, choice, object, files),
            None => unreachable!(),
        }
    }

    fn stop(&mut self, alloc: Global, place: StopAt) -> Answer
        ensures { stopping.Sets self.old place result self.new }
    {
        let Some(number) = self.last.checked_add(1) else {
            drop(place);
            return Answer::NoMemory;
        };
        let Ok(copy) = place.copy(alloc) else {
            drop(place);
            return Answer::NoMemory;
        };
        match put_stop(&mut self.stops, number, copy) {
            Ok(()) => {
                self.last = number;
                Answer::StopSet(number, place)
            }
            Err(_) => {
                drop(place);
                Answer::NoMemory
            }
        }
    }

    fn delete(&mut self, k: u32) -> Answer
        ensures answer { result ≡ Answer.Deleted k }
        ensures session { self.new ≡ stopping.without_stop k self.old }
    {
        delete_stop(&mut self.stops, k);
        Answer::Deleted(k)
    }

    // There is such a probe. Its text is put in by who has the probes.
    fn report(&self, alloc: Global, k: u32) -> Answer
        ensures { probing.Reports k result }
    {
        Answer::Reported(k, Bytes::from_vec(Vec::new(alloc)))
    }

    fn drop_probe(&mut self, k: u32) -> Answer
        ensures { probing.Drops k self.old result self.new }
    {
        self.probes = self.probes.saturating_sub(1);
        Answer::Dropped(k)
    }

    fn list(&self, alloc: Global) -> Answer
        ensures { showing.Lists self.now result }
    {
        match list_text(
            alloc,
            self.modules.as_slice(),
            &self.numbers,
            self.stops.as_slice(),
            &self.state,
        ) {
            Ok(lines) => Answer::Shown(lines),
            Err(_) => Answer::NoMemory,
        }
    }

    fn reset(&mut self) -> Answer
        ensures answer { result ≡ Answer.Reset }
        ensures session { self.new ≡ changing.at_rest self.old }
    {
        self.rest();
        Answer::Reset
    }

    fn quit(&mut self) -> Answer
        ensures answer { result ≡ Answer.Bye }
        ensures session { self.new ≡ record self.old { over = true } }
    {
        self.over = true;
        Answer::Bye
    }

    fn frames(&self, alloc: Global) -> Answer
        requires { mixing.IsActive self.now.state }
        ensures { mixing.ShowsCallsBy (mixing.is_mixed self.now.state) self.now result }
    {
        if is_mixed(&self.state) {
            self.mixed_frames(alloc)
        } else {
            self.source_frames(alloc)
        }
    }

    fn mixed_frames(&self, alloc: Global) -> Answer
        requires { mixing.is_mixed self.now.state ≡ true }
        ensures { mixing.MixedShowsCalls self.now result }
    {
        let run = mixed_in(&self.state);
        let past = self.past.as_slice();
        mixed_calls_told(alloc, past, self.modules.as_slice(), run.world())
    }

    fn source_frames(&self, alloc: Global) -> Answer
        requires { going.IsGoing self.now.state }
        ensures { showing.ShowsCalls self.now result }
    {
        let run = run_in(&self.state);
        let world = run.world();
        match texts_held(alloc, self.past.as_slice(), self.modules.as_slice()) {
            Ok(texts) => calls_told(alloc, texts.as_slice(), world),
            Err(_) => Answer::NoMemory,
        }
    }

    fn print(&self, alloc: Global, name: Name) -> Answer
        requires { mixing.IsActive self.now.state }
        ensures { mixing.ShowsValueBy (mixing.is_mixed self.now.state) self.now name result }
    {
        if is_mixed(&self.state) {
            self.mixed_value(alloc, name)
        } else {
            self.source_value(alloc, name)
        }
    }

    fn mixed_value(&self, alloc: Global, name: Name) -> Answer
        requires { mixing.is_mixed self.now.state ≡ true }
        ensures { mixing.MixedShowsValue self.now name result }
    {
        match self.sight(alloc) {
            Ok(sight) => self.mixed_value_in(alloc, &sight, name),
            Err(_) => {
                drop(name);
                Answer::NoMemory
            }
        }
    }

    fn mixed_value_in(&self, alloc: Global, sight: &Sight, name: Name) -> Answer
        requires mixed { mixing.is_mixed self.now.state ≡ true }
        requires sight { sight.now ≡ showing.sight_of self.now }
        ensures { mixing.MixedShowsValue self.now name result }
    {
        let run = mixed_in(&self.state);
        mixed_value_told(
            alloc,
            sight,
            self.past.as_slice(),
            self.modules.as_slice(),
            run.declaring(),
            run.world(),
            &name,
        )
    }

    fn source_value(&self, alloc: Global, name: Name) -> Answer
        requires { going.IsGoing self.now.state }
        ensures { showing.ShowsValue self.now name result }
    {
        let run = run_in(&self.state);
        let world = run.world();
        let declaring = run.declaring();
        match scopes_at(self.past.as_slice(), self.modules.as_slice(), world) {
            None => Answer::Refused(Denied::NotVisible(name)),
            Some(scopes) => match self.sight(alloc) {
                Ok(sight) => value_told(alloc, &sight, scopes, declaring, world, &name),
                Err(_) => Answer::NoMemory,
            },
        }
    }

    // In which texts a name is looked up.
    fn sight(&self, alloc: Global) -> Result<Sight, NoMemory>
        ensures { IfOk result (λ sight. sight ≡ showing.sight_of self.now) }
    {
        let past = self.past.as_slice();
        let modules = self.modules.as_slice();
        let versions = self.versions(alloc)?;
        Ok(Sight {
            held: texts_held(alloc, past, modules)?,
            present: texts_of(alloc, modules)?,
            waiting: waits(alloc, versions_from(versions.as_slice(), self.come))?,
        })
    }

    // The texts before each change of a run that stays, and the present ones.
    pub(crate) fn versions(&self, alloc: Global) -> Result<Items<Items<Text>>, NoMemory>
        ensures { IfOk result (λ versions. versions ≡ changing.versions self.now) }
    {
        let stayed = stays(&self.state);
        versions_of(alloc, stayed, self.past.as_slice(), self.modules.as_slice())
    }
}

/// Whether a command lets the program go on.
pub fn is_go(command: &Command) -> bool
    ensures { result ≡ spec.is_go command.now }
{
    matches!(
        command,
        Command::Run(_)
            | Command::Eval(..)
            | Command::Step
            | Command::Next
            | Command::Cont
            | Command::StepOne
    )
}

// Whether a line is open behind an answer, where one was open before it or not.
fn is_open(within: bool, said: &Answer) -> bool
    ensures { result ≡ spec.is_open within said.now }
{
    match said {
        Answer::Silent => within,
        Answer::Reported(_, text) => stays_in_line(false, text.as_slice()),
        _ => false,
    }
}

/// Whether nothing is answered.
pub fn is_silent(said: &Answer) -> bool
    ensures { result ≡ spec.is_silent said.now }
{
    matches!(said, Answer::Silent)
}
