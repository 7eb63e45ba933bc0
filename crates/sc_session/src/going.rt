// A run of a session goes on.
ghost use Rattle.std.specs.Prelude.{◌≡◌, ◌≤◌, ◌++◌, ℕ, List, drop, take, true, Err, Some, IfErr, IfOk};
ghost use Rattle.sc_meaning.specs.Versions.{callee_of};
ghost use Rattle.sc_outside.specs.Causes.{Rose};
ghost use Rattle.sc_session_texts.specs.Ends as ends;
ghost use Rattle.sc_session.specs.Going as spec;
ghost use Rattle.sc_session.specs.Modules.{texts};
ghost use Rattle.sc_session.specs.declared.going.Lost.TheVariants as lost;
ghost use Rattle.sc_world.specs.declared.post.Unsent.TheVariants as unsent;

use crate::hearing::{Heard, heard_in};
use crate::present::{Present, texts_of};
use crate::state::State;
use sc_base::{Bytes, Key, NoMemory};
use sc_core_held::{Callee, Text, callee_of};
use sc_interp::main_key;
use sc_interp_access::Ended;
use sc_interp_world::World;
use sc_outside::Sink;
use sc_session_texts::{entered_text, line_text, outcome_text, put, stop_text};
use sc_words::{StopAt, Walk};
use sc_world::{Halt, Halted, Run, Unsent, behind};
use std::alloc::Global;

/// What is told of a go, the state behind it, and what it recorded.
#[derive(Drop)]
pub struct Told {
    pub text: Bytes,
    pub state: State,
    pub heard: Heard,
}

/// Whether a module defines `main`, with external linkage.
pub fn has_main(alloc: Global, modules: &[Present]) -> Result<bool, NoMemory>
    ensures { IfOk result (λ yes. yes ≡ spec.has_main (texts modules.now)) }
{
    let texts = texts_of(alloc, modules)?;
    let key = main_key(alloc)?;
    Ok(is_found(texts.as_slice(), &key))
}

fn is_found(texts: &[Text], key: &Key) -> bool
    ensures { result ≡ spec.is_found (callee_of texts.now key.now) }
{
    match callee_of(texts, key) {
        Callee::Missing => false,
        Callee::InLibrary(_) => true,
        Callee::InText(_, _) => true,
    }
}

// How a run ended. One that is over says so.
fn ended_text(alloc: Global, valued: bool, run: &Run, world: &World) -> Result<Vec<u8>, NoMemory>
    ensures { IfOk result (λ text. spec.Says valued Halt.Ended run.now world.now text.items) }
{
    match run.end() {
        Some(ended) => outcome_text(alloc, valued, ended, world),
        None => Err(NoMemory),
    }
}

// Where a run halted, by whether it is an evaluation.
fn said(
    alloc: Global,
    valued: bool,
    halt: Halt,
    run: &Run,
    world: &World,
) -> Result<Vec<u8>, NoMemory>
    ensures { IfOk result (λ text. spec.Says valued halt run.now world.now text.items) }
{
    match halt {
        Halt::Entered => entered_text(alloc, world),
        Halt::AtLine => line_text(alloc, world),
        Halt::Ended => ended_text(alloc, valued, run, world),
        Halt::Paused(turns) => stop_text(alloc, turns, &Ended::OutOfSteps, world),
    }
}

// A line that is not ended yet is ended before an answer.
fn line_end_after(bytes: &[u8]) -> &'static [u8]
    ensures { result.now ≡ ends.line_end_after bytes.now }
{
    match bytes.last() {
        None => b"",
        Some(b) => { if *b == 10 { b"" } else { b"\n" } }
    }
}

// What a go wrote and did not send yet, and the answer's line behind all that it wrote.
fn rest_on_new_line(
    alloc: Global,
    shown: &[u8],
    waiting: &[u8],
    said: &[u8],
) -> Result<Vec<u8>, NoMemory>
    ensures { IfOk result (λ text. (front : List ℕ) → shown.now ≡ front ++ waiting.now → front ++ text.items ≡ ends.on_new_line shown.now said.now) }
{
    let mut text = Vec::from_slice(alloc, waiting)?;
    put(&mut text, line_end_after(shown))?;
    put(&mut text, b"> ")?;
    put(&mut text, said)?;
    put(&mut text, b"\n")?;
    Ok(text)
}

// The text on a go that halted so, behind what went out of it: the run stands here, and so many bytes had been written before.
fn told_text(
    alloc: Global,
    valued: bool,
    before: usize,
    halted: Halted,
    run: &Run,
) -> Result<Bytes, NoMemory>
    ensures { IfOk result (λ text. spec.ToldBehind valued before halted.sent halted.halt run.now text) }
{
    let world = run.world();
    let said = said(alloc, valued, halted.halt, run, world)?;
    let shown = behind(world.output(), before);
    let waiting = behind(world.output(), halted.sent);
    let text = rest_on_new_line(alloc, shown, waiting, said.as_slice())?;
    Ok(Bytes::from_vec(text))
}

fn state_after(halt: Halt, run: Run) -> State
    ensures { result ≡ spec.state_after halt run }
{
    match halt {
        Halt::Entered => State::Stopped(run),
        Halt::AtLine => State::Stopped(run),
        Halt::Ended => {
            drop(run);
            State::Ended
        }
        Halt::Paused(_) => State::Paused(run),
    }
}

/// Why nothing is told of a go: no memory was left, and a line is open or not behind what the program wrote; or that did not
/// go out.
#[derive(Clone, Copy)]
pub enum Lost {
    NoMemory(bool),
    Unsent(Unsent),
}

// Whether a line is open behind bytes; one was or was not before them.
pub fn stays_in_line(before: bool, bytes: &[u8]) -> bool
    ensures { result ≡ spec.stays_in_line before bytes.now }
{
    match bytes.last() {
        None => before,
        Some(b) => *b != 10,
    }
}

// Bytes from one place up to another.
fn between(bytes: &[u8], from: usize, to: usize) -> &[u8]
    ensures { result.now ≡ drop from (take to bytes.now) }
{
    if to >= bytes.len() {
        return behind(bytes, from);
    }
    let (first, _) = bytes.split_at(to);
    behind(first, from)
}

// Whether an end says where the run stands.
fn is_told(ended: &Ended) -> bool
    ensures { result ≡ spec.is_told ended.now }
{
    match ended {
        Ended::OutOfSteps => false,
        Ended::NoRoom => false,
        Ended::Exit(_) => true,
        Ended::Undefined(_) => true,
        Ended::StackFull(_) => true,
        Ended::BirthLimit => true,
    }
}

// Whether it is known where a run stands.
fn is_known(run: &Run) -> bool
    ensures { result ≡ true → spec.IsKnown run.now }
{
    match run.end() {
        None => true,
        Some(ended) => is_told(ended),
    }
}

// Nothing is told of a go that halted so. Where bytes of a run went out of which nothing is known, no answer can stand behind them.
fn untold(before: usize, halted: Halted, run: &Run, within: bool) -> Lost
    ensures { spec.IsUntold before halted.sent within run.now result }
{
    if halted.sent <= before {
        return Lost::NoMemory(within);
    }
    if !is_known(run) {
        return Lost::Unsent(Unsent::NoMemory);
    }
    let sent = between(run.world().output(), before, halted.sent);
    Lost::NoMemory(stays_in_line(within, sent))
}

/// One go of a run, which is an evaluation or not: what is told of it behind what it sent, and the state behind it. A line was open before it, or not.
///
/// # Errors
///
/// `Lost`; the run is let go then. The sink has the first of what the program writes in the go.
pub fn gone<K: Sink>(
    alloc: Global,
    texts: &[Text],
    stops: &[StopAt],
    walk: Walk,
    turns: u64,
    valued: bool,
    within: bool,
    mut run: Run,
    out: &mut K,
) -> Result<Told, Lost>
    ensures went { IfOk result (λ g. spec.Gains (K.written out.old) (K.written out.new) (λ front. spec.Went texts.now stops.now walk turns valued run front g.text g.state)) }
    ensures lost { IfErr result (λ l. spec.Loses (K.written out.old) (K.written out.new) (λ front. spec.IsFirstOf texts.now stops.now walk turns run front) within l) }
    ensures later { K.faults out.old ≤ K.faults out.new }
    ensures failed { result ≡ Err (lost.Unsent unsent.Failed) → Rose (K.faults out.old) (K.faults out.new) }
{
    let before = run.world().output().len();
    match run.go(texts, stops, walk, turns, out) {
        Ok(halted) => match told_text(alloc, valued, before, halted, &run) {
            Ok(text) => {
                let heard = heard_in(alloc, &mut run, halted.halt);
                Ok(Told {
                    text,
                    state: state_after(halted.halt, run),
                    heard,
                })
            }
            Err(_) => {
                let lost = untold(before, halted, &run, within);
                drop(run);
                Err(lost)
            }
        },
        Err(unsent) => {
            drop(run);
            Err(Lost::Unsent(unsent))
        }
    }
}

/// The run of interpreted modules that goes on in a state.
pub fn run_in(state: &State) -> &Run
    requires { spec.IsGoing state.now }
    ensures { spec.RunsIn state.now result.now }
{
    match state {
        State::Idle => unreachable!(),
        State::Stopped(run) => run,
        State::Paused(run) => run,
        State::StoppedMixed(_) => unreachable!(),
        State::PausedMixed(_) => unreachable!(),
        State::Ended => unreachable!(),
    }
}

/// The run of interpreted modules that goes on in a state, taken out of it.
pub fn run_out_of(state: State) -> Run
    requires { spec.IsGoing state }
    ensures { spec.RunsIn state result }
{
    match state {
        State::Idle => unreachable!(),
        State::Stopped(run) => run,
        State::Paused(run) => run,
        State::StoppedMixed(_) => unreachable!(),
        State::PausedMixed(_) => unreachable!(),
        State::Ended => unreachable!(),
    }
}
