// What is said of where a run of both forms halted.
ghost use Rattle.std.specs.Prelude.{◌≡◌, ◌<◌, ◌++◌, Some, IfOk, OnOk, codes};
ghost use Rattle.sc_session_forms.specs.Halts as spec;

use sc_base::{Bytes, NoMemory};
use sc_core_held::Text;
use sc_emu::Crash;
use sc_interp_access::Ended;
use sc_interp_world::World;
use sc_mixed::{MixedEnd, MixedRun};
use sc_session_texts::{entered_text, line_text, on_new_line, outcome_text, put, stop_text};
use sc_words::{StopAt, Walk};
use sc_world::{Halt, behind};
use std::alloc::Global;

/// A go of a run of both forms: what is told of it, why it halted, and the run.
#[derive(Drop)]
pub struct MixedTold {
    pub text: Bytes,
    pub halt: Halt,
    pub run: MixedRun,
}

fn digit(d: u8) -> u8
    requires { d < 16 }
    ensures { result ≡ spec.digit d }
{
    if d < 10 { 48 + d } else { 87 + d }
}

// A hexadecimal digit of 32 bits.
fn digit_of(n: u32, unit: u32) -> u8
    requires { 0 < unit }
    ensures { result ≡ spec.digit_of n unit }
{
    digit((n / unit % 16) as u8)
}

pub(crate) fn put_hexadecimal(text: &mut Vec<u8>, n: u32) -> Result<(), NoMemory>
    ensures { OnOk result (text.new.items ≡ text.old.items ++ spec.hexadecimal n) }
{
    let digits = [
        digit_of(n, 268_435_456),
        digit_of(n, 16_777_216),
        digit_of(n, 1_048_576),
        digit_of(n, 65_536),
        digit_of(n, 4096),
        digit_of(n, 256),
        digit_of(n, 16),
        digit_of(n, 1),
    ];
    put(text, &digits)
}

fn cause_text(cause: Crash) -> &'static [u8]
    ensures { result.now ≡ spec.cause_text cause }
{
    match cause {
        Crash::BadFetch => b" cause 1",
        Crash::Misfetch => b" cause 2",
        Crash::Illegal => b" cause 3",
        Crash::Misaligned => b" cause 4",
        Crash::Outside => b" cause 5",
        Crash::Service => b" cause 6",
    }
}

fn crash_text(alloc: Global, at: u32, cause: Crash) -> Result<Vec<u8>, NoMemory>
    ensures { IfOk result (λ text. text.items ≡ codes "crashed at " ++ spec.hexadecimal at ++ spec.cause_text cause) }
{
    let mut text = Vec::new(alloc);
    put(&mut text, b"crashed at ")?;
    put_hexadecimal(&mut text, at)?;
    put(&mut text, cause_text(cause))?;
    Ok(text)
}

fn mixed_end_text(
    alloc: Global,
    valued: bool,
    ended: &MixedEnd,
    world: &World,
) -> Result<Vec<u8>, NoMemory>
    ensures { IfOk result (λ text. Some text.items ≡ spec.mixed_end_text valued ended.now world.now) }
{
    match ended {
        MixedEnd::Meant(ended) => outcome_text(alloc, valued, ended, world),
        MixedEnd::Crashed(at, cause) => crash_text(alloc, *at, *cause),
    }
}

// How a run ended. One that is over says so.
fn ended_text(alloc: Global, valued: bool, run: &MixedRun) -> Result<Vec<u8>, NoMemory>
    ensures { IfOk result (λ text. spec.MixedSays valued Halt.Ended run.now text.items) }
{
    match run.end() {
        Some(ended) => mixed_end_text(alloc, valued, ended, run.world()),
        None => Err(NoMemory),
    }
}

/// Where a run halted, by whether it is an evaluation.
pub(crate) fn said(
    alloc: Global,
    valued: bool,
    halt: Halt,
    run: &MixedRun,
) -> Result<Vec<u8>, NoMemory>
    ensures { IfOk result (λ text. spec.MixedSays valued halt run.now text.items) }
{
    match halt {
        Halt::Entered => entered_text(alloc, run.world()),
        Halt::AtLine => line_text(alloc, run.world()),
        Halt::Ended => ended_text(alloc, valued, run),
        Halt::Paused(turns) => stop_text(alloc, turns, &Ended::OutOfSteps, run.world()),
    }
}

// The text on a go that halted so: so many bytes had been written before it.
fn told_text(
    alloc: Global,
    valued: bool,
    before: usize,
    halt: Halt,
    run: &MixedRun,
) -> Result<Bytes, NoMemory>
    ensures { IfOk result (λ text. spec.MixedTells valued before halt run.now text) }
{
    let said = said(alloc, valued, halt, run)?;
    let shown = behind(run.output(), before);
    let text = on_new_line(alloc, shown, said.as_slice())?;
    Ok(Bytes::from_vec(text))
}

/// One go of a run of both forms, which is an evaluation or not: what the program wrote in it, and where it halted.
///
/// # Errors
///
/// `NoMemory`, also where the run found no room; the run is let go then.
pub fn mixed_gone(
    alloc: Global,
    texts: &[Text],
    stops: &[StopAt],
    walk: Walk,
    turns: u64,
    valued: bool,
    mut run: MixedRun,
) -> Result<MixedTold, NoMemory>
    ensures { IfOk result (λ g. spec.MixedGone texts.now stops.now walk turns valued run g.halt g.run g.text) }
{
    let before = run.output().len();
    let halt = run.go(texts, stops, walk, turns);
    match told_text(alloc, valued, before, halt, &run) {
        Ok(text) => Ok(MixedTold { text, halt, run }),
        Err(_) => {
            drop(run);
            Err(NoMemory)
        }
    }
}
