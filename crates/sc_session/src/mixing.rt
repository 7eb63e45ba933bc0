// A run of both forms in a session.
ghost use Rattle.std.specs.Prelude.{◌≡◌, true, [], IfOk};
ghost use Rattle.sc_interp_world.specs.Outputs.{output};
ghost use Rattle.sc_session_forms.specs.Calls as calls;
ghost use Rattle.sc_session.specs.Mixing as spec;
ghost use Rattle.sc_session.specs.Changing as held;

use crate::listing::Sight;
use crate::present::Present;
use crate::state::State;
use crate::versions::{compiled_held, scopes_held, texts_held};
use sc_base::{Bytes, Duplicate, Items, Key, Name, NoMemory};
use sc_core_held::Text;
use sc_image::Placements;
use sc_interp_world::{Frame, World};
use sc_mixed::MixedRun;
use sc_session_forms::{call_lines, innermost_source};
use sc_session_show::print_line_in;
use sc_words::{Answer, Denied};
use sc_world::Halt;
use std::alloc::Global;

/// Whether a run of both forms goes on in a state.
pub fn is_mixed(state: &State) -> bool
    ensures { result ≡ spec.is_mixed state.now }
{
    match state {
        State::StoppedMixed(_) => true,
        State::PausedMixed(_) => true,
        State::Idle => false,
        State::Stopped(_) => false,
        State::Paused(_) => false,
        State::Ended => false,
    }
}

/// The run of both forms that goes on in a state.
pub fn mixed_in(state: &State) -> &MixedRun
    requires { spec.is_mixed state.now ≡ true }
    ensures { spec.MixedIn state.now result.now }
{
    match state {
        State::StoppedMixed(run) => run,
        State::PausedMixed(run) => run,
        State::Idle => unreachable!(),
        State::Stopped(_) => unreachable!(),
        State::Paused(_) => unreachable!(),
        State::Ended => unreachable!(),
    }
}

/// The run of both forms that goes on in a state, taken out of it.
pub fn mixed_out_of(state: State) -> MixedRun
    requires { spec.is_mixed state ≡ true }
    ensures { spec.MixedIn state result }
{
    match state {
        State::StoppedMixed(run) => run,
        State::PausedMixed(run) => run,
        State::Idle => unreachable!(),
        State::Stopped(_) => unreachable!(),
        State::Paused(_) => unreachable!(),
        State::Ended => unreachable!(),
    }
}

/// Whether the program of a run wrote nothing yet.
pub fn is_fresh(run: &MixedRun) -> bool
    ensures { result ≡ true → output run.now.world.trail ≡ [] }
{
    match run.output() {
        [] => true,
        [_, ..] => false,
    }
}

/// The state behind a go that halted so.
pub fn mixed_state(halt: Halt, run: MixedRun) -> State
    ensures { result ≡ spec.mixed_state halt run }
{
    match halt {
        Halt::Entered => State::StoppedMixed(run),
        Halt::AtLine => State::StoppedMixed(run),
        Halt::Ended => {
            drop(run);
            State::Ended
        }
        Halt::Paused(_) => State::PausedMixed(run),
    }
}

fn call_text(
    alloc: Global,
    past: &[Items<Present>],
    modules: &[Present],
    world: &World,
) -> Result<Bytes, NoMemory>
    ensures { IfOk result (λ text. text ≡ calls.call_lines (held.texts_held past.now modules.now) (held.compiled_held past.now modules.now) world.now.frames) }
{
    let texts = texts_held(alloc, past, modules)?;
    let compiled = compiled_held(alloc, past, modules)?;
    call_lines(alloc, texts.as_slice(), compiled.as_slice(), world)
}

/// The answer to `where`.
pub fn mixed_calls_told(
    alloc: Global,
    past: &[Items<Present>],
    modules: &[Present],
    world: &World,
) -> Answer
    ensures { spec.MixedTellsCalls past.now modules.now world.now result }
{
    match call_text(alloc, past, modules, world) {
        Ok(lines) => Answer::Shown(lines),
        Err(_) => Answer::NoMemory,
    }
}

// What a name stands for in a call.
fn value_in(
    alloc: Global,
    sight: &Sight,
    past: &[Items<Present>],
    modules: &[Present],
    declaring: Option<u32>,
    world: &World,
    name: &Name,
    f: &Frame,
) -> Result<Option<Bytes>, NoMemory>
    ensures { IfOk result (λ line. line ≡ spec.value_by sight.now (held.scopes_held past.now modules.now f.now.text) declaring world.now name.now f.now) }
{
    match scopes_held(past, modules, f.text) {
        None => Ok(None),
        Some(scopes) => {
            let texts = sight.held.as_slice();
            let present = sight.present.as_slice();
            let waiting = sight.waiting.as_slice();
            print_line_in(
                alloc, texts, present, waiting, scopes, declaring, world, name, f,
            )
        }
    }
}

// What a name stands for in the innermost interpreted call.
fn value_line(
    alloc: Global,
    sight: &Sight,
    past: &[Items<Present>],
    modules: &[Present],
    declaring: Option<u32>,
    world: &World,
    name: &Name,
) -> Result<Option<Bytes>, NoMemory>
    ensures { IfOk result (λ line. line ≡ spec.value_among sight.now past.now modules.now declaring world.now name.now (calls.source_calls world.now.frames)) }
{
    match innermost_source(world) {
        None => Ok(None),
        Some(f) => value_in(alloc, sight, past, modules, declaring, world, name, f),
    }
}

// The answer that a line is, or that there is none.
fn line_told(alloc: Global, line: Option<Bytes>, name: &Name) -> Answer
    ensures { spec.TellsLine line name.now result }
{
    match line {
        Some(line) => Answer::Shown(line),
        None => match name.copy(alloc) {
            Ok(name) => Answer::Refused(Denied::NotVisible(name)),
            Err(_) => Answer::NoMemory,
        },
    }
}

/// The answer to `print`, where this object of the innermost call is being initialised, if one is.
pub fn mixed_value_told(
    alloc: Global,
    sight: &Sight,
    past: &[Items<Present>],
    modules: &[Present],
    declaring: Option<u32>,
    world: &World,
    name: &Name,
) -> Answer
    ensures { spec.MixedTellsValue sight.now past.now modules.now declaring world.now name.now result }
{
    match value_line(alloc, sight, past, modules, declaring, world, name) {
        Ok(line) => line_told(alloc, line, name),
        Err(_) => Answer::NoMemory,
    }
}

fn mixed_through(
    run: &mut MixedRun,
    first: &Items<Text>,
    later: &[Items<Text>],
    placed: &[Placements],
    functions: &[Key],
) -> Result<(), NoMemory>
    ensures { IfOk result (λ _. spec.MixedThrough first.now later.now run.old run.new) }
{
    let mut old = first;
    let mut rest = placed;
    for new in later {
        let [p, more @ ..] = rest else {
            return Err(NoMemory);
        };
        run.change(old.as_slice(), new.as_slice(), p.as_slice(), functions)?;
        old = new;
        rest = more;
    }
    Ok(())
}

/// A run of the first of some versions goes through the others, whose modules are placed so.
///
/// # Errors
///
/// `NoMemory`. Nothing is known of the run then.
pub fn mixed_go_through(
    run: &mut MixedRun,
    versions: &[Items<Text>],
    placed: &[Placements],
    functions: &[Key],
) -> Result<(), NoMemory>
    ensures { IfOk result (λ _. spec.MixedGoneThrough versions.now run.old run.new) }
{
    match versions {
        [] => Ok(()),
        [first, later @ ..] => mixed_through(run, first, later, placed, functions),
    }
}
