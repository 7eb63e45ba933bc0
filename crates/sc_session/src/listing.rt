// What a session lists and shows.
ghost use Rattle.std.specs.Prelude.{◌≡◌, ◌++◌, Some, IfOk, OnOk};
ghost use Rattle.sc_session.specs.Showing as spec;

use crate::choice::Choice;
use crate::present::{Present, texts_of};
use crate::state::State;
use crate::stops::Stop;
use sc_base::{Bytes, Duplicate, Form, Items, Name, NoMemory};
use sc_core_held::{Numbers, Text};
use sc_core_names::Scopes;
use sc_interp_world::World;
use sc_program::StaticId;
use sc_session_show::{fun_lines, print_line, put_module, where_lines};
use sc_session_texts::put;
use sc_words::{Answer, Denied, stop_line};
use std::alloc::Global;

fn state_line(state: &State) -> &'static [u8]
    ensures { result.now ≡ spec.state_line state.now }
{
    match state {
        State::Idle => b"> idle\n",
        State::Stopped(_) => b"> stopped\n",
        State::Paused(_) => b"> paused\n",
        State::StoppedMixed(_) => b"> stopped\n",
        State::PausedMixed(_) => b"> paused\n",
        State::Ended => b"> ended\n",
    }
}

fn put_stops(text: &mut Vec<u8>, alloc: Global, stops: &[Stop]) -> Result<(), NoMemory>
    ensures { OnOk result (text.new.items ≡ text.old.items ++ spec.stop_lines stops.now) }
{
    for s in stops {
        let line = stop_line(alloc, s.number, &s.place)?;
        put(text, line.as_slice())?;
    }
    Ok(())
}

fn object_word(choice: Choice) -> &'static [u8]
    ensures { result.now ≡ spec.object_word choice }
{
    match choice {
        Choice::Plain => b"object",
        Choice::Fast => b"fast",
    }
}

fn form_word(form: Form, choice: Choice) -> &'static [u8]
    ensures { result.now ≡ spec.form_word form choice }
{
    match form {
        Form::Source => b"source",
        Form::Object => object_word(choice),
    }
}

fn put_modules(text: &mut Vec<u8>, alloc: Global, modules: &[Present]) -> Result<(), NoMemory>
    ensures { OnOk result (text.new.items ≡ text.old.items ++ spec.module_lines modules.now) }
{
    for p in modules {
        let word = form_word(p.text.form, p.choice);
        put_module(text, alloc, &p.text.core.get().name, word)?;
    }
    Ok(())
}

/// The modules, the functions that they define, the stops, and the state: a line for each.
pub fn list_text(
    alloc: Global,
    modules: &[Present],
    numbers: &Numbers,
    stops: &[Stop],
    state: &State,
) -> Result<Bytes, NoMemory>
    ensures { IfOk result (λ text. text ≡ spec.listing modules.now numbers.now stops.now state.now) }
{
    let texts = texts_of(alloc, modules)?;
    let functions = fun_lines(alloc, texts.as_slice(), numbers)?;
    let mut text = Vec::new(alloc);
    put_modules(&mut text, alloc, modules)?;
    put(&mut text, functions.as_slice())?;
    put_stops(&mut text, alloc, stops)?;
    put(&mut text, state_line(state))?;
    Ok(Bytes::from_vec(text))
}

/// The answer to `where`.
pub fn calls_told(alloc: Global, texts: &[Text], world: &World) -> Answer
    ensures { spec.TellsCalls texts.now world.now result }
{
    match where_lines(alloc, texts, world) {
        Ok(lines) => Answer::Shown(lines),
        Err(_) => Answer::NoMemory,
    }
}

/// In which texts a name is looked up: those of which calls may be active, the present ones, and the objects that the next go has to bear
/// first.
#[derive(Drop)]
pub struct Sight {
    pub held: Items<Text>,
    pub present: Items<Text>,
    pub waiting: Items<StaticId>,
}

/// The answer to `print`, by what the text declares that the innermost call runs, where this object of the call is being initialised,
/// if one is.
pub fn value_told(
    alloc: Global,
    sight: &Sight,
    scopes: &Scopes,
    declaring: Option<u32>,
    world: &World,
    name: &Name,
) -> Answer
    ensures { spec.TellsValue sight.now (Some scopes.now) declaring world.now name.now result }
{
    let held = sight.held.as_slice();
    let present = sight.present.as_slice();
    let waiting = sight.waiting.as_slice();
    match print_line(
        alloc, held, present, waiting, scopes, declaring, world, name,
    ) {
        Ok(Some(line)) => Answer::Shown(line),
        Ok(None) => match name.copy(alloc) {
            Ok(name) => Answer::Refused(Denied::NotVisible(name)),
            Err(_) => Answer::NoMemory,
        },
        Err(_) => Answer::NoMemory,
    }
}
