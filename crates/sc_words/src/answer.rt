// The texts of answers.
ghost use Rattle.std.specs.Prelude.{◌≡◌, ◌++◌, IfOk, OnOk, codes, decimal};
ghost use Rattle.sc_words.specs.Texts as spec;

use crate::denied::{Area, Denied};
use crate::stop::StopAt;
use sc_base::{Bytes, Form, Name, NoMemory, Refusal, X};
use std::alloc::Global;

/// What a command is answered.
#[derive(Debug, Drop)]
pub enum Answer {
    /// Nothing: the line has no answer.
    Silent,
    Loaded(Name),
    Unloaded(Name),
    Swapped(Name, Form),
    /// The module runs the text of the second compiler.
    SwappedFast(Name),
    Edited(Name),
    Compiled(Name),
    /// The object of the second compiler was written.
    CompiledFast(Name),
    /// A stop was set, with its number.
    StopSet(u32, StopAt),
    Deleted(u32),
    /// What a run wrote, and where it stopped, as a text.
    Ran(Bytes),
    /// What a command shows, as lines that are written already.
    Shown(Bytes),
    /// What the probe of a number tells, as a text: its lines, the last of which may lack its line feed.
    Reported(u32, Bytes),
    Dropped(u32),
    Reset,
    Bye,
    Refused(Denied),
    NoMemory,
}

// Puts bytes behind a text.
fn put(text: &mut Vec<u8>, bytes: &[u8]) -> Result<(), NoMemory>
    ensures { OnOk result (text.new.items ≡ text.old.items ++ bytes.now) }
{
    text.extend_from_slice(bytes)?;
    Ok(())
}

fn words(alloc: Global, bytes: &[u8]) -> Result<Vec<u8>, NoMemory>
    ensures { IfOk result (λ text. text.items ≡ bytes.now) }
{
    let text = Vec::from_slice(alloc, bytes)?;
    Ok(text)
}

// Words, and one behind them.
fn with_word(alloc: Global, front: &[u8], word: &[u8]) -> Result<Vec<u8>, NoMemory>
    ensures { IfOk result (λ text. text.items ≡ front.now ++ word.now) }
{
    let mut text = Vec::from_slice(alloc, front)?;
    put(&mut text, word)?;
    Ok(text)
}

// Words, and a number behind them.
fn with_number(alloc: Global, front: &[u8], number: u32) -> Result<Vec<u8>, NoMemory>
    ensures { IfOk result (λ text. text.items ≡ front.now ++ decimal number) }
{
    let digits = number.to_string(alloc)?;
    let mut text = Vec::from_slice(alloc, front)?;
    put(&mut text, digits.as_bytes())?;
    Ok(text)
}

// Words, and two behind them.
fn with_two(alloc: Global, front: &[u8], name: &Name, other: &Name) -> Result<Vec<u8>, NoMemory>
    ensures { IfOk result (λ text. text.items ≡ front.now ++ name.now ++ codes " " ++ other.now) }
{
    let mut text = Vec::from_slice(alloc, front)?;
    put(&mut text, name.as_slice())?;
    put(&mut text, b" ")?;
    put(&mut text, other.as_slice())?;
    Ok(text)
}

// A function behind the module that defines it, where one is named.
fn fun_text(alloc: Global, home: &Option<Name>, fun: &Name) -> Result<Vec<u8>, NoMemory>
    ensures { IfOk result (λ text. text.items ≡ spec.fun_text home.now fun.now) }
{
    let Some(home) = home else {
        return words(alloc, fun.as_slice());
    };
    let mut text = with_word(alloc, home.as_slice(), b":")?;
    put(&mut text, fun.as_slice())?;
    Ok(text)
}

// The kind of a refusal, with its word.
fn kind_text(alloc: Global, kind: &X) -> Result<Vec<u8>, NoMemory>
    ensures { IfOk result (λ text. text.items ≡ spec.kind_text kind.now) }
{
    match kind {
        X::X1 => words(alloc, b"X1"),
        X::X2 => words(alloc, b"X2"),
        X::X3 => words(alloc, b"X3"),
        X::X4 => words(alloc, b"X4"),
        X::X5 => words(alloc, b"X5"),
        X::X6 => words(alloc, b"X6"),
        X::X7 => words(alloc, b"X7"),
        X::X8 => words(alloc, b"X8"),
        X::X9(word) => with_word(alloc, b"X9 ", word.as_slice()),
        X::X10(word) => with_word(alloc, b"X10 ", word.as_slice()),
    }
}

fn refusal_text(alloc: Global, refusal: &Refusal) -> Result<Vec<u8>, NoMemory>
    ensures { IfOk result (λ text. text.items ≡ spec.refusal_text refusal.now) }
{
    let kind = kind_text(alloc, &refusal.kind)?;
    let line = refusal.line.to_string(alloc)?;
    let mut text = Vec::from_slice(alloc, b"C5 ")?;
    put(&mut text, kind.as_slice())?;
    put(&mut text, b" ")?;
    put(&mut text, refusal.file.as_slice())?;
    put(&mut text, b":")?;
    put(&mut text, line.as_bytes())?;
    Ok(text)
}

fn area_text(area: Area) -> &'static [u8]
    ensures { result.now ≡ spec.area_text area }
{
    match area {
        Area::Modules => b"C14 modules",
        Area::Stubs => b"C14 stubs",
        Area::Text => b"C14 text",
        Area::Static => b"C14 static",
    }
}

// Where a file is not the kept object, and that it is one of the first version, where it is.
fn not_ours_text(alloc: Global, at: u32, first: bool) -> Result<Vec<u8>, NoMemory>
    ensures { IfOk result (λ text. text.items ≡ codes "C9 " ++ decimal at ++ spec.version_text first) }
{
    let mut text = with_number(alloc, b"C9 ", at)?;
    if first {
        put(&mut text, b" version 1")?;
    }
    Ok(text)
}

fn denied_text(alloc: Global, denied: &Denied) -> Result<Vec<u8>, NoMemory>
    ensures { IfOk result (λ text. text.items ≡ spec.denied_text denied.now) }
{
    match denied {
        Denied::UnknownCommand => words(alloc, b"C1"),
        Denied::BadArguments => words(alloc, b"C2"),
        Denied::NoModule => words(alloc, b"C3"),
        Denied::ModuleThere => words(alloc, b"C4"),
        Denied::Translation(refusal) => refusal_text(alloc, refusal),
        Denied::Doubled(name, other) => with_two(alloc, b"C6 ", name, other),
        Denied::Clash(name, other) => with_two(alloc, b"C7 ", name, other),
        Denied::NoFile(file) => with_word(alloc, b"C8 ", file.as_slice()),
        Denied::NotOurs(at, first) => not_ours_text(alloc, *at, *first),
        Denied::RunActive => words(alloc, b"C10"),
        Denied::NoRun => words(alloc, b"C11"),
        Denied::NotAtStop => words(alloc, b"C12"),
        Denied::NoMain => words(alloc, b"C13"),
        Denied::Space(area) => words(alloc, area_text(*area)),
        Denied::FileFault(file) => with_word(alloc, b"C15 ", file.as_slice()),
        Denied::NotVisible(name) => with_word(alloc, b"C16 ", name.as_slice()),
        Denied::NoProbe(number) => with_number(alloc, b"C17 ", *number),
        Denied::NoStop(number) => with_number(alloc, b"C18 ", *number),
        Denied::TooLong(file) => with_word(alloc, b"C19 ", file.as_slice()),
        Denied::NotObject => words(alloc, b"C20"),
        Denied::NoText(home, fun) => {
            with_word(alloc, b"C21 ", fun_text(alloc, home, fun)?.as_slice())
        }
        Denied::NotDeclared(name) => with_word(alloc, b"C22 ", name.as_slice()),
    }
}

// A module, and its form.
fn swapped_text(alloc: Global, name: &Name, form: Form) -> Result<Vec<u8>, NoMemory>
    ensures { IfOk result (λ text. text.items ≡ name.now ++ spec.form_text form) }
{
    with_word(alloc, name.as_slice(), form_text(form))
}

// A module, and the word for the text of the second compiler.
fn fast_text(alloc: Global, name: &Name) -> Result<Vec<u8>, NoMemory>
    ensures { IfOk result (λ text. text.items ≡ name.now ++ codes " fast") }
{
    with_word(alloc, name.as_slice(), b" fast")
}

fn form_text(form: Form) -> &'static [u8]
    ensures { result.now ≡ spec.form_text form }
{
    match form {
        Form::Source => b" source",
        Form::Object => b" object",
    }
}

// A line of these words.
fn line_of(alloc: Global, front: &[u8], said: &[u8]) -> Result<Bytes, NoMemory>
    ensures { IfOk result (λ text. text ≡ front.now ++ said.now ++ codes "\n") }
{
    let mut text = Vec::from_slice(alloc, front)?;
    put(&mut text, said)?;
    put(&mut text, b"\n")?;
    Ok(Bytes::from_vec(text))
}

fn refused_line(alloc: Global, denied: &Denied) -> Result<Bytes, NoMemory>
    ensures { IfOk result (λ text. text ≡ codes "> refused " ++ spec.denied_text denied.now ++ codes "\n") }
{
    let said = denied_text(alloc, denied)?;
    line_of(alloc, b"> refused ", said.as_slice())
}

fn line_text(alloc: Global, home: &Name, line: u32) -> Result<Vec<u8>, NoMemory>
    ensures { IfOk result (λ text. text.items ≡ codes " at " ++ home.now ++ codes ":" ++ decimal line) }
{
    let digits = line.to_string(alloc)?;
    let mut text = with_word(alloc, b" at ", home.as_slice())?;
    put(&mut text, b":")?;
    put(&mut text, digits.as_bytes())?;
    Ok(text)
}

fn stop_text(alloc: Global, stop: &StopAt) -> Result<Vec<u8>, NoMemory>
    ensures { IfOk result (λ text. text.items ≡ spec.stop_text stop.now) }
{
    match stop {
        StopAt::InFun(module, fun) => {
            with_word(alloc, b" in ", fun_text(alloc, module, fun)?.as_slice())
        }
        StopAt::AtLine(module, line) => line_text(alloc, module, *line),
    }
}

/// A stop's line, with its number.
pub fn stop_line(alloc: Global, number: u32, stop: &StopAt) -> Result<Bytes, NoMemory>
    ensures { IfOk result (λ text. text ≡ codes "> stop " ++ decimal number ++ spec.stop_text stop.now ++ codes "\n") }
{
    let front = with_number(alloc, b"> stop ", number)?;
    let place = stop_text(alloc, stop)?;
    line_of(alloc, front.as_slice(), place.as_slice())
}

fn deleted_line(alloc: Global, number: u32) -> Result<Bytes, NoMemory>
    ensures { IfOk result (λ text. text ≡ codes "> deleted " ++ decimal number ++ codes "\n") }
{
    let digits = number.to_string(alloc)?;
    line_of(alloc, b"> deleted ", digits.as_bytes())
}

// A probe's number, and its text as it is.
fn report_text(alloc: Global, number: u32, text: &Bytes) -> Result<Bytes, NoMemory>
    ensures { IfOk result (λ report. report ≡ codes "> report " ++ decimal number ++ codes "\n" ++ text.now) }
{
    let mut report = with_number(alloc, b"> report ", number)?;
    put(&mut report, b"\n")?;
    put(&mut report, text.as_slice())?;
    Ok(Bytes::from_vec(report))
}

fn dropped_line(alloc: Global, number: u32) -> Result<Bytes, NoMemory>
    ensures { IfOk result (λ text. text ≡ codes "> dropped " ++ decimal number ++ codes "\n") }
{
    let digits = number.to_string(alloc)?;
    line_of(alloc, b"> dropped ", digits.as_bytes())
}

/// The text of an answer: one line behind `> `, or the lines that it carries.
pub fn answer_text(alloc: Global, answer: &Answer) -> Result<Bytes, NoMemory>
    ensures { IfOk result (λ text. text ≡ spec.text_of answer.now) }
{
    match answer {
        Answer::Silent => Ok(Bytes::from_vec(Vec::new(alloc))),
        Answer::Loaded(name) => line_of(alloc, b"> loaded ", name.as_slice()),
        Answer::Unloaded(name) => line_of(alloc, b"> unloaded ", name.as_slice()),
        Answer::Swapped(name, form) => line_of(
            alloc,
            b"> ",
            swapped_text(alloc, name, *form)?.as_slice(),
        ),
        Answer::SwappedFast(name) => line_of(alloc, b"> ", fast_text(alloc, name)?.as_slice()),
        Answer::Edited(name) => line_of(alloc, b"> edited ", name.as_slice()),
        Answer::Compiled(name) => line_of(alloc, b"> compiled ", name.as_slice()),
        Answer::CompiledFast(name) => {
            line_of(alloc, b"> compiled ", fast_text(alloc, name)?.as_slice())
        }
        Answer::StopSet(number, stop) => stop_line(alloc, *number, stop),
        Answer::Deleted(number) => deleted_line(alloc, *number),
        Answer::Ran(text) => Bytes::from_slice(alloc, text.as_slice()),
        Answer::Shown(lines) => Bytes::from_slice(alloc, lines.as_slice()),
        Answer::Reported(number, text) => report_text(alloc, *number, text),
        Answer::Dropped(number) => dropped_line(alloc, *number),
        Answer::Reset => Bytes::from_slice(alloc, b"> reset\n"),
        Answer::Bye => Bytes::from_slice(alloc, b"> bye\n"),
        Answer::Refused(denied) => refused_line(alloc, denied),
        Answer::NoMemory => Bytes::from_slice(alloc, b"> no memory\n"),
    }
}
