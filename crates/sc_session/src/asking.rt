// What a command asks a session for.
ghost use Rattle.sc_session.specs.Asking as spec;

use sc_base::{Bytes, Form, Name};
use sc_words::{Command, Denied, StopAt, Walk};

/// The program goes on: a run begins, whose input is a file or nothing; an expression is evaluated in a module; or the run that stands goes on so, or by one instruction.
#[derive(Drop)]
pub enum Go {
    Run(Option<Name>),
    Eval(Name, Bytes),
    Walk(Walk),
    One,
}

/// Something is done, and no program goes on.
#[derive(Drop)]
pub enum Deed {
    Nothing,
    Load(Name),
    Unload(Name),
    Swap(Name, Form),
    SwapFast(Name),
    Edit(Name, Option<Name>),
    Compile(Name),
    CompileFast(Name),
    Stop(StopAt),
    Delete(u32),
    /// The active calls are shown.
    Frames,
    Print(Name),
    /// The registers are shown.
    Machine,
    /// The instructions of a compiled function are shown.
    Disas(Option<Name>, Name),
    /// The places of a name are shown.
    Xref(Name),
    /// The types of a name are shown.
    Whatis(Name),
    List,
    /// The text of a probe is shown.
    Report(u32),
    /// A probe is dropped.
    Drop(u32),
    Reset,
    Quit,
}

/// What a command asks for. One that says nothing a session could do is refused in each.
#[derive(Drop)]
pub enum Asked {
    Go(Go),
    Do(Deed),
    Refused(Denied),
}

/// What a command asks for.
pub fn ask_for(command: Command) -> Asked
    ensures { spec.AsksFor command result }
{
    match command {
        Command::Nothing => Asked::Do(Deed::Nothing),
        Command::Unknown => Asked::Refused(Denied::UnknownCommand),
        Command::BadArguments => Asked::Refused(Denied::BadArguments),
        Command::Load(name) => Asked::Do(Deed::Load(name)),
        Command::Unload(name) => Asked::Do(Deed::Unload(name)),
        Command::Swap(name, form) => Asked::Do(Deed::Swap(name, form)),
        Command::SwapFast(name) => Asked::Do(Deed::SwapFast(name)),
        Command::Edit(name, file) => Asked::Do(Deed::Edit(name, file)),
        Command::Compile(name) => Asked::Do(Deed::Compile(name)),
        Command::CompileFast(name) => Asked::Do(Deed::CompileFast(name)),
        Command::Run(file) => Asked::Go(Go::Run(file)),
        Command::Eval(name, line) => Asked::Go(Go::Eval(name, line)),
        Command::Stop(place) => Asked::Do(Deed::Stop(place)),
        Command::Delete(k) => Asked::Do(Deed::Delete(k)),
        Command::Step => Asked::Go(Go::Walk(Walk::Step)),
        Command::Next => Asked::Go(Go::Walk(Walk::Next)),
        Command::Cont => Asked::Go(Go::Walk(Walk::Cont)),
        Command::StepOne => Asked::Go(Go::One),
        Command::Frames => Asked::Do(Deed::Frames),
        Command::Print(name) => Asked::Do(Deed::Print(name)),
        Command::Machine => Asked::Do(Deed::Machine),
        Command::Disas(home, fun) => Asked::Do(Deed::Disas(home, fun)),
        Command::Xref(name) => Asked::Do(Deed::Xref(name)),
        Command::Whatis(name) => Asked::Do(Deed::Whatis(name)),
        Command::List => Asked::Do(Deed::List),
        Command::Report(k) => Asked::Do(Deed::Report(k)),
        Command::Drop(k) => Asked::Do(Deed::Drop(k)),
        Command::Reset => Asked::Do(Deed::Reset),
        Command::Quit => Asked::Do(Deed::Quit),
    }
}
