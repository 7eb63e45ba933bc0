// What a line asks for.
ghost use Rattle.std.specs.Prelude.{◌≡◌, true, [], ◌∷◌, IfOk, OnErr, IfSome, IfNone, Some, None, option_map};
ghost use Rattle.sc_words.specs.Lines.{words_of};
ghost use Rattle.sc_words.specs.Parts.{is_module_name, parts_of};
ghost use Rattle.sc_words.specs.Commands.{command_of, command_by, alone, load_of, unload_of, swap_of, swap_by, swap_to, form_of, is_fast, edit_of, compile_of, run_of, stop_of, function_of, in_function, at_line, number_alone, delete_of, report_of, drop_of, name_alone, print_of, xref_of, whatis_of, eval_of, disas_of, is_comment, IsNamed, IsAnswered};

use crate::line::next_word;
use crate::part::{
    is_file_name, is_identifier, is_module_name, is_numeral, name_of, parts_of, small_number_of,
};
use crate::stop::StopAt;
use crate::verb::{Verb, verb_of};
use sc_base::{Bytes, Form, Name, NoMemory};
use std::alloc::Global;

/// The most bytes that a command's line may have.
pub const MAX_COMMAND_LEN: usize = 1024;

/// What a line asks for. A module's name is a letter and up to 30 letters, digits or underscores; a file is 1 to 63
/// letters, digits, `_`, `.` or `-`, and does not begin with `.` or `-`.
#[derive(Debug, Drop)]
pub enum Command {
    /// A line without words, or a comment.
    Nothing,
    /// `load M`
    Load(Name),
    /// `unload M`
    Unload(Name),
    /// `swap M source`, or `swap M object`
    Swap(Name, Form),
    /// `swap M fast`
    SwapFast(Name),
    /// `edit M`, or `edit M FILE`
    Edit(Name, Option<Name>),
    /// `compile M`
    Compile(Name),
    /// `compile M fast`
    CompileFast(Name),
    /// `run`, or `run FILE`
    Run(Option<Name>),
    /// `stop in F`, `stop in M:F` or `stop at M:N`
    Stop(StopAt),
    /// `delete K`
    Delete(u32),
    Step,
    Next,
    Cont,
    /// `stepi`
    StepOne,
    /// `where`
    Frames,
    /// `print NAME`
    Print(Name),
    List,
    Machine,
    /// `disas F` or `disas M:F`
    Disas(Option<Name>, Name),
    /// `xref NAME`
    Xref(Name),
    /// `whatis NAME`
    Whatis(Name),
    /// `eval M E`: the module, and the text of the expression
    Eval(Name, Bytes),
    /// `report K`
    Report(u32),
    /// `drop K`
    Drop(u32),
    Reset,
    Quit,
    /// The first word is no command.
    Unknown,
    /// The further words are not the command's, or the line is too long.
    BadArguments,
}

/// What a line asks for, without the line feed at its end.
pub fn read_command(alloc: Global, line: &[u8]) -> Result<Command, NoMemory>
    ensures command { IfOk result (λ command. command ≡ command_of line.now) }
    ensures named { IfOk result IsNamed }
    ensures no_memory { OnErr result (IsAnswered (command_of line.now)) }
{
    let Some((word, rest)) = next_word(line) else {
        return Ok(Command::Nothing);
    };
    if is_comment(word) {
        return Ok(Command::Nothing);
    }
    let Some(verb) = verb_of(word) else {
        return Ok(Command::Unknown);
    };
    if line.len() > MAX_COMMAND_LEN {
        return Ok(Command::BadArguments);
    }
    command_by(alloc, verb, rest)
}

fn is_comment(word: &[u8]) -> bool
    ensures { result ≡ is_comment word.now }
{
    match word {
        [first, ..] => *first == b'#',
        [] => false,
    }
}

fn command_by(alloc: Global, verb: Verb, rest: &[u8]) -> Result<Command, NoMemory>
    ensures command { IfOk result (λ command. command ≡ command_by verb rest.now) }
    ensures named { IfOk result IsNamed }
    ensures no_memory { OnErr result (IsAnswered (command_by verb rest.now)) }
{
    match verb {
        Verb::Load => load_of(alloc, rest),
        Verb::Unload => unload_of(alloc, rest),
        Verb::Swap => swap_of(alloc, rest),
        Verb::Edit => edit_of(alloc, rest),
        Verb::Compile => compile_of(alloc, rest),
        Verb::Run => run_of(alloc, rest),
        Verb::Stop => stop_of(alloc, rest),
        Verb::Delete => Ok(delete_of(rest)),
        Verb::Print => print_of(alloc, rest),
        Verb::Step => Ok(alone(Command::Step, rest)),
        Verb::Next => Ok(alone(Command::Next, rest)),
        Verb::Cont => Ok(alone(Command::Cont, rest)),
        Verb::StepOne => Ok(alone(Command::StepOne, rest)),
        Verb::Where => Ok(alone(Command::Frames, rest)),
        Verb::List => Ok(alone(Command::List, rest)),
        Verb::Machine => Ok(alone(Command::Machine, rest)),
        Verb::Disas => disas_of(alloc, rest),
        Verb::Xref => xref_of(alloc, rest),
        Verb::Whatis => whatis_of(alloc, rest),
        Verb::Eval => eval_of(alloc, rest),
        Verb::Report => Ok(report_of(rest)),
        Verb::Drop => Ok(drop_of(rest)),
        Verb::Reset => Ok(alone(Command::Reset, rest)),
        Verb::Quit => Ok(alone(Command::Quit, rest)),
    }
}

// A command that has no further words.
fn alone(command: Command, rest: &[u8]) -> Command
    ensures { result ≡ alone command (words_of rest.now) }
{
    if next_word(rest).is_none() {
        return command;
    }
    Command::BadArguments
}

fn load_of(alloc: Global, rest: &[u8]) -> Result<Command, NoMemory>
    ensures command { IfOk result (λ command. command ≡ load_of (words_of rest.now)) }
    ensures named { IfOk result IsNamed }
    ensures no_memory { OnErr result (IsAnswered (load_of (words_of rest.now))) }
{
    let Some((name, rest)) = next_word(rest) else {
        return Ok(Command::BadArguments);
    };
    if next_word(rest).is_some() || !is_module_name(name) {
        return Ok(Command::BadArguments);
    }
    let name = name_of(alloc, name)?;
    Ok(Command::Load(name))
}

fn unload_of(alloc: Global, rest: &[u8]) -> Result<Command, NoMemory>
    ensures command { IfOk result (λ command. command ≡ unload_of (words_of rest.now)) }
    ensures named { IfOk result IsNamed }
    ensures no_memory { OnErr result (IsAnswered (unload_of (words_of rest.now))) }
{
    let Some((name, rest)) = next_word(rest) else {
        return Ok(Command::BadArguments);
    };
    if next_word(rest).is_some() || !is_module_name(name) {
        return Ok(Command::BadArguments);
    }
    let name = name_of(alloc, name)?;
    Ok(Command::Unload(name))
}

fn form_of(word: &[u8]) -> Option<Form>
    ensures { result ≡ form_of word.now }
{
    if word == b"source".as_slice() {
        return Some(Form::Source);
    }
    if word == b"object".as_slice() {
        return Some(Form::Object);
    }
    None
}

fn is_fast(word: &[u8]) -> bool
    ensures { result ≡ is_fast word.now }
{
    word == b"fast".as_slice()
}

fn swap_of(alloc: Global, rest: &[u8]) -> Result<Command, NoMemory>
    ensures command { IfOk result (λ command. command ≡ swap_of (words_of rest.now)) }
    ensures named { IfOk result IsNamed }
    ensures no_memory { OnErr result (IsAnswered (swap_of (words_of rest.now))) }
{
    let Some((name, rest)) = next_word(rest) else {
        return Ok(Command::BadArguments);
    };
    let Some((word, rest)) = next_word(rest) else {
        return Ok(Command::BadArguments);
    };
    if next_word(rest).is_some() || !is_module_name(name) {
        return Ok(Command::BadArguments);
    }
    swap_by(alloc, name, word)
}

// What a word asks of the module with a name.
fn swap_by(alloc: Global, name: &[u8], word: &[u8]) -> Result<Command, NoMemory>
    requires { is_module_name name.now ≡ true }
    ensures command { IfOk result (λ command. command ≡ swap_by name.now word.now) }
    ensures named { IfOk result IsNamed }
    ensures no_memory { OnErr result (IsAnswered (swap_by name.now word.now)) }
{
    if is_fast(word) {
        let name = name_of(alloc, name)?;
        return Ok(Command::SwapFast(name));
    }
    swap_to(alloc, name, form_of(word))
}

// A form for the module with a name.
fn swap_to(alloc: Global, name: &[u8], form: Option<Form>) -> Result<Command, NoMemory>
    requires { is_module_name name.now ≡ true }
    ensures command { IfOk result (λ command. command ≡ swap_to name.now form) }
    ensures named { IfOk result IsNamed }
    ensures no_memory { OnErr result (IsAnswered (swap_to name.now form)) }
{
    let Some(form) = form else {
        return Ok(Command::BadArguments);
    };
    let name = name_of(alloc, name)?;
    Ok(Command::Swap(name, form))
}

fn edit_of(alloc: Global, rest: &[u8]) -> Result<Command, NoMemory>
    ensures command { IfOk result (λ command. command ≡ edit_of (words_of rest.now)) }
    ensures named { IfOk result IsNamed }
    ensures no_memory { OnErr result (IsAnswered (edit_of (words_of rest.now))) }
{
    let Some((name, rest)) = next_word(rest) else {
        return Ok(Command::BadArguments);
    };
    if !is_module_name(name) {
        return Ok(Command::BadArguments);
    }
    let Some((file, rest)) = next_word(rest) else {
        let name = name_of(alloc, name)?;
        return Ok(Command::Edit(name, None));
    };
    if next_word(rest).is_some() || !is_file_name(file) {
        return Ok(Command::BadArguments);
    }
    let name = name_of(alloc, name)?;
    let file = name_of(alloc, file)?;
    Ok(Command::Edit(name, Some(file)))
}

fn compile_of(alloc: Global, rest: &[u8]) -> Result<Command, NoMemory>
    ensures command { IfOk result (λ command. command ≡ compile_of (words_of rest.now)) }
    ensures named { IfOk result IsNamed }
    ensures no_memory { OnErr result (IsAnswered (compile_of (words_of rest.now))) }
{
    let Some((name, rest)) = next_word(rest) else {
        return Ok(Command::BadArguments);
    };
    if !is_module_name(name) {
        return Ok(Command::BadArguments);
    }
    let Some((word, rest)) = next_word(rest) else {
        let name = name_of(alloc, name)?;
        return Ok(Command::Compile(name));
    };
    if next_word(rest).is_some() || !is_fast(word) {
        return Ok(Command::BadArguments);
    }
    let name = name_of(alloc, name)?;
    Ok(Command::CompileFast(name))
}

fn run_of(alloc: Global, rest: &[u8]) -> Result<Command, NoMemory>
    ensures command { IfOk result (λ command. command ≡ run_of (words_of rest.now)) }
    ensures named { IfOk result IsNamed }
    ensures no_memory { OnErr result (IsAnswered (run_of (words_of rest.now))) }
{
    let Some((file, rest)) = next_word(rest) else {
        return Ok(Command::Run(None));
    };
    if next_word(rest).is_some() || !is_file_name(file) {
        return Ok(Command::BadArguments);
    }
    let file = name_of(alloc, file)?;
    Ok(Command::Run(Some(file)))
}

fn stop_of(alloc: Global, rest: &[u8]) -> Result<Command, NoMemory>
    ensures command { IfOk result (λ command. command ≡ stop_of (words_of rest.now)) }
    ensures named { IfOk result IsNamed }
    ensures no_memory { OnErr result (IsAnswered (stop_of (words_of rest.now))) }
{
    let Some((how, rest)) = next_word(rest) else {
        return Ok(Command::BadArguments);
    };
    let Some((place, rest)) = next_word(rest) else {
        return Ok(Command::BadArguments);
    };
    if next_word(rest).is_some() {
        return Ok(Command::BadArguments);
    }
    match how {
        b"in" => in_function(alloc, place),
        b"at" => at_line(alloc, place),
        _ => Ok(Command::BadArguments),
    }
}

// A function, or a module and a function that it defines, with a colon between them.
fn function_of<'a>(place: &'a [u8]) -> Option<(Option<&'a [u8]>, &'a [u8])>
    ensures none { IfNone result (function_of place.now (parts_of place.now) ≡ None) }
    ensures some { IfSome result (λ f. function_of place.now (parts_of place.now) ≡ Some (option_map (λ home. home.now) f.0, f.1.now)) }
{
    match parts_of(place) {
        Some((home, fun)) => {
            if is_module_name(home) && is_identifier(fun) {
                Some((Some(home), fun))
            } else {
                None
            }
        }
        None => {
            if is_identifier(place) {
                Some((None, place))
            } else {
                None
            }
        }
    }
}

// The name with these bytes, where there are any.
fn home_of(alloc: Global, home: Option<&[u8]>) -> Result<Option<Name>, NoMemory>
    ensures { IfOk result (λ name. name ≡ option_map (λ bytes. bytes.now) home.entry) }
{
    let Some(home) = home else {
        return Ok(None);
    };
    let name = name_of(alloc, home)?;
    Ok(Some(name))
}

fn in_function(alloc: Global, place: &[u8]) -> Result<Command, NoMemory>
    ensures command { IfOk result (λ command. command ≡ in_function (function_of place.now (parts_of place.now))) }
    ensures named { IfOk result IsNamed }
    ensures no_memory { OnErr result (IsAnswered (in_function (function_of place.now (parts_of place.now)))) }
{
    let Some((home, fun)) = function_of(place) else {
        return Ok(Command::BadArguments);
    };
    let home = home_of(alloc, home)?;
    let fun = name_of(alloc, fun)?;
    Ok(Command::Stop(StopAt::InFun(home, fun)))
}

fn at_line(alloc: Global, place: &[u8]) -> Result<Command, NoMemory>
    ensures command { IfOk result (λ command. command ≡ at_line (parts_of place.now)) }
    ensures named { IfOk result IsNamed }
    ensures no_memory { OnErr result (IsAnswered (at_line (parts_of place.now))) }
{
    let Some((module, digits)) = parts_of(place) else {
        return Ok(Command::BadArguments);
    };
    if !is_module_name(module) || !is_numeral(9, digits) {
        return Ok(Command::BadArguments);
    }
    let line = small_number_of(digits);
    let module = name_of(alloc, module)?;
    Ok(Command::Stop(StopAt::AtLine(module, line)))
}

// The number that is the only word.
fn number_alone(rest: &[u8]) -> Option<u32>
    ensures { result ≡ number_alone (words_of rest.now) }
{
    let (digits, rest) = next_word(rest)?;
    if next_word(rest).is_some() || !is_numeral(9, digits) {
        return None;
    }
    Some(small_number_of(digits))
}

fn delete_of(rest: &[u8]) -> Command
    ensures { result ≡ delete_of (words_of rest.now) }
{
    match number_alone(rest) {
        Some(number) => Command::Delete(number),
        None => Command::BadArguments,
    }
}

fn report_of(rest: &[u8]) -> Command
    ensures { result ≡ report_of (words_of rest.now) }
{
    match number_alone(rest) {
        Some(number) => Command::Report(number),
        None => Command::BadArguments,
    }
}

fn drop_of(rest: &[u8]) -> Command
    ensures { result ≡ drop_of (words_of rest.now) }
{
    match number_alone(rest) {
        Some(number) => Command::Drop(number),
        None => Command::BadArguments,
    }
}

// An identifier alone.
fn name_alone<'a>(rest: &'a [u8]) -> Option<&'a [u8]>
    ensures none { IfNone result (name_alone (words_of rest.now) ≡ None) }
    ensures some { IfSome result (λ name. name_alone (words_of rest.now) ≡ Some name.now) }
{
    let (name, rest) = next_word(rest)?;
    if next_word(rest).is_some() || !is_identifier(name) {
        return None;
    }
    Some(name)
}

fn print_of(alloc: Global, rest: &[u8]) -> Result<Command, NoMemory>
    ensures command { IfOk result (λ command. command ≡ print_of (words_of rest.now)) }
    ensures named { IfOk result IsNamed }
    ensures no_memory { OnErr result (IsAnswered (print_of (words_of rest.now))) }
{
    let Some(name) = name_alone(rest) else {
        return Ok(Command::BadArguments);
    };
    let name = name_of(alloc, name)?;
    Ok(Command::Print(name))
}

fn xref_of(alloc: Global, rest: &[u8]) -> Result<Command, NoMemory>
    ensures command { IfOk result (λ command. command ≡ xref_of (words_of rest.now)) }
    ensures named { IfOk result IsNamed }
    ensures no_memory { OnErr result (IsAnswered (xref_of (words_of rest.now))) }
{
    let Some(name) = name_alone(rest) else {
        return Ok(Command::BadArguments);
    };
    let name = name_of(alloc, name)?;
    Ok(Command::Xref(name))
}

fn whatis_of(alloc: Global, rest: &[u8]) -> Result<Command, NoMemory>
    ensures command { IfOk result (λ command. command ≡ whatis_of (words_of rest.now)) }
    ensures named { IfOk result IsNamed }
    ensures no_memory { OnErr result (IsAnswered (whatis_of (words_of rest.now))) }
{
    let Some(name) = name_alone(rest) else {
        return Ok(Command::BadArguments);
    };
    let name = name_of(alloc, name)?;
    Ok(Command::Whatis(name))
}

// A module, and behind it the text of an expression, which has words.
fn eval_of(alloc: Global, rest: &[u8]) -> Result<Command, NoMemory>
    ensures command { IfOk result (λ command. command ≡ eval_of rest.now) }
    ensures named { IfOk result IsNamed }
    ensures no_memory { OnErr result (IsAnswered (eval_of rest.now)) }
{
    let Some((name, text)) = next_word(rest) else {
        return Ok(Command::BadArguments);
    };
    if next_word(text).is_none() || !is_module_name(name) {
        return Ok(Command::BadArguments);
    }
    let name = name_of(alloc, name)?;
    let text = Bytes::from_slice(alloc, text)?;
    Ok(Command::Eval(name, text))
}

fn disas_of(alloc: Global, rest: &[u8]) -> Result<Command, NoMemory>
    ensures command { IfOk result (λ command. command ≡ disas_of (words_of rest.now)) }
    ensures named { IfOk result IsNamed }
    ensures no_memory { OnErr result (IsAnswered (disas_of (words_of rest.now))) }
{
    let Some((place, rest)) = next_word(rest) else {
        return Ok(Command::BadArguments);
    };
    if next_word(rest).is_some() {
        return Ok(Command::BadArguments);
    }
    let Some((home, fun)) = function_of(place) else {
        return Ok(Command::BadArguments);
    };
    let home = home_of(alloc, home)?;
    let fun = name_of(alloc, fun)?;
    Ok(Command::Disas(home, fun))
}
