// What text and the directives that are of no conditional do (ANSI 3.8.2 to 3.8.7).
ghost use Rattle.std.specs.Prelude.{◌≡◌, ◌<◌, ⊤, IfOk, IfSome};
ghost use Rattle.sc_pp.specs.Outcomes.{Yields};
ghost use Rattle.sc_pp.specs.Conditionals.{only_name as the_name};
ghost use Rattle.sc_macro.specs.Define.{defined};
ghost use Rattle.sc_pp.specs.Directives as spec;

use crate::condition_line::only_name;
use crate::failure::{beyond, left_out, refused};
use crate::include::{Wanted, header_name};
use crate::line::{Directive, Word};
use crate::state::{Place, State, deliver, expanded};
use sc_base::{Bytes, Fault, Name, NameFault, X};
use sc_macro::is_fixed;
use std::alloc::Global;

/// The most files that a unit may include.
const MAX_FILES: u32 = 256;

fn text(
    alloc: Global,
    place: &Place,
    state: &mut State,
    directive: &Directive,
) -> Result<Option<Wanted>, Fault>
    ensures { Yields (spec.and_no_file (spec.text_done place.now state.old directive.now.tokens)) result state.new }
{
    let done = expanded(alloc, place, state, directive.tokens.as_slice())?;
    deliver(alloc, place, state, done)?;
    Ok(None)
}

/// The refusal of a definition, at the line of its directive.
fn untaken(alloc: Global, place: &Place, line: u32, fault: Fault) -> Fault
    ensures { spec.TellsAt place.now.name line fault result }
{
    match fault {
        Fault::NoMemory => Fault::NoMemory,
        Fault::Refused(refusal) => refused(alloc, refusal.kind, &place.name, line),
    }
}

fn define(
    alloc: Global,
    place: &Place,
    state: &mut State,
    directive: &Directive,
) -> Result<Option<Wanted>, Fault>
    ensures { Yields (spec.and_no_file (spec.defining place.now state.old directive.now.line (defined state.old.env.table directive.now.tokens))) result state.new }
{
    match state.env.define(alloc, directive.tokens.as_slice()) {
        Ok(()) => Ok(None),
        Err(fault) => Err(untaken(alloc, place, directive.line, fault)),
    }
}

fn undef(
    alloc: Global,
    place: &Place,
    state: &mut State,
    directive: &Directive,
) -> Result<Option<Wanted>, Fault>
    ensures { Yields (spec.and_no_file (spec.undefining place.now state.old directive.now.line (the_name directive.now.tokens))) result state.new }
{
    match only_name(directive.tokens.as_slice()) {
        None => Err(refused(alloc, X::X2, &place.name, directive.line)),
        Some(name) => undef_name(alloc, place, state, directive.line, name),
    }
}

fn undef_name(
    alloc: Global,
    place: &Place,
    state: &mut State,
    line: u32,
    name: &Bytes,
) -> Result<Option<Wanted>, Fault>
    ensures { Yields (spec.and_no_file (spec.undefining_name place.now state.old line name.now)) result state.new }
{
    if is_fixed(name.as_slice()) {
        return Err(refused(alloc, X::X2, &place.name, line));
    }
    match Name::new(alloc, name.as_slice()) {
        Ok(name) => {
            state.env.undef(&name);
            Ok(None)
        }
        Err(NameFault::NoMemory) => Err(Fault::NoMemory),
        Err(NameFault::Empty) => Err(refused(alloc, X::X2, &place.name, line)),
        Err(NameFault::TooLong) => Err(refused(alloc, X::X2, &place.name, line)),
    }
}

/// A file may be included where the limits allow one more.
fn within(
    alloc: Global,
    depth: u32,
    place: &Place,
    state: &State,
    line: u32,
    name: (bool, Bytes),
) -> Result<Option<Wanted>, Fault>
    ensures yields { Yields (spec.within depth place.now state.now line name) result state.now }
    ensures deep { IfOk result (λ w. 0 < depth) }
{
    if depth == 0 || state.opened >= MAX_FILES {
        return Err(beyond(alloc, b"include", &place.name, line));
    }
    let (quoted, name) = name;
    Ok(Some(Wanted { quoted, name, line }))
}

fn include_by_macros(
    alloc: Global,
    depth: u32,
    place: &Place,
    state: &mut State,
    directive: &Directive,
) -> Result<Option<Wanted>, Fault>
    ensures yields { Yields (spec.named_by_macros depth place.now state.old directive.now) result state.new }
    ensures deep { IfOk result (λ w. 0 < depth) }
{
    let tokens = expanded(alloc, place, state, directive.tokens.as_slice())?;
    match header_name(alloc, tokens.as_slice())? {
        None => Err(refused(alloc, X::X2, &place.name, directive.line)),
        Some(name) => within(alloc, depth, place, state, directive.line, name),
    }
}

fn include(
    alloc: Global,
    depth: u32,
    place: &Place,
    state: &mut State,
    directive: &Directive,
) -> Result<Option<Wanted>, Fault>
    ensures yields { Yields (spec.named depth place.now state.old directive.now (spec.header_name directive.now.tokens)) result state.new }
    ensures deep { IfOk result (λ w. 0 < depth) }
{
    match header_name(alloc, directive.tokens.as_slice())? {
        None => include_by_macros(alloc, depth, place, state, directive),
        Some(name) => within(alloc, depth, place, state, directive.line, name),
    }
}

/// Does a line that is of no conditional, but for reading a file, which it gives. `depth` is the number of files that may
/// be included inside each other from here.
pub fn simple(
    alloc: Global,
    depth: u32,
    place: &Place,
    state: &mut State,
    directive: &Directive,
) -> Result<Option<Wanted>, Fault>
    ensures yields { Yields (spec.simple depth place.now state.old directive.now) result state.new }
    ensures deep { IfOk result (λ w. IfSome w (λ _. 0 < depth)) }
{
    match directive.word {
        Word::Text => text(alloc, place, state, directive),
        Word::Null => Ok(None),
        Word::Define => define(alloc, place, state, directive),
        Word::Undef => undef(alloc, place, state, directive),
        Word::Include => include(alloc, depth, place, state, directive),
        Word::Pragma => Err(left_out(alloc, b"pragma", &place.name, directive.line)),
        Word::Line => Err(left_out(alloc, b"line", &place.name, directive.line)),
        _ => Err(refused(alloc, X::X2, &place.name, directive.line)),
    }
}
