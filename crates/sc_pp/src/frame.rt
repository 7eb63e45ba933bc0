// The conditionals that are open, and what a line does to them (ANSI 3.8.1).
ghost use Rattle.std.specs.Prelude.{◌≡◌};
ghost use Rattle.sc_pp.specs.Outcomes.{Refuses, in_file};
ghost use Rattle.sc_pp.specs.Groups.{has_more, malformed};
ghost use Rattle.sc_pp.specs.Reader as spec;
ghost use Rattle.sc_pp.specs.Reader.{Turns};
ghost use Rattle.sc_pp.specs.Directives.{test as tested};
ghost use Rattle.sc_pp.specs.declared.state.State.{State as TheState};

use crate::condition_line::test;
use crate::failure::refused;
use crate::line::{Directive, Line};
use crate::state::{Place, State};
use crate::token::are_some;
use sc_base::{Fault, Refusal, Stack, X};
use std::alloc::Global;

/// A conditional that is open: its group is read; none of its groups was read so far; none is read any more. `other` says
/// that `#else` was there, `looked` that the conditional itself stands where lines are read.
#[derive(Clone, Copy, Debug, PartialEq, Eq)]
pub enum Frame {
    Read(bool),
    Wait,
    Pass(bool, bool),
}

fn is_active(frames: &Stack<Frame>) -> bool
    ensures { result ≡ spec.active frames.now }
{
    match frames.top() {
        None => true,
        Some(Frame::Read(_)) => true,
        Some(Frame::Wait) => false,
        Some(Frame::Pass(_, _)) => false,
    }
}

fn looks(frame: Frame) -> bool
    ensures { result ≡ spec.looks frame }
{
    match frame {
        Frame::Read(_) => true,
        Frame::Wait => true,
        Frame::Pass(looked, _) => looked,
    }
}

fn entered(holds: bool) -> Frame
    ensures { result ≡ spec.entered holds }
{
    if holds {
        Frame::Read(false)
    } else {
        Frame::Wait
    }
}

fn has_more_tokens(directive: &Directive) -> bool
    ensures { result ≡ has_more directive.now }
{
    are_some(directive.tokens.as_slice())
}

fn bad(alloc: Global, place: &Place, directive: &Directive) -> Fault
    ensures { Refuses (malformed place.now.name directive.now) result }
{
    refused(alloc, X::X2, &place.name, directive.line)
}

/// Opens a group where its condition holds, and else waits for another one.
fn enter_tested(
    alloc: Global,
    state: &mut State,
    place: &Place,
    frames: &mut Stack<Frame>,
    directive: &Directive,
) -> Result<Option<Directive>, Fault>
    ensures { Turns (spec.tested TheState place.now.name (tested place.now) state.old frames.old directive.now) result state.new frames.new }
{
    match test(alloc, place, state, directive) {
        Ok(holds) => {
            frames.push(entered(holds))?;
            Ok(None)
        }
        Err(fault) => Err(fault),
    }
}

fn at_if(
    alloc: Global,
    state: &mut State,
    place: &Place,
    frames: &mut Stack<Frame>,
    directive: &Directive,
) -> Result<Option<Directive>, Fault>
    ensures { Turns (spec.at_if TheState place.now.name (tested place.now) (spec.active frames.old) state.old frames.old directive.now) result state.new frames.new }
{
    if is_active(frames) {
        enter_tested(alloc, state, place, frames, directive)
    } else {
        frames.push(Frame::Pass(false, false))?;
        Ok(None)
    }
}

fn at_elif(
    alloc: Global,
    state: &mut State,
    place: &Place,
    frames: &mut Stack<Frame>,
    directive: &Directive,
) -> Result<Option<Directive>, Fault>
    ensures { Turns (spec.at_elif TheState place.now.name (tested place.now) state.old frames.old directive.now) result state.new frames.new }
{
    match frames.pop() {
        None => Err(bad(alloc, place, directive)),
        Some(Frame::Read(other)) => {
            if other {
                return Err(bad(alloc, place, directive));
            }
            frames.push(Frame::Pass(true, false))?;
            Ok(None)
        }
        Some(Frame::Wait) => enter_tested(alloc, state, place, frames, directive),
        Some(Frame::Pass(looked, other)) => {
            if other {
                return Err(bad(alloc, place, directive));
            }
            frames.push(Frame::Pass(looked, false))?;
            Ok(None)
        }
    }
}

fn at_else(
    alloc: Global,
    state: &State,
    place: &Place,
    frames: &mut Stack<Frame>,
    directive: &Directive,
) -> Result<Option<Directive>, Fault>
    ensures { Turns (spec.at_else TheState place.now.name (tested place.now) state.now frames.old directive.now) result state.now frames.new }
{
    match frames.pop() {
        None => Err(bad(alloc, place, directive)),
        Some(Frame::Read(other)) => {
            if other || has_more_tokens(directive) {
                return Err(bad(alloc, place, directive));
            }
            frames.push(Frame::Pass(true, true))?;
            Ok(None)
        }
        Some(Frame::Wait) => {
            if has_more_tokens(directive) {
                return Err(bad(alloc, place, directive));
            }
            frames.push(Frame::Read(true))?;
            Ok(None)
        }
        Some(Frame::Pass(looked, other)) => {
            if other || (looked && has_more_tokens(directive)) {
                return Err(bad(alloc, place, directive));
            }
            frames.push(Frame::Pass(looked, true))?;
            Ok(None)
        }
    }
}

fn at_endif(
    alloc: Global,
    state: &State,
    place: &Place,
    frames: &mut Stack<Frame>,
    directive: &Directive,
) -> Result<Option<Directive>, Fault>
    ensures { Turns (spec.at_endif TheState place.now.name (tested place.now) state.now frames.old directive.now) result state.now frames.new }
{
    match frames.pop() {
        None => Err(bad(alloc, place, directive)),
        Some(frame) => {
            if looks(frame) && has_more_tokens(directive) {
                return Err(bad(alloc, place, directive));
            }
            Ok(None)
        }
    }
}

fn only_active(frames: &Stack<Frame>, directive: Directive) -> Option<Directive>
    ensures { result ≡ spec.only_active (spec.active frames.now) directive }
{
    if is_active(frames) {
        Some(directive)
    } else {
        None
    }
}

/// A refusal of the lexer, in its file.
fn broken(alloc: Global, place: &Place, refusal: Refusal) -> Fault
    ensures { Refuses (in_file place.now.name refusal) result }
{
    refused(alloc, refusal.kind, &place.name, refusal.line)
}

/// Takes a line: a conditional opens, changes or closes; a line of none is handed out where lines are read.
pub fn turn(
    alloc: Global,
    state: &mut State,
    place: &Place,
    frames: &mut Stack<Frame>,
    line: Line,
) -> Result<Option<Directive>, Fault>
    ensures { Turns (spec.turn TheState place.now.name (tested place.now) state.old frames.old line) result state.new frames.new }
{
    match line {
        Line::Plain(directive) => Ok(only_active(frames, directive)),
        Line::If(directive, closed) => {
            if closed {
                at_if(alloc, state, place, frames, &directive)
            } else {
                Err(bad(alloc, place, &directive))
            }
        }
        Line::Elif(directive) => at_elif(alloc, state, place, frames, &directive),
        Line::Else(directive) => at_else(alloc, state, place, frames, &directive),
        Line::Endif(directive) => at_endif(alloc, state, place, frames, &directive),
        Line::Broken(refusal) => Err(broken(alloc, place, refusal)),
    }
}
