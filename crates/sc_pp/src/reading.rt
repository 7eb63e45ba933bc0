// The lines of a file are read, and those of the files that it includes.
ghost use Rattle.std.specs.Prelude.{◌≡◌, ◌≤◌, ◌<◌, ◌-◌, []};
ghost use Rattle.sc_pp.specs.Closed.{Ready};
ghost use Rattle.sc_pp.specs.Preprocessing as spec;
ghost use Rattle.sc_pp.specs.Answers.{Known, Blames, Steps, Reads, one};
ghost use Rattle.sc_pp.specs.Asked.{IsAmong, asked, by_lines, by_turn, by_include};

use crate::directive::simple;
use crate::failure::{Failure, raised};
use crate::frame::{Frame, turn};
use crate::include::{File, Wanted};
use crate::line::{Directive, Line};
use crate::open::{fetch, open};
use crate::state::{Place, State};
use sc_base::Stack;
use sc_outside::Files;
use std::alloc::Global;

/// Reads the lines of a file, the first on top. `depth` is the number of files that may be included inside each other
/// from here.
#[cycle(reading)]
pub fn read_lines<F: Files>(
    alloc: Global,
    depth: u32,
    files: &mut F,
    state: &mut State,
    place: &Place,
    lines: Stack<Line>,
) -> Result<(), Failure>
    requires { Ready lines }
    ensures gives { Known (F.held files.old) (λ map. Reads (spec.file_done (spec.reading map depth) place.now lines state.old) result state.new) }
    ensures held { F.held files.new ≡ F.held files.old }
    ensures later { F.faults files.old ≤ F.faults files.new }
    ensures blames { Blames (F.faults files.old) (F.faults files.new) result }
    ensures names { Known (F.held files.old) (λ map. IsAmong (by_lines (spec.reading map depth) (asked map depth) place.now lines state.old []) result) }
{
    let mut lines = lines;
    let mut frames = Stack::new(alloc);
    'lines: while let Some(line) = lines.pop() {
        match take_line(alloc, depth, files, state, place, &mut frames, line) {
            Ok(()) => {}
            Err(failure) => return Err(failure),
        }
    }
    Ok(())
}

#[cycle(reading)]
fn take_line<F: Files>(
    alloc: Global,
    depth: u32,
    files: &mut F,
    state: &mut State,
    place: &Place,
    frames: &mut Stack<Frame>,
    line: Line,
) -> Result<(), Failure>
    ensures gives { Known (F.held files.old) (λ map. Steps (one (spec.reading map depth) place.now state.old frames.old line) result state.new frames.new) }
    ensures held { F.held files.new ≡ F.held files.old }
    ensures later { F.faults files.old ≤ F.faults files.new }
    ensures blames { Blames (F.faults files.old) (F.faults files.new) result }
    ensures names { Known (F.held files.old) (λ map. IsAmong (by_turn (asked map depth) place.now state.old frames.old line) result) }
{
    let turned = match turn(alloc, state, place, frames, line) {
        Ok(turned) => turned,
        Err(fault) => return Err(raised(fault)),
    };
    match turned {
        None => Ok(()),
        Some(directive) => read_line(alloc, depth, files, state, place, &directive),
    }
}

/// Does a line that is of no conditional.
#[cycle(reading)]
fn read_line<F: Files>(
    alloc: Global,
    depth: u32,
    files: &mut F,
    state: &mut State,
    place: &Place,
    directive: &Directive,
) -> Result<(), Failure>
    ensures gives { Known (F.held files.old) (λ map. Reads (spec.reading map depth place.now state.old directive.now) result state.new) }
    ensures held { F.held files.new ≡ F.held files.old }
    ensures later { F.faults files.old ≤ F.faults files.new }
    ensures blames { Blames (F.faults files.old) (F.faults files.new) result }
    ensures names { Known (F.held files.old) (λ map. IsAmong (asked map depth place.now state.old directive.now) result) }
{
    let wanted = match simple(alloc, depth, place, state, directive) {
        Ok(wanted) => wanted,
        Err(fault) => return Err(raised(fault)),
    };
    match wanted {
        None => Ok(()),
        Some(wanted) => include(alloc, depth, files, state, place, &wanted),
    }
}

/// Reads a file that an `#include` names.
#[cycle(reading)]
fn include<F: Files>(
    alloc: Global,
    depth: u32,
    files: &mut F,
    state: &mut State,
    place: &Place,
    wanted: &Wanted,
) -> Result<(), Failure>
    requires { 0 < depth }
    ensures gives { Known (F.held files.old) (λ map. Reads (spec.included map (spec.reading map (depth - 1)) place.now state.old wanted.now) result state.new) }
    ensures held { F.held files.new ≡ F.held files.old }
    ensures later { F.faults files.old ≤ F.faults files.new }
    ensures blames { Blames (F.faults files.old) (F.faults files.new) result }
    ensures names { Known (F.held files.old) (λ map. IsAmong (by_include (spec.reading map (depth - 1)) (asked map (depth - 1)) map place.now state.old wanted.now) result) }
{
    let text = match fetch(alloc, files, wanted) {
        Ok(text) => text,
        Err(failure) => return Err(failure),
    };
    let opened = match open(alloc, place, state, wanted, text) {
        Ok(opened) => opened,
        Err(fault) => return Err(raised(fault)),
    };
    match opened {
        None => Ok(()),
        Some(file) => {
            let File { place, lines } = file;
            read_lines(alloc, depth - 1, files, state, &place, lines)
        }
    }
}
