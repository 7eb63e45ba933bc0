ghost use Rattle.std.specs.Prelude.{◌≡◌, ◌≤◌, length, codes, IfOk, Some};
ghost use Rattle.sc_pp_condition.specs.Verdict.{verdict, IsMeaning};
ghost use Rattle.sc_pp.specs.Outcomes.{refusal};
ghost use Rattle.sc_base.specs.declared.refusal.X.TheVariants as x;
ghost use Rattle.sc_pp.specs.Preprocessing as spec;
ghost use Rattle.sc_pp.specs.Answers as answers;
ghost use Rattle.sc_pp.specs.Asked.{IsAmong, IsFileAmong, asked_in, asked_inside, asked_by_text};
ghost use Rattle.sc_pp.specs.Answers.{Known, Answers, Blames, BlamesFile, Finds, RefusesFile};

use crate::environment::Environment;
use crate::failure::{Failure, unread};
use crate::open::{MAX_SOURCE, too_long};
use crate::reading::read_lines;
use crate::scan::scan;
use crate::state::{Place, State};
use sc_base::{Bytes, Items, NoMemory, Refusal};
use sc_lex::Token;
use sc_outside::{FileGot, Files};
use std::alloc::Global;

/// Why a unit is not preprocessed: a refusal; its file is missing or has more than 8,388,608 bytes; a file could not be
/// read; no memory was left.
#[derive(Drop)]
pub enum PpFault {
    Refused(Refusal),
    Missing,
    TooLong,
    File(Bytes),
    NoMemory,
}

/// How many files may be included inside each other.
const MAX_DEPTH: u32 = 15;

/// The replacements of macros that a unit may make.
const MAX_REPLACEMENTS: u32 = 1000000;

fn failed(failure: Failure) -> PpFault
    ensures { result ≡ answers.failed failure }
{
    match failure {
        Failure::Refused(refusal) => PpFault::Refused(refusal),
        Failure::File(name) => PpFault::File(name),
        Failure::NoMemory => PpFault::NoMemory,
    }
}

/// The unit before its first line.
fn start(alloc: Global, name: &[u8]) -> Result<State, NoMemory>
    ensures { IfOk result (λ s. s ≡ spec.start name.now) }
{
    Ok(State {
        env: Environment::new(alloc, name)?,
        out: Items::new(alloc),
        left: MAX_REPLACEMENTS,
        opened: 0,
        seen: Items::new(alloc),
    })
}

fn read_unit<F: Files>(
    alloc: Global,
    name: &[u8],
    files: &mut F,
    text: &[u8],
) -> Result<Items<Token>, Failure>
    requires { length text.now ≤ 1048576 }
    ensures gives { Known (F.held files.old) (λ map. Finds (spec.read_unit map name.now text.now) result) }
    ensures held { F.held files.new ≡ F.held files.old }
    ensures later { F.faults files.old ≤ F.faults files.new }
    ensures blames { Blames (F.faults files.old) (F.faults files.new) result }
    ensures names { Known (F.held files.old) (λ map. IsAmong (asked_inside map name.now text.now) result) }
{
    let Ok(mut state) = start(alloc, name) else {
        return Err(Failure::NoMemory);
    };
    let Ok(place) = own_place(alloc, name) else {
        return Err(Failure::NoMemory);
    };
    let Ok(lines) = scan(alloc, 0, text) else {
        return Err(Failure::NoMemory);
    };
    match read_lines(alloc, MAX_DEPTH, files, &mut state, &place, lines) {
        Ok(()) => Ok(state.out),
        Err(failure) => Err(failure),
    }
}

fn own_place(alloc: Global, name: &[u8]) -> Result<Place, NoMemory>
    ensures { IfOk result (λ p. p ≡ spec.own_place name.now) }
{
    let name = Bytes::from_slice(alloc, name)?;
    Ok(Place {
        name,
        number: 0,
        top: 0,
    })
}

fn sized_unit<F: Files>(
    alloc: Global,
    name: &[u8],
    files: &mut F,
    text: &[u8],
) -> Result<Items<Token>, Failure>
    ensures gives { Known (F.held files.old) (λ map. Finds (spec.unit map name.now text.now) result) }
    ensures held { F.held files.new ≡ F.held files.old }
    ensures later { F.faults files.old ≤ F.faults files.new }
    ensures blames { Blames (F.faults files.old) (F.faults files.new) result }
    ensures names { Known (F.held files.old) (λ map. IsAmong (asked_by_text map name.now (Some text.now)) result) }
{
    if text.len() > MAX_SOURCE {
        return Err(long_unit(alloc, name));
    }
    read_unit(alloc, name, files, text)
}

/// The unit's own file is longer than a source may be.
fn long_unit(alloc: Global, name: &[u8]) -> Failure
    ensures { RefusesFile (refusal (x.X10 (codes "source")) name.now 1) result }
{
    match Bytes::from_slice(alloc, name) {
        Ok(name) => too_long(alloc, &name),
        Err(_) => Failure::NoMemory,
    }
}

/// The tokens of the unit in a file, after preprocessing: phases 1 to 4 of translation (ANSI 2.1.1.2, 3.8). The tokens
/// of an included file have the line of the `#include` in the unit's own file, and those of a macro that of its name.
/// `Missing` where the file is not there, `TooLong` where it has more than 8,388,608 bytes, `Refused` with the first
/// refusal in text order, its file and its line there: X1 for an open comment, X2 for a directive, X3 for the use of a
/// macro, X4 for a file that is not there, X9 `paste`, `pragma` and `line`, X10 `source`, `include`, `identifier`,
/// `macros`, `tokens` and `height`. `File` is the name of a file that
/// was asked for and could not be read, only where the count of faults rose.
pub fn preprocess<F: Files>(
    alloc: Global,
    name: &str,
    files: &mut F,
) -> Result<Items<Token>, PpFault>
    ensures gives { Known (F.held files.old) (λ map. Answers (spec.preprocessed map name.now) result) }
    // What conditions decide is what the grammar says.
    ensures conditions { IsMeaning verdict }
    ensures held { F.held files.new ≡ F.held files.old }
    ensures later { F.faults files.old ≤ F.faults files.new }
    ensures blames { BlamesFile (F.faults files.old) (F.faults files.new) result }
    ensures names { Known (F.held files.old) (λ map. IsFileAmong (asked_in map name.now) result) }
{
    match files.read(name) {
        FileGot::Bytes(text) => match sized_unit(alloc, name.as_bytes(), files, text.as_slice()) {
            Ok(tokens) => Ok(tokens),
            Err(failure) => Err(failed(failure)),
        },
        FileGot::Missing => Err(PpFault::Missing),
        FileGot::TooLong => Err(PpFault::TooLong),
        FileGot::Failed => Err(failed(unread(alloc, name.as_bytes()))),
        FileGot::NoMemory => Err(PpFault::NoMemory),
    }
}
