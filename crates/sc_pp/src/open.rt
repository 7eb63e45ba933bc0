// Files are entered.
ghost use Rattle.std.specs.Prelude.{◌≡◌, ◌≤◌, length, codes, IfOk, IfSome, OnOk, Some};
ghost use Rattle.sc_pp.specs.Outcomes.{Yields, refusal};
ghost use Rattle.sc_pp.specs.Closed.{Ready};
ghost use Rattle.sc_pp.specs.Directives as spec;
ghost use Rattle.sc_pp.specs.Preprocessing as whole;
ghost use Rattle.std.specs.Prelude.{is_some};
ghost use Rattle.std.specs.Str.{is_utf8};
ghost use Rattle.sc_outside.specs.Stored.{FileMap, Finds, IsWithinFileLimit};
ghost use Rattle.sc_pp.specs.Answers.{Known, Blames, BlamesRead, Fetches, IsOf, RefusesFile};
ghost use Rattle.sc_pp.specs.Asked.{IsAmong, asked_by};
ghost use Rattle.sc_base.specs.declared.refusal.X.TheVariants as x;

use crate::failure::{Failure, beyond, raised, refused, unread};
use crate::header::{Header, added_text, header_named, is_fresh};
use crate::include::{File, Wanted};
use crate::scan::scan;
use crate::state::{Place, State, line_in};
use sc_base::{Bytes, Duplicate, Fault, NoMemory, X};
use sc_outside::{FileGot, Files};
use std::alloc::Global;

/// The most bytes of a source file.
pub const MAX_SOURCE: usize = 1048576;

/// A file's name, where it is text.
fn text_of(name: &Bytes) -> Option<&str>
    ensures some { IfSome result (λ text. text.now ≡ name.now) }
    ensures text { is_some result ≡ is_utf8 name.now }
{
    match str::from_utf8(name.as_slice()) {
        Ok(text) => Some(text),
        Err(_) => None,
    }
}

/// What was read, where it is no longer than a source may be.
fn sized(alloc: Global, name: &Bytes, got: FileGot) -> Result<Option<Bytes>, Failure>
    requires { IsWithinFileLimit got }
    ensures gives { (map : FileMap) → Finds map name.now got → Fetches (whole.sized name.now (map name.now)) result }
    ensures limit { IfOk result (λ text. IfSome text (λ v. length v ≤ 1048576)) }
    ensures blames { BlamesRead got result }
    ensures names { IsOf name.now result }
{
    match got {
        FileGot::Bytes(text) => {
            if text.len() > MAX_SOURCE {
                return Err(too_long(alloc, name));
            }
            Ok(Some(Bytes::from_vec(text)))
        }
        FileGot::Missing => Ok(None),
        FileGot::TooLong => Err(too_long(alloc, name)),
        FileGot::Failed => Err(unread(alloc, name.as_slice())),
        FileGot::NoMemory => Err(Failure::NoMemory),
    }
}

/// The text of a file of the folder that an `#include` may mean.
pub fn fetch<F: Files>(
    alloc: Global,
    files: &mut F,
    wanted: &Wanted,
) -> Result<Option<Bytes>, Failure>
    ensures gives { Known (F.held files.old) (λ map. Fetches (whole.fetched map wanted.now) result) }
    ensures limit { IfOk result (λ text. IfSome text (λ v. length v ≤ 1048576)) }
    ensures held { F.held files.new ≡ F.held files.old }
    ensures later { F.faults files.old ≤ F.faults files.new }
    ensures blames { Blames (F.faults files.old) (F.faults files.new) result }
    ensures names { IsAmong (asked_by wanted.now) result }
{
    if !wanted.quoted {
        return Ok(None);
    }
    match text_of(&wanted.name) {
        None => Ok(None),
        Some(name) => {
            let got = files.read(name);
            sized(alloc, &wanted.name, got)
        }
    }
}

/// The file is longer than a source may be.
pub fn too_long(alloc: Global, name: &Bytes) -> Failure
    ensures { RefusesFile (refusal (x.X10 (codes "source")) name.now 1) result }
{
    raised(beyond(alloc, b"source", name, 1))
}

/// A file with this text, which is counted and gets a number.
fn enter(
    alloc: Global,
    place: &Place,
    state: &mut State,
    wanted: &Wanted,
    text: &[u8],
) -> Result<File, Fault>
    requires { length text.now ≤ 1048576 }
    ensures yields { Yields (spec.entered_with place.now state.old wanted.now text.now) result state.new }
    ensures ready { IfOk result (λ f. Ready f.lines) }
{
    let number = state.env.enter(alloc, wanted.name.as_slice())?;
    let lines = scan(alloc, number, text)?;
    let top = line_in(place, wanted.line);
    let name = wanted.name.copy(alloc)?;
    count(state)?;
    Ok(File {
        place: Place { name, number, top },
        lines,
    })
}

/// One file more was included.
fn count(state: &mut State) -> Result<(), NoMemory>
    ensures { OnOk result (state.new ≡ spec.counted state.old) }
{
    if state.opened == u32::MAX {
        return Err(NoMemory);
    }
    state.opened += 1;
    Ok(())
}

/// A built-in header.
fn open_header(
    alloc: Global,
    place: &Place,
    state: &mut State,
    wanted: &Wanted,
    header: Header,
) -> Result<Option<File>, Fault>
    ensures yields { Yields (spec.header_opened place.now state.old wanted.now (Some header)) result state.new }
    ensures ready { IfOk result (λ file. IfSome file (λ f. Ready f.lines)) }
{
    if is_fresh(state.seen.as_slice(), header) {
        let text = added_text(alloc, state.seen.as_slice(), header)?;
        if text.len() > MAX_SOURCE {
            return Err(Fault::NoMemory);
        }
        let file = enter(alloc, place, state, wanted, text.as_slice())?;
        state.seen.push(header)?;
        Ok(Some(file))
    } else {
        count(state)?;
        Ok(None)
    }
}

/// A file of the folder with this text, or else a built-in header. One that adds nothing is not entered.
pub fn open(
    alloc: Global,
    place: &Place,
    state: &mut State,
    wanted: &Wanted,
    text: Option<Bytes>,
) -> Result<Option<File>, Fault>
    requires { IfSome text (λ v. length v ≤ 1048576) }
    ensures yields { Yields (spec.opened place.now state.old wanted.now text) result state.new }
    ensures ready { IfOk result (λ file. IfSome file (λ f. Ready f.lines)) }
{
    match text {
        Some(text) => {
            let file = enter(alloc, place, state, wanted, text.as_slice())?;
            Ok(Some(file))
        }
        None => match header_named(wanted.name.as_slice()) {
            None => Err(refused(alloc, X::X4, &place.name, wanted.line)),
            Some(header) => open_header(alloc, place, state, wanted, header),
        },
    }
}
