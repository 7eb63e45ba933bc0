// A probe that counts how often each line was reached.
ghost use Rattle.std.specs.Prelude.{◌≡◌, ◌≢◌, ◌≤◌, ◌++◌, [], None, Some, IfOk, OnOk, OnErr, true};
ghost use Rattle.sc_outside.specs.Causes.{Rose};
ghost use Rattle.sc_probe.specs.Covered as spec;

use indexmap::IndexMap;
use sc_base::{NoMemory, Note};
use sc_outside::{Noted, Probe};
use std::alloc::Global;
use std::marker::Model;

/// The lines for which there is room at once.
const ROOM: usize = 64;

/// A line of a function, by the function's number.
#[derive(Clone, Copy, Debug, PartialEq, Eq, Hash)]
pub struct Line {
    pub fun: u32,
    pub line: u32,
}

/// A probe that counts how often each line was reached, seen as the lines in the order in which each was first
/// reached, each with its number, and the count of faults. A number at 2^64 - 1 stays.
#[derive(Drop)]
pub struct Coverage {
    alloc: Global,
    lines: IndexMap<Line, u64>,
    faults: u64,
}

impl Model for Coverage {
    ghost use Rattle.sc_probe.specs.Tables.{Table};

    ghost Value = { Table };

    ghost view = { λ c. record { lines = c.lines.entries; faults = c.faults } };
}

// A line was reached once more. Where memory runs out, all stays as it was.
fn reach(lines: &mut IndexMap<Line, u64>, line: Line) -> Result<(), NoMemory>
    ensures ok { OnOk result (lines.new.entries ≡ spec.reached line lines.old.entries) }
    ensures err { OnErr result (lines.new.entries ≡ lines.old.entries) }
{
    let count = lines.get(&line).copied().unwrap_or(0);
    let _ = lines.insert(line, count.saturating_add(1))?;
    Ok(())
}

// One more note. Where memory runs out, all stays as it was.
fn cover(lines: &mut IndexMap<Line, u64>, n: &Note) -> Result<(), NoMemory>
    ensures ok { OnOk result (lines.new.entries ≡ spec.covered n.now lines.old.entries) }
    ensures err { OnErr result (lines.new.entries ≡ lines.old.entries) }
{
    match n {
        Note::At { fun, line } => reach(
            lines,
            Line {
                fun: *fun,
                line: *line,
            },
        ),
        Note::Start { .. } => Ok(()),
        Note::Call { .. } => Ok(()),
        Note::Back { .. } => Ok(()),
        Note::Enter { .. } => Ok(()),
        Note::Leave { .. } => Ok(()),
        Note::Exec { .. } => Ok(()),
        Note::Put { .. } => Ok(()),
        Note::Birth { .. } => Ok(()),
        Note::Death { .. } => Ok(()),
        Note::Copy { .. } => Ok(()),
        Note::SetReg { .. } => Ok(()),
        Note::Tag { .. } => Ok(()),
        Note::Lib { .. } => Ok(()),
    }
}

// The text of one line.
fn put_line(text: &mut Vec<u8>, alloc: Global, line: &Line, count: u64) -> Result<(), NoMemory>
    ensures { OnOk result (text.new.items ≡ text.old.items ++ spec.line_text line.now count) }
{
    let said = format!(in alloc; "{} {} {count}\n", line.fun, line.line)?;
    text.extend_from_slice(said.as_bytes())?;
    Ok(())
}

fn text_of(alloc: Global, lines: &IndexMap<Line, u64>) -> Result<Vec<u8>, NoMemory>
    ensures { IfOk result (λ text. text.items ≡ spec.coverage_text lines.now.entries) }
{
    let mut text = Vec::new(alloc);
    for (line, count) in lines {
        put_line(&mut text, alloc, line, *count)?;
    }
    Ok(text)
}

impl Coverage {
    /// No line was reached yet. It takes room for the first lines.
    ///
    /// # Errors
    ///
    /// Where no memory is left for that.
    pub fn new(alloc: Global) -> Result<Coverage, NoMemory>
        ensures { IfOk result (λ c. c ≡ record { lines = []; faults = 0 }) }
    {
        Ok(Coverage {
            alloc,
            lines: IndexMap::with_capacity(alloc, ROOM)?,
            faults: 0,
        })
    }
}

impl Probe for Coverage {
    ghost notes = { λ c. None };

    ghost report = { λ c. Some (spec.coverage_text c.lines) };

    ghost faults = { λ c. c.faults };

    fn listens(&self) -> bool
        ensures { result ≡ true }
    {
        true
    }

    fn note(&mut self, n: &Note) -> Noted
        ensures later { self.old.faults ≤ self.new.faults }
        ensures lost { result ≢ Noted.Kept → Rose self.old.faults self.new.faults }
        ensures still { result ≡ Noted.Kept → self.new.faults ≡ self.old.faults }
        ensures never { result ≢ Noted.Failed }
        ensures covered { result ≡ Noted.Kept → self.new.lines ≡ spec.covered n.now self.old.lines }
        ensures same { result ≢ Noted.Kept → self.new.lines ≡ self.old.lines }
    {
        match cover(&mut self.lines, n) {
            Ok(()) => Noted::Kept,
            Err(_) => {
                self.faults = self.faults.saturating_add(1);
                Noted::NoMemory
            }
        }
    }

    fn text(&mut self) -> Result<Vec<u8>, NoMemory>
        ensures text { IfOk result (λ text. text.items ≡ spec.coverage_text self.old.lines) }
        ensures still { self.new.faults ≡ self.old.faults }
        ensures same { self.new ≡ self.old }
    {
        text_of(self.alloc, &self.lines)
    }
}
