// A probe that counts the notes of each kind.
ghost use Rattle.std.specs.Prelude.{◌≡◌, ◌++◌, [], None, Some, IfOk, OnOk, decimal, true};
ghost use Rattle.sc_probe.specs.Counted as spec;

use sc_base::{NoMemory, Note};
use sc_outside::{Noted, Probe};
use std::alloc::Global;
use std::marker::Model;

/// How many notes of each kind there were. A number at 2^64 - 1 stays.
#[derive(Clone, Copy, Debug, PartialEq, Eq)]
pub struct Counts {
    pub start: u64,
    pub call: u64,
    pub back: u64,
    pub enter: u64,
    pub leave: u64,
    pub at: u64,
    pub exec: u64,
    pub put: u64,
    pub birth: u64,
    pub death: u64,
    pub copy: u64,
    pub setreg: u64,
    pub tag: u64,
    pub lib: u64,
}

/// A probe that counts the notes of each kind, seen as the numbers. It answers `Kept` to every note, and a note takes
/// no memory.
#[derive(Drop)]
pub struct Count {
    alloc: Global,
    counts: Counts,
}

impl Model for Count {
    ghost use Rattle.sc_probe.specs.declared.count.Counts.{Counts};

    ghost Value = { Counts };

    ghost view = { λ c. c.counts };
}

// One more note.
fn add_note(counts: &mut Counts, n: &Note)
    ensures { counts.new ≡ spec.counted n.now counts.old }
{
    match n {
        Note::Start { .. } => counts.start = counts.start.saturating_add(1),
        Note::Call { .. } => counts.call = counts.call.saturating_add(1),
        Note::Back { .. } => counts.back = counts.back.saturating_add(1),
        Note::Enter { .. } => counts.enter = counts.enter.saturating_add(1),
        Note::Leave { .. } => counts.leave = counts.leave.saturating_add(1),
        Note::At { .. } => counts.at = counts.at.saturating_add(1),
        Note::Exec { .. } => counts.exec = counts.exec.saturating_add(1),
        Note::Put { .. } => counts.put = counts.put.saturating_add(1),
        Note::Birth { .. } => counts.birth = counts.birth.saturating_add(1),
        Note::Death { .. } => counts.death = counts.death.saturating_add(1),
        Note::Copy { .. } => counts.copy = counts.copy.saturating_add(1),
        Note::SetReg { .. } => counts.setreg = counts.setreg.saturating_add(1),
        Note::Tag { .. } => counts.tag = counts.tag.saturating_add(1),
        Note::Lib { .. } => counts.lib = counts.lib.saturating_add(1),
    }
}

// Puts a kind and its number behind a text.
fn put_number(text: &mut Vec<u8>, alloc: Global, kind: &[u8], n: u64) -> Result<(), NoMemory>
    ensures { OnOk result (text.new.items ≡ text.old.items ++ kind.now ++ decimal n) }
{
    let digits = n.to_string(alloc)?;
    text.extend_from_slice(kind)?;
    text.extend_from_slice(digits.as_bytes())?;
    Ok(())
}

// Puts the first seven kinds behind a text.
fn put_first(text: &mut Vec<u8>, alloc: Global, c: &Counts) -> Result<(), NoMemory>
    ensures { OnOk result (text.new.items ≡ spec.with_first text.old.items c.now) }
{
    put_number(text, alloc, b"start ", c.start)?;
    put_number(text, alloc, b" call ", c.call)?;
    put_number(text, alloc, b" back ", c.back)?;
    put_number(text, alloc, b" enter ", c.enter)?;
    put_number(text, alloc, b" leave ", c.leave)?;
    put_number(text, alloc, b" at ", c.at)?;
    put_number(text, alloc, b" exec ", c.exec)?;
    Ok(())
}

// Puts the other seven behind it.
fn put_last(text: &mut Vec<u8>, alloc: Global, c: &Counts) -> Result<(), NoMemory>
    ensures { OnOk result (text.new.items ≡ spec.with_last text.old.items c.now) }
{
    put_number(text, alloc, b" put ", c.put)?;
    put_number(text, alloc, b" birth ", c.birth)?;
    put_number(text, alloc, b" death ", c.death)?;
    put_number(text, alloc, b" copy ", c.copy)?;
    put_number(text, alloc, b" setreg ", c.setreg)?;
    put_number(text, alloc, b" tag ", c.tag)?;
    put_number(text, alloc, b" lib ", c.lib)?;
    Ok(())
}

fn text_of(alloc: Global, c: &Counts) -> Result<Vec<u8>, NoMemory>
    ensures { IfOk result (λ text. text.items ≡ spec.count_text c.now) }
{
    let mut text = Vec::new(alloc);
    put_first(&mut text, alloc, c)?;
    put_last(&mut text, alloc, c)?;
    text.push(b'\n')?;
    Ok(text)
}

impl Count {
    /// No note was counted yet. It takes no memory.
    pub fn new(alloc: Global) -> Count
        ensures { result ≡ spec.counts_of [] }
    {
        Count {
            alloc,
            counts: Counts {
                start: 0,
                call: 0,
                back: 0,
                enter: 0,
                leave: 0,
                at: 0,
                exec: 0,
                put: 0,
                birth: 0,
                death: 0,
                copy: 0,
                setreg: 0,
                tag: 0,
                lib: 0,
            },
        }
    }
}

impl Probe for Count {
    ghost notes = { λ c. None };

    ghost report = { λ c. Some (spec.count_text c) };

    ghost faults = { λ c. 0 };

    fn listens(&self) -> bool
        ensures { result ≡ true }
    {
        true
    }

    fn note(&mut self, n: &Note) -> Noted
        ensures told { result ≡ Noted.Kept }
        ensures counted { self.new ≡ spec.counted n.now self.old }
    {
        add_note(&mut self.counts, n);
        Noted::Kept
    }

    fn text(&mut self) -> Result<Vec<u8>, NoMemory>
        ensures text { IfOk result (λ text. text.items ≡ spec.count_text self.old) }
        ensures same { self.new ≡ self.old }
    {
        text_of(self.alloc, &self.counts)
    }
}
