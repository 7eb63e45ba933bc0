// A probe that keeps the notes.
ghost use Rattle.std.specs.Prelude.{◌≡◌, ◌≢◌, ◌≤◌, ◌↔◌, [], length, Some, IfOk, true};
ghost use Rattle.sc_outside.specs.Causes.{Rose};
ghost use Rattle.sc_outside.specs.Told.{KeepsNote, notes_after};
ghost use Rattle.sc_probe.specs.Traced as spec;

use sc_base::{NoMemory, Note};
use sc_outside::{Noted, Probe};
use std::alloc::Global;
use std::marker::Model;

/// A probe that keeps the notes and tells them, seen as their list, the most notes that it keeps, and the count of
/// faults.
#[derive(Drop)]
pub struct Trace {
    alloc: Global,
    notes: Vec<Note>,
    limit: u64,
    faults: u64,
}

impl Model for Trace {
    ghost use Rattle.std.specs.Prelude.{◌≤◌, length};
    ghost use Rattle.sc_probe.specs.Tables.{Kept};

    ghost Value = { Kept };

    ghost view = { λ t. record { notes = t.notes.items; limit = t.limit; faults = t.faults } };

    ghost invariant = { λ t. length t.notes.items ≤ t.limit };
}

impl Trace {
    /// No note is kept yet, and `limit` is the most notes. It takes no memory.
    pub fn new(alloc: Global, limit: u64) -> Trace
        ensures { result ≡ record { notes = []; limit = limit; faults = 0 } }
    {
        Trace {
            alloc,
            notes: Vec::new(alloc),
            limit,
            faults: 0,
        }
    }

    /// The notes kept, in their order.
    pub fn notes(&self) -> &[Note]
        ensures notes { result.now ≡ self.now.notes }
        ensures within { length result.now ≤ self.now.limit }
    {
        self.notes.as_slice()
    }
}

impl Probe for Trace {
    ghost notes = { λ t. Some t.notes };

    ghost report = { λ t. Some (spec.trace_text t.notes) };

    ghost faults = { λ t. t.faults };

    fn listens(&self) -> bool
        ensures { result ≡ true }
    {
        true
    }

    fn note(&mut self, n: &Note) -> Noted
        ensures kept { self.new.notes ≡ notes_after self.old.notes n.now result }
        ensures later { self.old.faults ≤ self.new.faults }
        ensures lost { result ≢ Noted.Kept → Rose self.old.faults self.new.faults }
        ensures still { result ≡ Noted.Kept → self.new.faults ≡ self.old.faults }
        ensures full { result ≡ Noted.Failed ↔ (length self.old.notes ≡ self.old.limit) }
        ensures limit { self.new.limit ≡ self.old.limit }
    {
        let held = self.notes.len() as u64;
        if held >= self.limit {
            self.faults = self.faults.saturating_add(1);
            return Noted::Failed;
        }
        if self.notes.push(*n).is_err() {
            self.faults = self.faults.saturating_add(1);
            return Noted::NoMemory;
        }
        Noted::Kept
    }

    fn text(&mut self) -> Result<Vec<u8>, NoMemory>
        ensures text { IfOk result (λ text. text.items ≡ spec.trace_text self.old.notes) }
        ensures notes { Some self.new.notes ≡ Some self.old.notes }
        ensures still { self.new.faults ≡ self.old.faults }
        ensures same { self.new ≡ self.old }
    {
        let count = self.notes.len();
        let text = format!(in self.alloc; "notes {count}\n")?;
        Ok(text.into_bytes())
    }
}
