// All that happened in a run, and the record of it where somebody listens.
ghost use Rattle.std.specs.Prelude.{◌≡◌, ◌++◌, ◌∷◌, [], true, false, length, IfOk, OnErr, MatchOption};
ghost use Rattle.sc_meaning.specs.World as spec;
ghost use Rattle.sc_interp_world.specs.Outputs.{output, bytes_moved};
ghost use Rattle.std.specs.List.{filter};
ghost use Rattle.sc_interp_world.specs.Recording as recording;
ghost use Rattle.sc_interp_world.specs.Recording.{Plain, family};
ghost use Rattle.sc_interp_world.specs.Told as told;

use crate::event::{Change, Event, Item, Showing};
use crate::held::Held;
use crate::object::Frame;
use crate::past::Past;
use crate::recorder::{Entry, Machine, Recorder};
use sc_base::{Items, Key, Kind, NoMemory, Note, Shared, Word};
use sc_meaning_values::Value;
use sc_mem_store::Cell;
use std::alloc::Global;
use std::marker::Model;
use std::snapshot::Snapshot;

/// What was recorded since it was last taken: the entries, and how many of the notes on calls and lines were taken before, since
/// the run began. Where it is not `whole` nobody listens, or an entry was lost for want of memory.
#[derive(Drop)]
pub struct Taken {
    pub entries: Items<Entry>,
    pub before: u64,
    pub whole: bool,
}

/// All that happened, and the record of it where somebody listens. `whole` says that somebody does, and that no entry was lost for
/// want of memory; `taken` is how many notes on calls and lines were taken so far.
#[derive(Drop)]
pub struct Account {
    past: Past,
    recorder: Recorder,
    whole: bool,
    taken: u64,
}

impl Model for Account {
    ghost use Rattle.std.specs.Prelude.{List};
    ghost use Rattle.sc_meaning.specs.World as spec;
    ghost use Rattle.sc_interp_world.specs.Told as told;

    ghost Value = { List spec.Item };

    ghost view = { λ a. a.past };

    ghost invariant = { λ a. told.Tells a.whole a.recorder a.taken a.past };
}

// An entry that could not be kept is lost.
#[inline(always)]
fn keep(whole: &mut bool, kept: Result<(), NoMemory>) -> Result<(), NoMemory>
    ensures same { result ≡ kept }
    ensures whole { IfOk kept (λ _. whole.new ≡ whole.old) }
    ensures lost { OnErr kept (whole.new ≡ false) }
{
    if kept.is_err() {
        *whole = false;
    }
    kept
}

// The line that an event reaches.
#[inline(always)]
fn line_of(event: &Event) -> Option<u32>
    ensures { MatchOption result (told.step_in event.now ≡ told.Other) (λ line. told.step_in event.now ≡ told.Reaches line) }
{
    match &event.showing {
        Showing::At(_, line, _) => Some(*line),
        Showing::Enter(_, _) => None,
        Showing::Leave => None,
        Showing::Out(_) => None,
    }
}

// Whether an entry tells of a call or a line.
fn tells_calls(entry: &Entry) -> bool
    ensures { result ≡ recording.tells_calls entry.now }
{
    matches!(
        entry,
        Entry::One(Note::Enter { .. } | Note::Leave { .. } | Note::At { .. })
    )
}

// How many of them do.
fn count_of_calls(entries: &[Entry]) -> u64
    ensures { result ≡ length (filter recording.tells_calls entries.now) }
{
    entries.iter().filter(|entry| tells_calls(entry)).count() as u64
}

// What happened.
impl Account {
    /// Nothing happened yet, and nobody listens.
    #[tactic(auto, using(crate::proofs::ToldLemmas::tells_lost))]
    pub fn unheard(alloc: Global) -> Account
        ensures { result ≡ [] }
    {
        Account {
            past: Past::new(alloc),
            recorder: Recorder::unheard(alloc),
            whole: false,
            taken: 0,
        }
    }

    /// Nothing happened yet, and somebody listens to a run that begins with this much stack and heap in bytes. The functions have the
    /// numbers of their places in the list.
    ///
    /// # Errors
    ///
    /// `NoMemory` also where the stack's or the heap's bytes are no number of 32 bits.
    #[tactic(auto, using(crate::proofs::ToldLemmas::tells_begun))]
    pub fn heard(
        alloc: Global,
        stack: u64,
        heap: u64,
        functions: &[Shared<Key>],
    ) -> Result<Account, NoMemory>
        ensures { IfOk result (λ a. a ≡ []) }
    {
        Ok(Account {
            past: Past::new(alloc),
            recorder: Recorder::heard(alloc, stack, heap, functions)?,
            whole: true,
            taken: 0,
        })
    }

    /// Nothing happened yet; whether somebody listens is given.
    ///
    /// # Errors
    ///
    /// `NoMemory` as for `heard`.
    pub fn of(
        alloc: Global,
        stack: u64,
        heap: u64,
        functions: &[Shared<Key>],
        heard: bool,
    ) -> Result<Account, NoMemory>
        ensures { IfOk result (λ a. a ≡ []) }
    {
        if heard {
            Account::heard(alloc, stack, heap, functions)
        } else {
            Ok(Account::unheard(alloc))
        }
    }

    /// One thing more happened, which no note on a call or a line tells. Where memory runs out, none did. Callers name the kind of
    /// item, so that the item itself is never made.
    #[inline(always)]
    #[tactic(auto, using(crate::proofs::ToldLemmas::tells_other))]
    pub fn push(&mut self, item: &Item) -> Result<(), NoMemory>
        requires { told.step_of item.now ≡ told.Other }
        ensures { IfOk result (λ _. self.new ≡ self.old ++ item.now ∷ []) }
    {
        self.past.push(item)
    }

    /// Some units of work were done.
    #[inline(always)]
    #[tactic(auto, using(crate::proofs::ToldLemmas::tells_worked))]
    pub fn worked(&mut self, n: u32) -> Result<(), NoMemory>
        ensures { IfOk result (λ _. self.new ≡ self.old ++ spec.Work n ∷ []) }
    {
        self.past.worked(n)
    }

    /// A call becomes active.
    #[tactic(auto, using(crate::proofs::ToldLemmas::tells_enter, crate::proofs::ToldLemmas::tells_unheard, crate::proofs::ToldLemmas::tells_lost))]
    pub fn enter(&mut self, frame: &Frame) -> Result<(), NoMemory>
        ensures { IfOk result (λ _. self.new ≡ self.old ++ spec.Push frame.now ∷ []) }
    {
        let item = Item {
            change: Change::Push(Snapshot::of(frame)),
        };
        let pushed = self.past.push(&item);
        drop(item);
        pushed?;
        if !self.recorder.listens() {
            return Ok(());
        }
        keep(&mut self.whole, self.recorder.enter(frame))
    }

    /// The innermost call is left.
    #[tactic(auto, using(crate::proofs::ToldLemmas::tells_leave, crate::proofs::ToldLemmas::tells_unheard, crate::proofs::ToldLemmas::tells_lost))]
    pub fn leave(&mut self) -> Result<(), NoMemory>
        ensures { IfOk result (λ _. self.new ≡ self.old ++ spec.Pop ∷ []) }
    {
        let item = Item {
            change: Change::Pop,
        };
        let pushed = self.past.push(&item);
        drop(item);
        pushed?;
        if !self.recorder.listens() {
            return Ok(());
        }
        keep(&mut self.whole, self.recorder.leave())
    }

    // An event passes that reaches this line.
    #[tactic(auto, using(crate::proofs::ToldLemmas::tells_reach, crate::proofs::ToldLemmas::tells_unheard, crate::proofs::ToldLemmas::tells_lost))]
    fn reach(&mut self, item: &Item, line: u32) -> Result<(), NoMemory>
        requires { told.step_of item.now ≡ told.Reaches line }
        ensures { IfOk result (λ _. self.new ≡ self.old ++ item.now ∷ []) }
    {
        self.past.push(item)?;
        if !self.recorder.listens() {
            return Ok(());
        }
        keep(&mut self.whole, self.recorder.reach(line))
    }

    /// An event passes.
    pub fn happens(&mut self, event: Event) -> Result<(), NoMemory>
        ensures { IfOk result (λ _. self.new ≡ self.old ++ spec.Happens event ∷ []) }
    {
        let line = line_of(&event);
        let item = Item {
            change: Change::Happens(event),
        };
        let kept = match line {
            None => self.push(&item),
            Some(line) => self.reach(&item, line),
        };
        drop(item);
        kept
    }

    /// The units of work that were done.
    pub fn work(&self) -> u64
        ensures { result ≡ spec.work self.now }
    {
        self.past.work()
    }

    /// The bytes that births and copies of structures touched.
    pub fn moved(&self) -> u64
        ensures { result ≡ bytes_moved self.now }
    {
        self.past.moved()
    }

    /// The bytes that were written.
    pub fn written(&self) -> &[u8]
        ensures { result.now ≡ output self.now }
    {
        self.past.written()
    }
}

// What is recorded of it beside calls and lines, where somebody listens. None of it changes what happened.
impl Account {
    /// Whether somebody listens.
    #[inline(always)]
    pub fn is_recorded(&self) -> bool {
        self.recorder.listens()
    }

    /// One more note, which tells of no call, no line, no register, and of nothing that passes between the forms.
    #[tactic(auto, using(crate::proofs::ToldLemmas::tells_note, crate::proofs::ToldLemmas::tells_lost))]
    pub fn add(&mut self, note: Note) -> Result<(), NoMemory>
        requires { family note ≡ Plain }
        ensures { self.new ≡ self.old }
    {
        if !self.recorder.listens() {
            return Ok(());
        }
        keep(&mut self.whole, self.recorder.add(note))
    }

    /// A library function is called.
    #[tactic(auto, using(crate::proofs::ToldLemmas::tells_library, crate::proofs::ToldLemmas::tells_lost))]
    pub fn call_library(&mut self, key: &Key) -> Result<(), NoMemory>
        ensures { self.new ≡ self.old }
    {
        if !self.recorder.listens() {
            return Ok(());
        }
        keep(&mut self.whole, self.recorder.call_library(key))
    }

    /// More functions get the next numbers.
    #[tactic(auto, using(crate::proofs::ToldLemmas::tells_numbered, crate::proofs::ToldLemmas::tells_lost))]
    pub fn number(&mut self, more: &[Shared<Key>]) -> Result<(), NoMemory>
        ensures { self.new ≡ self.old }
    {
        if !self.recorder.listens() {
            return Ok(());
        }
        keep(&mut self.whole, self.recorder.number(more))
    }

    /// The function at which a run begins is told by the greatest number, if it has none.
    #[tactic(auto, using(crate::proofs::ToldLemmas::tells_numbered, crate::proofs::ToldLemmas::tells_lost))]
    pub fn name_entry(&mut self, key: &Key) -> Result<(), NoMemory>
        ensures { self.new ≡ self.old }
    {
        if !self.recorder.listens() {
            return Ok(());
        }
        keep(&mut self.whole, self.recorder.name_entry(key))
    }

    /// From here on changes of memory are told, or are not.
    #[tactic(auto, using(crate::proofs::ToldLemmas::tells_hushed))]
    pub fn hush(&mut self, yes: bool)
        ensures { self.new ≡ self.old }
    {
        self.recorder.hush(yes);
    }

    /// The machine.
    pub fn machine(&self) -> &Machine {
        self.recorder.machine()
    }

    /// So many instructions more were carried out. The count stays at 2^64 - 1.
    #[tactic(auto, using(crate::proofs::ToldLemmas::tells_machine))]
    pub fn count(&mut self, n: u64)
        ensures { self.new ≡ self.old }
    {
        self.recorder.count(n);
    }

    /// Compiled code left the registers so.
    #[tactic(auto, using(crate::proofs::ToldLemmas::tells_machine))]
    pub fn leave_code(&mut self, pc: u32, words: &[Word; 32])
        ensures { self.new ≡ self.old }
    {
        self.recorder.leave_code(pc, words);
    }

    /// An interpreted frame calls object text, with these registers.
    #[tactic(auto, using(crate::proofs::ToldLemmas::tells_passage, crate::proofs::ToldLemmas::tells_lost))]
    pub fn enter_code(&mut self, key: &Key, pc: u32, words: &[Word; 32]) -> Result<(), NoMemory>
        ensures { self.new ≡ self.old }
    {
        if !self.recorder.listens() {
            return Ok(());
        }
        keep(&mut self.whole, self.recorder.enter_code(key, pc, words))
    }

    /// A call gives back to object text, with these registers.
    #[tactic(auto, using(crate::proofs::ToldLemmas::tells_passage, crate::proofs::ToldLemmas::tells_lost))]
    pub fn return_to_code(&mut self, pc: u32, words: &[Word; 32]) -> Result<(), NoMemory>
        ensures { self.new ≡ self.old }
    {
        if !self.recorder.listens() {
            return Ok(());
        }
        keep(&mut self.whole, self.recorder.return_to_code(pc, words))
    }

    /// What was recorded since it was last taken. No entry is left behind it.
    #[tactic(auto, using(crate::proofs::ToldLemmas::tells_taken, crate::proofs::ToldLemmas::tells_rest))]
    pub fn take(&mut self) -> Taken
        ensures same { self.new ≡ self.old }
        ensures rest { result.whole ≡ true → told.TellsBehind result.before result.entries self.old }
    {
        let before = self.taken;
        let whole = self.whole;
        let entries = self.recorder.take();
        match before.checked_add(count_of_calls(entries.as_slice())) {
            Some(taken) => self.taken = taken,
            None => self.whole = false,
        }
        Taken {
            entries,
            before,
            whole,
        }
    }
}

// What is recorded of changes of memory, where they are to be told.
impl Account {
    /// The object that was born last.
    #[tactic(auto, using(crate::proofs::ToldLemmas::tells_adds, crate::proofs::ToldLemmas::tells_lost))]
    pub fn tell_birth(&mut self, objects: &Held, size: u32, kind: Kind) -> Result<(), NoMemory>
        ensures { self.new ≡ self.old }
    {
        if !self.recorder.hears_changes() {
            return Ok(());
        }
        keep(&mut self.whole, self.recorder.birth(objects, size, kind))
    }

    /// The object with this number died.
    #[tactic(auto, using(crate::proofs::ToldLemmas::tells_note, crate::proofs::ToldLemmas::tells_lost))]
    pub fn tell_death(&mut self, id: u32) -> Result<(), NoMemory>
        ensures { self.new ≡ self.old }
    {
        if !self.recorder.hears_changes() {
            return Ok(());
        }
        keep(&mut self.whole, self.recorder.add(Note::Death { id }))
    }

    /// Bytes that are put into an object from an offset on.
    #[tactic(auto, using(crate::proofs::ToldLemmas::tells_adds, crate::proofs::ToldLemmas::tells_lost))]
    pub fn tell_put(
        &mut self,
        objects: &Held,
        id: u32,
        at: u32,
        cells: &[Cell],
    ) -> Result<(), NoMemory>
        ensures { self.new ≡ self.old }
    {
        if !self.recorder.hears_changes() {
            return Ok(());
        }
        keep(&mut self.whole, self.recorder.puts(objects, id, at, cells))
    }

    /// A value that was stored as `n` bytes of an object from an offset on.
    #[tactic(auto, using(crate::proofs::ToldLemmas::tells_adds, crate::proofs::ToldLemmas::tells_lost))]
    pub fn tell_store(
        &mut self,
        objects: &Held,
        id: u32,
        at: u32,
        n: u32,
        v: &Value,
    ) -> Result<(), NoMemory>
        ensures { self.new ≡ self.old }
    {
        if !self.recorder.hears_changes() {
            return Ok(());
        }
        keep(&mut self.whole, self.recorder.stores(objects, id, at, n, v))
    }

    /// Bytes that went to an object and offset from an object and offset.
    #[tactic(auto, using(crate::proofs::ToldLemmas::tells_adds, crate::proofs::ToldLemmas::tells_lost))]
    pub fn tell_copy(
        &mut self,
        objects: &Held,
        to: u32,
        at: u32,
        from: u32,
        off: u32,
        n: u32,
    ) -> Result<(), NoMemory>
        ensures { self.new ≡ self.old }
    {
        if !self.recorder.hears_changes() {
            return Ok(());
        }
        keep(
            &mut self.whole,
            self.recorder.copies(objects, to, at, from, off, n),
        )
    }

    /// A word that was stored beside all objects, where it was.
    #[tactic(auto, using(crate::proofs::ToldLemmas::tells_note, crate::proofs::ToldLemmas::tells_lost))]
    pub fn tell_kept(&mut self, at: u32, size: u8, w: Word, kept: bool) -> Result<(), NoMemory>
        ensures { self.new ≡ self.old }
    {
        if !kept || !self.recorder.hears_changes() {
            return Ok(());
        }
        keep(&mut self.whole, self.recorder.keeps(at, size, w))
    }
}
