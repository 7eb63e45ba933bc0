// What happened so far. Only proofs read it, but for the bytes that were written.
ghost use Rattle.std.specs.Prelude.{◌≡◌, ◌+◌, List, [], ◌∷◌, ◌++◌, IfOk, OnOk, OnErr};
ghost use Rattle.std.specs.Option.{option_to_list};
ghost use Rattle.std.specs.Borrow.{ftrue};
ghost use Rattle.sc_meaning.specs.World as spec;
ghost use Rattle.sc_interp_world.specs.Outputs.{output, written_by, bytes_moved, moves_of};

use crate::event::{Change, Item, Showing};
use sc_base::{Items, NoMemory};
use std::alloc::Global;
use std::marker::Model;

/// So many units of work.
#[derive(Drop)]
pub struct Units {
    pub n: u32,
}

/// The items of a run, in their order. It takes no room, and its functions do nothing while a program runs.
#[derive(Drop)]
pub struct Trail {
    pub ghost items: { List spec.Item },
}

impl Model for Trail {
    ghost also_owns = { λ _. ftrue };
}

impl Trail {
    fn new() -> Trail
        ensures { result.items ≡ [] }
    {
        Trail {}
    }

    fn with(_before: &Trail, _item: &Item) -> Trail
        ensures { result.items ≡ _before.now.items ++ _item.now ∷ [] }
    {
        Trail {}
    }

    fn worked(_before: &Trail, _units: &Units) -> Trail
        ensures { result.items ≡ _before.now.items ++ spec.Work _units.now.n ∷ [] }
    {
        Trail {}
    }
}

/// All that happened, with the bytes that were written (ANSI 2.1.2.3), the units of work, and the bytes that births and copies moved.
#[derive(Drop)]
pub struct Past {
    trail: Trail,
    written: Items<u8>,
    work: u64,
    moved: u64,
}

impl Model for Past {
    ghost use Rattle.std.specs.Prelude.{◌≡◌, List};
    ghost use Rattle.sc_meaning.specs.World as spec;
    ghost use Rattle.sc_interp_world.specs.Outputs.{output, bytes_moved};

    ghost Value = { List spec.Item };

    ghost view = { λ p. p.trail.items };

    ghost invariant = { λ p. (p.written ≡ output p.trail.items) × (p.work ≡ spec.work p.trail.items) × (p.moved ≡ bytes_moved p.trail.items) };
}

// The byte that an item writes.
#[inline(always)]
fn byte_of(item: &Item) -> Option<u8>
    ensures { written_by item.now ≡ option_to_list result }
{
    match &item.change {
        Change::Happens(event) => match &event.showing {
            Showing::Out(byte) => Some(*byte),
            _ => None,
        },
        _ => None,
    }
}

// The units of work of an item.
#[inline(always)]
fn work_of(item: &Item) -> u64
    ensures { result ≡ spec.work_of item.now }
{
    match &item.change {
        Change::Work(n) => u64::from(*n),
        Change::Begin => 1,
        Change::End => 1,
        Change::GoesOut => 1,
        Change::ComesBack => 1,
        Change::Happens(event) => match &event.showing {
            Showing::Enter(_, _) => 1,
            Showing::Leave => 1,
            Showing::At(_, _, _) => 0,
            Showing::Out(_) => 0,
        },
        Change::Birth(size, _, _) => u64::from(*size),
        _ => 0,
    }
}

// The bytes that an item moves.
#[inline(always)]
fn moves_of(item: &Item) -> u64
    ensures { result ≡ moves_of item.now }
{
    match &item.change {
        Change::Birth(size, _, _) => u64::from(*size),
        Change::Copy(_, _, _, _, n) => u64::from(*n),
        _ => 0,
    }
}

#[inline(always)]
fn sum(a: u64, b: u64) -> Result<u64, NoMemory>
    ensures { IfOk result (λ n. n ≡ a + b) }
{
    let Some(n) = a.checked_add(b) else {
        return Err(NoMemory)
    };
    Ok(n)
}

// The bytes after what an item writes.
#[inline(always)]
fn note(item: &Item, written: &mut Items<u8>) -> Result<(), NoMemory>
    ensures ok { OnOk result (written.new ≡ written.old ++ written_by item.now) }
    ensures err { OnErr result (written.new ≡ written.old) }
{
    match byte_of(item) {
        None => Ok(()),
        Some(byte) => written.push(byte),
    }
}

impl Past {
    /// Nothing happened yet.
    pub fn new(alloc: Global) -> Past
        ensures { result ≡ [] }
    {
        Past {
            trail: Trail::new(),
            written: Items::new(alloc),
            work: 0,
            moved: 0,
        }
    }

    /// One thing more happened. Where memory runs out, none did. Callers name the kind of item, so that the item itself is
    /// never made.
    #[inline(always)]
    #[tactic(auto, using(crate::proofs::Outputs::output_last, crate::proofs::Outputs::work_last, crate::proofs::Outputs::bytes_moved_last))]
    pub fn push(&mut self, item: &Item) -> Result<(), NoMemory>
        ensures ok { OnOk result (self.new ≡ self.old ++ item.now ∷ []) }
        ensures err { OnErr result (self.new ≡ self.old) }
    {
        let work = sum(self.work, work_of(item))?;
        let moved = sum(self.moved, moves_of(item))?;
        note(item, &mut self.written)?;
        self.work = work;
        self.moved = moved;
        self.trail = Trail::with(&self.trail, item);
        Ok(())
    }

    /// Some units of work were done. Where memory runs out, none were. Nothing happens more often, so no item is made for it.
    #[inline(always)]
    #[tactic(auto, using(crate::proofs::Outputs::output_worked, crate::proofs::Outputs::work_last, crate::proofs::Outputs::bytes_moved_worked))]
    pub fn worked(&mut self, n: u32) -> Result<(), NoMemory>
        ensures ok { OnOk result (self.new ≡ self.old ++ spec.Work n ∷ []) }
        ensures err { OnErr result (self.new ≡ self.old) }
    {
        let work = sum(self.work, u64::from(n))?;
        self.work = work;
        let units = Units { n };
        self.trail = Trail::worked(&self.trail, &units);
        drop(units);
        Ok(())
    }

    /// The units of work that were done.
    pub fn work(&self) -> u64
        ensures { result ≡ spec.work self.now }
    {
        self.work
    }

    /// The bytes that births and copies of structures touched.
    pub fn moved(&self) -> u64
        ensures { result ≡ bytes_moved self.now }
    {
        self.moved
    }

    /// The bytes that were written.
    pub fn written(&self) -> &[u8]
        ensures { result.now ≡ output self.now }
    {
        self.written.as_slice()
    }
}
