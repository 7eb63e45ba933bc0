// The places that the items of a list fill, one after another (ANSI 3.5.7).
ghost use Rattle.std.specs.Prelude.{◌≡◌, [], ◌∷◌, IfOk, OnOk};
ghost use Rattle.sc_check_declare.specs.Outcomes.{GivesWith};
ghost use Rattle.sc_check_places.specs.Places as spec;

use crate::level::{Level, Place, Zeros, begun, filled, is_full, missing, next_place, takes};
use sc_base::{Items, NoMemory, Stack};
use sc_check_declare::{Failure, Reason, refusal};
use sc_types::Structs;
use std::alloc::Global;

/// The aggregates that are being filled, the innermost first.
#[derive(Drop)]
pub struct Walk {
    pub levels: Stack<Level>,
}

/// The end of a list: the bytes that have no item, and how many places of the list's own aggregate have one.
#[derive(Drop)]
pub struct Closed {
    pub zeros: Items<Zeros>,
    pub count: u32,
}

impl Walk {
    /// No aggregate, which takes no memory.
    pub fn new(alloc: Global) -> Walk
        ensures { result ≡ record { levels = [] } }
    {
        Walk {
            levels: Stack::new(alloc),
        }
    }

    /// An aggregate begins in a place: with the brace of a list, or without one since an expression or a string stands for its
    /// first place.
    pub fn begin(&mut self, line: u32, braced: bool, p: Place) -> Result<(), NoMemory>
        ensures { OnOk result (self.new ≡ record { levels = spec.begun line braced p ∷ self.old.levels }) }
    {
        self.levels.push(begun(line, braced, p))
    }

    /// The place of the next item: X7 at the list's line where the list has more items than places, X10 `size` where an array of
    /// unknown size becomes too large.
    pub fn next(&mut self, alloc: Global, structs: &Structs, line: u32) -> Result<Place, Failure>
        ensures { GivesWith (spec.next structs.now self.old.levels line) result self.new.levels }
    {
        while let Some(level) = self.levels.pop() {
            if !is_full(structs, &level) {
                let p = next_place(alloc, structs, &level)?;
                self.levels.push(filled(level, p.end))?;
                return Ok(p);
            }
            if level.braced {
                return Err(refusal(Reason::Rule, level.line));
            }
        }
        Err(refusal(Reason::Rule, line))
    }

    /// The place of the next item where that is no list: an aggregate that does not take it begins without a brace, and gives its first
    /// place. `depth` is one more than the aggregates that may be inside one another: no structure is inside itself, and a type has at
    /// most 32 arrays. Refusals as of `next`.
    pub fn reach(
        &mut self,
        alloc: Global,
        structs: &Structs,
        line: u32,
        string: bool,
        depth: u32,
    ) -> Result<Place, Failure>
        ensures { GivesWith (spec.reach depth structs.now string self.old.levels line) result self.new.levels }
    {
        let mut left = depth;
        'inward: while left > 0 {
            left -= 1;
            let p = self.next(alloc, structs, line)?;
            if takes(string, &p.of) {
                return Ok(p);
            }
            self.begin(line, false, p)?;
        }
        Err(refusal(Reason::Rule, line))
    }

    /// The end of a list in braces, and of the aggregates in it that have no brace of their own.
    pub fn end(&mut self, alloc: Global, structs: &Structs) -> Result<Closed, NoMemory>
        ensures zeros { IfOk result (λ c. c.zeros ≡ spec.zeros_at_end structs.now self.old.levels) }
        ensures count { IfOk result (λ c. c.count ≡ spec.count_at_end self.old.levels) }
        ensures around { OnOk result (self.new.levels ≡ spec.around self.old.levels) }
    {
        let mut zeros = Items::new(alloc);
        while let Some(level) = self.levels.pop() {
            if let Some(run) = missing(structs, &level) {
                zeros.push(run)?;
            }
            if level.braced {
                return Ok(Closed {
                    zeros,
                    count: level.next,
                });
            }
        }
        Ok(Closed { zeros, count: 0 })
    }
}
