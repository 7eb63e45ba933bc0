// The arguments of a call are read, one token after the other.
ghost use Rattle.std.specs.Prelude.{◌≡◌, [], ◌∷◌, ◌++◌, List, take, drop, MatchOption, OnOk, IfOk};
ghost use Rattle.sc_macro.specs.declared.marked.Marked.{Marked as TheMarked};

use crate::marked::Marked;
use crate::waiting::{Argument, Waiting};
use sc_base::{Items, NoMemory, Stack};
use std::alloc::Global;
use std::marker::Model;
use std::mem;

/// Fewer tokens than this may wait on room for more.
const FEW: usize = 256;

/// An argument as far as it was read, and the tokens behind it. The argument is `argument`, and behind that the first
/// `count` tokens of `given`, of which `left` are the others; there are such only where nothing is left of `made`.
#[derive(Drop)]
pub struct Reading<'a> {
    argument: Items<Marked>,
    made: Stack<Marked>,
    given: &'a [Marked],
    count: usize,
    left: &'a [Marked],
    room: usize,
}

impl<'a> Model for Reading<'a> {
    ghost use Rattle.std.specs.Prelude.{List, ◌++◌, take};
    ghost use Rattle.sc_macro.specs.declared.marked.Marked.{Marked};

    ghost Value = { List Marked × List Marked };

    ghost use Rattle.sc_macro.specs.Readings.{IsSplit};

    ghost view = { λ r. (r.argument ++ take r.count r.given.now, r.made ++ r.left.now) };

    ghost invariant = { IsSplit };
}

impl<'a> Reading<'a> {
    /// Nothing was read of these tokens.
    pub fn new(alloc: Global, waiting: Waiting<'a>) -> Reading<'a>
        ensures { result ≡ ([], waiting.entry) }
    {
        let (made, given) = waiting.parts();
        let room = made.len();
        Reading {
            argument: Items::new(alloc),
            made,
            given,
            count: 0,
            left: given,
            room,
        }
    }

    /// The token behind what was read.
    pub fn next(&self) -> Option<&Marked>
        ensures { MatchOption result (self.now.1 ≡ []) (λ next. (below : List TheMarked) × (self.now.1 ≡ next.now ∷ below)) }
    {
        match self.made.top() {
            Some(token) => Some(token),
            None => self.left.first(),
        }
    }

    /// Takes the next token, if there is one, into the argument.
    pub fn shift(&mut self) -> Result<(), NoMemory>
        ensures { OnOk result (self.new ≡ (self.old.0 ++ take 1 self.old.1, drop 1 self.old.1)) }
    {
        match self.made.pop() {
            Some(token) => self.argument.push(token)?,
            None => {
                if let Some((_, behind)) = self.left.split_first() {
                    self.left = behind;
                    self.count += 1;
                }
            }
        }
        Ok(())
    }

    /// The argument, which ends before the next token. That is taken away.
    pub fn finish(&mut self, alloc: Global) -> Argument<'a>
        ensures argument { result ≡ self.old.0 }
        ensures rest { self.new ≡ ([], drop 1 self.old.1) }
    {
        let made = mem::replace(&mut self.argument, Items::new(alloc));
        let (given, _) = self.given.split_at(self.count);
        match self.made.pop() {
            Some(token) => drop(token),
            None => {
                if let Some((_, behind)) = self.left.split_first() {
                    self.left = behind;
                }
            }
        }
        self.given = self.left;
        self.count = 0;
        Argument::of(made, given)
    }

    /// The tokens behind what was read.
    pub fn rest(self, alloc: Global) -> Result<Waiting<'a>, NoMemory>
        ensures { IfOk result (λ w. w ≡ self.entry.1) }
    {
        let Reading {
            made,
            left,
            room,
            ..
        } = self;
        let mut made = made;
        compact(alloc, &mut made, room)?;
        Ok(Waiting::of(made, left))
    }
}

/// Gives the room of a list back of which more than half was taken.
fn compact(alloc: Global, rest: &mut Stack<Marked>, before: usize) -> Result<(), NoMemory>
    ensures { OnOk result (rest.new ≡ rest.old) }
{
    if before < FEW || rest.len() > before / 2 {
        return Ok(());
    }
    let mut old = mem::replace(rest, Stack::new(alloc));
    let mut tokens = Items::new(alloc);
    'moving: while let Some(token) = old.pop() {
        tokens.push(token)?;
    }
    rest.push_all(tokens)
}
