// Lists of tokens whose first part was made, and whose second part stays in the list that was given.
ghost use Rattle.std.specs.Prelude.{◌≡◌, ◌↔◌, [], ◌∷◌, ◌++◌, List, IsTrue, MatchOption, OnOk, IfOk};
ghost use Rattle.sc_macro.specs.declared.marked.Marked.{Marked as TheMarked};

use crate::lists::push_each;
use crate::marked::Marked;
use sc_base::{Duplicate, Items, NoMemory, Stack};
use std::alloc::Global;
use std::marker::Model;

/// An argument of a call: tokens that replacements made, and behind them a part of the list that was given.
#[derive(Drop)]
pub struct Argument<'a> {
    made: Items<Marked>,
    given: &'a [Marked],
}

impl<'a> Model for Argument<'a> {
    ghost use Rattle.std.specs.Prelude.{List, ◌++◌};
    ghost use Rattle.sc_macro.specs.declared.marked.Marked.{Marked};

    ghost Value = { List Marked };

    ghost view = { λ a. a.made ++ a.given.now };
}

impl<'a> Argument<'a> {
    /// An argument of these parts.
    pub fn of(made: Items<Marked>, given: &'a [Marked]) -> Argument<'a>
        ensures { result ≡ made ++ given.now }
    {
        Argument { made, given }
    }

    /// No tokens.
    pub fn empty(alloc: Global) -> Argument<'a>
        ensures { result ≡ [] }
    {
        Argument {
            made: Items::new(alloc),
            given: &[],
        }
    }

    /// Whether there is no token.
    pub fn is_empty(&self) -> bool
        ensures { IsTrue result ↔ (self.now ≡ []) }
    {
        match self.made.as_slice().split_first() {
            None => self.given.is_empty(),
            Some(_) => false,
        }
    }

    /// Whether more than half of the tokens were made.
    pub fn is_mostly_made(&self) -> bool {
        self.given.len() < self.made.as_slice().len()
    }

    /// The same tokens. Those of the given list are not copied.
    pub fn copy(&self, alloc: Global) -> Result<Argument<'a>, NoMemory>
        ensures { IfOk result (λ a. a ≡ self.now) }
    {
        let made = self.made.copy(alloc)?;
        Ok(Argument {
            made,
            given: self.given,
        })
    }

    /// The tokens as a list of its own.
    pub fn into_items(self, alloc: Global) -> Result<Items<Marked>, NoMemory>
        ensures { IfOk result (λ ms. ms ≡ self.entry) }
    {
        let Argument { mut made, given } = self;
        push_each(alloc, &mut made, given)?;
        Ok(made)
    }
}

/// Tokens that wait for expansion: those that replacements made, and behind them a part of the list that was given.
#[derive(Drop)]
pub struct Waiting<'a> {
    made: Stack<Marked>,
    given: &'a [Marked],
}

impl<'a> Model for Waiting<'a> {
    ghost use Rattle.std.specs.Prelude.{List, ◌++◌};
    ghost use Rattle.sc_macro.specs.declared.marked.Marked.{Marked};

    ghost Value = { List Marked };

    ghost view = { λ w. w.made ++ w.given.now };
}

impl<'a> Waiting<'a> {
    /// Tokens of these parts.
    pub fn of(made: Stack<Marked>, given: &'a [Marked]) -> Waiting<'a>
        ensures { result ≡ made ++ given.now }
    {
        Waiting { made, given }
    }

    /// No tokens.
    pub fn empty(alloc: Global) -> Waiting<'a>
        ensures { result ≡ [] }
    {
        Waiting {
            made: Stack::new(alloc),
            given: &[],
        }
    }

    /// The two parts.
    pub fn parts(self) -> (Stack<Marked>, &'a [Marked])
        ensures { result.0 ++ result.1.now ≡ self.entry }
    {
        let Waiting { made, given } = self;
        (made, given)
    }

    /// The tokens of an argument.
    pub fn from_argument(alloc: Global, argument: Argument<'a>) -> Result<Waiting<'a>, NoMemory>
        ensures { IfOk result (λ w. w ≡ argument.entry) }
    {
        let Argument { made, given } = argument;
        let mut tokens = Stack::new(alloc);
        tokens.push_all(made)?;
        Ok(Waiting {
            made: tokens,
            given,
        })
    }

    /// The first token.
    pub fn top(&self) -> Option<&Marked>
        ensures { MatchOption result (self.now ≡ []) (λ top. (below : List TheMarked) × (self.now ≡ top.now ∷ below)) }
    {
        match self.made.top() {
            Some(token) => Some(token),
            None => self.given.first(),
        }
    }

    /// Takes the first token off.
    pub fn pop(&mut self, alloc: Global) -> Result<Option<Marked>, NoMemory>
        ensures { IfOk result (λ next. MatchOption next ((self.old ≡ []) × (self.new ≡ [])) (λ top. self.old ≡ top ∷ self.new)) }
    {
        match self.made.pop() {
            Some(token) => Ok(Some(token)),
            None => match self.given.split_first() {
                Some((token, behind)) => {
                    self.given = behind;
                    Ok(Some(token.copy(alloc)?))
                }
                None => Ok(None),
            },
        }
    }

    /// Puts a token in front.
    pub fn push(&mut self, token: Marked) -> Result<(), NoMemory>
        ensures { OnOk result (self.new ≡ token ∷ self.old) }
    {
        self.made.push(token)
    }
}
