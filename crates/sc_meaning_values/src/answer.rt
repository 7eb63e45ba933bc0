// What an expression gives (ANSI 3.3).
ghost use Rattle.std.specs.Prelude.{◌≡◌};
ghost use Rattle.sc_meaning.specs.Expressions as spec;

use crate::value::Value;
use sc_base::{Duplicate, NoMemory};
use std::alloc::Global;
use std::marker::Model;

/// What is given.
#[derive(Drop)]
pub enum Held {
    Plain(Value),
    Place(Value),
    Part(Value, u32),
    Nothing,
}

/// What an expression gives: a value; a place, as the pointer to it, or to the structure of which it is the member at
/// an offset in bytes; or nothing, as a call that gave no value.
#[derive(Drop)]
pub struct Answer {
    pub held: Held,
}

impl Model for Answer {
    ghost use Rattle.sc_meaning_values.specs.Answers.{answer_of};
    ghost use Rattle.sc_meaning.specs.Expressions as spec;

    ghost Value = { spec.Answer };

    ghost view = { λ a. answer_of a.held };
}

impl Answer {
    /// A value.
    pub fn plain(v: Value) -> Answer
        ensures { result ≡ spec.Plain v }
    {
        Answer {
            held: Held::Plain(v),
        }
    }

    /// A place.
    pub fn place(p: Value) -> Answer
        ensures { result ≡ spec.Place p }
    {
        Answer {
            held: Held::Place(p),
        }
    }

    /// A member of a structure, by its offset.
    pub fn part(p: Value, n: u32) -> Answer
        ensures { result ≡ spec.Part p n }
    {
        Answer {
            held: Held::Part(p, n),
        }
    }

    /// No value.
    pub fn nothing() -> Answer
        ensures { result ≡ spec.Nothing }
    {
        Answer {
            held: Held::Nothing,
        }
    }

    /// The pointer of a place, or the value.
    pub fn base(self) -> Value
        ensures { result ≡ spec.base_of self }
    {
        match self.held {
            Held::Plain(v) => v,
            Held::Place(p) => p,
            Held::Part(p, _) => p,
            Held::Nothing => Value::null(),
        }
    }

    /// How many bytes further the place is.
    pub fn further(&self) -> u32
        ensures { result ≡ spec.further_of self.now }
    {
        match &self.held {
            Held::Plain(_) => 0,
            Held::Place(_) => 0,
            Held::Part(_, n) => *n,
            Held::Nothing => 0,
        }
    }
}

impl Duplicate for Answer {
    fn copy(&self, alloc: Global) -> Result<Answer, NoMemory> {
        match &self.held {
            Held::Plain(v) => Ok(Answer::plain(v.copy(alloc)?)),
            Held::Place(p) => Ok(Answer::place(p.copy(alloc)?)),
            Held::Part(p, n) => Ok(Answer::part(p.copy(alloc)?, *n)),
            Held::Nothing => Ok(Answer::nothing()),
        }
    }
}
