// How a statement is left (ANSI 3.6).
ghost use Rattle.std.specs.Prelude.{◌≡◌};
ghost use Rattle.sc_meaning.specs.Statements as statement;

use crate::answer::Answer;
use std::marker::Model;

/// How it is left.
#[derive(Drop)]
pub enum Exit {
    Normal,
    Broke,
    Continued,
    Jumped(u32),
    Returned(Answer),
}

/// How a statement is left: at its end, by `break`, by `continue`, for a label by `goto`, or by `return` with its value.
#[derive(Drop)]
pub struct Way {
    pub exit: Exit,
}

impl Model for Way {
    ghost use Rattle.sc_meaning_values.specs.Ways.{way_of};
    ghost use Rattle.sc_meaning.specs.Statements as statement;

    ghost Value = { statement.Way };

    ghost view = { λ w. way_of w.exit };
}

impl Way {
    /// At its end.
    pub fn normal() -> Way
        ensures { result ≡ statement.Normal }
    {
        Way { exit: Exit::Normal }
    }

    /// By `break`.
    pub fn broke() -> Way
        ensures { result ≡ statement.Broke }
    {
        Way { exit: Exit::Broke }
    }

    /// By `continue`.
    pub fn continued() -> Way
        ensures { result ≡ statement.Continued }
    {
        Way {
            exit: Exit::Continued,
        }
    }

    /// For a label, by `goto`.
    pub fn jumped(label: u32) -> Way
        ensures { result ≡ statement.Jumped label }
    {
        Way {
            exit: Exit::Jumped(label),
        }
    }

    /// By `return`.
    pub fn returned(a: Answer) -> Way
        ensures { result ≡ statement.Returned a }
    {
        Way {
            exit: Exit::Returned(a),
        }
    }
}
