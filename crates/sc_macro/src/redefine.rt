// Definitions are put into the table.
ghost use Rattle.std.specs.Prelude.{◌≡◌, ℕ, List, Some, IfOk, OnOk};
ghost use Rattle.sc_macro.specs.Define as spec;
ghost use Rattle.sc_macro.specs.Define.{Defines, Takes};
ghost use Rattle.sc_macro.specs.Table.{table, files, meaning};

use crate::define::definition;
use crate::failure::{Failure, Reason, Refused, fault};
use crate::macros::{Macro, MacroKind, Macros};
use sc_base::{Bytes, Fault};
use sc_lex::Token;
use std::alloc::Global;

pub fn is_function(kind: MacroKind) -> bool
    ensures { result ≡ spec.is_function kind }
{
    match kind {
        MacroKind::Function => true,
        _ => false,
    }
}

/// Whether two replacement lists are the same but for the places of their tokens (ANSI 3.8.3).
fn same_tokens(left: &[Token], right: &[Token]) -> bool
    ensures { result ≡ spec.same_tokens left.now right.now }
{
    let mut left = left;
    let mut right = right;
    'comparing: while let Some((one, more)) = left.split_first() {
        let Some((other, others)) = right.split_first() else {
            return false;
        };
        if one.text != other.text || one.space != other.space {
            return false;
        }
        left = more;
        right = others;
    }
    right.is_empty()
}

fn same(old: &Macro, new: &Macro) -> bool
    ensures { result ≡ spec.same old.now new.now }
{
    is_function(old.kind) == is_function(new.kind)
        && old.parameters.as_slice() == new.parameters.as_slice()
        && same_tokens(old.replacement.as_slice(), new.replacement.as_slice())
}

fn line_of(tokens: &[Token]) -> u32
    ensures { result ≡ spec.line_of tokens.now }
{
    match tokens.first() {
        Some(token) => token.line,
        None => 0,
    }
}

impl Macros {
    /// Gives a name its meaning; where it has another one, that is a refusal.
    fn put(&mut self, line: u32, name: Bytes, definition: Macro) -> Result<(), Failure>
        ensures table { Defines (table self.old) (spec.against (table self.old) line (name, definition) (meaning (table self.old) name)) result (table self.new) }
        ensures map { OnOk result ((n : List ℕ) → meaning (table self.new) n ≡ spec.meaning_after (table self.old) (Some (name, definition)) n) }
        ensures files { files self.new ≡ files self.old }
    {
        if let Some(old) = self.entries.get(&name) {
            if same(old, &definition) {
                return Ok(());
            }
            return Err(Failure::Refused(Refused {
                reason: Reason::Misuse,
                line,
            }));
        }
        match self.entries.insert(name, definition) {
            Ok(_) => Ok(()),
            Err(_) => Err(Failure::NoMemory),
        }
    }

    fn define_line(&mut self, alloc: Global, line: &[Token]) -> Result<(), Failure>
        ensures table { Defines (table self.old) (spec.defined (table self.old) line.now) result (table self.new) }
        ensures map { OnOk result ((n : List ℕ) → meaning (table self.new) n ≡ spec.meaning_after (table self.old) (spec.definition line.now) n) }
        ensures files { files self.new ≡ files self.old }
    {
        let number = line_of(line);
        match definition(alloc, line)? {
            Some((name, definition)) => self.put(number, name, definition),
            None => Err(Failure::Refused(Refused {
                reason: Reason::Malformed,
                line: number,
            })),
        }
    }

    /// Takes the tokens that follow `define` on its line (ANSI 3.8.3): a name, `(` and parameters directly behind it for a
    /// function-like macro, and the replacement list. X2 for a malformed line and for the names that are fixed, X3 for
    /// a name that has another definition; the line is that of the first token, 0 where there is none. After a refusal,
    /// and where memory runs out, the table is unchanged.
    pub fn define(&mut self, alloc: Global, line: &[Token]) -> Result<(), Fault>
        ensures table { Takes (table self.old) (spec.defined (table self.old) line.now) result (table self.new) }
        ensures map { OnOk result ((n : List ℕ) → meaning (table self.new) n ≡ spec.meaning_after (table self.old) (spec.definition line.now) n) }
        ensures files { files self.new ≡ files self.old }
    {
        match self.define_line(alloc, line) {
            Ok(()) => Ok(()),
            Err(failure) => Err(fault(alloc, failure)),
        }
    }
}
