// What names stand for in a unit: its macros, and the names of its files.
ghost use Rattle.std.specs.Prelude.{◌≡◌, ◌∷◌, [], length, OnOk, IfOk};
ghost use Rattle.sc_macro.specs.Refusals.{Gives};
ghost use Rattle.sc_macro.specs.Table as table;
ghost use Rattle.sc_macro.specs.Define.{Takes, defined};
ghost use Rattle.sc_pp.specs.Environments as spec;

use sc_base::{Bytes, Fault, Items, Name, NoMemory};
use sc_lex::Token;
use sc_macro::{Macros, expand};
use std::alloc::Global;
use std::marker::Model;

/// The macros of a unit, and the names of its files by their numbers.
#[derive(Drop)]
pub struct Environment {
    macros: Macros,
    names: Items<Bytes>,
}

impl Model for Environment {
    ghost use Rattle.sc_macro.specs.Table as table;
    ghost use Rattle.sc_pp.specs.Environments.{Env, IsNamed};

    ghost Value = { Env };

    ghost view = { λ e. record { table = table.table e.macros; names = e.names } };

    ghost invariant = { λ e. IsNamed e.macros e.names };
}

impl Environment {
    /// No macro is defined, and the unit's own file, number 0, has this name.
    pub fn new(alloc: Global, name: &[u8]) -> Result<Environment, NoMemory>
        ensures { IfOk result (λ e. e ≡ record { table = table.start; names = name.now ∷ [] }) }
    {
        let mut macros = Macros::new(alloc)?;
        macros.name_file(alloc, 0, name)?;
        let mut names = Items::new(alloc);
        names.push(Bytes::from_slice(alloc, name)?)?;
        Ok(Environment { macros, names })
    }

    /// One file more, with the next number, which it gives.
    pub fn enter(&mut self, alloc: Global, name: &[u8]) -> Result<u32, NoMemory>
        ensures number { IfOk result (λ n. n ≡ length self.old.names) }
        ensures file { OnOk result (self.new ≡ spec.with_file self.old name.now) }
    {
        let len = self.names.len();
        let Ok(number) = u32::try_from(len) else {
            return Err(NoMemory);
        };
        self.names.push(Bytes::from_slice(alloc, name)?)?;
        match self.macros.name_file(alloc, number, name) {
            Ok(()) => Ok(number),
            Err(_) => {
                self.names.truncate(len);
                Err(NoMemory)
            }
        }
    }

    /// Takes the tokens that follow `define` on its line.
    pub fn define(&mut self, alloc: Global, line: &[Token]) -> Result<(), Fault>
        ensures table { Takes self.old.table (defined self.old.table line.now) result self.new.table }
        ensures names { self.new.names ≡ self.old.names }
    {
        self.macros.define(alloc, line)
    }

    /// Takes a name's definition away.
    pub fn undef(&mut self, name: &Name)
        ensures { self.new ≡ spec.with_table self.old (table.undefined self.old.table name.now) }
    {
        self.macros.undef(name);
    }

    pub fn is_defined(&self, name: &Bytes) -> bool
        ensures { result ≡ spec.is_defined self.now name.now }
    {
        self.macros.is_defined(name)
    }

    /// A list after all replacements, and how many more may be made of the `left` that might be.
    pub fn expand(
        &self,
        alloc: Global,
        tokens: &[Token],
        left: u32,
    ) -> Result<(Items<Token>, u32), Fault>
        ensures { Gives (spec.expanded_in self.now left tokens.now) result }
    {
        expand(alloc, tokens, &self.macros, left)
    }
}
