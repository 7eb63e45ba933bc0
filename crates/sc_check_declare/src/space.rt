// Name spaces and scopes (ANSI 3.1.2.1, 3.1.2.3).
ghost use Rattle.std.specs.Prelude.{◌≡◌, ◌<◌, ◌-◌, [], ◌∷◌, ◌++◌, length, drop, slice_get, IfOk, OnOk, OnErr};
ghost use Rattle.std.specs.Option.{option_copied, option_map};
ghost use Rattle.sc_check_declare.specs.Spaces as spec;
ghost use Rattle.sc_check_declare.specs.Outcomes.{Gives};

use crate::failure::{Failure, Reason, refusal};
use indexmap::IndexMap;
use sc_base::{Duplicate, Items, Name, NoMemory, Stack};
use std::alloc::Global;
use std::marker::Model;

/// A name space: the names in scope with their meanings, seen as the list of them, innermost and latest first. A scope
/// is what was declared since the length that it had when the scope began.
#[derive(Drop)]
pub struct NameSpace<T> {
    rows: Stack<(Name, T)>,
    hidden: Stack<Option<usize>>,
    places: IndexMap<Name, usize>,
}

impl<T> Model for NameSpace<T> {
    ghost use Rattle.std.specs.Prelude.{ℕ, List};
    ghost use Rattle.std.specs.Str.{bytes_eq};
    ghost use Rattle.std.specs.Coded.{coded_list, coded×, coded_ℕ};
    ghost use Rattle.indexmap.specs.IndexMap.{get};
    ghost use Rattle.sc_check_declare.specs.Places.{IsKept};

    ghost Value = { List (List ℕ × T) };

    ghost coded = { coded_list (coded× (coded_list coded_ℕ) T.code) };

    ghost view = { λ s. s.rows };

    ghost invariant = { λ s. IsKept s.rows s.hidden (get bytes_eq s.places) };
}

fn meaning_at<T>(rows: &[(Name, T)], place: usize) -> Option<&T>
    ensures { option_copied result ≡ option_map (λ e. e.1) (slice_get rows.now place) }
{
    match rows.get(place) {
        Some(row) => Some(&row.1),
        None => None,
    }
}

impl<T> NameSpace<T> {
    /// How many names are in scope, hidden ones too.
    pub fn len(&self) -> usize
        ensures { result ≡ length self.now }
    {
        self.rows.len()
    }

    /// The innermost meaning of a name.
    pub fn find(&self, name: &Name) -> Option<&T>
        ensures { option_copied result ≡ spec.find name.now self.now }
    {
        let place = *self.places.get(name)?;
        meaning_at(self.rows.as_slice(), place)
    }

    /// The meaning of a name in the innermost scope, which began at this length.
    pub fn find_innermost(&self, began: usize, name: &Name) -> Option<&T>
        ensures { option_copied result ≡ spec.find name.now (spec.innermost began self.now) }
    {
        let place = *self.places.get(name)?;
        if place < began {
            return None;
        }
        meaning_at(self.rows.as_slice(), place)
    }
}

impl<T: Drop> NameSpace<T> {
    /// An empty name space, which takes no memory.
    pub fn new(alloc: Global) -> NameSpace<T>
        ensures { result ≡ [] }
    {
        NameSpace {
            rows: Stack::new(alloc),
            hidden: Stack::new(alloc),
            places: IndexMap::new(alloc),
        }
    }

    /// One more name, which hides an outer one. Where memory runs out nothing changes.
    pub fn declare(&mut self, alloc: Global, name: Name, meaning: T) -> Result<(), NoMemory>
        ensures ok { OnOk result (self.new ≡ (name, meaning) ∷ self.old) }
        ensures err { OnErr result (self.new ≡ self.old) }
    {
        let key = name.copy(alloc)?;
        let hidden = self.places.get(&name).copied();
        let place = self.rows.len();
        self.hidden.push(hidden)?;
        match self.rows.push((name, meaning)) {
            Ok(()) => {}
            Err(_) => {
                self.hidden.pop();
                return Err(NoMemory);
            }
        }
        match self.places.insert(key, place) {
            Ok(_) => Ok(()),
            Err(_) => {
                self.rows.pop();
                self.hidden.pop();
                Err(NoMemory)
            }
        }
    }

    /// Takes the latest name away.
    fn forget(&mut self)
        requires { 0 < length self.old }
        ensures { self.new ≡ drop 1 self.old }
    {
        let row = self.rows.pop();
        let hidden = self.hidden.pop();
        match row {
            Some((name, _)) => match hidden {
                Some(Some(place)) => match self.places.insert(name, place) {
                    Ok(_) => {}
                    Err(_) => unreachable!(),
                },
                Some(None) | None => {
                    self.places.swap_remove(&name);
                }
            },
            None => {}
        }
    }

    /// Ends the innermost scope, which began at this length.
    pub fn leave(&mut self, began: usize)
        ensures { self.new ≡ drop (length self.old - began) self.old }
    {
        while self.len() > began {
            self.forget();
        }
    }

    /// Takes the latest name away; the answer is its row.
    fn take_row(&mut self, alloc: Global) -> Result<(Name, T), NoMemory>
        requires { 0 < length self.old }
        ensures { IfOk result (λ row. self.old ≡ row ∷ self.new) }
    {
        let key = match self.rows.top() {
            Some(row) => row.0.copy(alloc)?,
            None => unreachable!(),
        };
        let row = match self.rows.pop() {
            Some(row) => row,
            None => unreachable!(),
        };
        match self.hidden.pop() {
            Some(Some(place)) => match self.places.insert(key, place) {
                Ok(_) => {}
                Err(_) => unreachable!(),
            },
            Some(None) | None => {
                self.places.swap_remove(&key);
            }
        }
        Ok(row)
    }

    /// Ends the innermost scope, which began at this length; the answer is its names, the latest first.
    pub fn take_scope(&mut self, alloc: Global, began: usize) -> Result<Items<(Name, T)>, NoMemory>
        ensures scope { IfOk result (λ rows. rows ≡ spec.innermost began self.old) }
        ensures left { OnOk result (self.new ≡ drop (length self.old - began) self.old) }
    {
        let mut rows = Items::new(alloc);
        while self.len() > began {
            let row = self.take_row(alloc)?;
            rows.push(row)?;
        }
        Ok(rows)
    }

    /// The names of a scope that was taken, in the innermost scope.
    pub fn put_scope(&mut self, alloc: Global, rows: Items<(Name, T)>) -> Result<(), NoMemory>
        ensures { OnOk result (self.new ≡ rows ++ self.old) }
    {
        let mut rows = rows;
        while let Some((name, meaning)) = rows.pop() {
            self.declare(alloc, name, meaning)?;
        }
        Ok(())
    }

    /// Declares a name in the innermost scope, which began at this length (ANSI 3.5): X7 where it is declared there already.
    pub fn declare_once(
        &mut self,
        alloc: Global,
        line: u32,
        began: usize,
        name: Name,
        meaning: T,
    ) -> Result<(), Failure>
        ensures { Gives (spec.declare_once line began name meaning self.old) result self.new }
    {
        if self.find_innermost(began, &name).is_some() {
            return Err(refusal(Reason::Rule, line));
        }
        self.declare(alloc, name, meaning)?;
        Ok(())
    }
}
