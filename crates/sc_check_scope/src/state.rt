// What is in scope, and what a unit's text has given so far.
ghost use Rattle.std.specs.Prelude.{◌≡◌, [], ◌∷◌, ◌++◌, length, position, slice_get, is_some, false, OnOk};
ghost use Rattle.std.specs.Option.{option_copied};
ghost use Rattle.std.specs.List.{list_any};
ghost use Rattle.std.specs.Str.{bytes_eq};
ghost use Rattle.sc_check_scope.specs.Steps.{GivesWith};
ghost use Rattle.sc_check_scope.specs.Scopes as spec;

use crate::fault::CheckFault;
use indexmap::IndexSet;
use sc_base::{Bytes, Items, Key, Name, NoMemory};
use sc_check_declare::{DeclaredType, NameSpace, Tag};
use sc_types::{CType, Structs};
use std::alloc::Global;
use std::marker::Model;

/// What a name means (ANSI 3.1.2): a type; an enumeration constant, by the 32 bits of its `int`; a parameter or automatic
/// object, by its block and its place in it, and whether it is `register`; an object of static storage duration; a function.
#[derive(Drop)]
pub enum Meaning {
    Typedef(DeclaredType),
    Constant(u32),
    Automatic(CType, u32, u32, bool),
    Static(CType, Key),
    Function(CType, Key),
}

/// The literals of a unit, each with its zero byte, seen as the list of them in the order of their first appearances.
#[derive(Drop)]
pub struct Literals {
    texts: IndexSet<Bytes>,
}

impl Model for Literals {
    ghost use Rattle.std.specs.Prelude.{ℕ, List};

    ghost Value = { List (List ℕ) };

    ghost view = { λ s. s.texts.keys };
}

impl Literals {
    /// No literals, which takes no memory.
    pub fn new(alloc: Global) -> Literals
        ensures { result ≡ [] }
    {
        Literals {
            texts: IndexSet::new(alloc),
        }
    }

    /// How many there are.
    pub fn len(&self) -> usize
        ensures { result ≡ length self.now }
    {
        self.texts.len()
    }

    /// The literal at a place.
    pub fn get(&self, at: usize) -> Option<&Bytes>
        ensures { option_copied result ≡ slice_get self.now at }
    {
        self.texts.get_index(at)
    }

    /// The place of a literal.
    pub fn place_of(&self, text: &Bytes) -> Option<usize>
        ensures place { result ≡ position (bytes_eq text.now) self.now }
        ensures found { is_some result ≡ list_any (bytes_eq text.now) self.now }
    {
        self.texts.get_index_of(text)
    }

    /// One more literal, which is not there yet.
    pub fn push(&mut self, text: Bytes) -> Result<(), NoMemory>
        requires { list_any (bytes_eq text) self.old ≡ false }
        ensures { OnOk result (self.new ≡ self.old ++ text ∷ []) }
    {
        self.texts.insert(text)?;
        Ok(())
    }
}

/// Where the innermost scope began: how many names, and how many tags, there were.
#[derive(Clone, Copy, Debug, PartialEq, Eq)]
pub struct Marks {
    pub names: usize,
    pub tags: usize,
}

/// The names and tags of a scope that ended, the latest first.
#[derive(Drop)]
pub struct Scope {
    pub names: Items<(Name, Meaning)>,
    pub tags: Items<(Name, Tag)>,
}

/// What is in scope at a place of a unit (ANSI 3.1.2.1, 3.1.2.3), and what the text has given up to it: the structures, and
/// of each whether it has a const member; and the literals. Whether what is checked is evaluated: the operand of `sizeof` is
/// not, and its literals are none of the unit's.
#[derive(Drop)]
pub struct State {
    pub names: NameSpace<Meaning>,
    pub tags: NameSpace<Tag>,
    pub began: Marks,
    pub structs: Structs,
    pub known: Items<bool>,
    pub literals: Literals,
    pub evaluated: bool,
}

impl State {
    /// Nothing in scope, at the beginning of a unit, which takes no memory.
    pub fn new(alloc: Global) -> State
        ensures { result ≡ spec.beginning }
    {
        State {
            names: NameSpace::new(alloc),
            tags: NameSpace::new(alloc),
            began: Marks { names: 0, tags: 0 },
            structs: Structs::new(alloc),
            known: Items::new(alloc),
            literals: Literals::new(alloc),
            evaluated: true,
        }
    }

    /// Declares a name in the innermost scope (ANSI 3.1.2.1).
    ///
    /// # Errors
    ///
    /// `Rule` (X7): the scope has it already.
    pub fn declare(
        &mut self,
        alloc: Global,
        line: u32,
        name: Name,
        meaning: Meaning,
    ) -> Result<(), CheckFault>
        ensures { GivesWith (spec.declare line name meaning self.old) result self.new }
    {
        let began = self.began.names;
        self.names.declare_once(alloc, line, began, name, meaning)?;
        Ok(())
    }
}
