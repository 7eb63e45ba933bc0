// A walk through a unit, and the places that it gives.
ghost use Rattle.std.specs.Prelude.{◌≡◌, OnOk, true};
ghost use Rattle.sc_xref.specs.Walks as spec;

use sc_base::{Duplicate, Items, Name, NoMemory};
use std::alloc::Global;

/// What a place of a name is: a definition (ANSI 3.5, 3.7), any other declarator, the function of a call (3.3.2.2), or any other use
/// in an expression.
#[derive(Clone, Copy, Debug, PartialEq, Eq)]
pub enum PlaceKind {
    Def,
    Decl,
    Call,
    Use,
}

/// Where a unit has the name of one of its functions or objects of the file: the name, what it is there, and the line, from 1 on.
#[derive(Drop)]
pub struct Place {
    pub name: Name,
    pub kind: PlaceKind,
    pub line: u32,
}

/// A name that a parameter, a block or an enumeration declares (ANSI 3.1.2.1): whether it is that of a function or object of the file.
#[derive(Drop)]
pub struct Seen {
    pub name: Name,
    pub shown: bool,
}

/// A walk through a unit: what is declared around the place where it stands, the innermost last; the names of types of functions; and
/// the places so far.
#[derive(Drop)]
pub struct Walk {
    pub names: Items<Seen>,
    pub functions: Items<Name>,
    pub places: Items<Place>,
}

// Whether a name means the function or object of the file.
fn is_shown(names: &[Seen], name: &Name) -> bool
    ensures { result ≡ spec.is_shown names.now name.now }
{
    let mut shown = true;
    for s in names {
        if s.name == *name {
            shown = s.shown;
        }
    }
    shown
}

impl Walk {
    /// Nothing is declared, and there is no place.
    pub fn nothing(alloc: Global) -> Walk
        ensures { result ≡ spec.nothing }
    {
        Walk {
            names: Items::new(alloc),
            functions: Items::new(alloc),
            places: Items::new(alloc),
        }
    }

    /// A name of a type of functions is kept.
    pub fn keep(&mut self, alloc: Global, name: &Name) -> Result<(), NoMemory>
        ensures { OnOk result (self.new ≡ spec.keep name.now self.old) }
    {
        let name = name.copy(alloc)?;
        self.functions.push(name)?;
        Ok(())
    }

    /// A place more.
    pub fn put(
        &mut self,
        alloc: Global,
        name: &Name,
        kind: PlaceKind,
        line: u32,
    ) -> Result<(), NoMemory>
        ensures { OnOk result (self.new ≡ spec.put name.now kind line self.old) }
    {
        let name = name.copy(alloc)?;
        self.places.push(Place { name, kind, line })?;
        Ok(())
    }

    /// A name in an expression: a place, where nothing hides the function or object of the file.
    pub fn mark(
        &mut self,
        alloc: Global,
        kind: PlaceKind,
        line: u32,
        name: &Name,
    ) -> Result<(), NoMemory>
        ensures { OnOk result (self.new ≡ spec.mark kind line name.now self.old) }
    {
        if is_shown(self.names.as_slice(), name) {
            self.put(alloc, name, kind, line)
        } else {
            Ok(())
        }
    }

    /// A name is declared, which is that of a function or object of the file or hides it.
    pub fn see(&mut self, alloc: Global, shown: bool, name: &Name) -> Result<(), NoMemory>
        ensures { OnOk result (self.new ≡ spec.see shown name.now self.old) }
    {
        let name = name.copy(alloc)?;
        self.names.push(Seen { name, shown })?;
        Ok(())
    }
}
