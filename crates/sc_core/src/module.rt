// A module: its functions, its objects of static storage duration, and what it declares.
ghost use Rattle.std.specs.Prelude.{◌≡◌, MatchOption, None, Some};
ghost use Rattle.sc_core.specs.Modules as spec;

use crate::statement::CoreStmt;
use sc_base::{Bytes, Items, Key, Name, Shared};
use sc_program::{Slot, StaticId};
use sc_types::{CType, Signature, Structs};

/// A parameter or automatic object: its name, its type and its place in the frame.
#[derive(Drop)]
pub struct Auto {
    pub name: Name,
    pub of: CType,
    pub slot: Slot,
}

/// A function (ANSI 3.7.1): whether it has external linkage, the line of its name, its type, the objects of each block, the
/// cost of its frame in bytes, and its body, which is block 1.
#[derive(Drop)]
pub struct Fun {
    pub name: Name,
    pub external: bool,
    pub line: u32,
    pub of: Signature,
    pub blocks: Items<Items<Auto>>,
    pub cost: u32,
    pub body: Shared<CoreStmt>,
}

/// One piece of the initial contents of an object of static storage duration.
#[derive(Drop)]
pub enum Init {
    Byte(u8),
    /// So many zero bytes, one after another.
    Zeros(u32),
    /// Four bytes: the address of an object or function, and an offset in bytes, modulo 2 to the 32.
    Address(StaticId, u32),
}

/// An object of static storage duration (ANSI 3.1.2.4): whether it is `const`, the line of its name, and its contents.
#[derive(Drop)]
pub struct StaticObj {
    pub key: Key,
    pub of: CType,
    pub constant: bool,
    pub line: u32,
    pub init: Items<Init>,
}

/// What a module says of a function or object with linkage: its type, the composite of all its declarations; whether the
/// module defines it; the line of its name.
#[derive(Drop)]
pub struct Declared {
    pub key: Key,
    pub of: CType,
    pub defined: bool,
    pub line: u32,
}

/// A module, checked: the functions in their order, the objects of static storage duration, the bytes of the string
/// literals (each ends with a zero byte), the objects and literals in the order in which they are born, the structures,
/// and the declarations.
#[derive(Drop)]
pub struct Core {
    pub name: Name,
    pub funs: Items<Shared<Fun>>,
    pub objects: Items<StaticObj>,
    pub literals: Items<Bytes>,
    pub births: Items<StaticId>,
    pub structs: Structs,
    pub declared: Items<Declared>,
}

impl Core {
    /// The function of this name, where the module defines one, to be shared.
    pub fn shared_fun(&self, name: &Name) -> Option<&Shared<Fun>>
        ensures { MatchOption result (spec.function_of name.now self.now.funs ≡ None) (λ f. spec.function_of name.now self.now.funs ≡ Some f.now) }
    {
        for f in self.funs.as_slice() {
            if f.get().name == *name {
                return Some(f);
            }
        }
        None
    }

    /// The function of this name, where the module defines one.
    pub fn fun(&self, name: &Name) -> Option<&Fun>
        ensures { MatchOption result (spec.function_of name.now self.now.funs ≡ None) (λ f. spec.function_of name.now self.now.funs ≡ Some f.now) }
    {
        match self.shared_fun(name) {
            Some(f) => Some(f.get()),
            None => None,
        }
    }
}
