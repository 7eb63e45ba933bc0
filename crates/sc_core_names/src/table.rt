// The names that scopes declare.

use sc_base::{Items, Name};

/// What a name of a scope stands for (ANSI 3.1.2).
#[derive(Clone, Copy, Debug, PartialEq, Eq)]
pub enum Entity {
    /// A typedef name or an enumeration constant.
    NoObject,
    /// An object of a block that is declared `static`: it has static storage duration and no linkage.
    Static,
    /// An automatic object or a parameter; or an object or a function with linkage. The tree alone does not tell which.
    Declared,
}

/// A name that a scope declares.
#[derive(Drop)]
pub struct DeclaredName {
    pub name: Name,
    pub entity: Entity,
}

/// The scopes of a function: its name; how many names are declared at file scope up to its own, which is one of them; and the
/// names of each of its blocks. The parameters are block 0, the body is block 1, and the blocks inside it follow in the order in
/// which they begin.
#[derive(Drop)]
pub struct FunctionScopes {
    pub name: Name,
    pub before: usize,
    pub blocks: Items<Items<DeclaredName>>,
}

/// The scopes of a unit: the names of the file, and those of each function that is defined. What an expression declares, as an
/// enumeration in the type name of a cast, and what belongs to a prototype inside a declarator, is not among them.
#[derive(Drop)]
pub struct Scopes {
    pub file: Items<DeclaredName>,
    pub functions: Items<FunctionScopes>,
}

/// The scopes of a module, with the module's name.
#[derive(Drop)]
pub struct ModuleScopes {
    pub module: Name,
    pub scopes: Scopes,
}
