// The names of types in scope.
ghost use Rattle.std.specs.Prelude.{◌≡◌, ◌∷◌, [], length, reverse, IfOk, OnOk, OnErr};
ghost use Rattle.sc_parse_names.specs.Names as spec;

use crate::latest::Latest;
use sc_base::{Bytes, Items, Name, NoMemory};
use std::alloc::Global;
use std::marker::Model;

/// A name that a scope declares, and whether a typedef does.
#[derive(Drop)]
pub struct Entry {
    pub name: Name,
    pub typedef: bool,
}

/// The scopes around a place, seen as their list with the innermost first (ANSI 3.1.2.1).
#[derive(Drop)]
pub struct TypeNames {
    scopes: Vec<Items<Entry>>,
    latest: Latest,
}

impl Model for TypeNames {
    ghost use Rattle.std.specs.Prelude.{◌≡◌, List, reverse};
    ghost use Rattle.sc_parse_names.specs.declared.scopes.Entry.{Entry};
    ghost use Rattle.sc_parse_names.specs.Latest.{rows};

    ghost Value = { List (List Entry) };

    ghost view = { λ s. reverse s.scopes.items };

    ghost invariant = { λ s. s.latest ≡ rows (reverse s.scopes.items) };
}

impl TypeNames {
    /// One empty scope.
    pub fn new(alloc: Global) -> Result<TypeNames, NoMemory>
        ensures { IfOk result (λ names. names ≡ [] ∷ []) }
    {
        let mut scopes = Vec::new(alloc);
        scopes.push(Items::new(alloc))?;
        let latest = Latest::new(alloc);
        Ok(TypeNames { scopes, latest })
    }

    /// The number of scopes.
    pub fn len(&self) -> usize
        ensures { result ≡ length self.now }
    {
        self.scopes.len()
    }

    /// Begins a scope. Where memory runs out nothing changes.
    pub fn push_scope(&mut self, alloc: Global) -> Result<(), NoMemory>
        ensures ok { OnOk result (self.new ≡ spec.enter self.old) }
        ensures err { OnErr result (self.new ≡ self.old) }
    {
        self.scopes.push(Items::new(alloc))?;
        Ok(())
    }

    /// Ends the innermost scope: the names that it declares.
    #[tactic(auto, using(crate::proofs::Found::rows_popped, crate::proofs::Found::reverse_last))]
    pub fn pop_scope(&mut self, alloc: Global) -> Items<Entry>
        ensures names { self.new ≡ spec.leave self.old }
        ensures scope { result ≡ spec.innermost self.old }
    {
        match self.scopes.pop() {
            Some(scope) => {
                self.latest.leave(scope.len());
                scope
            }
            None => Items::new(alloc),
        }
    }

    /// Begins a scope with these names. Where memory runs out nothing changes.
    #[tactic(auto, using(crate::proofs::Found::without))]
    pub fn push_names(&mut self, alloc: Global, scope: Items<Entry>) -> Result<(), NoMemory>
        ensures ok { OnOk result (self.new ≡ scope ∷ self.old) }
        ensures err { OnErr result (self.new ≡ self.old) }
    {
        let count = scope.len();
        self.latest.declare_all(alloc, scope.as_slice())?;
        match self.scopes.push(scope) {
            Ok(()) => Ok(()),
            Err(_) => {
                self.latest.leave(count);
                Err(NoMemory)
            }
        }
    }

    /// Declares a name in the innermost scope. Where memory runs out nothing changes.
    #[tactic(auto, using(crate::proofs::Found::rows_declare))]
    pub fn add(&mut self, alloc: Global, name: Name, typedef: bool) -> Result<(), NoMemory>
        ensures ok { OnOk result (self.new ≡ spec.declare name typedef self.old) }
        ensures err { OnErr result (self.new ≡ self.old) }
    {
        self.latest.declare(alloc, &name, typedef)?;
        match declared(alloc, &mut self.scopes, name, typedef) {
            Ok(()) => Ok(()),
            Err(_) => {
                self.latest.leave(1);
                Err(NoMemory)
            }
        }
    }

    /// Whether the name is that of a type: whether its innermost declaration is a typedef.
    #[tactic(auto, using(crate::proofs::Found::is_type_found))]
    pub fn is_type(&self, name: &Bytes) -> bool
        ensures { result ≡ spec.is_type self.now name.now }
    {
        match self.latest.find(name) {
            Some(typedef) => typedef,
            None => false,
        }
    }
}

/// Appends a name to the last of the scopes; to a first one where there is none.
fn declared(
    alloc: Global,
    scopes: &mut Vec<Items<Entry>>,
    name: Name,
    typedef: bool,
) -> Result<(), NoMemory>
    ensures ok { OnOk result (reverse scopes.new.items ≡ spec.declare name typedef (reverse scopes.old.items)) }
    ensures err { OnErr result (scopes.new.items ≡ scopes.old.items) }
{
    match scopes.pop() {
        Some(scope) => {
            let mut scope = scope;
            let pushed = scope.push(Entry { name, typedef });
            scopes.push_reserved(scope);
            pushed
        }
        None => {
            let mut scope = Items::new(alloc);
            scope.push(Entry { name, typedef })?;
            scopes.push(scope)?;
            Ok(())
        }
    }
}
