// Declarations of names with linkage in a unit (ANSI 3.1.2.2, 3.5, 3.7).
ghost use Rattle.std.specs.Prelude.{◌≡◌, ◌<◌, [], ◌∷◌, ◌++◌, length, slice_get, slice_set, Some, None, is_some, false, OnOk, IfOk, if◌then◌else◌};
ghost use Rattle.sc_check_declare.specs.Outcomes.{Meets, Gives, GivesWith};
ghost use Rattle.sc_check_linkage.specs.declared.link.Link.{Link};
ghost use Rattle.sc_check_linkage.specs.Linkage as spec;

use crate::library::is_library_name;
use crate::signature::{is_main, is_printf, variadic};
use indexmap::IndexSet;
use sc_base::{Duplicate, Items, Key, Name, NoMemory};
use sc_check_declare::{Failure, Reason, composite, refusal};
use sc_check_operand::is_function;
use sc_core::Declared;
use sc_tree::Storage;
use sc_types::{CType, Structs, compatible, is_complete, is_object};
use std::alloc::Global;
use std::marker::Model;

/// How far a unit defines a name with linkage (ANSI 3.7).
#[derive(Clone, Copy, Debug, PartialEq, Eq)]
pub enum Definition {
    /// It is declared alone.
    Missing,
    /// An object, by tentative definitions: the line of the first, and its place in the order of births (3.7.2).
    Tentative(u32, usize),
    /// An object with its initialiser: the line of the first definition, and the place of the one with the initialiser.
    Initialized(u32, usize),
    /// A function with its body.
    Body,
}

/// A function or object with linkage: its key, the composite type of all its declarations, the line of its name in the
/// first one, and how far it is defined.
#[derive(Drop)]
pub struct Link {
    pub key: Key,
    pub of: CType,
    pub line: u32,
    pub definition: Definition,
}

/// A declaration of a name with linkage: its name, its type, its storage class, and the lines of its declarator and of
/// the name.
#[derive(Drop)]
pub struct Declaration {
    pub name: Name,
    pub of: CType,
    pub storage: Option<Storage>,
    pub line: u32,
    pub name_line: u32,
}

/// The names with linkage of a unit, seen as the list of them in the order of their first declarations.
#[derive(Drop)]
pub struct Links {
    links: Vec<Link>,
    names: IndexSet<Name>,
}

impl Model for Links {
    ghost use Rattle.std.specs.Prelude.{◌≡◌, List, map};
    ghost use Rattle.sc_check_linkage.specs.declared.link.Link.{Link};
    ghost use Rattle.sc_types.specs.contracts.ctype.CType as types;
    ghost use Rattle.std.specs.Coded.{codes};

    ghost Value = { List Link };

    ghost coded = { Prim.hlevel (codes, types.the_row.coded) };

    ghost view = { λ s. s.links.items };

    ghost invariant = { λ s. s.names.keys ≡ map (λ l. l.key.name) s.links.items };
}

/// Whether a declaration gives internal linkage, where an earlier one gave it or not.
fn is_internal(storage: Option<Storage>, function: bool, earlier: bool) -> bool
    ensures { result ≡ spec.is_internal storage function earlier }
{
    match storage {
        None => function && earlier,
        Some(Storage::Static) => true,
        Some(Storage::Extern) => earlier,
        Some(Storage::Typedef) | Some(Storage::Auto) | Some(Storage::Register) => false,
    }
}

fn has_internal(l: &Link) -> bool
    ensures { result ≡ spec.has_internal l.now }
{
    l.key.module.is_some()
}

fn type_taken(alloc: Global, internal: bool, x: &Declaration) -> Result<CType, NoMemory>
    ensures { IfOk result (λ t. t ≡ spec.type_taken internal x.now) }
{
    if !internal && x.name.as_slice() == b"printf".as_slice() && is_printf(&x.of) {
        variadic(alloc, &x.of)
    } else {
        x.of.copy(alloc)
    }
}

fn is_wrong_main(internal: bool, x: &Declaration, of: &CType) -> bool
    ensures { of.now ≡ spec.type_taken internal x.now → result ≡ spec.is_wrong_main internal x.now }
{
    !internal && x.name.as_slice() == b"main".as_slice() && !is_main(of)
}

fn key(alloc: Global, internal: bool, home: &Name, name: &Name) -> Result<Key, NoMemory>
    ensures { IfOk result (λ k. k ≡ record { «module» = (if internal then Some home.now else None); name = name.now }) }
{
    let module = if internal {
        Some(home.copy(alloc)?)
    } else {
        None
    };
    let name = name.copy(alloc)?;
    Ok(Key { module, name })
}

/// The first declaration of a name.
fn first(alloc: Global, home: &Name, x: &Declaration) -> Result<Link, Failure>
    ensures { Meets (spec.first home.now x.now) result }
{
    let internal = is_internal(x.storage, is_function(&x.of), false);
    let of = type_taken(alloc, internal, x)?;
    if is_wrong_main(internal, x, &of) {
        return Err(refusal(Reason::Main, x.line));
    }
    let key = key(alloc, internal, home, &x.name)?;
    Ok(Link {
        key,
        of,
        line: x.name_line,
        definition: Definition::Missing,
    })
}

/// The type that a name has after a further declaration.
fn further(alloc: Global, structs: &Structs, x: &Declaration, l: &Link) -> Result<CType, Failure>
    ensures { Meets (spec.further structs.now x.now l.now) result }
{
    let internal = is_internal(x.storage, is_function(&x.of), has_internal(l));
    let of = type_taken(alloc, internal, x)?;
    if internal != has_internal(l) || !compatible(&l.of, structs, &of, structs, true) {
        return Err(refusal(Reason::Rule, x.line));
    }
    if is_wrong_main(internal, x, &of) {
        return Err(refusal(Reason::Main, x.line));
    }
    Ok(composite(alloc, &l.of, &of)?)
}

fn begun(line: u32, number: usize, definition: Definition) -> Definition
    ensures { result ≡ spec.begun line number definition }
{
    match definition {
        Definition::Missing => Definition::Tentative(line, number),
        Definition::Tentative(l, n) => Definition::Tentative(l, n),
        Definition::Initialized(l, n) => Definition::Initialized(l, n),
        Definition::Body => Definition::Body,
    }
}

fn initialized(line: u32, number: usize, definition: Definition) -> Result<Definition, Failure>
    ensures { Meets (spec.initialized line number definition) result }
{
    match definition {
        Definition::Missing => Ok(Definition::Initialized(line, number)),
        Definition::Tentative(l, _) => Ok(Definition::Initialized(l, number)),
        Definition::Initialized(_, _) | Definition::Body => Err(refusal(Reason::Rule, line)),
    }
}

fn bodied(line: u32, definition: Definition) -> Result<Definition, Failure>
    ensures { Meets (spec.bodied line definition) result }
{
    match definition {
        Definition::Missing => Ok(Definition::Body),
        Definition::Tentative(_, _) | Definition::Initialized(_, _) | Definition::Body => {
            Err(refusal(Reason::Rule, line))
        }
    }
}

fn may_define(line: u32, l: &Link) -> Result<(), Failure>
    ensures { Meets (spec.may_define line l.now) result }
{
    if !has_internal(l) && is_library_name(&l.key.name) {
        Err(refusal(Reason::LibraryName, line))
    } else {
        Ok(())
    }
}

fn type_at_end(alloc: Global, l: &Link) -> Result<CType, NoMemory>
    ensures { IfOk result (λ t. t ≡ spec.type_at_end l.now) }
{
    if has_internal(l) {
        return l.of.copy(alloc);
    }
    match &l.of {
        CType::Array(element, 0) => Ok(CType::Array(element.share()?, 1)),
        _ => l.of.copy(alloc),
    }
}

fn declared(alloc: Global, l: &Link, defined: bool, of: CType) -> Result<Declared, NoMemory>
    ensures { IfOk result (λ x. x ≡ spec.declared l.now defined of) }
{
    let key = l.key.copy(alloc)?;
    Ok(Declared {
        key,
        of,
        defined,
        line: l.line,
    })
}

fn sized(
    alloc: Global,
    structs: &Structs,
    line: u32,
    l: &Link,
    of: CType,
) -> Result<Declared, Failure>
    ensures { Meets (spec.sized structs.now line l.now of) result }
{
    if !is_complete(&of, structs) {
        return Err(refusal(Reason::Rule, line));
    }
    if !is_object(&of, structs) {
        return Err(refusal(Reason::Size, line));
    }
    Ok(declared(alloc, l, true, of)?)
}

fn finish_one(alloc: Global, structs: &Structs, l: &Link) -> Result<Declared, Failure>
    ensures { Meets (spec.finish_by structs.now l.now l.now.definition) result }
{
    match l.definition {
        Definition::Missing => Ok(declared(alloc, l, false, l.of.copy(alloc)?)?),
        Definition::Body => Ok(declared(alloc, l, true, l.of.copy(alloc)?)?),
        Definition::Tentative(line, _) | Definition::Initialized(line, _) => {
            sized(alloc, structs, line, l, type_at_end(alloc, l)?)
        }
    }
}

impl Links {
    /// No names, which takes no memory.
    pub fn new(alloc: Global) -> Links
        ensures { result ≡ [] }
    {
        Links {
            links: Vec::new(alloc),
            names: IndexSet::new(alloc),
        }
    }

    /// The names in the order of their first declarations.
    pub fn as_slice(&self) -> &[Link]
        ensures { result.now ≡ self.now }
    {
        self.links.as_slice()
    }

    /// The place of a name.
    pub fn place_of(&self, name: &Name) -> Option<usize>
        ensures place { result ≡ spec.place_of name.now self.now }
        ensures found { is_some result ≡ spec.is_declared name.now self.now }
    {
        self.names.get_index_of(name)
    }

    fn add(&mut self, alloc: Global, link: Link) -> Result<(), NoMemory>
        requires { spec.is_declared link.key.name self.old ≡ false }
        ensures { OnOk result (self.new ≡ self.old ++ link ∷ []) }
    {
        let name = link.key.name.copy(alloc)?;
        self.links.push(link)?;
        match self.names.insert(name) {
            Ok(_) => Ok(()),
            Err(_) => {
                self.links.pop();
                Err(NoMemory)
            }
        }
    }

    fn set(&mut self, place: usize, of: CType, definition: Definition)
        requires { place < length self.old }
        ensures { (l : Link) → slice_get self.old place ≡ Some l → self.new ≡ slice_set self.old place (record l { of = of; definition = definition }) }
    {
        let link = &mut self.links[place];
        link.of = of;
        link.definition = definition;
    }

    fn set_definition(&mut self, place: usize, definition: Definition)
        requires { place < length self.old }
        ensures { (l : Link) → slice_get self.old place ≡ Some l → self.new ≡ slice_set self.old place (record l { definition = definition }) }
    {
        let link = &mut self.links[place];
        link.definition = definition;
    }

    fn redeclare(
        &mut self,
        alloc: Global,
        structs: &Structs,
        place: usize,
        x: &Declaration,
    ) -> Result<(), Failure>
        ensures { Gives (spec.redeclare structs.now x.now place self.old) result self.new }
    {
        let Some(l) = self.links.get(place) else {
            return Ok(());
        };
        let definition = l.definition;
        let of = further(alloc, structs, x, l)?;
        self.set(place, of, definition);
        Ok(())
    }

    /// A declaration of a name with linkage (ANSI 3.1.2.2, 3.5): the place of the name. X7 where an earlier one has
    /// another linkage or a type that is not compatible, X9 `main` for `main` with external linkage that is no
    /// function without parameters that gives `int`. `int printf(const char *)` with external linkage is the variadic function.
    pub fn declare(
        &mut self,
        alloc: Global,
        structs: &Structs,
        home: &Name,
        x: &Declaration,
    ) -> Result<usize, Failure>
        ensures { GivesWith (spec.declare structs.now home.now x.now self.old) result self.new }
    {
        match self.place_of(&x.name) {
            None => {
                let place = self.links.len();
                let link = first(alloc, home, x)?;
                self.add(alloc, link)?;
                Ok(place)
            }
            Some(place) => {
                self.redeclare(alloc, structs, place, x)?;
                Ok(place)
            }
        }
    }

    /// A declarator that defines an object, tentatively or with an initialiser (ANSI 3.7.2), in this place of the order of
    /// births: X9 `libraryname` for a library name with external linkage.
    pub fn define(&mut self, line: u32, number: usize, place: usize) -> Result<(), Failure>
        ensures { Gives (spec.change (spec.define line number) place self.old) result self.new }
    {
        let Some(l) = self.links.get(place) else {
            return Ok(());
        };
        may_define(line, l)?;
        let definition = begun(line, number, l.definition);
        self.set_definition(place, definition);
        Ok(())
    }

    /// The initialiser of an object, which completes its type (ANSI 3.7.2), in this place of the order of births: X7
    /// where it has one already.
    pub fn initialize(
        &mut self,
        alloc: Global,
        line: u32,
        number: usize,
        of: &CType,
        place: usize,
    ) -> Result<(), Failure>
        ensures { Gives (spec.change (spec.initialize line number of.now) place self.old) result self.new }
    {
        let Some(l) = self.links.get(place) else {
            return Ok(());
        };
        let definition = initialized(line, number, l.definition)?;
        let of = composite(alloc, &l.of, of)?;
        self.set(place, of, definition);
        Ok(())
    }

    /// The beginning of a function's definition (ANSI 3.7.1): X9 `libraryname` for a library name with external linkage.
    pub fn begin_function(&self, line: u32, place: usize) -> Result<(), Failure>
        ensures { Meets (spec.begin_function line (slice_get self.now place)) result }
    {
        match self.links.get(place) {
            Some(l) => may_define(line, l),
            None => Ok(()),
        }
    }

    /// The end of a function's definition (ANSI 3.7.1): X7 where it has a body already.
    pub fn end_function(&mut self, line: u32, place: usize) -> Result<(), Failure>
        ensures { Gives (spec.change (spec.give_body line) place self.old) result self.new }
    {
        let Some(l) = self.links.get(place) else {
            return Ok(());
        };
        let definition = bodied(line, l.definition)?;
        self.set_definition(place, definition);
        Ok(())
    }

    /// What the unit says of each name, at its end (ANSI 3.7.2): an array with external linkage that is defined and
    /// still without size has one element. X7 for an object that is defined and incomplete, X10 `size` for one that
    /// is too large, at the line of its first definition.
    pub fn finish(&self, alloc: Global, structs: &Structs) -> Result<Items<Declared>, Failure>
        ensures { Meets (spec.finish structs.now self.now) result }
    {
        let mut all = Items::new(alloc);
        for l in self.links.as_slice() {
            let one = finish_one(alloc, structs, l)?;
            all.push(one)?;
        }
        Ok(all)
    }
}
