// Declarations at file scope (ANSI 3.7).
ghost use Rattle.std.specs.Prelude.{◌≡◌, IfOk};
ghost use Rattle.sc_check_body.specs.Faults.{GivesWith};
ghost use Rattle.sc_check.specs.Files as spec;

use sc_base::{Duplicate, Items, NoMemory};
use sc_check_body::{
    Translation, UnitFault, declarator_type, declare_alone, link, name_link, name_type,
    no_initializer, rule,
};
use sc_check_declare::{DeclaredType, Place, may_stand};
use sc_check_expr::specifiers;
use sc_check_initial::static_initializer;
use sc_check_linkage::{Birth, Declaration as Linked};
use sc_check_operand::is_function;
use sc_core::Init;
use sc_tree::{Declaration, Identifier, InitDeclarator, Initializer, Storage, is_typedef};
use sc_types::CType;
use std::alloc::Global;

/// The composite type of the declarations of a name with linkage so far.
fn type_so_far(alloc: Global, m: &Translation, place: usize) -> Result<CType, NoMemory>
    ensures { IfOk result (λ of. of ≡ spec.type_so_far place m.now) }
{
    match m.links.as_slice().get(place) {
        Some(link) => link.of.copy(alloc),
        None => Ok(CType::Void(false)),
    }
}

fn set_contents(m: &mut Translation, place: usize, init: Items<Init>)
    ensures { m.new ≡ spec.with_contents place init m.old }
{
    if place < m.contents.len() {
        m.contents.set(place, Some(init));
    } else {
        drop(init);
    }
}

/// The type that an initialiser gives an object with linkage, and its bytes.
fn static_contents(
    alloc: Global,
    m: &mut Translation,
    place: usize,
    given: &Initializer,
) -> Result<(CType, Items<Init>), UnitFault>
    ensures { GivesWith (spec.static_contents place given.now m.old) result m.new }
{
    let of = type_so_far(alloc, m, place)?;
    Ok(static_initializer(alloc, &mut m.st, &m.home, &of, given)?)
}

/// The initialiser of an object with linkage, in this place of the order of births.
fn initialize(
    alloc: Global,
    m: &mut Translation,
    place: usize,
    number: usize,
    x: &Linked,
    given: &Initializer,
) -> Result<(), UnitFault>
    ensures { GivesWith (spec.initialized place number x.now given.now m.old) result m.new }
{
    let (of, init) = static_contents(alloc, m, place, given)?;
    m.links.initialize(alloc, x.line, number, &of, place)?;
    set_contents(m, place, init);
    name_link(alloc, m, place, &x.name)?;
    Ok(())
}

fn note_object(m: &mut Translation, place: usize) -> Result<usize, NoMemory>
    ensures { IfOk result (λ n. (n, m.new) ≡ spec.note_object place m.old) }
{
    let Ok(own) = u32::try_from(place) else {
        return Err(NoMemory);
    };
    m.note(Birth::Object(own))
}

/// A declarator that defines an object, tentatively or with its initialiser (ANSI 3.7.2).
fn define(
    alloc: Global,
    m: &mut Translation,
    place: usize,
    x: &Linked,
    given: &Option<Initializer>,
) -> Result<(), UnitFault>
    ensures { GivesWith (spec.defined place x.now given.now m.old) result m.new }
{
    let number = note_object(m, place)?;
    m.links.define(x.line, number, place)?;
    match given {
        Some(given) => initialize(alloc, m, place, number, x, given),
        None => Ok(()),
    }
}

fn is_extern(class: Option<Storage>) -> bool
    ensures { result ≡ spec.is_extern class }
{
    match class {
        Some(Storage::Extern) => true,
        _ => false,
    }
}

fn object(
    alloc: Global,
    m: &mut Translation,
    place: usize,
    x: &Linked,
    given: &Option<Initializer>,
) -> Result<(), UnitFault>
    ensures { GivesWith (spec.object place x.now given.now m.old) result m.new }
{
    if is_function(&x.of) {
        return no_initializer(alloc, m, x.line, given);
    }
    if is_extern(x.storage) && given.is_none() {
        return Ok(());
    }
    define(alloc, m, place, x, given)
}

fn linked(
    alloc: Global,
    m: &mut Translation,
    x: &Linked,
    given: &Option<Initializer>,
) -> Result<(), UnitFault>
    ensures { GivesWith (spec.linked x.now given.now m.old) result m.new }
{
    let place = link(alloc, m, x)?;
    name_link(alloc, m, place, &x.name)?;
    object(alloc, m, place, x, given)
}

/// A declarator with linkage, whose type is known.
pub(crate) fn with_linkage(
    alloc: Global,
    line: u32,
    class: Option<Storage>,
    id: &Identifier,
    of: CType,
) -> Result<Linked, NoMemory>
    ensures { IfOk result (λ x. x ≡ spec.with_linkage line class id.now of) }
{
    let name = id.name.copy(alloc)?;
    Ok(Linked {
        name,
        of,
        storage: class,
        line,
        name_line: id.line,
    })
}

fn named_linkage(
    alloc: Global,
    m: &mut Translation,
    class: Option<Storage>,
    line: u32,
    id: &Identifier,
    of: CType,
    given: &Option<Initializer>,
) -> Result<(), UnitFault>
    ensures { GivesWith (spec.linked (spec.with_linkage line class id.now of) given.now m.old) result m.new }
{
    let x = with_linkage(alloc, line, class, id, of)?;
    linked(alloc, m, &x, given)
}

fn named_type(
    alloc: Global,
    m: &mut Translation,
    line: u32,
    id: &Identifier,
    of: DeclaredType,
    given: &Option<Initializer>,
) -> Result<(), UnitFault>
    ensures { GivesWith (spec.named_type line id.now.name of given.now m.old) result m.new }
{
    name_type(alloc, m, line, &id.name, of)?;
    no_initializer(alloc, m, line, given)
}

fn named(
    alloc: Global,
    m: &mut Translation,
    class: Option<Storage>,
    line: u32,
    id: &Identifier,
    of: DeclaredType,
    given: &Option<Initializer>,
) -> Result<(), UnitFault>
    ensures { GivesWith (spec.named class line id.now of given.now m.old) result m.new }
{
    if !may_stand(Place::File, class) {
        drop(of);
        return Err(rule(line));
    }
    if is_typedef(class) {
        named_type(alloc, m, line, id, of, given)
    } else {
        named_linkage(alloc, m, class, line, id, of.of, given)
    }
}

fn declare(
    alloc: Global,
    m: &mut Translation,
    class: Option<Storage>,
    d: &InitDeclarator,
    of: DeclaredType,
) -> Result<(), UnitFault>
    ensures { GivesWith (spec.declared class d.now of m.old) result m.new }
{
    match &d.declarator.identifier {
        Some(id) => named(alloc, m, class, d.line, id, of, &d.initializer),
        None => {
            drop(of);
            Err(rule(d.line))
        }
    }
}

fn declare_one(
    alloc: Global,
    m: &mut Translation,
    class: Option<Storage>,
    base: &DeclaredType,
    d: &InitDeclarator,
) -> Result<(), UnitFault>
    ensures { GivesWith (spec.one_declarator class base.now d.now m.old) result m.new }
{
    let of = declarator_type(alloc, &mut m.st, base, &d.declarator)?;
    declare(alloc, m, class, d, of)
}

fn declare_all(
    alloc: Global,
    m: &mut Translation,
    class: Option<Storage>,
    base: &DeclaredType,
    list: &[InitDeclarator],
) -> Result<(), UnitFault>
    ensures { GivesWith (spec.declarators class base.now list.now m.old) result m.new }
{
    for d in list {
        declare_one(alloc, m, class, base, d)?;
    }
    Ok(())
}

fn declare_listed(alloc: Global, m: &mut Translation, d: &Declaration) -> Result<(), UnitFault>
    ensures { GivesWith (spec.listed d.now m.old) result m.new }
{
    let base = specifiers(alloc, &mut m.st, &d.specifiers)?;
    declare_all(
        alloc,
        m,
        d.specifiers.storage,
        &base,
        d.declarators.as_slice(),
    )
}

fn without_declarators(alloc: Global, m: &mut Translation, d: &Declaration) -> Result<(), UnitFault>
    ensures { GivesWith (spec.alone d.now m.old) result m.new }
{
    declare_alone(alloc, &mut m.st, Place::File, d)
}

/// A declaration at file scope.
///
/// # Errors
///
/// As its specifiers, declarators and initialisers; `Rule` (X7) for `auto` and `register`, a name that is declared without
/// linkage, declarations that do not agree, a second initialiser, and an initialiser of a function or a typedef; X9 `main`
/// and `libraryname`.
pub(crate) fn declare_file(
    alloc: Global,
    m: &mut Translation,
    d: &Declaration,
) -> Result<(), UnitFault>
    ensures { GivesWith (spec.declaration d.now m.old) result m.new }
{
    match d.declarators.as_slice() {
        [] => without_declarators(alloc, m, d),
        _ => declare_listed(alloc, m, d),
    }
}
