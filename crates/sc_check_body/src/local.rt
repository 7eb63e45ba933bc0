// Declarations of a block (ANSI 3.5, 3.6.2).
ghost use Rattle.std.specs.Prelude.{◌≡◌, IfOk};
ghost use Rattle.sc_check_body.specs.Faults.{GivesWith};
ghost use Rattle.sc_check_body.specs.Locals as spec;

use crate::alone::{declarator_type, declare_alone};
use crate::automatic::automatic;
use crate::fault::{UnitFault, rule};
use crate::linked::{link, name_link, name_type, no_initializer};
use crate::permanent::static_local;
use crate::progress::{Body, OpenBlock, Translation};
use sc_base::{Duplicate, NoMemory};
use sc_check_declare::{DeclaredType, Place, may_stand};
use sc_check_expr::specifiers;
use sc_check_linkage::Declaration as Declared;
use sc_check_operand::{is_function, object_size};
use sc_tree::{Declaration, Identifier, InitDeclarator, Initializer, Storage, is_typedef};
use sc_types::{CType, Structs};
use std::alloc::Global;

/// What a declarator of a block declares.
#[derive(Clone, Copy, Debug, PartialEq, Eq)]
enum Duration {
    Typedef,
    Function,
    Extern,
    Static,
    /// An automatic object, and whether it is `register`.
    Automatic(bool),
}

fn duration_of(storage: Option<Storage>, of: &CType) -> Duration
    ensures { result ≡ spec.duration_of storage of.now }
{
    if is_function(of) {
        return Duration::Function;
    }
    match storage {
        None => Duration::Automatic(false),
        Some(Storage::Auto) => Duration::Automatic(false),
        Some(Storage::Register) => Duration::Automatic(true),
        Some(Storage::Static) => Duration::Static,
        Some(Storage::Extern) => Duration::Extern,
        Some(Storage::Typedef) => Duration::Typedef,
    }
}

/// Whether an object may have this type, whose size its initialiser may still tell.
fn may_be_object(structs: &Structs, of: &CType) -> bool
    ensures { result ≡ spec.may_be_object structs.now of.now }
{
    match of {
        CType::Array(_, length) => *length == 0 || object_size(structs, of).is_some(),
        _ => object_size(structs, of).is_some(),
    }
}

/// A function, or an object that is declared `extern`, in a block.
fn linked_local(
    alloc: Global,
    m: &mut Translation,
    x: &Declared,
    given: &Option<Initializer>,
) -> Result<(), UnitFault>
    ensures { GivesWith (spec.linked_local x.now given.now m.old) result m.new }
{
    let place = link(alloc, m, x)?;
    name_link(alloc, m, place, &x.name)?;
    no_initializer(alloc, m, x.line, given)
}

fn function(
    alloc: Global,
    m: &mut Translation,
    x: &Declared,
    given: &Option<Initializer>,
) -> Result<(), UnitFault>
    ensures { GivesWith (spec.function x.now given.now m.old) result m.new }
{
    if may_stand(Place::BlockFunction, x.storage) {
        linked_local(alloc, m, x, given)
    } else {
        Err(rule(x.line))
    }
}

fn static_object(
    alloc: Global,
    m: &mut Translation,
    f: &mut Body,
    x: &Declared,
    given: &Option<Initializer>,
) -> Result<(), UnitFault>
    ensures { GivesWith (spec.static_object x.now given.now (m.old, f.old)) result (m.new, f.new) }
{
    if may_be_object(&m.st.structs, &x.of) {
        static_local(alloc, m, f, x, given)
    } else {
        Err(rule(x.line))
    }
}

fn automatic_object(
    alloc: Global,
    m: &mut Translation,
    inner: &mut OpenBlock,
    x: &Declared,
    register: bool,
    given: &Option<Initializer>,
) -> Result<(), UnitFault>
    ensures { GivesWith (spec.automatic_object x.now register given.now (m.old, inner.old)) result (m.new, inner.new) }
{
    if may_be_object(&m.st.structs, &x.of) {
        automatic(alloc, &mut m.st, inner, x, register, given)
    } else {
        Err(rule(x.line))
    }
}

/// A declarator with its type that names no type.
fn declare_by(
    alloc: Global,
    m: &mut Translation,
    f: &mut Body,
    inner: &mut OpenBlock,
    x: &Declared,
    given: &Option<Initializer>,
) -> Result<(), UnitFault>
    ensures { GivesWith (spec.declared_by (spec.duration_of x.now.storage x.now.of) x.now given.now (m.old, (f.old, inner.old))) result (m.new, (f.new, inner.new)) }
{
    match duration_of(x.storage, &x.of) {
        Duration::Typedef => Ok(()),
        Duration::Function => function(alloc, m, x, given),
        Duration::Extern => linked_local(alloc, m, x, given),
        Duration::Static => static_object(alloc, m, f, x, given),
        Duration::Automatic(register) => automatic_object(alloc, m, inner, x, register, given),
    }
}

fn declared_as(
    alloc: Global,
    line: u32,
    id: &Identifier,
    storage: Option<Storage>,
    of: CType,
) -> Result<Declared, NoMemory>
    ensures { IfOk result (λ x. x ≡ spec.declared_as line id.now storage of) }
{
    let name = id.name.copy(alloc)?;
    Ok(Declared {
        name,
        of,
        storage,
        line,
        name_line: id.line,
    })
}

/// A name for a type in a block, which has no initialiser.
fn type_named(
    alloc: Global,
    m: &mut Translation,
    line: u32,
    id: &Identifier,
    given: &Option<Initializer>,
    t: DeclaredType,
) -> Result<(), UnitFault>
    ensures { GivesWith (spec.type_named line id.now.name given.now t m.old) result m.new }
{
    name_type(alloc, m, line, &id.name, t)?;
    no_initializer(alloc, m, line, given)
}

/// A name that is no name for a type.
fn entity_named(
    alloc: Global,
    m: &mut Translation,
    f: &mut Body,
    inner: &mut OpenBlock,
    line: u32,
    id: &Identifier,
    storage: Option<Storage>,
    given: &Option<Initializer>,
    of: CType,
) -> Result<(), UnitFault>
    ensures { GivesWith (spec.entity_named line id.now storage given.now of (m.old, (f.old, inner.old))) result (m.new, (f.new, inner.new)) }
{
    let x = declared_as(alloc, line, id, storage, of)?;
    declare_by(alloc, m, f, inner, &x, given)
}

fn named(
    alloc: Global,
    m: &mut Translation,
    f: &mut Body,
    inner: &mut OpenBlock,
    line: u32,
    id: &Identifier,
    storage: Option<Storage>,
    given: &Option<Initializer>,
    t: DeclaredType,
) -> Result<(), UnitFault>
    ensures { GivesWith (spec.named line id.now storage given.now t (m.old, (f.old, inner.old))) result (m.new, (f.new, inner.new)) }
{
    if is_typedef(storage) {
        type_named(alloc, m, line, id, given, t)
    } else {
        entity_named(alloc, m, f, inner, line, id, storage, given, t.of)
    }
}

/// A declarator of a block with its initialiser.
fn declare(
    alloc: Global,
    m: &mut Translation,
    f: &mut Body,
    inner: &mut OpenBlock,
    storage: Option<Storage>,
    base: &DeclaredType,
    d: &InitDeclarator,
) -> Result<(), UnitFault>
    ensures { GivesWith (spec.one_declarator storage base.now d.now tt (m.old, (f.old, inner.old))) result (m.new, (f.new, inner.new)) }
{
    let t = declarator_type(alloc, &mut m.st, base, &d.declarator)?;
    match &d.declarator.identifier {
        Some(id) => named(alloc, m, f, inner, d.line, id, storage, &d.initializer, t),
        None => {
            drop(t);
            Err(rule(d.line))
        }
    }
}

fn declare_each(
    alloc: Global,
    m: &mut Translation,
    f: &mut Body,
    inner: &mut OpenBlock,
    storage: Option<Storage>,
    base: &DeclaredType,
    list: &[InitDeclarator],
) -> Result<(), UnitFault>
    ensures { GivesWith (spec.declare_each storage base.now list.now (m.old, (f.old, inner.old))) result (m.new, (f.new, inner.new)) }
{
    for one in list {
        declare(alloc, m, f, inner, storage, base, one)?;
    }
    Ok(())
}

/// The declarators of a declaration that has some.
fn declare_all(
    alloc: Global,
    m: &mut Translation,
    f: &mut Body,
    inner: &mut OpenBlock,
    d: &Declaration,
) -> Result<(), UnitFault>
    ensures { GivesWith (spec.declarators d.now (m.old, (f.old, inner.old))) result (m.new, (f.new, inner.new)) }
{
    let base = specifiers(alloc, &mut m.st, &d.specifiers)?;
    declare_each(
        alloc,
        m,
        f,
        inner,
        d.specifiers.storage,
        &base,
        d.declarators.as_slice(),
    )
}

/// A declaration of a block.
///
/// # Errors
///
/// As its specifiers, declarators and initialisers; `Rule` (X7) for an object that is not complete, a name that the scope has
/// without linkage, a function with another storage class than `extern`, and an initialiser of a function, a typedef or
/// an `extern` object.
pub(crate) fn declare_local(
    alloc: Global,
    m: &mut Translation,
    f: &mut Body,
    inner: &mut OpenBlock,
    d: &Declaration,
) -> Result<(), UnitFault>
    ensures { GivesWith (spec.declare_local d.now (m.old, (f.old, inner.old))) result (m.new, (f.new, inner.new)) }
{
    match d.declarators.as_slice() {
        [] => declare_alone(alloc, &mut m.st, Place::Block, d),
        _ => declare_all(alloc, m, f, inner, d),
    }
}
