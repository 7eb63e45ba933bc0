// Declarations of names with linkage (ANSI 3.1.2.2).
ghost use Rattle.std.specs.Prelude.{◌≡◌, IfOk, OnOk};
ghost use Rattle.sc_check_body.specs.Faults.{GivesWith};
ghost use Rattle.sc_check_body.specs.Linked as spec;

use crate::fault::{UnitFault, rule};
use crate::progress::Translation;
use sc_base::{Duplicate, Name, NoMemory};
use sc_check_declare::DeclaredType;
use sc_check_initial::typed;
use sc_check_linkage::{Declaration, Link};
use sc_check_operand::is_function;
use sc_check_scope::{Meaning, State};
use sc_tree::Initializer;
use std::alloc::Global;

/// Whether the meaning of a name has linkage. An object of a block with static storage duration has a key of another name.
fn has_linkage(name: &Name, meaning: &Meaning) -> bool
    ensures { result ≡ spec.has_linkage name.now meaning.now }
{
    match meaning {
        Meaning::Function(_, _) => true,
        Meaning::Static(_, key) => key.name == *name,
        Meaning::Typedef(_) | Meaning::Constant(_) | Meaning::Automatic(_, _, _, _) => false,
    }
}

/// Whether a name with linkage may be declared in the innermost scope (ANSI 3.5).
fn may_link(st: &State, name: &Name) -> bool
    ensures { result ≡ spec.may_link name.now st.now }
{
    match st.names.find_innermost(st.began.names, name) {
        Some(meaning) => has_linkage(name, meaning),
        None => true,
    }
}

fn meaning_of(alloc: Global, link: &Link) -> Result<Meaning, NoMemory>
    ensures { IfOk result (λ m. m ≡ spec.meaning_of link.now) }
{
    let of = link.of.copy(alloc)?;
    let key = link.key.copy(alloc)?;
    if is_function(&of) {
        Ok(Meaning::Function(of, key))
    } else {
        Ok(Meaning::Static(of, key))
    }
}

/// The name in the innermost scope, with the composite type of its declarations so far.
pub fn name_link(
    alloc: Global,
    m: &mut Translation,
    place: usize,
    name: &Name,
) -> Result<(), NoMemory>
    ensures { OnOk result (m.new ≡ spec.name_link place name.now m.old) }
{
    let Some(link) = m.links.as_slice().get(place) else {
        return Ok(());
    };
    let meaning = meaning_of(alloc, link)?;
    let name = name.copy(alloc)?;
    m.st.names.declare(alloc, name, meaning)
}

/// A place for the contents of the last name with linkage, where it has none.
fn make_contents(m: &mut Translation) -> Result<(), NoMemory>
    ensures { OnOk result (m.new ≡ spec.with_contents m.old) }
{
    if m.contents.len() < m.links.as_slice().len() {
        m.contents.push(None)
    } else {
        Ok(())
    }
}

fn declare_link(alloc: Global, m: &mut Translation, d: &Declaration) -> Result<usize, UnitFault>
    ensures { GivesWith (spec.declare_link d.now m.old) result m.new }
{
    let place = m.links.declare(alloc, &m.st.structs, &m.home, d)?;
    make_contents(m)?;
    Ok(place)
}

/// A declaration of a name with linkage; the answer is its place among the names with linkage.
///
/// # Errors
///
/// - `Rule` (X7): the innermost scope has the name without linkage, or earlier declarations have another type or linkage.
/// - `Main` (X9 `main`): `main` with external linkage and another type.
pub fn link(alloc: Global, m: &mut Translation, x: &Declaration) -> Result<usize, UnitFault>
    ensures { GivesWith (spec.link x.now m.old) result m.new }
{
    if may_link(&m.st, &x.name) {
        declare_link(alloc, m, x)
    } else {
        Err(rule(x.line))
    }
}

/// A declarator that may have no initialiser (ANSI 3.5.7).
///
/// # Errors
///
/// `Rule` (X7): it has one; before that as the expressions of it.
pub fn no_initializer(
    alloc: Global,
    m: &mut Translation,
    line: u32,
    given: &Option<Initializer>,
) -> Result<(), UnitFault>
    ensures { GivesWith (spec.no_initializer line given.now m.old) result m.new }
{
    match given {
        Some(given) => {
            typed(alloc, &mut m.st, given)?;
            Err(rule(line))
        }
        None => Ok(()),
    }
}

/// A name for a type (ANSI 3.5.6).
///
/// # Errors
///
/// `Rule` (X7): the innermost scope has the name.
pub fn name_type(
    alloc: Global,
    m: &mut Translation,
    line: u32,
    name: &Name,
    of: DeclaredType,
) -> Result<(), UnitFault>
    ensures { GivesWith (spec.name_type line name.now of m.old) result m.new }
{
    let name = name.copy(alloc)?;
    m.st.declare(alloc, line, name, Meaning::Typedef(of))?;
    Ok(())
}
