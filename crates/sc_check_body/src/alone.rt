// Declarations without declarators, and the type of each declarator (ANSI 3.5).
ghost use Rattle.std.specs.Prelude.{◌≡◌};
ghost use Rattle.sc_check_scope.specs.Steps as scope;
ghost use Rattle.sc_check_body.specs.Faults.{GivesWith};
ghost use Rattle.sc_check_body.specs.Alone as spec;

use crate::fault::{UnitFault, rule};
use sc_base::{Duplicate, Name};
use sc_check_declare::{DeclaredType, Place, may_stand};
use sc_check_expr::{declarator, specifiers};
use sc_check_scope::{CheckFault, State, open_structure};
use sc_tree::{Declaration, Declarator, Specifiers, TypeWord};
use std::alloc::Global;

/// Whether the only type word declares a tag or enumeration constants.
fn declares(words: &[TypeWord]) -> bool
    ensures { result ≡ spec.declares words.now }
{
    match words {
        [TypeWord::Struct(_, _, tag, _)] => tag.is_some(),
        [TypeWord::StructTag(_, _, _)] => true,
        [TypeWord::EnumTag(_, _)] => true,
        [TypeWord::Enum(_, _, _)] => true,
        _ => false,
    }
}

/// `struct tag;`, or `union tag;` where it is true, which declares the tag in the innermost scope (ANSI 3.5.2.3).
fn tag_alone(
    alloc: Global,
    st: &mut State,
    line: u32,
    is_union: bool,
    tag: &Name,
) -> Result<(), UnitFault>
    ensures { GivesWith (spec.declare_tag line is_union tag.now st.old) result st.new }
{
    let tag = Some(tag.copy(alloc)?);
    match open_structure(alloc, st, is_union, &tag)? {
        Some(_) => Ok(()),
        None => Err(rule(line)),
    }
}

fn specifiers_for_nothing(alloc: Global, st: &mut State, list: &Specifiers) -> Result<(), UnitFault>
    ensures { GivesWith (spec.specified_for_nothing list.now st.old) result st.new }
{
    let of = specifiers(alloc, st, list)?;
    drop(of);
    Ok(())
}

fn specifiers_alone(alloc: Global, st: &mut State, list: &Specifiers) -> Result<(), UnitFault>
    ensures { GivesWith (spec.specified_alone list.now st.old) result st.new }
{
    match list.words.as_slice() {
        [TypeWord::StructTag(line, is_union, tag)] => tag_alone(alloc, st, *line, *is_union, tag),
        _ => specifiers_for_nothing(alloc, st, list),
    }
}

/// A declaration without declarators, which declares a tag or enumeration constants.
///
/// # Errors
///
/// `Rule` (X7): it declares nothing, or has a storage class that may not stand here; before that as its specifiers.
pub fn declare_alone(
    alloc: Global,
    st: &mut State,
    place: Place,
    d: &Declaration,
) -> Result<(), UnitFault>
    ensures { GivesWith (spec.declare_alone place d.now st.old) result st.new }
{
    specifiers_alone(alloc, st, &d.specifiers)?;
    if may_stand(place, d.specifiers.storage) && declares(d.specifiers.words.as_slice()) {
        Ok(())
    } else {
        Err(rule(d.line))
    }
}

/// The type that one of several declarators gives its name.
pub fn declarator_type(
    alloc: Global,
    st: &mut State,
    base: &DeclaredType,
    d: &Declarator,
) -> Result<DeclaredType, CheckFault>
    ensures { scope.GivesWith (spec.declarator_type base.now d.now st.old) result st.new }
{
    let of = base.of.copy(alloc)?;
    let own = DeclaredType {
        of,
        depth: base.depth,
    };
    declarator(alloc, st, d, own)
}
