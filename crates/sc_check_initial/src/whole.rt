// The initialiser of a whole object (ANSI 3.5.7).
ghost use Rattle.std.specs.Prelude.{◌≡◌, IfOk, true, false};
ghost use Rattle.sc_check_scope.specs.Steps.{Says, GivesWith};
ghost use Rattle.sc_check_initial.specs.Whole as spec;

use crate::contents::contents_of;
use crate::lists::put_at;
use crate::places::{Filling, whole};
use crate::tree::{line_of, typed};
use sc_base::{Duplicate, Items, Name, NoMemory};
use sc_check_operand::object_size;
use sc_check_scope::{CheckFault, State, rule};
use sc_core::{AutoInit, Init};
use sc_tree::Initializer;
use sc_types::{CType, Structs, is_object};
use std::alloc::Global;

/// Whether an object of this type may have an initialiser: a complete type, or an array without size.
fn may_have(structs: &Structs, of: &CType) -> bool
    ensures { result ≡ spec.may_have structs.now of.now }
{
    match of {
        CType::Array(u, _) => is_object(u.get(), structs),
        _ => is_object(of, structs),
    }
}

/// The type of an object whose initialiser gives an array without size this length.
fn completed(alloc: Global, length: u32, of: &CType) -> Result<CType, NoMemory>
    ensures { IfOk result (λ t. t ≡ spec.completed length of.now) }
{
    match of {
        CType::Array(u, n) => {
            if *n == 0 {
                Ok(CType::Array(u.share()?, length))
            } else {
                of.copy(alloc)
            }
        }
        _ => of.copy(alloc),
    }
}

/// An initialiser at the place of a whole object.
fn put_whole(
    alloc: Global,
    st: &mut State,
    constant: bool,
    of: &CType,
    given: &Initializer,
    fill: &mut Filling,
) -> Result<CType, CheckFault>
    ensures { GivesWith (spec.put_whole constant of.now given.now (fill.old, st.old)) result (fill.new, st.new) }
{
    let p = whole(alloc, &st.structs, of)?;
    let length = put_at(alloc, st, constant, fill, given, p)?;
    Ok(completed(alloc, length, of)?)
}

/// The type of an object that may have its initialiser, and the object's pieces.
fn filled(
    alloc: Global,
    st: &mut State,
    constant: bool,
    of: &CType,
    given: &Initializer,
) -> Result<(CType, Items<AutoInit>), CheckFault>
    ensures { GivesWith (spec.filled constant of.now given.now st.old) result st.new }
{
    let mut fill = Filling::new(alloc);
    let done = put_whole(alloc, st, constant, of, given, &mut fill)?;
    let Filling { walk: _, pieces } = fill;
    Ok((done, pieces))
}

/// An object of such a type has no initialiser: the refusal comes behind those of the initialiser's own expressions.
fn refused(
    alloc: Global,
    st: &mut State,
    given: &Initializer,
) -> Result<(CType, Items<AutoInit>), CheckFault>
    ensures { GivesWith (spec.refused given.now st.old) result st.new }
{
    typed(alloc, st, given)?;
    Err(rule(line_of(given)))
}

/// The type of an initialised object, and its pieces.
fn initialized(
    alloc: Global,
    st: &mut State,
    constant: bool,
    of: &CType,
    given: &Initializer,
) -> Result<(CType, Items<AutoInit>), CheckFault>
    ensures { GivesWith (spec.initialized constant of.now given.now st.old) result st.new }
{
    if may_have(&st.structs, of) {
        filled(alloc, st, constant, of, given)
    } else {
        refused(alloc, st, given)
    }
}

/// The initialiser of an automatic object (ANSI 3.5.7): the object's type, in which an array has its size, and the pieces in
/// the order of offsets. Bytes of an aggregate that have no item are zero.
///
/// # Errors
///
/// - As `sc_check_expr::expression`.
/// - X7: the type takes no initialiser, a value is not one that an assignment takes, a list has more items than places,
///   a scalar has a list of other than one expression, a string has no room.
/// - X8: a list of an aggregate has an expression that is no constant.
/// - X10 `size`: an array without size becomes too large.
pub fn automatic_initializer(
    alloc: Global,
    st: &mut State,
    of: &CType,
    given: &Initializer,
) -> Result<(CType, Items<AutoInit>), CheckFault>
    ensures { GivesWith (spec.initialized false of.now given.now st.old) result st.new }
{
    initialized(alloc, st, false, of, given)
}

fn static_contents(
    alloc: Global,
    st: &State,
    home: &Name,
    line: u32,
    of: &CType,
    pieces: &[AutoInit],
) -> Result<Items<Init>, CheckFault>
    ensures { Says (spec.static_contents home.now line of.now pieces.now st.now) result }
{
    match object_size(&st.structs, of) {
        Some(size) => contents_of(alloc, home, &st.literals, line, size, pieces),
        None => Err(rule(line)),
    }
}

/// The initialiser of an object of static storage duration in this module (ANSI 3.5.7): the object's type, in which an array has
/// its size, and all of the object's bytes in order.
///
/// # Errors
///
/// As `automatic_initializer`, and X8 where any expression is no constant.
pub fn static_initializer(
    alloc: Global,
    st: &mut State,
    home: &Name,
    of: &CType,
    given: &Initializer,
) -> Result<(CType, Items<Init>), CheckFault>
    ensures { GivesWith (spec.static home.now of.now given.now st.old) result st.new }
{
    let (done, pieces) = initialized(alloc, st, true, of, given)?;
    let all = static_contents(alloc, st, home, line_of(given), &done, pieces.as_slice())?;
    Ok((done, all))
}
