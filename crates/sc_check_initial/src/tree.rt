// What of an initialiser is looked at without its object.
ghost use Rattle.std.specs.Prelude.{◌≡◌, map};
ghost use Rattle.sc_check_initial.specs.Values.{Gives};
ghost use Rattle.sc_check_initial.specs.Values as value;
ghost use Rattle.sc_check_initial.specs.Lists as spec;

use sc_check_expr::expression;
use sc_check_scope::{CheckFault, State};
use sc_tree::{Expr, Initializer};
use std::alloc::Global;

/// The line of an initialiser's first token.
pub(crate) fn line_of(given: &Initializer) -> u32
    ensures { result ≡ (spec.item given.now).line }
{
    match given {
        Initializer::Expression(line, _) => *line,
        Initializer::List(line, _) => *line,
    }
}

pub(crate) fn is_string(e: &Expr) -> bool
    ensures { result ≡ value.is_string e.now }
{
    match e {
        Expr::String(_, _) => true,
        _ => false,
    }
}

/// Whether a list has one item alone, which is an expression.
pub(crate) fn is_single(items: &[Initializer]) -> bool
    ensures { result ≡ spec.is_single (map spec.item items.now) }
{
    match items {
        [Initializer::Expression(_, _)] => true,
        _ => false,
    }
}

/// Whether a list has one item alone, which is a string.
pub(crate) fn is_single_string(items: &[Initializer]) -> bool
    ensures { result ≡ spec.is_single_string (map spec.item items.now) }
{
    match items {
        [Initializer::Expression(_, e)] => is_string(e.get()),
        _ => false,
    }
}

/// Types an expression for its refusals and literals alone.
pub(crate) fn typed_expression(alloc: Global, st: &mut State, e: &Expr) -> Result<(), CheckFault>
    ensures { Gives (spec.typed_alone e.now st.old) result st.new }
{
    let core = expression(alloc, st, false, e)?;
    drop(core);
    Ok(())
}

/// Types the expressions of an initialiser, in their order, where it has no place.
///
/// # Errors
///
/// As `sc_check_expr::expression`.
#[cycle(typed)]
pub fn typed(alloc: Global, st: &mut State, given: &Initializer) -> Result<(), CheckFault>
    ensures { Gives ((spec.item given.now).typed st.old) result st.new }
{
    match given {
        Initializer::Expression(_, e) => typed_expression(alloc, st, e.get()),
        Initializer::List(_, items) => all_typed(alloc, st, items.as_slice()),
    }
}

#[cycle(typed)]
pub(crate) fn all_typed(
    alloc: Global,
    st: &mut State,
    items: &[Initializer],
) -> Result<(), CheckFault>
    ensures { Gives (spec.all_typed (map spec.item items.now) st.old) result st.new }
{
    for item in items {
        typed(alloc, st, item)?;
    }
    Ok(())
}
