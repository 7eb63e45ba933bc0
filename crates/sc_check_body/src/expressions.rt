// The expressions of statements (ANSI 3.6).
ghost use Rattle.std.specs.Prelude.{◌≡◌};
ghost use Rattle.std.specs.Option.{option_map};
ghost use Rattle.sc_check_expr.specs.Typed.{node as node_of};
ghost use Rattle.sc_check_body.specs.Faults.{GivesWith};
ghost use Rattle.sc_check_body.specs.Statements as spec;

use crate::fault::{UnitFault, rule};
use crate::progress::Body;
use sc_base::{Int, Shared};
use sc_check_expr::{expression, line_of};
use sc_check_operand::{Shape, assigned, is_scalar, is_void, shape_of, to_int, valued};
use sc_check_scope::State;
use sc_core::{CoreExpr, type_of};
use sc_tree::Expr;
use sc_types::promote;
use std::alloc::Global;

/// The value of a full expression (ANSI 3.6).
pub(crate) fn value(alloc: Global, st: &mut State, e: &Expr) -> Result<Shared<CoreExpr>, UnitFault>
    ensures { GivesWith (spec.value (node_of e.now) st.old) result st.new }
{
    let core = expression(alloc, st, false, e)?;
    Ok(valued(alloc, line_of(e), core)?)
}

pub(crate) fn optional_value(
    alloc: Global,
    st: &mut State,
    e: &Option<Shared<Expr>>,
) -> Result<Option<Shared<CoreExpr>>, UnitFault>
    ensures { GivesWith (spec.optional spec.value (option_map node_of e.now) st.old) result st.new }
{
    match e {
        Some(e) => Ok(Some(value(alloc, st, e.get())?)),
        None => Ok(None),
    }
}

/// A controlling expression, which is a scalar.
pub(crate) fn condition(
    alloc: Global,
    st: &mut State,
    e: &Expr,
) -> Result<Shared<CoreExpr>, UnitFault>
    ensures { GivesWith (spec.condition (node_of e.now) st.old) result st.new }
{
    let core = value(alloc, st, e)?;
    if is_scalar(shape_of(&st.structs, type_of(core.get()))) {
        Ok(core)
    } else {
        Err(rule(line_of(e)))
    }
}

pub(crate) fn optional_condition(
    alloc: Global,
    st: &mut State,
    e: &Option<Shared<Expr>>,
) -> Result<Option<Shared<CoreExpr>>, UnitFault>
    ensures { GivesWith (spec.optional spec.condition (option_map node_of e.now) st.old) result st.new }
{
    match e {
        Some(e) => Ok(Some(condition(alloc, st, e.get())?)),
        None => Ok(None),
    }
}

fn promoted(st: &State, core: &CoreExpr) -> Option<Int>
    ensures { result ≡ spec.promoted st.now.structs core.now }
{
    match shape_of(&st.structs, type_of(core)) {
        Shape::Integer(kind) => Some(promote(kind)),
        _ => None,
    }
}

/// The controlling expression of a `switch`, an integer, in its promoted type.
pub(crate) fn selector(
    alloc: Global,
    st: &mut State,
    e: &Expr,
) -> Result<(Shared<CoreExpr>, Int), UnitFault>
    ensures { GivesWith (spec.selector (node_of e.now) st.old) result st.new }
{
    let core = value(alloc, st, e)?;
    match promoted(st, core.get()) {
        Some(of) => Ok((to_int(alloc, line_of(e), of, core)?, of)),
        None => Err(rule(line_of(e))),
    }
}

/// The value of a `return`, in the type of the function's result (ANSI 3.6.6.4).
pub(crate) fn returned(
    alloc: Global,
    st: &mut State,
    f: &Body,
    line: u32,
    e: &Expr,
) -> Result<Shared<CoreExpr>, UnitFault>
    ensures { GivesWith (spec.returned line f.now.result (node_of e.now) st.old) result st.new }
{
    let core = expression(alloc, st, false, e)?;
    if is_void(&f.result) {
        return Err(rule(line));
    }
    Ok(assigned(alloc, &st.structs, line, &f.result, core)?)
}
