// Statements without statements inside (ANSI 3.6.3, 3.6.6).
ghost use Rattle.std.specs.Prelude.{Ok, if◌then◌else◌};
ghost use Rattle.sc_check_body.specs.Faults.{Says, GivesWith, rule as refuses};
ghost use Rattle.sc_check_labels.specs.Jumps as jumps;
ghost use Rattle.sc_check_body.specs.Blocks as spec;

use crate::expressions::{returned, value};
use crate::fault::{UnitFault, rule};
use crate::progress::Body;
use sc_base::{Name, Shared};
use sc_check_labels::goto;
use sc_check_scope::State;
use sc_core::CoreStmt;
use sc_tree::Expr;
use std::alloc::Global;

pub(crate) fn node(alloc: Global, s: CoreStmt) -> Result<Shared<CoreStmt>, UnitFault>
    ensures { Says (Ok s) result }
{
    Ok(Shared::new(alloc, s)?)
}

/// `return`, with the value that it gives (ANSI 3.6.6.4).
pub(crate) fn return_statement(
    alloc: Global,
    st: &mut State,
    f: &Body,
    line: u32,
    e: &Option<Shared<Expr>>,
) -> Result<Shared<CoreStmt>, UnitFault>
    ensures { GivesWith (spec.return_value line f.now.result e.now st.old) result st.new }
{
    match e {
        Some(e) => {
            let core = returned(alloc, st, f, line, e.get())?;
            node(alloc, CoreStmt::Return(line, Some(core)))
        }
        None => node(alloc, CoreStmt::Return(line, None)),
    }
}

/// `expression;` (ANSI 3.6.3).
pub(crate) fn expression_statement(
    alloc: Global,
    st: &mut State,
    line: u32,
    e: &Expr,
) -> Result<Shared<CoreStmt>, UnitFault>
    ensures { GivesWith (spec.expression line e.now st.old) result st.new }
{
    let core = value(alloc, st, e)?;
    node(alloc, CoreStmt::Expression(line, core))
}

/// `goto`, whose label is looked for at the end of the body (ANSI 3.6.6.1).
pub(crate) fn goto_statement(
    alloc: Global,
    f: &mut Body,
    line: u32,
    name: &Name,
) -> Result<Shared<CoreStmt>, UnitFault>
    ensures { GivesWith (Ok (CoreStmt.Goto line (jumps.goto line name.now f.old.labels).0, record f.old { labels = (jumps.goto line name.now f.old.labels).1 })) result f.new }
{
    let label = goto(alloc, &mut f.labels, line, name)?;
    node(alloc, CoreStmt::Goto(line, label))
}

/// `break` and `continue`, where they may stand (ANSI 3.6.6.2, 3.6.6.3).
pub(crate) fn jump(
    alloc: Global,
    line: u32,
    may_stand: bool,
    s: CoreStmt,
) -> Result<Shared<CoreStmt>, UnitFault>
    ensures { Says (if may_stand then Ok s else refuses line) result }
{
    if may_stand {
        node(alloc, s)
    } else {
        Err(rule(line))
    }
}
