// The state of a run, and the callers that wait in it (ANSI 3.3.2.2).

use sc_base::{Items, Stack};
use sc_interp_expr::Env;
use sc_interp_machine::{Doing, Focus, Pending, Slot, Use};
use sc_meaning_values::{Answer, Value};
use sc_types::CType;
use std::marker::Model;

/// An active call: its parameters' objects, and its room on the stack in bytes.
#[derive(Drop)]
pub struct Active {
    pub ids: Items<u32>,
    pub cost: u32,
}

impl Model for Active {
    ghost use Rattle.sc_interp_machine.specs.Runs as runs;

    ghost Value = { runs.Active };

    ghost view = { λ a. record { ids = a.ids; cost = a.cost } };
}

/// A caller that waits for an answer, with what is pending in it. Its focus takes the answer.
#[derive(Drop)]
pub struct Caller {
    pub focus: Focus,
    pub items: Stack<Slot>,
    pub user: Use,
    pub stmts: Stack<Pending>,
    pub env: Env,
    pub active: Active,
}

impl Model for Caller {
    ghost use Rattle.std.specs.Coded.{codes};
    ghost use Rattle.sc_types.specs.contracts.ctype.CType as types;
    ghost use Rattle.sc_types.specs.contracts.ctype.Signature as signatures;
    ghost use Rattle.sc_core.specs.contracts.expression.CoreExpr as expressions;
    ghost use Rattle.sc_core.specs.contracts.statement.CoreStmt as statements;
    ghost use Rattle.sc_interp_machine.specs.Runs as runs;

    ghost Value = { runs.Caller };

    ghost coded = { Prim.hlevel (codes, types.the_row.coded, signatures.the_row.coded, expressions.the_row.coded, statements.the_row.coded) };

    ghost view = { λ c. record { items = c.items; user = c.user; stmts = c.stmts; env = c.env; active = c.active } };
}

/// What a run does next, beside the callers that wait: a body runs; a call is to be made; or an answer comes to the
/// innermost caller, or is the run's where none waits.
#[derive(Drop)]
pub enum Going {
    Runs(Doing, Stack<Pending>, Env, Active),
    Makes(CType, Value, Items<Value>, Caller),
    Answers(Answer),
}
