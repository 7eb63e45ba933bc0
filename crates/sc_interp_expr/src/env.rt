// What the names of a running call stand for (ANSI 3.1.2.4).

use sc_base::{Items, Shared};
use sc_core::Fun;
use sc_core_held::Text;
use sc_interp_world::Born;
use std::marker::Model;

/// What a running call's names stand for: its text, its function, and its entered blocks, outermost first.
#[derive(Drop)]
pub struct Env {
    pub text: Text,
    pub fun: Shared<Fun>,
    pub blocks: Items<Born>,
}

impl Model for Env {
    ghost use Rattle.std.specs.Coded.{codes};
    ghost use Rattle.sc_types.specs.contracts.ctype.CType as types;
    ghost use Rattle.sc_types.specs.contracts.ctype.Signature as signatures;
    ghost use Rattle.sc_core.specs.contracts.expression.CoreExpr as expressions;
    ghost use Rattle.sc_core.specs.contracts.statement.CoreStmt as statements;
    ghost use Rattle.sc_meaning.specs.Expressions as spec;

    ghost Value = { spec.Env };

    ghost coded = { Prim.hlevel (codes, types.the_row.coded, signatures.the_row.coded, expressions.the_row.coded, statements.the_row.coded) };

    ghost view = { λ e. record { text = e.text; fun = e.fun; blocks = e.blocks } };
}
