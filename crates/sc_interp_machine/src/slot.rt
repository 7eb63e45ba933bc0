// What is pending in an expression, as a run keeps it: the node itself, and how far it is (ANSI 3.3).
ghost use Rattle.std.specs.Prelude.{◌≡◌};
ghost use Rattle.sc_interp_machine.specs.declared.pending.Mode.TheVariants as mode;

use sc_base::{Items, Shared};
use sc_core::CoreExpr;
use sc_meaning_values::{Answer, Value};
use std::marker::Model;

/// Which answer a node awaits.
#[derive(Drop)]
pub enum Stage {
    /// That of its first operand.
    First,
    /// That of a later operand, where this one came first.
    Second(Answer),
    /// That of one more argument of a call: the function that is called, and the arguments that came.
    Argument(Value, Items<Value>),
    /// That of a call that was made.
    Back,
}

/// A node that was begun, seen as the pending item that it is.
#[derive(Drop)]
pub struct Slot {
    pub node: Shared<CoreExpr>,
    pub stage: Stage,
}

impl Model for Slot {
    ghost use Rattle.std.specs.Coded.{codes};
    ghost use Rattle.sc_types.specs.contracts.ctype.CType as types;
    ghost use Rattle.sc_types.specs.contracts.ctype.Signature as signatures;
    ghost use Rattle.sc_core.specs.contracts.expression.CoreExpr as expressions;
    ghost use Rattle.sc_core.specs.declared.expression.CoreExpr.{out-CoreExpr};
    ghost use Rattle.sc_interp_machine.specs.declared.pending.Item.{Item};
    ghost use Rattle.sc_interp_machine.specs.Slots.{item_of};

    ghost Value = { Item };

    ghost coded = { Prim.hlevel (codes, types.the_row.coded, signatures.the_row.coded, expressions.the_row.coded) };

    ghost view = { λ s. item_of s.node (out-CoreExpr s.node) s.stage };
}

/// Where an expression is: at the node that is to be evaluated, or, where it `gives`, at the answer that goes to what is
/// pending. The node or answer that is not meant is left over from an earlier step.
#[derive(Drop)]
pub struct Focus {
    pub at: Shared<CoreExpr>,
    pub gives: bool,
    pub answer: Answer,
}

impl Model for Focus {
    ghost use Rattle.std.specs.Coded.{codes};
    ghost use Rattle.sc_types.specs.contracts.ctype.CType as types;
    ghost use Rattle.sc_types.specs.contracts.ctype.Signature as signatures;
    ghost use Rattle.sc_core.specs.contracts.expression.CoreExpr as expressions;
    ghost use Rattle.sc_interp_machine.specs.declared.pending.Mode.{Mode};
    ghost use Rattle.sc_interp_machine.specs.Slots.{mode_of};

    ghost Value = { Mode };

    ghost coded = { Prim.hlevel (codes, types.the_row.coded, signatures.the_row.coded, expressions.the_row.coded) };

    ghost view = { λ f. mode_of f.gives f.at f.answer };
}

impl Focus {
    /// An expression is to be evaluated.
    pub fn eval(at: Shared<CoreExpr>) -> Focus
        ensures { result ≡ mode.Eval at }
    {
        Focus {
            at,
            gives: false,
            answer: Answer::nothing(),
        }
    }
}
