// What is still to be done of a list in the tree, without a copy of it: the node that has the list, and a place in it.
ghost use Rattle.std.specs.Prelude.{◌≡◌, [], ◌∷◌, drop, IfOk, MatchOption};
ghost use Rattle.sc_core.specs.declared.expression.CoreExpr.{out-CoreExpr};
ghost use Rattle.sc_core.specs.declared.statement.CoreStmt.{out-CoreStmt};
ghost use Rattle.sc_interp_machine.specs.Rests.{arguments_in, labels_in, pieces_in, statements_in};

use sc_base::{NoMemory, Shared};
use sc_core::{AutoInit, CoreExpr, CoreStmt, SwitchLabel};
use std::marker::Model;

/// The arguments of a call that are still to be evaluated.
#[derive(Drop)]
pub struct Arguments {
    call: Shared<CoreExpr>,
    at: usize,
}

impl Model for Arguments {
    ghost use Rattle.std.specs.Prelude.{List, drop};
    ghost use Rattle.sc_core.specs.declared.expression.CoreExpr.{CoreExpr, out-CoreExpr};
    ghost use Rattle.sc_interp_machine.specs.Rests.{arguments_in};
    ghost use Rattle.std.specs.Coded.{codes};
    ghost use Rattle.sc_core.specs.contracts.expression.CoreExpr as expressions;

    ghost Value = { List CoreExpr };

    ghost coded = { Prim.hlevel (codes, expressions.the_row.coded) };

    ghost view = { λ a. drop a.at (arguments_in (out-CoreExpr a.call)) };
}

impl Arguments {
    /// All arguments of a call.
    pub fn of(call: Shared<CoreExpr>) -> Arguments
        ensures { result ≡ arguments_in (out-CoreExpr call) }
    {
        Arguments { call, at: 0 }
    }

    /// The arguments of a call from one of them on.
    pub fn from(call: Shared<CoreExpr>, at: usize) -> Arguments
        ensures { result ≡ drop at (arguments_in (out-CoreExpr call)) }
    {
        Arguments { call, at }
    }

    /// The next one, which is taken off.
    pub fn next(&mut self) -> Result<Option<Shared<CoreExpr>>, NoMemory>
        ensures { IfOk result (λ next. MatchOption next ((self.old ≡ []) × (self.new ≡ [])) (λ e. self.old ≡ e ∷ self.new)) }
    {
        let CoreExpr::Call(_, _, _, all) = self.call.get() else {
            return Ok(None)
        };
        match all.as_slice().get(self.at) {
            None => Ok(None),
            Some(e) => {
                let e = e.share()?;
                self.at += 1;
                Ok(Some(e))
            }
        }
    }
}

/// The statements of a block that are still to be executed.
#[derive(Drop)]
pub struct Statements {
    block: Shared<CoreStmt>,
    at: usize,
}

impl Model for Statements {
    ghost use Rattle.std.specs.Prelude.{List, drop};
    ghost use Rattle.sc_core.specs.declared.statement.CoreStmt.{CoreStmt, out-CoreStmt};
    ghost use Rattle.sc_interp_machine.specs.Rests.{statements_in};
    ghost use Rattle.std.specs.Coded.{codes};
    ghost use Rattle.sc_core.specs.contracts.statement.CoreStmt as statements;

    ghost Value = { List CoreStmt };

    ghost coded = { Prim.hlevel (codes, statements.the_row.coded) };

    ghost view = { λ s. drop s.at (statements_in (out-CoreStmt s.block)) };
}

impl Statements {
    /// The statements of a block from one of them on.
    pub fn from(block: Shared<CoreStmt>, at: usize) -> Statements
        ensures { result ≡ drop at (statements_in (out-CoreStmt block)) }
    {
        Statements { block, at }
    }

    /// The next one, which is taken off.
    pub fn next(&mut self) -> Result<Option<Shared<CoreStmt>>, NoMemory>
        ensures { IfOk result (λ next. MatchOption next ((self.old ≡ []) × (self.new ≡ [])) (λ s. self.old ≡ s ∷ self.new)) }
    {
        let CoreStmt::Block(_, _, _, all) = self.block.get() else {
            return Ok(None)
        };
        match all.as_slice().get(self.at) {
            None => Ok(None),
            Some(s) => {
                let s = s.share()?;
                self.at += 1;
                Ok(Some(s))
            }
        }
    }
}

/// The pieces of an automatic object's initialiser that are still to be set.
#[derive(Drop)]
pub struct Pieces {
    declarator: Shared<CoreStmt>,
    at: usize,
}

impl Model for Pieces {
    ghost use Rattle.std.specs.Prelude.{List, drop};
    ghost use Rattle.sc_core.specs.declared.statement.CoreStmt.{out-CoreStmt};
    ghost use Rattle.sc_core.specs.declared.statement.AutoInit.{AutoInit};
    ghost use Rattle.sc_interp_machine.specs.Rests.{pieces_in};
    ghost use Rattle.std.specs.Coded.{codes};
    ghost use Rattle.sc_core.specs.contracts.expression.CoreExpr as expressions;
    ghost use Rattle.sc_types.specs.contracts.ctype.CType as types;

    ghost Value = { List AutoInit };

    ghost coded = { Prim.hlevel (codes, types.the_row.coded, expressions.the_row.coded) };

    ghost view = { λ p. drop p.at (pieces_in (out-CoreStmt p.declarator)) };
}

impl Pieces {
    /// All pieces of an initialised declarator.
    pub fn of(declarator: Shared<CoreStmt>) -> Pieces
        ensures { result ≡ pieces_in (out-CoreStmt declarator) }
    {
        Pieces { declarator, at: 0 }
    }

    /// The next one.
    pub fn first(&self) -> Option<&AutoInit>
        ensures { MatchOption result (self.now ≡ []) (λ p. self.now ≡ p.now ∷ drop 1 self.now) }
    {
        let CoreStmt::Initialize(_, _, _, all) = self.declarator.get() else {
            return None
        };
        all.as_slice().get(self.at)
    }

    /// Takes the next one off.
    pub fn skip(&mut self) -> Result<(), NoMemory>
        ensures { IfOk result (λ _. self.new ≡ drop 1 self.old) }
    {
        let Some(at) = self.at.checked_add(1) else {
            return Err(NoMemory)
        };
        self.at = at;
        Ok(())
    }

    /// The same pieces.
    pub fn share(&self) -> Result<Pieces, NoMemory>
        ensures { IfOk result (λ p. p ≡ self.now) }
    {
        Ok(Pieces {
            declarator: self.declarator.share()?,
            at: self.at,
        })
    }
}

/// The labels of a `switch` that are still to be compared.
#[derive(Drop)]
pub struct Labels {
    choice: Shared<CoreStmt>,
    at: usize,
}

impl Model for Labels {
    ghost use Rattle.std.specs.Prelude.{List, drop};
    ghost use Rattle.sc_core.specs.declared.statement.CoreStmt.{out-CoreStmt};
    ghost use Rattle.sc_core.specs.declared.statement.SwitchLabel.{SwitchLabel};
    ghost use Rattle.sc_interp_machine.specs.Rests.{labels_in};

    ghost Value = { List SwitchLabel };

    ghost view = { λ l. drop l.at (labels_in (out-CoreStmt l.choice)) };
}

impl Labels {
    /// All labels of a `switch`.
    pub fn of(choice: Shared<CoreStmt>) -> Labels
        ensures { result ≡ labels_in (out-CoreStmt choice) }
    {
        Labels { choice, at: 0 }
    }

    /// The next one, which is taken off.
    pub fn next(&mut self) -> Option<SwitchLabel>
        ensures { MatchOption result ((self.old ≡ []) × (self.new ≡ [])) (λ l. self.old ≡ l ∷ self.new) }
    {
        let CoreStmt::Switch(_, _, all, _) = self.choice.get() else {
            return None
        };
        match all.as_slice().get(self.at) {
            None => None,
            Some(l) => {
                let l = *l;
                self.at += 1;
                Some(l)
            }
        }
    }
}
