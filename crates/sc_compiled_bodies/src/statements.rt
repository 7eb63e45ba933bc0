// What the code of a statement does, from what the code of its parts does. Each function here does nothing: its contract is the law.
ghost use Rattle.std.specs.Prelude.{None, Some, length, suc, true, ℕ, ◌+◌, ◌≡◌};
ghost use Rattle.sc_core.specs.declared.expression.CoreExpr.{CoreExpr};
ghost use Rattle.sc_core.specs.declared.statement.CoreStmt.{CoreStmt, out-CoreStmt};
ghost use Rattle.sc_core.specs.declared.statement.CoreStmt.TheOpen.{CoreStmt-F};
ghost use Rattle.sc_gen_body.specs.Jumps.{Around, labelled};
ghost use Rattle.sc_gen_body.specs.declared.jumps.Place.{Place};
ghost use Rattle.sc_compiled_bodies.specs.Exits.{open_numbers};
ghost use Rattle.sc_compiled_bodies.specs.Good.{GivesWay, IsFrame, code_of_statement, spot};
ghost use Rattle.sc_compiled_expressions.specs.Good.{GivesAnswer, GivesValue, TellsTruth, test_of};
ghost use Rattle.sc_compiled_expressions.specs.Standing.{Home};

/// The code of `e;`, of `;`, of a statement behind a label, of `if` and of `if` with `else` does what the statement means, if that of its parts does; and that
/// of `break`, `continue`, `goto` and `return` comes to a jump out of blocks, or to where the call is left.
#[tactic(auto, using(crate::proofs::Simple::expression_runs, crate::proofs::Simple::empty_runs, crate::proofs::Simple::case_runs, crate::proofs::Simple::default_runs, crate::proofs::Simple::label_runs, crate::proofs::Choosing::if_runs, crate::proofs::Choosing::if_else_runs, crate::proofs::Jumping::break_runs, crate::proofs::Jumping::continue_runs, crate::proofs::Jumping::goto_runs, crate::proofs::Jumping::return_runs, crate::proofs::Jumping::return_value_runs))]
pub fn statements_do_what_is_meant()
    ensures expression { (home : Home) (most deep : ℕ) → IsFrame home → (st : CoreStmt) (e : CoreExpr) (l : ℕ) → out-CoreStmt st ≡ CoreStmt-F.Expression l e → (at : ℕ) (around : Around) → GivesAnswer home most deep e (spot home) → GivesWay home most (suc deep) st at around }
    ensures empty { (home : Home) (most deep : ℕ) (st : CoreStmt) (l : ℕ) → out-CoreStmt st ≡ CoreStmt-F.Empty l → (at : ℕ) (around : Around) → GivesWay home most (suc deep) st at around }
    ensures case { (home : Home) (most deep : ℕ) (st body : CoreStmt) (l : ℕ) → out-CoreStmt st ≡ CoreStmt-F.Case l body → (at : ℕ) (around : Around) → GivesWay home most deep body at around → GivesWay home most (suc deep) st at around }
    ensures otherwise { (home : Home) (most deep : ℕ) (st body : CoreStmt) (l : ℕ) → out-CoreStmt st ≡ CoreStmt-F.Default l body → (at : ℕ) (around : Around) → GivesWay home most deep body at around → GivesWay home most (suc deep) st at around }
    ensures label { (home : Home) (most deep : ℕ) (st body : CoreStmt) (l : ℕ) → out-CoreStmt st ≡ CoreStmt-F.Label l body → (at : ℕ) (around : Around) → GivesWay home most deep body at around → GivesWay home most (suc deep) st at around }
    ensures branch { (home : Home) (most deep : ℕ) → IsFrame home → (st first : CoreStmt) (e : CoreExpr) (l : ℕ) → out-CoreStmt st ≡ CoreStmt-F.If l e first None → (at : ℕ) (around : Around) → TellsTruth home most deep e (spot home) → GivesWay home most deep first (at + length (test_of home true e (spot home)) + 1) around → GivesWay home most (suc deep) st at around }
    ensures choice { (home : Home) (most deep : ℕ) → IsFrame home → (st first other : CoreStmt) (e : CoreExpr) (l : ℕ) → out-CoreStmt st ≡ CoreStmt-F.If l e first (Some other) → (at : ℕ) (around : Around) → TellsTruth home most deep e (spot home) → GivesWay home most deep first (at + length (test_of home true e (spot home)) + 1) around → GivesWay home most deep other (at + length (test_of home true e (spot home)) + 1 + length (code_of_statement home first (at + length (test_of home true e (spot home)) + 1) around) + 1) around → GivesWay home most (suc deep) st at around }
    ensures breaking { (home : Home) (most deep : ℕ) (st : CoreStmt) (l : ℕ) → out-CoreStmt st ≡ CoreStmt-F.Break l → (at : ℕ) (around : Around) → around.blocks ≡ open_numbers home → GivesWay home most (suc deep) st at around }
    ensures continuing { (home : Home) (most deep : ℕ) (st : CoreStmt) (l : ℕ) → out-CoreStmt st ≡ CoreStmt-F.Continue l → (at : ℕ) (around : Around) → around.blocks ≡ open_numbers home → GivesWay home most (suc deep) st at around }
    ensures going { (home : Home) (most deep : ℕ) (st : CoreStmt) (l k : ℕ) → out-CoreStmt st ≡ CoreStmt-F.Goto l k → (at : ℕ) (around : Around) → around.blocks ≡ open_numbers home → (place : Place) → labelled k around.labels ≡ Some place → GivesWay home most (suc deep) st at around }
    ensures returning { (home : Home) (most deep : ℕ) (st : CoreStmt) (l : ℕ) → out-CoreStmt st ≡ CoreStmt-F.Return l None → (at : ℕ) (around : Around) → GivesWay home most (suc deep) st at around }
    ensures value { (home : Home) (most deep : ℕ) → IsFrame home → (st : CoreStmt) (e : CoreExpr) (l : ℕ) → out-CoreStmt st ≡ CoreStmt-F.Return l (Some e) → (at : ℕ) (around : Around) → GivesValue home most deep e (spot home) → GivesWay home most (suc deep) st at around }
{}
