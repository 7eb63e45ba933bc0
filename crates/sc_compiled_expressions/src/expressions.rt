// What the code of an expression does, from what the code of its operands does. Each function here does nothing: its contract is the law.
ghost use Rattle.std.specs.Prelude.{Bool, [], false, suc, ℕ, ◌++◌, ◌∷◌, ◌≡◌};
ghost use Rattle.sc_core.specs.Types.{type_of};
ghost use Rattle.sc_core.specs.declared.expression.CoreExpr.TheOpen.{CoreExpr-F};
ghost use Rattle.sc_core.specs.declared.expression.CoreExpr.{CoreExpr, out-CoreExpr};
ghost use Rattle.sc_core.specs.declared.expression.UnaryOperator.TheVariants.{Not};
ghost use Rattle.sc_gen_code.specs.declared.style.Spot.{Spot};
ghost use Rattle.sc_meaning.specs.Values.{is_pointer_type};
ghost use Rattle.sc_types.specs.declared.ctype.CType.{CType};
ghost use Rattle.sc_compiled_expressions.specs.Good.{GivesAnswer, GivesPlain, GivesValue, TellsTruth, code_of, skips, test_of};
ghost use Rattle.sc_compiled_expressions.specs.Standing.{Home};

/// The code of `*a`, of `a, b` and of `a ? b : d` gives the word of the answer, if that of the operands does; and one that always gives a value gives it.
#[tactic(auto, using(crate::proofs::Nodes::indirection, crate::proofs::Nodes::comma, crate::proofs::Choices::conditional, crate::proofs::Nodes::plain_value, crate::proofs::Nodes::plain_answer))]
pub fn nodes_give_answers()
    ensures indirection { (home : Home) (most deep l : ℕ) (t : CType) (e a : CoreExpr) (at : Spot) → out-CoreExpr e ≡ CoreExpr-F.Indirection l t a → GivesValue home most deep a at → GivesAnswer home most (suc deep) e at }
    ensures comma { (home : Home) (most deep l : ℕ) (t : CType) (e a b : CoreExpr) (at : Spot) → out-CoreExpr e ≡ CoreExpr-F.Comma l t a b → GivesAnswer home most deep a at → GivesAnswer home most deep b at → GivesAnswer home most (suc deep) e at }
    ensures choice { (home : Home) (most deep l : ℕ) (t : CType) (e a b d : CoreExpr) (at : Spot) → out-CoreExpr e ≡ CoreExpr-F.Conditional l t a b d → TellsTruth home most deep a at → GivesAnswer home most deep b at → GivesAnswer home most deep d at → GivesAnswer home most (suc deep) e at }
    ensures value { (home : Home) (most deep : ℕ) (e : CoreExpr) (at : Spot) → GivesPlain home most deep e at → GivesValue home most deep e at }
    ensures answer { (home : Home) (most deep : ℕ) (e : CoreExpr) (at : Spot) → GivesPlain home most deep e at → GivesAnswer home most deep e at }
{}

/// The code of a condition leaves out the next word just where its truth is the one that is said: that of a value, of `!a`, `a && b` and `a || b`,
/// if the code of the operands does so.
#[tactic(auto, using(crate::proofs::Conditions::value_tells, crate::proofs::Conditions::not_tells, crate::proofs::Conditions::and_tells, crate::proofs::Conditions::or_tells))]
pub fn conditions_tell_their_truth()
    ensures value { (home : Home) (most deep : ℕ) (e : CoreExpr) (at : Spot) → ((sense : Bool) → test_of home sense e at ≡ code_of home e at ++ skips sense ∷ []) → GivesValue home most deep e at → TellsTruth home most deep e at }
    ensures negation { (home : Home) (most deep l : ℕ) (t : CType) (e a : CoreExpr) (at : Spot) → out-CoreExpr e ≡ CoreExpr-F.Unary l t Not a → is_pointer_type (type_of e) ≡ false → TellsTruth home most deep a at → TellsTruth home most (suc deep) e at }
    ensures conjunction { (home : Home) (most deep l : ℕ) (t : CType) (e a b : CoreExpr) (at : Spot) → out-CoreExpr e ≡ CoreExpr-F.And l t a b → is_pointer_type (type_of e) ≡ false → TellsTruth home most deep a at → TellsTruth home most deep b at → TellsTruth home most (suc deep) e at }
    ensures disjunction { (home : Home) (most deep l : ℕ) (t : CType) (e a b : CoreExpr) (at : Spot) → out-CoreExpr e ≡ CoreExpr-F.Or l t a b → is_pointer_type (type_of e) ≡ false → TellsTruth home most deep a at → TellsTruth home most deep b at → TellsTruth home most (suc deep) e at }
{}

/// The code of `!a`, `a && b` and `a || b` gives the word of 0 or 1, if the code of the operands gives that of their values.
#[tactic(auto, using(crate::proofs::Values::negation, crate::proofs::Values::conjunction, crate::proofs::Values::disjunction))]
pub fn truth_values_are_given()
    ensures negation { (home : Home) (most deep l : ℕ) (t : CType) (e a : CoreExpr) (at : Spot) → out-CoreExpr e ≡ CoreExpr-F.Unary l t Not a → GivesValue home most deep a at → GivesPlain home most (suc deep) e at }
    ensures conjunction { (home : Home) (most deep l : ℕ) (t : CType) (e a b : CoreExpr) (at : Spot) → out-CoreExpr e ≡ CoreExpr-F.And l t a b → GivesValue home most deep a at → GivesValue home most deep b at → GivesPlain home most (suc deep) e at }
    ensures disjunction { (home : Home) (most deep l : ℕ) (t : CType) (e a b : CoreExpr) (at : Spot) → out-CoreExpr e ≡ CoreExpr-F.Or l t a b → GivesValue home most deep a at → GivesValue home most deep b at → GivesPlain home most (suc deep) e at }
{}
