// What the expressions of formed trees answer. Each function here does nothing: its contract is the law.
ghost use Rattle.std.specs.Prelude.{List, None, Some, ℕ, ◌≡◌};
ghost use Rattle.sc_base.specs.declared.key.Key.{Key};
ghost use Rattle.sc_core.specs.declared.expression.CoreExpr.{CoreExpr};
ghost use Rattle.sc_meaning.specs.Calls.{call, eval};
ghost use Rattle.sc_meaning.specs.Expressions.{Env};
ghost use Rattle.sc_meaning.specs.Integers.{Gives};
ghost use Rattle.sc_meaning.specs.Values.{Value};
ghost use Rattle.sc_meaning.specs.Versions.{History, callee_of, version_at};
ghost use Rattle.sc_meaning.specs.World.{World};
ghost use Rattle.sc_compiled_values.specs.Fits.{Fits, IsResult, Sort};
ghost use Rattle.sc_compiled_values.specs.Formed.{AreFormed, AreTexts, IsCallee, IsFormedIn};

/// A formed expression answers by its form and its type, at every bound and from every world, where the functions that can be called are
/// formed: a place where it is one by its form, or has the type of an array, a structure or a function; else a value of its type, or
/// nothing where a call gave none. A value of an integer type is a number, of a type below 32 bits one of its range.
/// The functions that can be called are formed where each text is that of a formed module.
#[tactic(auto, using(crate::proofs::Returning::expression_fits, crate::proofs::Returning::call_fits, crate::proofs::Texts::texts_formed))]
pub fn expressions_answer_by_their_types()
    ensures expressions { (h : History) (n : ℕ) (env : Env) (around : List ℕ) (e : CoreExpr) (w : World) → AreFormed h → IsFormedIn env around e → Gives (Fits e) (eval n h env e w) }
    ensures calls { (h : History) (n : ℕ) (st : Sort) (key : Key) (vs : List Value) (w : World) → AreFormed h → IsCallee st (callee_of (version_at h w.count) key) → Gives (IsResult st) (call n h key vs w) }
    ensures texts { (h : History) → ((k : ℕ) → AreTexts (version_at h k)) → AreFormed h }
{}
