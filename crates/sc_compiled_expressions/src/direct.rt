// Places without code of their own, and leaves. Each function here does nothing: its contract is the law.
ghost use Rattle.std.specs.Prelude.{None, Some, suc, true, ℕ, ◌<◌, ◌^◌, ◌≡◌, ◌≤◌};
ghost use Rattle.sc_base.specs.declared.key.Key.{Key};
ghost use Rattle.sc_core.specs.declared.expression.CoreExpr.TheOpen.{CoreExpr-F};
ghost use Rattle.sc_core.specs.declared.expression.CoreExpr.{CoreExpr, out-CoreExpr};
ghost use Rattle.sc_compiled_expressions.specs.Direct.{Converts, EvaluatesTo, GivesLeaf, GivesPlace, HasNoCopy, IsFree, IsOpenName};
ghost use Rattle.sc_core.specs.Types.{type_of};
ghost use Rattle.sc_gen_code.specs.declared.style.Spot.{Spot};
ghost use Rattle.sc_gen_code.specs.declared.symbolic.Symbolic.TheVariants.{Upper};
ghost use Rattle.sc_gen_code.specs.declared.symbolic.Target.TheVariants.{Named};
ghost use Rattle.sc_gen_operand.specs.Places.{constant, fetch, is_direct, is_read};
ghost use Rattle.sc_compiled_expressions.specs.Good.{GivesPlain, code_of};
ghost use Rattle.sc_compiled_expressions.specs.Standing.{HasWord, Home};
ghost use Rattle.sc_gen_code.specs.Operators.{is_scalar};
ghost use Rattle.sc_meaning.specs.Accesses.{as_type};
ghost use Rattle.sc_meaning.specs.Values.{Number};
ghost use Rattle.sc_types.specs.declared.ctype.CType.{CType};

/// The name of an automatic object of an open block, that of a static object which the text reaches, and a member of a place without code of its own, each give their place
/// without code, or the meaning's next step is an undefined one.
#[tactic(auto, using(crate::proofs::Places::automatic_found, crate::proofs::Places::static_found, crate::proofs::Places::member_found))]
pub fn names_give_places()
    ensures automatic { (home : Home) (most deep l : ℕ) (t : CType) (e : CoreExpr) (b i : ℕ) → out-CoreExpr e ≡ CoreExpr-F.Automatic l t b i → IsOpenName home b i → GivesPlace home most (suc deep) e }
    ensures by_name { (home : Home) (most deep l : ℕ) (t : CType) (e : CoreExpr) (key : Key) → out-CoreExpr e ≡ CoreExpr-F.Static l t key → HasWord home.text (Upper (Named key)) → GivesPlace home most (suc deep) e }
    ensures member { (home : Home) (most deep l : ℕ) (t : CType) (e : CoreExpr) (n : ℕ) (a : CoreExpr) → out-CoreExpr e ≡ CoreExpr-F.Member l t n a → GivesPlace home most deep a → GivesPlace home most (suc deep) e }
{}

/// A leaf is fetched into any register that is neither x0, sp nor t0: a number, and what is read from a place without code of its own, converted to
/// the type that is asked for, or the meaning's next step is an undefined one. Fetched into a0 it is the code of the expression.
#[tactic(auto, using(crate::proofs::Fetching::read_leaf, crate::proofs::Fetching::number_leaf, crate::proofs::Fetching::number_evaluates, crate::proofs::Fetching::converted_evaluates, crate::proofs::Fetching::leaf_given))]
pub fn leaves_are_fetched()
    ensures read { (home : Home) (most deep l : ℕ) (t : CType) (e a : CoreExpr) (r : ℕ) → out-CoreExpr e ≡ CoreExpr-F.Convert l t a → constant e ≡ None → is_read a ≡ true → is_direct home.autos a ≡ true → HasNoCopy home a → IsFree r → Converts (type_of a) t → GivesPlace home most deep a → GivesLeaf home most (suc deep) e r }
    ensures number { (home : Home) (most deep n : ℕ) (e : CoreExpr) (r : ℕ) → constant e ≡ Some n → n < 2 ^ 32 → IsFree r → EvaluatesTo home deep e n → GivesLeaf home most deep e r }
    ensures evaluates { (home : Home) (deep l : ℕ) (t : CType) (n : ℕ) (e : CoreExpr) → out-CoreExpr e ≡ CoreExpr-F.Number l t n → EvaluatesTo home (suc deep) e n }
    ensures converted { (home : Home) (deep l k : ℕ) (t ta : CType) (n : ℕ) (e a : CoreExpr) → out-CoreExpr e ≡ CoreExpr-F.Convert l t a → out-CoreExpr a ≡ CoreExpr-F.Number k ta n → is_scalar (type_of a) ≡ true → as_type t (Number n) ≡ Number n → EvaluatesTo home (suc (suc deep)) e n }
    ensures given { (home : Home) (most deep : ℕ) (e : CoreExpr) (at : Spot) → at.depth ≤ 5 → code_of home e at ≡ fetch home.style home.autos 10 e → GivesLeaf home most deep e 10 → GivesPlain home most deep e at }
{}
