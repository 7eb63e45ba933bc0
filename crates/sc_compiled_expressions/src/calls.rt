// Calls of compiled code. Each function here does nothing: its contract is the law.
ghost use Rattle.std.specs.Prelude.{List, None, Some, ℕ, ◌≡◌, ◌⊎◌, [], pos, slice_get, suc, ◌+◌, ◌∷◌, ◌++◌, ◌<◌, ◌^◌};
ghost use Rattle.sc_base.specs.declared.key.Key.{Key};
ghost use Rattle.sc_base.specs.declared.report.Rule.TheVariants.{U12};
ghost use Rattle.sc_gen_code.specs.declared.style.Spot.{Spot};
ghost use Rattle.sc_compiled_expressions.specs.Standing.{Home, Stands, slots};
ghost use Rattle.sc_compiled_frames.specs.Frames.{Fits};
ghost use Rattle.sc_compiled_expressions.specs.Called.{CameBack, IsAtCall, LooksOn, HasArguments, FitsType, ReturnsFrom};
ghost use Rattle.sc_compiled_expressions.specs.Parts.{Meets};
ghost use Rattle.sc_meaning.specs.Calls.{call};
ghost use Rattle.sc_meaning.specs.Expressions.{called, value_rule, Place, conversion, Plain as Answered};
ghost use Rattle.sc_meaning.specs.Values.{FunctionAt, Value};
ghost use Rattle.sc_meaning.specs.World.{World};
ghost use Rattle.sc_mixed.specs.declared.calls.Calls.{Calls};
ghost use Rattle.sc_mixed_means.specs.Stages.{Stage, texts_of};
ghost use Rattle.sc_types.specs.declared.ctype.CType.{CType};
ghost use Rattle.sc_gen_code.specs.Code.{ra};
ghost use Rattle.sc_gen_code.specs.declared.symbolic.Symbolic.TheVariants.{Call, Plain};
ghost use Rattle.sc_gen_code.specs.declared.symbolic.Target.TheVariants.{Named};
ghost use Rattle.sc_isa.specs.declared.instruction.Instr.TheVariants.{Jalr};
ghost use Rattle.sc_compiled_expressions.specs.Good.{IsDeeper, IsPlaced, GivesAnswer, GivesValue, code_of};
ghost use Rattle.sc_gen_code.specs.Styles.{behind};
ghost use Rattle.sc_core.specs.Types.{type_of};
ghost use Rattle.sc_core.specs.declared.expression.CoreExpr.TheOpen.{CoreExpr-F};
ghost use Rattle.sc_core.specs.declared.expression.CoreExpr.{CoreExpr, out-CoreExpr};
ghost use Rattle.sc_meaning.specs.Outcomes.{Done};

/// A call of a function by its name, at its stub, goes out, does what the function does, and comes back to where its caller stands as before, if its
/// function returns: where the types fit, or do not, but not yet where the function is missing.
#[tactic(auto, using(crate::proofs::Goes::call_comes_back))]
pub fn calls_come_back()
    ensures { (home : Home) (most : ℕ) (key : Key) (xs : List Value) (ty : CType) (end : ℕ) (at : Spot) → at.depth ≡ 0 → Fits (slots home) home.cost → ReturnsFrom home.from most key → (bound : ℕ → ℕ) → LooksOn bound → (s : Stage) (c : Calls) (w v : World) → IsAtCall key xs end c w → Stands home s c w v → (value_rule (texts_of s.past) home.env.text ty (FunctionAt key) ≡ None) ⊎ (value_rule (texts_of s.past) home.env.text ty (FunctionAt key) ≡ Some U12) → Meets most s (CameBack home at end c w) c w v (λ h m. called h (call (bound m) h) home.env.text ty (FunctionAt key) xs v) }
{}

/// The two words of a call by name lead there: behind them the caller stands as before, with what the function gave, if it
/// returns within fewer moves.
#[tactic(auto, using(crate::proofs::Calling::direct_call))]
pub fn calls_by_name_give_what_functions_do()
    ensures { (home : Home) (most deep : ℕ) (key : Key) (xs : List Value) (ty : CType) (at : Spot) → at.depth ≡ 0 → Fits (slots home) home.cost → ReturnsFrom home.from most key → (bound : ℕ → ℕ) → IsDeeper deep bound → (s : Stage) (c : Calls) (w v : World) → HasArguments xs c w → Stands home s c w v → IsPlaced home c.regs.pc (Call (Named key) ∷ Plain (Jalr ra ra (pos 0)) ∷ []) → (number : ℕ) → slice_get w.beside.functions number ≡ Some key → (value_rule (texts_of s.past) home.env.text ty (FunctionAt key) ≡ None) ⊎ (value_rule (texts_of s.past) home.env.text ty (FunctionAt key) ≡ Some U12) → Meets (suc most) s (CameBack home at (c.regs.pc + 8) c w) c w v (λ h m. called h (call (bound m) h) home.env.text ty (FunctionAt key) xs v) }
{}

/// `f()` and `f(x)` give the word of what the function gives, if it returns within fewer moves and the argument's code gives its value.
#[tactic(auto, using(crate::proofs::Call::call_without, crate::proofs::Call::call_with_one))]
pub fn calls_give_answers()
    ensures without { (home : Home) (most deep l lf lg : ℕ) (t tf tg : CType) (key : Key) (e f g : CoreExpr) (at : Spot) → out-CoreExpr e ≡ CoreExpr-F.Call l t f [] → out-CoreExpr f ≡ CoreExpr-F.Convert lf tf g → out-CoreExpr g ≡ CoreExpr-F.Function lg tg key → ((w : World) → conversion (type_of g) tf (Place (FunctionAt key)) w ≡ Done (Answered (FunctionAt key)) w) → at.depth ≡ 0 → Fits (slots home) home.cost → ReturnsFrom home.from most key → FitsType home (type_of f) key → code_of home e at ≡ Call (Named key) ∷ Plain (Jalr ra ra (pos 0)) ∷ [] → GivesAnswer home (suc most) (suc (suc (suc deep))) e at }
    ensures one { (home : Home) (most deep l lf lg : ℕ) (t tf tg : CType) (key : Key) (e f g x : CoreExpr) (at : Spot) → out-CoreExpr e ≡ CoreExpr-F.Call l t f (x ∷ []) → out-CoreExpr f ≡ CoreExpr-F.Convert lf tf g → out-CoreExpr g ≡ CoreExpr-F.Function lg tg key → ((w : World) → conversion (type_of g) tf (Place (FunctionAt key)) w ≡ Done (Answered (FunctionAt key)) w) → at.depth ≡ 0 → at.low + 4 < 2 ^ 32 → Fits (slots home) home.cost → ReturnsFrom home.from most key → FitsType home (type_of f) key → code_of home e at ≡ code_of home x (behind at) ++ (Call (Named key) ∷ Plain (Jalr ra ra (pos 0)) ∷ []) → GivesValue home (suc most) (suc (suc deep)) x (behind at) → GivesAnswer home (suc most) (suc (suc (suc deep))) e at }
{}
