// What code on registers alone does. Each function here does nothing: its contract is the law.
ghost use Rattle.std.specs.Prelude.{List, length, slice_index_or, suc, ℕ, ◌*◌, ◌+◌, ◌<◌, ◌^◌, ◌≡◌, ◌≤◌};
ghost use Rattle.sc_base.specs.declared.memory.Word.{Word};
ghost use Rattle.sc_core.specs.declared.expression.CoreExpr.TheOpen.{CoreExpr-F};
ghost use Rattle.sc_core.specs.declared.expression.CoreExpr.{CoreExpr, out-CoreExpr};
ghost use Rattle.sc_core.specs.declared.expression.UnaryOperator.TheVariants.{Complement, Minus};
ghost use Rattle.sc_emu.specs.Operations.{plain};
ghost use Rattle.sc_emu.specs.Registers.{AreRegisters, register};
ghost use Rattle.sc_gen_code.specs.Code.{Code};
ghost use Rattle.sc_gen_code.specs.declared.style.Spot.{Spot};
ghost use Rattle.sc_compiled_expressions.specs.Good.{GivesPlain, GivesValue, IsPlaced};
ghost use Rattle.sc_compiled_expressions.specs.Standing.{Home, Stands};
ghost use Rattle.sc_compiled_expressions.specs.Straights.{AreStraight};
ghost use Rattle.sc_compiled_values.specs.Straight.{after};
ghost use Rattle.sc_compiled_expressions.specs.Parts.{Family, Leading, Means};
ghost use Rattle.sc_meaning.specs.Expressions.{Answer};
ghost use Rattle.sc_meaning.specs.World.{World};
ghost use Rattle.sc_mixed.specs.Bridge.{with_registers};
ghost use Rattle.sc_mixed.specs.declared.calls.Calls.{Calls};
ghost use Rattle.sc_mixed_means.specs.Stages.{Stage};
ghost use Rattle.sc_types.specs.declared.ctype.CType.{CType};

/// Code on registers alone goes on with the words of which the laws on operators speak.
#[tactic(auto, using(crate::proofs::Registers::straight_place))]
pub fn straight_code_goes_on()
    ensures { (home : Home) (s : Stage) (n : ℕ) (c : Calls) (w v : World) (r : Family Answer) → Stands home s c w v → (code : Code) → AreStraight code → IsPlaced home c.regs.pc code → Leading v r → ((zs : List Word) → AreRegisters zs → ((j : ℕ) → j < 32 → slice_index_or zs j (plain 0) ≡ after code (register c.regs) j) → Means s n (with_registers (record { pc = c.regs.pc + 4 * length code; words = zs }) c) w v r) → Means s n c w v r }
{}

/// The code of a number gives it.
#[tactic(auto, using(crate::proofs::Numbers::number_given))]
pub fn numbers_are_given()
    ensures { (home : Home) (most deep l : ℕ) (t : CType) (n : ℕ) (e : CoreExpr) (at : Spot) → out-CoreExpr e ≡ CoreExpr-F.Number l t n → n < 2 ^ 32 → at.depth ≤ 5 → GivesPlain home most (suc deep) e at }
{}

/// The code of `-a` and of `~a` gives the number that it means, or the meaning's next step is an undefined one, if that of `a` gives its value.
#[tactic(auto, using(crate::proofs::Singles::minus_given, crate::proofs::Singles::complement_given))]
pub fn single_operators_compute()
    ensures minus { (home : Home) (most deep l : ℕ) (t : CType) (e a : CoreExpr) (at : Spot) → out-CoreExpr e ≡ CoreExpr-F.Unary l t Minus a → at.depth ≤ 5 → GivesValue home most deep a at → GivesPlain home most (suc deep) e at }
    ensures complement { (home : Home) (most deep l : ℕ) (t : CType) (e a : CoreExpr) (at : Spot) → out-CoreExpr e ≡ CoreExpr-F.Unary l t Complement a → at.depth ≤ 5 → GivesValue home most deep a at → GivesPlain home most (suc deep) e at }
{}
