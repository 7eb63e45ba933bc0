// What the code of a store and of assignments does. Each function here does nothing: its contract is the law.
ghost use Rattle.std.specs.Prelude.{pos, ℕ, ◌+◌, false, nat_lt, suc, true, ◌<◌, ◌≡◌, ◌≤◌};
ghost use Rattle.sc_gen_code.specs.declared.style.Spot.{Spot};
ghost use Rattle.sc_isa.specs.declared.instruction.Instr.TheVariants.{Store};
ghost use Rattle.sc_isa.specs.declared.instruction.StoreOp.{StoreOp};
ghost use Rattle.sc_compiled_expressions.specs.Standing.{Home, Stands};
ghost use Rattle.sc_compiled_expressions.specs.Instructions.{InstrAt};
ghost use Rattle.sc_compiled_expressions.specs.Parts.{Meets};
ghost use Rattle.sc_compiled_expressions.specs.Stored.{IsReady, Written};
ghost use Rattle.sc_meaning.specs.Accesses.{stored};
ghost use Rattle.sc_meaning.specs.Expressions.{Answer, base_of, further_of};
ghost use Rattle.sc_meaning.specs.Values.{Value, scalar_size};
ghost use Rattle.sc_meaning.specs.World.{World};
ghost use Rattle.sc_mixed.specs.declared.calls.Calls.{Calls};
ghost use Rattle.sc_mixed_means.specs.Stages.{Stage};
ghost use Rattle.sc_types.specs.declared.ctype.CType.{CType};
ghost use Rattle.sc_core.specs.Types.{type_of};
ghost use Rattle.sc_core.specs.declared.expression.CoreExpr.TheOpen.{CoreExpr-F};
ghost use Rattle.sc_core.specs.declared.expression.CoreExpr.{CoreExpr, out-CoreExpr};
ghost use Rattle.sc_emu.specs.Operations.{store_size};
ghost use Rattle.sc_gen_code.specs.Operators.{machine_type, store_of, is_scalar};
ghost use Rattle.sc_gen_code.specs.Styles.{deeper};
ghost use Rattle.sc_gen_expr.specs.Expressions.{part_of};
ghost use Rattle.sc_gen_operand.specs.Places.{is_direct};
ghost use Rattle.sc_gen_operand.specs.Plans.{into, waiting_plan};
ghost use Rattle.sc_gen_operand.specs.declared.plans.Plan.TheVariants.{Register};
ghost use Rattle.sc_gen_operand.specs.declared.plans.Want.TheVariants.{Foot};
ghost use Rattle.sc_compiled_expressions.specs.Footed.{GivesFoot, HasValuesOf};
ghost use Rattle.sc_compiled_expressions.specs.Good.{GivesPlain, GivesValue};
ghost use Rattle.sc_compiled_expressions.specs.Direct.{GivesPlace, HasNoCopy};
ghost use Rattle.sc_compiled_expressions.specs.Setting.{KeepsPlace};

/// A store, whose register has the word of a place less what it adds, and another the word of a value of the type, writes what the meaning
/// writes there, or the meaning's next step is an undefined one. Behind it the call stands as before, and what waits is as it was.
#[tactic(auto, using(crate::proofs::Storing::store_meets))]
pub fn stores_do_what_is_meant()
    ensures { (home : Home) (most : ℕ) (at : Spot) (s : Stage) (c : Calls) (w v : World) (st : Stands home s c w v) (op : StoreOp) (rs base n : ℕ) (ty : CType) (a : Answer) (x : Value) → IsReady w c op rs base n ty a x → InstrAt s.image c.regs.pc (Store op rs base (pos n)) → Meets most s (Written home at (c.regs.pc + 4) x c w) c w v (λ h m. stored ty (base_of a) (further_of a) x v) }
{}

/// The code of `a = b`, where the place of `a` has code of its own and its foot waits in a register, gives the word of the value that it writes,
/// if the code of `a` gives its foot, and that of `b` its value.
#[tactic(auto, using(crate::proofs::Assigning::assign_waits))]
pub fn assignments_give_what_they_write()
    ensures { (home : Home) (most deep l : ℕ) (t : CType) (e a b : CoreExpr) (at : Spot) → out-CoreExpr e ≡ CoreExpr-F.Assign l t a b → is_direct home.autos a ≡ false → nat_lt at.depth 5 ≡ true → waiting_plan at b ≡ Register (13 + at.depth) → 0 < scalar_size (type_of a) → store_size (store_of (machine_type (type_of a))) ≡ scalar_size (type_of a) → GivesFoot home most deep (into home.style home.autos Foot (13 + at.depth) (part_of home.style home.autos a) a at) a (13 + at.depth) at → GivesValue home most deep b (deeper at) → HasValuesOf home.env b (type_of a) → GivesPlain home most (suc deep) e at }
{}

/// The code of `a = b`, where the place of `a` has no code of its own, gives the word of the value that it writes there, or the meaning's next step
/// is an undefined one, if the code of `b` gives its value, behind which the object of a name has its name still or is dead. So it is
/// behind a number.
#[tactic(auto, using(crate::proofs::Setting::assign_direct, crate::proofs::Setting::number_keeps))]
pub fn assignments_to_names_give_what_they_write()
    ensures assigns { (home : Home) (most deep l : ℕ) (t : CType) (e a b : CoreExpr) (at : Spot) → out-CoreExpr e ≡ CoreExpr-F.Assign l t a b → is_direct home.autos a ≡ true → HasNoCopy home a → at.depth ≤ 5 → is_scalar (type_of a) ≡ true → GivesPlace home most deep a → GivesValue home most deep b at → HasValuesOf home.env b (type_of a) → KeepsPlace home a b → GivesPlain home most (suc deep) e at }
    ensures names { (home : Home) (a b : CoreExpr) (l : ℕ) (t : CType) (n : ℕ) → out-CoreExpr b ≡ CoreExpr-F.Number l t n → KeepsPlace home a b }
{}
