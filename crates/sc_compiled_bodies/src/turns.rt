// Loops, and the tests at their ends. Each function here does nothing: its contract is the law.
ghost use Rattle.std.specs.Prelude.{[], false, length, nat_lt, neg_ℤ, pos, suc, true, ℕ, ◌&&◌, ◌*◌, ◌+◌, ◌++◌, ◌-◌, ◌<◌, ◌^◌, ◌∷◌, ◌≡◌, ◌≤◌};
ghost use Rattle.sc_core.specs.declared.expression.CoreExpr.{CoreExpr, out-CoreExpr};
ghost use Rattle.sc_core.specs.declared.statement.CoreStmt.TheOpen.{CoreStmt-F};
ghost use Rattle.sc_core.specs.declared.statement.CoreStmt.{CoreStmt, out-CoreStmt};
ghost use Rattle.sc_gen_code.specs.Code.{jump, Code};
ghost use Rattle.sc_gen_code.specs.declared.symbolic.Symbolic.TheVariants.{Plain};
ghost use Rattle.sc_gen_operand.specs.Templates.{is_joined};
ghost use Rattle.sc_isa.specs.declared.instruction.BranchOp.TheVariants.{Bne};
ghost use Rattle.sc_isa.specs.declared.instruction.Instr.TheVariants.{Branch};
ghost use Rattle.sc_compiled_expressions.specs.Good.{GivesValue, TellsTruth, code_of, test_of};
ghost use Rattle.sc_gen_body.specs.Jumps.{Around, in_loop};
ghost use Rattle.sc_compiled_bodies.specs.Good.{CanJump, GivesWay, IsFrame, TurnsBack, back_code, code_of_statement, spot};
ghost use Rattle.sc_compiled_expressions.specs.Standing.{Home};
ghost use Rattle.sc_base.specs.declared.operator.Op.{Op};
ghost use Rattle.sc_core.specs.Types.{type_of};
ghost use Rattle.sc_core.specs.declared.expression.CoreExpr.TheOpen.{CoreExpr-F};
ghost use Rattle.sc_gen_code.specs.Operators.{is_comparison, branch};
ghost use Rattle.sc_gen_operand.specs.Plans.{is_plain};
ghost use Rattle.sc_compiled_expressions.specs.Operands.{GivesPair};
ghost use Rattle.sc_meaning.specs.Values.{is_pointer_type};
ghost use Rattle.sc_types.specs.declared.ctype.CType.{CType};

/// The code of `while (e) s` does what the statement means, for as many turns as a run makes, if the code of the test leads back where it
/// holds, and that of the body does what the body means, in each way in which it is left.
#[tactic(auto, using(crate::proofs::Loops::while_runs))]
pub fn loops_turn_as_is_meant()
    ensures { (home : Home) (most deep : ℕ) → IsFrame home → (st body : CoreStmt) (e : CoreExpr) (l : ℕ) → out-CoreStmt st ≡ CoreStmt-F.While l e body → (at : ℕ) (around : Around) → TurnsBack home most deep e (at + 3) (at + 3 + length (code_of_statement home body (at + 3) (in_loop around (at + 1)))) → GivesWay home most deep body (at + 3) (in_loop around (at + 1)) → CanJump home most (in_loop around (at + 1)).on_break → CanJump home most (in_loop around (at + 1)).on_continue → GivesWay home most (suc (suc deep)) st at around }
{}

/// The code of a condition at the end of a loop leads back where it holds: with a jump back behind what tells its truth, and with a branch back
/// behind what gives its value in a0.
#[tactic(auto, using(crate::proofs::Turning::far_turns, crate::proofs::Turning::joined_turns, crate::proofs::Turning::value_turns))]
pub fn tests_turn_back()
    ensures far { (home : Home) (most deep : ℕ) (e : CoreExpr) (top from : ℕ) → back_code home e top from ≡ test_of home false e (spot home) ++ jump (from + length (test_of home false e (spot home))) top ∷ [] → (nat_lt (from + length (test_of home false e (spot home))) 262144 && nat_lt top 262144) ≡ true → home.base + 4 * top < 2 ^ 32 → TellsTruth home most deep e (spot home) → TurnsBack home most deep e top from }
    ensures joined { (home : Home) (most deep : ℕ) (e : CoreExpr) (top from : ℕ) → is_joined e ≡ true → (nat_lt (from + length (test_of home false e (spot home))) 262144 && nat_lt top 262144) ≡ true → home.base + 4 * top < 2 ^ 32 → TellsTruth home most deep e (spot home) → TurnsBack home most deep e top from }
    ensures value { (home : Home) (most deep : ℕ) (e : CoreExpr) (top from : ℕ) → back_code home e top from ≡ code_of home e (spot home) ++ Plain (Branch Bne 10 0 (neg_ℤ (pos (4 * (from + length (code_of home e (spot home)) - top))))) ∷ [] → top ≤ from + length (code_of home e (spot home)) → GivesValue home most deep e (spot home) → TurnsBack home most deep e top from }
{}

/// A comparison of two integers at a loop's end, whose branch leads back, does so just where it holds, and going back is a move.
#[tactic(auto, using(crate::proofs::ComparingBack::compare_turns))]
pub fn comparisons_turn_back()
    ensures { (home : Home) (most deep l : ℕ) (t : CType) (o : Op) (e a b : CoreExpr) → out-CoreExpr e ≡ CoreExpr-F.Binary l t o a b → is_comparison o ≡ true → is_pointer_type (type_of e) ≡ false → (top from rx ry : ℕ) (cp : Code) → back_code home e top from ≡ cp ++ (branch o (is_plain a) true rx ry (neg_ℤ (pos (4 * (from + length cp - top)))) ∷ []) → top ≤ from + length cp → GivesPair home most deep cp a b rx ry (spot home) → TurnsBack home most (suc deep) e top from }
{}
