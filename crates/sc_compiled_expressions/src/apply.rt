// Words that wait in the frame, and calls whose arguments are fetched. Each function here does nothing: its contract is the law.
ghost use Rattle.sc_base.specs.declared.key.Key.{Key};
ghost use Rattle.sc_base.specs.declared.operator.Op.{Op};
ghost use Rattle.sc_core.specs.Types.{type_of};
ghost use Rattle.sc_core.specs.declared.expression.CoreExpr.{CoreExpr, out-CoreExpr};
ghost use Rattle.sc_core.specs.declared.expression.CoreExpr.TheOpen.{CoreExpr-F};
ghost use Rattle.sc_emu.specs.Registers.{register};
ghost use Rattle.sc_gen_code.specs.Code.{pop, push, ra};
ghost use Rattle.sc_gen_code.specs.Styles.{behind, first_spot};
ghost use Rattle.sc_gen_code.specs.declared.style.Spot.{Spot};
ghost use Rattle.sc_gen_code.specs.declared.symbolic.Symbolic.TheVariants.{Call, Plain};
ghost use Rattle.sc_gen_code.specs.declared.symbolic.Target.TheVariants.{Named};
ghost use Rattle.sc_gen_operand.specs.Places.{is_leaf};
ghost use Rattle.sc_gen_operand.specs.Plans.{first_register, is_plain, waiting_plan, with_number};
ghost use Rattle.sc_gen_operand.specs.Templates.{fetched};
ghost use Rattle.sc_gen_operand.specs.declared.plans.Plan.TheVariants.{Memory};
ghost use Rattle.sc_gen_operand.specs.declared.plans.Want.TheVariants.{Word as AsWord};
ghost use Rattle.sc_isa.specs.declared.instruction.Instr.TheVariants.{Jalr};
ghost use Rattle.sc_compiled_expressions.specs.Leaves.{AreLeaves};
ghost use Rattle.sc_compiled_expressions.specs.Waits.{IsTemporary, Pops, Pushes};
ghost use Rattle.sc_compiled_expressions.specs.Operands.{GivesPair};
ghost use Rattle.sc_compiled_expressions.specs.Direct.{IsFree};
ghost use Rattle.sc_compiled_expressions.specs.Good.{GivesAnswer, GivesPlain, GivesValue, code_of};
ghost use Rattle.sc_compiled_expressions.specs.Standing.{Home, slots};
ghost use Rattle.sc_compiled_frames.specs.Frames.{Fits};
ghost use Rattle.sc_compiled_expressions.specs.Called.{FitsType, ReturnsFrom};
ghost use Rattle.sc_compiled_values.specs.Operators.{IsOperator};
ghost use Rattle.sc_meaning.specs.Expressions.{Place, conversion, Plain as Answered};
ghost use Rattle.sc_meaning.specs.Outcomes.{Done};
ghost use Rattle.sc_meaning.specs.Values.{FunctionAt};
ghost use Rattle.sc_meaning.specs.World.{World};
ghost use Rattle.sc_types.specs.declared.ctype.CType.{CType};
ghost use Rattle.std.specs.Prelude.{List, None, [], false, length, pos, suc, ℕ, ◌++◌, ◌+◌, ◌<◌, ◌^◌, ◌∷◌, ◌≡◌, ◌≤◌};

/// The word of a value in a0 is put into a temporary of the frame, where it waits beside all objects, and the call stands as before; a word that waits
/// is taken into a register. There is a frame with room for a temporary.
#[tactic(auto, using(crate::proofs::Pushing::pushes, crate::proofs::Getting::pops, crate::proofs::Pushing::met))]
pub fn words_wait_beside_objects()
    ensures pushed { (home : Home) (most : ℕ) (at : Spot) → at.depth ≤ 5 → (t : ℕ) → IsTemporary home at t → Pushes home most at t }
    ensures popped { (home : Home) (most : ℕ) (at : Spot) → at.depth ≤ 5 → (t : ℕ) → IsTemporary home at t → (rd : ℕ) → IsFree rd → Pops home most t rd }
    ensures met { (home : Home) → IsTemporary (record home { autos = []; cost = 8; outgoing = 0; room = 4 }) (first_spot 0) 0 }
{}

/// Two operands end in a1 and a0 where the left one waits in the frame while the right one, which may call, is computed; and so does the code of an operator
/// between them give the number that it means.
#[tactic(auto, using(crate::proofs::Memory::pair_remembers, crate::proofs::Memory::binary_remembers))]
pub fn operands_wait_in_the_frame()
    ensures pair { (home : Home) (most deep : ℕ) (a b : CoreExpr) (at : Spot) → at.depth ≤ 5 → IsTemporary home at at.low → at.low + 4 < 2 ^ 32 → GivesValue home most deep a at → GivesValue home most deep b (behind at) → GivesPair home most deep ((code_of home a at ++ push at.low) ++ (code_of home b (behind at) ++ pop 11 at.low)) a b 11 10 at }
    ensures operator { (home : Home) (most deep l : ℕ) (t : CType) (o : Op) (e a b : CoreExpr) (at : Spot) → out-CoreExpr e ≡ CoreExpr-F.Binary l t o a b → at.depth ≤ 5 → IsTemporary home at at.low → at.low + 4 < 2 ^ 32 → IsOperator o → with_number o (is_plain a) (first_register home.style home.autos AsWord a) b ≡ None → is_leaf home.autos b ≡ false → waiting_plan at b ≡ Memory → GivesValue home most deep a at → GivesValue home most deep b (behind at) → GivesPlain home most (suc deep) e at }
{}

/// A call by name of at most eight arguments, each of which is a leaf that is fetched into its own register, gives the word of what the function gives,
/// if it returns within fewer moves.
#[tactic(auto, using(crate::proofs::CallingLeaves::call_of_leaves))]
pub fn calls_of_leaves_give_answers()
    ensures { (home : Home) (most deep l lf lg : ℕ) (t tf tg : CType) (key : Key) (e f g : CoreExpr) (at : Spot) (es : List CoreExpr) → out-CoreExpr e ≡ CoreExpr-F.Call l t f es → out-CoreExpr f ≡ CoreExpr-F.Convert lf tf g → out-CoreExpr g ≡ CoreExpr-F.Function lg tg key → ((w : World) → conversion (type_of g) tf (Place (FunctionAt key)) w ≡ Done (Answered (FunctionAt key)) w) → at.depth ≡ 0 → Fits (slots home) home.cost → ReturnsFrom home.from most key → FitsType home (type_of f) key → code_of home e at ≡ fetched home.style home.autos 0 es ++ (Call (Named key) ∷ Plain (Jalr ra ra (pos 0)) ∷ []) → length es ≤ 8 → AreLeaves home (suc most) (suc (suc deep)) 0 es → GivesAnswer home (suc most) (suc (suc (suc deep))) e at }
{}
