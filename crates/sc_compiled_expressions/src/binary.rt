// Operands, operators between two of them, conditions that compare, conversions, and far places. Each function here does nothing: its contract is the law.
ghost use Rattle.std.specs.Prelude.{Some, [], false, nat_lt, true, ℕ, ◌+◌, ◌++◌, ◌<◌, ◌==◌, ◌≡◌, ◌≤◌, None, suc, ◌^◌};
ghost use Rattle.sc_core.specs.declared.expression.CoreExpr.{CoreExpr, out-CoreExpr};
ghost use Rattle.sc_gen_code.specs.Code.{Code};
ghost use Rattle.sc_gen_code.specs.Styles.{deeper};
ghost use Rattle.sc_gen_code.specs.declared.style.Spot.{Spot};
ghost use Rattle.sc_gen_expr.specs.Expressions.{part_of};
ghost use Rattle.sc_gen_operand.specs.Places.{constant, is_leaf, is_read, away, is_direct};
ghost use Rattle.sc_gen_operand.specs.Plans.{first, first_register, into, late, late_register, is_plain, waiting_plan, with_number, foot};
ghost use Rattle.sc_gen_operand.specs.declared.plans.Want.TheVariants.{Word};
ghost use Rattle.sc_compiled_expressions.specs.Operands.{GivesBeside, GivesIn, GivesPair, IsApart};
ghost use Rattle.sc_compiled_expressions.specs.Direct.{EvaluatesTo, GivesLeaf, IsFree, Converts};
ghost use Rattle.sc_compiled_expressions.specs.Good.{GivesValue, code_of, GivesPlain, TellsTruth, GivesAnswer};
ghost use Rattle.sc_compiled_expressions.specs.Standing.{Home};
ghost use Rattle.sc_base.specs.declared.operator.Op.{Op};
ghost use Rattle.sc_core.specs.declared.expression.CoreExpr.TheOpen.{CoreExpr-F};
ghost use Rattle.sc_gen_code.specs.Operators.{immediate, is_comparison, is_scalar};
ghost use Rattle.sc_gen_code.specs.declared.symbolic.Symbolic.{Symbolic};
ghost use Rattle.sc_gen_operand.specs.declared.plans.Plan.TheVariants.{Register};
ghost use Rattle.sc_compiled_values.specs.Operators.{IsOperator};
ghost use Rattle.sc_types.specs.declared.ctype.CType.{CType};
ghost use Rattle.sc_core.specs.Types.{type_of};
ghost use Rattle.sc_meaning.specs.Values.{is_pointer_type};
ghost use Rattle.sc_core.specs.declared.expression.UnaryOperator.TheVariants.{Plus};
ghost use Rattle.sc_compiled_expressions.specs.Footed.{HasValuesOf, GivesFoot};
ghost use Rattle.sc_compiled_expressions.specs.Canonical.{ConvertsTo};
ghost use Rattle.sc_meaning.specs.Expressions.{is_void};
ghost use Rattle.sc_compiled_expressions.specs.Places.{AnswersNoMembers, AnswersPlaces};

/// Operands end in their registers: a first one in a0, or in x0 where it is the number 0; a right one that is fetched behind it in a1, or in x0; one
/// that waits in its own register; and two of them, the right one fetched, or computed while the left one waits.
#[tactic(auto, using(crate::proofs::Operands::first_given, crate::proofs::Operands::late_given, crate::proofs::Operands::into_leaf, crate::proofs::Operands::into_value, crate::proofs::Pairs::pair_beside, crate::proofs::Pairs::pair_waits))]
pub fn operands_stand_in_registers()
    ensures first { (home : Home) (e : CoreExpr) → home.style.kept ≡ [] → (most deep : ℕ) → ((n : ℕ) → constant e ≡ Some n → EvaluatesTo home deep e n) → (at : Spot) → at.depth ≤ 5 → GivesValue home most deep e at → GivesIn home most deep (first home.style home.autos Word (part_of home.style home.autos e) e at) e (first_register home.style home.autos Word e) at }
    ensures late { (home : Home) (e : CoreExpr) → home.style.kept ≡ [] → (most deep : ℕ) → ((n : ℕ) → constant e ≡ Some n → EvaluatesTo home deep e n) → GivesLeaf home most deep e 11 → GivesBeside home most deep (late home.style home.autos e) e (late_register home.style home.autos e) }
    ensures leaf { (home : Home) (most deep : ℕ) (e : CoreExpr) (at : Spot) (r : ℕ) → at.depth ≤ 5 → ((j : ℕ) → j < at.depth → (13 + j == r) ≡ false) → is_leaf home.autos e ≡ true → GivesLeaf home most deep e r → GivesIn home most deep (into home.style home.autos Word r (part_of home.style home.autos e) e at) e r at }
    ensures value { (home : Home) (most deep : ℕ) (e : CoreExpr) (at : Spot) (r : ℕ) → IsFree r → at.depth ≤ 5 → ((j : ℕ) → j < at.depth → (13 + j == r) ≡ false) → is_leaf home.autos e ≡ false → GivesValue home most deep e at → GivesIn home most deep (into home.style home.autos Word r (part_of home.style home.autos e) e at) e r at }
    ensures beside { (home : Home) (most deep : ℕ) (a b : CoreExpr) (at : Spot) (ca cb : Code) (ra rb : ℕ) → at.depth ≤ 5 → IsApart ra rb → ((j : ℕ) → j < at.depth → (13 + j == rb) ≡ false) → GivesIn home most deep ca a ra at → GivesBeside home most deep cb b rb → GivesPair home most deep (ca ++ cb) a b ra rb at }
    ensures waits { (home : Home) (most deep : ℕ) (a b : CoreExpr) (at : Spot) (ca : Code) → nat_lt at.depth 5 ≡ true → GivesIn home most deep ca a (13 + at.depth) at → GivesValue home most deep b (deeper at) → GivesPair home most deep (ca ++ code_of home b (deeper at)) a b (13 + at.depth) 10 at }
{}

/// The code of an operator on two integers gives the number that it means, or the meaning's next step is an undefined one, if that of its operands
/// gives their values: where an instruction holds the right one, where the right one is a leaf, and where the left one waits in a register.
#[tactic(auto, using(crate::proofs::Operating::binary_held, crate::proofs::Operating::binary_late, crate::proofs::Operating::binary_waits))]
pub fn binary_operators_compute()
    ensures held { (home : Home) (most deep l : ℕ) (t : CType) (o : Op) (e a b : CoreExpr) (at : Spot) → out-CoreExpr e ≡ CoreExpr-F.Binary l t o a b → home.style.kept ≡ [] → at.depth ≤ 5 → (i : Symbolic) (m : ℕ) → m < 2 ^ 32 → constant b ≡ Some m → immediate o (is_plain a) (first_register home.style home.autos Word a) m ≡ Some i → GivesValue home most deep a at → ((n : ℕ) → constant a ≡ Some n → EvaluatesTo home deep a n) → EvaluatesTo home deep b m → GivesPlain home most (suc deep) e at }
    ensures late { (home : Home) (most deep l : ℕ) (t : CType) (o : Op) (e a b : CoreExpr) (at : Spot) → out-CoreExpr e ≡ CoreExpr-F.Binary l t o a b → home.style.kept ≡ [] → at.depth ≤ 5 → IsOperator o → with_number o (is_plain a) (first_register home.style home.autos Word a) b ≡ None → is_leaf home.autos b ≡ true → GivesValue home most deep a at → GivesLeaf home most deep b 11 → ((n : ℕ) → constant a ≡ Some n → EvaluatesTo home deep a n) → ((n : ℕ) → constant b ≡ Some n → EvaluatesTo home deep b n) → GivesPlain home most (suc deep) e at }
    ensures waits { (home : Home) (most deep l : ℕ) (t : CType) (o : Op) (e a b : CoreExpr) (at : Spot) → out-CoreExpr e ≡ CoreExpr-F.Binary l t o a b → at.depth < 5 → nat_lt at.depth 5 ≡ true → IsOperator o → with_number o (is_plain a) (first_register home.style home.autos Word a) b ≡ None → is_leaf home.autos b ≡ false → waiting_plan at b ≡ Register (13 + at.depth) → GivesIn home most deep (into home.style home.autos Word (13 + at.depth) (part_of home.style home.autos a) a at) a (13 + at.depth) at → GivesValue home most deep b (deeper at) → GivesPlain home most (suc deep) e at }
{}

/// The code of a condition that compares two integers leaves out the next word just where its truth is the one that is said, or the meaning's next step
/// is an undefined one, if that of its operands gives their values: where the right one is a leaf, and where the left one waits in a register.
#[tactic(auto, using(crate::proofs::Comparing::compared_late, crate::proofs::Comparing::compared_waits))]
pub fn comparisons_tell_their_truth()
    ensures late { (home : Home) (most deep l : ℕ) (t : CType) (o : Op) (e a b : CoreExpr) (at : Spot) → out-CoreExpr e ≡ CoreExpr-F.Binary l t o a b → is_comparison o ≡ true → is_pointer_type (type_of e) ≡ false → home.style.kept ≡ [] → at.depth ≤ 5 → is_leaf home.autos b ≡ true → GivesValue home most deep a at → GivesLeaf home most deep b 11 → ((n : ℕ) → constant a ≡ Some n → EvaluatesTo home deep a n) → ((n : ℕ) → constant b ≡ Some n → EvaluatesTo home deep b n) → TellsTruth home most (suc deep) e at }
    ensures waits { (home : Home) (most deep l : ℕ) (t : CType) (o : Op) (e a b : CoreExpr) (at : Spot) → out-CoreExpr e ≡ CoreExpr-F.Binary l t o a b → is_comparison o ≡ true → is_pointer_type (type_of e) ≡ false → nat_lt at.depth 5 ≡ true → is_leaf home.autos b ≡ false → waiting_plan at b ≡ Register (13 + at.depth) → GivesIn home most deep (into home.style home.autos Word (13 + at.depth) (part_of home.style home.autos a) a at) a (13 + at.depth) at → GivesValue home most deep b (deeper at) → TellsTruth home most (suc deep) e at }
{}

/// The code of a cast, of `+a`, and of a conversion of what is read from no place, gives the value of the type, if that of its operand gives a value
/// that may be one of the type: no pointer becomes an integer, and a number that is converted as it stands is one of its type.
#[tactic(auto, using(crate::proofs::Converting::cast_given, crate::proofs::Converting::plus_given, crate::proofs::Converting::converted_given))]
pub fn conversions_give_values()
    ensures casts { (home : Home) (most deep l : ℕ) (t : CType) (e a : CoreExpr) (at : Spot) → out-CoreExpr e ≡ CoreExpr-F.Cast l t a → is_void t ≡ false → at.depth ≤ 5 → GivesValue home most deep a at → HasValuesOf home.env a t → GivesPlain home most (suc deep) e at }
    ensures plus { (home : Home) (most deep l : ℕ) (t : CType) (e a : CoreExpr) (at : Spot) → out-CoreExpr e ≡ CoreExpr-F.Unary l t Plus a → at.depth ≤ 5 → GivesValue home most deep a at → GivesPlain home most (suc deep) e at }
    ensures converts { (home : Home) (most deep l : ℕ) (t : CType) (e a : CoreExpr) (at : Spot) → out-CoreExpr e ≡ CoreExpr-F.Convert l t a → is_read a ≡ false → is_scalar (type_of a) ≡ true → at.depth ≤ 5 → GivesPlain home most deep a at → ConvertsTo home.env a (type_of a) t → GivesPlain home most (suc deep) e at }
{}

/// The code of `*a` leaves the foot of the pointer, if that of `a` does; and where an expression has no foot of its own, its word is the foot.
#[tactic(auto, using(crate::proofs::Feet::foot_is_word, crate::proofs::Feet::indirection_foot))]
pub fn feet_are_given()
    ensures word { (home : Home) (most deep : ℕ) (e : CoreExpr) (at : Spot) → away e ≡ 0 → part_of home.style home.autos e foot e at ≡ code_of home e at → GivesAnswer home most deep e at → GivesFoot home most deep (part_of home.style home.autos e foot e at) e 10 at }
    ensures indirection { (home : Home) (most deep l : ℕ) (t : CType) (e a : CoreExpr) (at : Spot) → out-CoreExpr e ≡ CoreExpr-F.Indirection l t a → away e ≡ away a → AnswersNoMembers home.env a → GivesFoot home most deep (part_of home.style home.autos a foot a at) a 10 at → GivesFoot home most (suc deep) (part_of home.style home.autos e foot e at) e 10 at }
{}

/// What stands at a place with code of its own is read by one load from its foot, and converted to the type that is asked for, or the meaning's next
/// step is an undefined one.
#[tactic(auto, using(crate::proofs::Reading::far_read))]
pub fn far_places_are_read()
    ensures { (home : Home) (most deep l : ℕ) (t : CType) (e a : CoreExpr) (at : Spot) → out-CoreExpr e ≡ CoreExpr-F.Convert l t a → is_read a ≡ true → is_direct home.autos a ≡ false → at.depth ≤ 5 → Converts (type_of a) t → GivesFoot home most deep (part_of home.style home.autos a foot a at) a 10 at → AnswersPlaces home.env a → GivesPlain home most (suc deep) e at }
{}
