// What expressions do from point to point. Each function here does nothing: its contract is the law.
ghost use Rattle.std.specs.Prelude.{List, [], slice_get, true, ℕ, ◌++◌, ◌==◌, ◌∷◌, ◌≡◌};
ghost use Rattle.sc_base.specs.declared.integer.Int.{Int};
ghost use Rattle.sc_base.specs.declared.key.Key.{Key};
ghost use Rattle.sc_base.specs.declared.operator.Op.{Op};
ghost use Rattle.sc_base.specs.declared.report.Rule.TheVariants.{U13};
ghost use Rattle.sc_core.specs.Types.{type_of};
ghost use Rattle.sc_core.specs.declared.expression.CoreExpr.{CoreExpr, out-CoreExpr};
ghost use Rattle.sc_core.specs.declared.expression.CoreExpr.TheOpen.{CoreExpr-F};
ghost use Rattle.sc_core.specs.declared.expression.Step.{Step};
ghost use Rattle.sc_core.specs.declared.expression.UnaryOperator.{UnaryOperator};
ghost use Rattle.sc_interp.specs.Steady.{alone, ran};
ghost use Rattle.sc_interp.specs.declared.stepped.Shown.TheVariants.{Nothing};
ghost use Rattle.sc_interp_machine.specs.Machine.{pair_of, single_of, store_of};
ghost use Rattle.sc_interp_machine.specs.declared.body.Pending.{Pending};
ghost use Rattle.sc_interp_machine.specs.declared.pending.Pair.{Pair};
ghost use Rattle.sc_interp_machine.specs.declared.pending.Single.{Single};
ghost use Rattle.sc_interp_machine.specs.declared.pending.Store.{Store};
ghost use Rattle.sc_meaning.specs.Accesses.{copied, tested};
ghost use Rattle.sc_meaning.specs.Expressions.{Place, automatic_in, base_of, conversion, further_of, literal_of, static_at};
ghost use Rattle.sc_meaning.specs.Outcomes.{Undefined, and_then, breach, went};
ghost use Rattle.sc_meaning.specs.Values.{FunctionAt, Number};
ghost use Rattle.sc_meaning.specs.Versions.{Text};
ghost use Rattle.sc_meaning.specs.World.{Work, World, named_in, pass, tick};
ghost use Rattle.sc_points.specs.Lists.{Moves};
ghost use Rattle.sc_points.specs.Points.{Acts, Apart, AsValue, Begins, Breaks, Call, Firsts, Form, Frame, Goes, Holds, IsThere, Point, Purpose, Shaped, Slides, Waiting, answer_of, at, changes, chosen, held_in, is_used, puts, state_at, value_of, with_register};
ghost use Rattle.sc_points.specs.declared.held.Held.{Held};
ghost use Rattle.sc_points.specs.declared.held.Held.TheVariants.{At, In, Named, Void};
ghost use Rattle.sc_types.specs.declared.ctype.CType.{CType};
ghost use Rattle.sc_program.specs.declared.storage.StaticId.TheVariants as id;
ghost use Rattle.sc_interp_machine.specs.declared.pending.Pair.TheVariants as pair;
ghost use Rattle.sc_interp_machine.specs.declared.pending.Single.TheVariants as single;
ghost use Rattle.sc_interp_machine.specs.declared.pending.Store.TheVariants as store;

/// A constant, an operator on one answer and on two, a store, and the value of an automatic object act on a register of the frame, and on the
/// world as the machine's operations do.
#[tactic(auto)]
pub fn operations_act_on_registers()
    ensures constant { (texts : List Text) (u : Purpose) (ss : List Pending) (d : ℕ) (ws : List Waiting) (same : (d == d) ≡ true) (apart : Apart d ws) (e : CoreExpr) (l : ℕ) (t : CType) (n : ℕ) → out-CoreExpr e ≡ CoreExpr-F.Number l t n → Acts texts 1 (at ss (Begins e ws u)) (λ f w. Goes (with_register d (Number n) f) (tick (tick w))) (at ss (Holds (In d) ws u)) }
    ensures single { (texts : List Text) (u : Purpose) (ss : List Pending) (d : ℕ) (ws : List Waiting) (same : (d == d) ≡ true) (apart : Apart d ws) (form : Form) (s : Single) (h : Held) → ((f : Frame) (w : World) → Shaped form (single_of s (answer_of f h) w)) → Acts texts 1 (at ss (Holds h (Waiting.Alone s ∷ ws) u)) (λ f w. puts d f (single_of s (answer_of f h) w)) (at ss (Holds (held_in form d) ws u)) }
    ensures pair { (texts : List Text) (u : Purpose) (ss : List Pending) (d : ℕ) (ws : List Waiting) (same : (d == d) ≡ true) (apart : Apart d ws) (form : Form) (p : Pair) (g h : Held) → IsThere h → ((f : Frame) (w : World) → Shaped form (pair_of p (value_of f g) (value_of f h) w)) → Acts texts 1 (at ss (Holds h (Waiting.Now p g ∷ ws) u)) (λ f w. puts d f (pair_of p (value_of f g) (value_of f h) w)) (at ss (Holds (held_in form d) ws u)) }
    ensures store { (texts : List Text) (u : Purpose) (ss : List Pending) (d : ℕ) (ws : List Waiting) (same : (d == d) ≡ true) (apart : Apart d ws) (s : Store) (g h : Held) → IsThere h → ((f : Frame) (w : World) → Shaped AsValue (store_of s (answer_of f g) (value_of f h) w)) → Acts texts 1 (at ss (Holds h (Waiting.StoreNow s g ∷ ws) u)) (λ f w. puts d f (store_of s (answer_of f g) (value_of f h) w)) (at ss (Holds (In d) ws u)) }
    ensures load { (texts : List Text) (ss : List Pending) (u : Purpose) (d : ℕ) (ws : List Waiting) (same : (d == d) ≡ true) (apart : Apart d ws) (e a : CoreExpr) (l m : ℕ) (t s : CType) (b i : ℕ) → out-CoreExpr e ≡ CoreExpr-F.Convert l t a → out-CoreExpr a ≡ CoreExpr-F.Automatic m s b i → ((f : Frame) (w : World) → Shaped AsValue (conversion (type_of a) t (answer_of f (Named b i)) w)) → Moves texts 2 (at ss (Begins e ws u)) (λ f w. puts d f (conversion (type_of a) t (Place (automatic_in f.blocks b i)) (tick (tick w)))) Nothing (at ss (Holds (In d) ws u)) }
{}

/// The first step of each expression that has parts goes to its first part, and what waits for the answer is known.
#[tactic(auto, using(crate::proofs::Begins::index_begins, crate::proofs::Begins::call_begins, crate::proofs::Begins::member_begins, crate::proofs::Begins::arrow_begins, crate::proofs::Begins::increment_begins, crate::proofs::Begins::address_begins, crate::proofs::Begins::indirection_begins, crate::proofs::Begins::unary_begins, crate::proofs::Begins::cast_begins, crate::proofs::Begins::binary_begins, crate::proofs::Begins::offset_begins, crate::proofs::Begins::difference_begins, crate::proofs::Begins::compare_begins, crate::proofs::Begins::and_begins, crate::proofs::Begins::or_begins, crate::proofs::Begins::conditional_begins, crate::proofs::Begins::assign_begins, crate::proofs::Begins::structure_begins, crate::proofs::Begins::compound_begins, crate::proofs::Begins::compound_offset_begins, crate::proofs::Begins::comma_begins, crate::proofs::Steps::convert_slides))]
pub fn expressions_begin_with_their_first_part()
    ensures index { (texts : List Text) (u : Purpose) (ss : List Pending) (ws : List Waiting) (e : CoreExpr) (a b : CoreExpr) (l : ℕ) (t : CType) (size : ℕ) → out-CoreExpr e ≡ CoreExpr-F.Index l t size a b → Firsts texts ss u ws e a (Waiting.Right (pair.Index size (type_of a) (type_of b)) b) }
    ensures call { (texts : List Text) (u : Purpose) (ss : List Pending) (ws : List Waiting) (e : CoreExpr) (a : CoreExpr) (es : List CoreExpr) (l : ℕ) (t : CType) → out-CoreExpr e ≡ CoreExpr-F.Call l t a es → Firsts texts ss u ws e a (Waiting.Callee (type_of a) es) }
    ensures member { (texts : List Text) (u : Purpose) (ss : List Pending) (ws : List Waiting) (e : CoreExpr) (a : CoreExpr) (l : ℕ) (t : CType) (n : ℕ) → out-CoreExpr e ≡ CoreExpr-F.Member l t n a → Firsts texts ss u ws e a (Waiting.Alone (single.Member n)) }
    ensures arrow { (texts : List Text) (u : Purpose) (ss : List Pending) (ws : List Waiting) (e : CoreExpr) (a : CoreExpr) (l : ℕ) (t : CType) (n : ℕ) → out-CoreExpr e ≡ CoreExpr-F.Arrow l t n a → Firsts texts ss u ws e a (Waiting.Alone (single.Arrow n)) }
    ensures increment { (texts : List Text) (u : Purpose) (ss : List Pending) (ws : List Waiting) (e : CoreExpr) (a : CoreExpr) (l : ℕ) (t : CType) (s : Step) (n : ℕ) → out-CoreExpr e ≡ CoreExpr-F.Step l t s n a → Firsts texts ss u ws e a (Waiting.Alone (single.Increment s n (type_of a))) }
    ensures address { (texts : List Text) (u : Purpose) (ss : List Pending) (ws : List Waiting) (e : CoreExpr) (a : CoreExpr) (l : ℕ) (t : CType) → out-CoreExpr e ≡ CoreExpr-F.Address l t a → Firsts texts ss u ws e a (Waiting.Alone single.Address) }
    ensures indirection { (texts : List Text) (u : Purpose) (ss : List Pending) (ws : List Waiting) (e : CoreExpr) (a : CoreExpr) (l : ℕ) (t : CType) → out-CoreExpr e ≡ CoreExpr-F.Indirection l t a → Firsts texts ss u ws e a (Waiting.Alone single.Indirection) }
    ensures unary { (texts : List Text) (u : Purpose) (ss : List Pending) (ws : List Waiting) (e : CoreExpr) (a : CoreExpr) (l : ℕ) (t : CType) (o : UnaryOperator) → out-CoreExpr e ≡ CoreExpr-F.Unary l t o a → Firsts texts ss u ws e a (Waiting.Alone (single.Unary o (type_of a))) }
    ensures cast { (texts : List Text) (u : Purpose) (ss : List Pending) (ws : List Waiting) (e : CoreExpr) (a : CoreExpr) (l : ℕ) (t : CType) → out-CoreExpr e ≡ CoreExpr-F.Cast l t a → Firsts texts ss u ws e a (Waiting.Alone (single.Cast t)) }
    ensures binary { (texts : List Text) (u : Purpose) (ss : List Pending) (ws : List Waiting) (e : CoreExpr) (a b : CoreExpr) (l : ℕ) (t : CType) (o : Op) → out-CoreExpr e ≡ CoreExpr-F.Binary l t o a b → Firsts texts ss u ws e a (Waiting.Right (pair.Binary o (type_of a) (type_of b)) b) }
    ensures offset { (texts : List Text) (u : Purpose) (ss : List Pending) (ws : List Waiting) (e : CoreExpr) (a b : CoreExpr) (l : ℕ) (t : CType) (o : Op) (size : ℕ) → out-CoreExpr e ≡ CoreExpr-F.Offset l t o size a b → Firsts texts ss u ws e a (Waiting.Right (pair.Offset o size (type_of a) (type_of b)) b) }
    ensures difference { (texts : List Text) (u : Purpose) (ss : List Pending) (ws : List Waiting) (e : CoreExpr) (a b : CoreExpr) (l : ℕ) (t : CType) (size : ℕ) → out-CoreExpr e ≡ CoreExpr-F.Difference l t size a b → Firsts texts ss u ws e a (Waiting.Right (pair.Difference size) b) }
    ensures compare { (texts : List Text) (u : Purpose) (ss : List Pending) (ws : List Waiting) (e : CoreExpr) (a b : CoreExpr) (l : ℕ) (t : CType) (o : Op) → out-CoreExpr e ≡ CoreExpr-F.Compare l t o a b → Firsts texts ss u ws e a (Waiting.Right (pair.Compare o) b) }
    ensures and { (texts : List Text) (u : Purpose) (ss : List Pending) (ws : List Waiting) (e : CoreExpr) (a b : CoreExpr) (l : ℕ) (t : CType) → out-CoreExpr e ≡ CoreExpr-F.And l t a b → Firsts texts ss u ws e a (Waiting.And (type_of a) (type_of b) b) }
    ensures or { (texts : List Text) (u : Purpose) (ss : List Pending) (ws : List Waiting) (e : CoreExpr) (a b : CoreExpr) (l : ℕ) (t : CType) → out-CoreExpr e ≡ CoreExpr-F.Or l t a b → Firsts texts ss u ws e a (Waiting.Or (type_of a) (type_of b) b) }
    ensures conditional { (texts : List Text) (u : Purpose) (ss : List Pending) (ws : List Waiting) (e : CoreExpr) (a b d : CoreExpr) (l : ℕ) (t : CType) → out-CoreExpr e ≡ CoreExpr-F.Conditional l t a b d → Firsts texts ss u ws e a (Waiting.Choice (type_of a) b d) }
    ensures assign { (texts : List Text) (u : Purpose) (ss : List Pending) (ws : List Waiting) (e : CoreExpr) (a b : CoreExpr) (l : ℕ) (t : CType) → out-CoreExpr e ≡ CoreExpr-F.Assign l t a b → Firsts texts ss u ws e a (Waiting.StoreRight (store.Assign (type_of a)) b) }
    ensures structure { (texts : List Text) (u : Purpose) (ss : List Pending) (ws : List Waiting) (e : CoreExpr) (a b : CoreExpr) (l : ℕ) (t : CType) (size : ℕ) → out-CoreExpr e ≡ CoreExpr-F.AssignStructure l t size a b → Firsts texts ss u ws e a (Waiting.StructureRight size b) }
    ensures compound { (texts : List Text) (u : Purpose) (ss : List Pending) (ws : List Waiting) (e : CoreExpr) (a b : CoreExpr) (l : ℕ) (t : CType) (o : Op) (i : Int) → out-CoreExpr e ≡ CoreExpr-F.Compound l t o i a b → Firsts texts ss u ws e a (Waiting.StoreRight (store.Compound o i (type_of a) (type_of b)) b) }
    ensures compound_offset { (texts : List Text) (u : Purpose) (ss : List Pending) (ws : List Waiting) (e : CoreExpr) (a b : CoreExpr) (l : ℕ) (t : CType) (o : Op) (size : ℕ) → out-CoreExpr e ≡ CoreExpr-F.CompoundOffset l t o size a b → Firsts texts ss u ws e a (Waiting.StoreRight (store.Move o size (type_of a) (type_of b)) b) }
    ensures comma { (texts : List Text) (u : Purpose) (ss : List Pending) (ws : List Waiting) (e : CoreExpr) (a b : CoreExpr) (l : ℕ) (t : CType) → out-CoreExpr e ≡ CoreExpr-F.Comma l t a b → Firsts texts ss u ws e a (Waiting.Then b) }
    ensures convert { (texts : List Text) (u : Purpose) (ss : List Pending) (e a : CoreExpr) (l : ℕ) (t : CType) (ws : List Waiting) → out-CoreExpr e ≡ CoreExpr-F.Convert l t a → Slides texts 1 (at ss (Begins e ws u)) (λ w. w) (at ss (Begins a (Waiting.Alone (single.Convert (type_of a) t) ∷ ws) u)) }
{}

/// The answer of one part waits where another begins: of operators, stores, copies, calls and the comma.
#[tactic(auto)]
pub fn answers_wait_for_the_next_part()
    ensures right { (texts : List Text) (u : Purpose) (ss : List Pending) (p : Pair) (b : CoreExpr) (g : Held) (ws : List Waiting) → IsThere g → Slides texts 1 (at ss (Holds g (Waiting.Right p b ∷ ws) u)) (λ w. w) (at ss (Begins b (Waiting.Now p g ∷ ws) u)) }
    ensures store { (texts : List Text) (u : Purpose) (ss : List Pending) (s : Store) (b : CoreExpr) (g : Held) (ws : List Waiting) → Slides texts 1 (at ss (Holds g (Waiting.StoreRight s b ∷ ws) u)) (λ w. w) (at ss (Begins b (Waiting.StoreNow s g ∷ ws) u)) }
    ensures structure { (texts : List Text) (u : Purpose) (ss : List Pending) (ws : List Waiting) (n : ℕ) (b : CoreExpr) (g : Held) → Slides texts 1 (at ss (Holds g (Waiting.StructureRight n b ∷ ws) u)) (λ w. w) (at ss (Begins b (Waiting.StructureNow n g ∷ ws) u)) }
    ensures function { (texts : List Text) (u : Purpose) (ss : List Pending) (ws : List Waiting) (ty : CType) (h : Held) (e : CoreExpr) (es : List CoreExpr) → IsThere h → Slides texts 1 (at ss (Holds h (Waiting.Callee ty (e ∷ es) ∷ ws) u)) (λ w. w) (at ss (Begins e (Waiting.Argument ty h es [] ∷ ws) u)) }
    ensures argument { (texts : List Text) (u : Purpose) (ss : List Pending) (ws : List Waiting) (ty : CType) (h g : Held) (hs : List Held) (e : CoreExpr) (es : List CoreExpr) → IsThere g → Slides texts 1 (at ss (Holds g (Waiting.Argument ty h (e ∷ es) hs ∷ ws) u)) (λ w. w) (at ss (Begins e (Waiting.Argument ty h es (hs ++ g ∷ []) ∷ ws) u)) }
    ensures comma { (texts : List Text) (u : Purpose) (ss : List Pending) (ws : List Waiting) (b : CoreExpr) (h : Held) → Slides texts 1 (at ss (Holds h (Waiting.Then b ∷ ws) u)) (λ w. w) (at ss (Begins b (Waiting.Alone single.Whole ∷ ws) u)) }
    ensures whole { (texts : List Text) (u : Purpose) (ss : List Pending) (ws : List Waiting) (h : Held) → Slides texts 1 (at ss (Holds h (Waiting.Alone single.Whole ∷ ws) u)) tick (at ss (Holds h ws u)) }
{}

/// A static object, a literal and a function give their place as their name begins.
#[tactic(auto, using(crate::proofs::Loops::static_acts, crate::proofs::Names::literal_acts, crate::proofs::Names::function_acts))]
pub fn names_are_found_as_they_begin()
    ensures object { (texts : List Text) (ss : List Pending) (u : Purpose) (d : ℕ) (ws : List Waiting) (same : (d == d) ≡ true) (apart : Apart d ws) (e : CoreExpr) (l : ℕ) (t : CType) (key : Key) → out-CoreExpr e ≡ CoreExpr-F.Static l t key → Acts texts 1 (at ss (Begins e ws u)) (λ f w. puts d f (static_at key (named_in (tick w).names (id.Named key)) (tick w))) (at ss (Holds (At d) ws u)) }
    ensures literal { (texts : List Text) (u : Purpose) (ss : List Pending) (ws : List Waiting) (d : ℕ) (same : (d == d) ≡ true) (apart : Apart d ws) (e : CoreExpr) (l : ℕ) (t : CType) (i : ℕ) → out-CoreExpr e ≡ CoreExpr-F.Literal l t i → (c : Call) (f : Frame) (w : World) → ran 1 (alone texts) texts (state_at c (at ss (Begins e ws u)) f w) ≡ state_at c (at ss (Holds (At d) ws u)) (with_register d (literal_of c.text (slice_get c.text.core.literals i) (tick w)) f) (tick (tick w)) }
    ensures function { (texts : List Text) (u : Purpose) (ss : List Pending) (ws : List Waiting) (d : ℕ) (same : (d == d) ≡ true) (apart : Apart d ws) (e : CoreExpr) (l : ℕ) (t : CType) (key : Key) → out-CoreExpr e ≡ CoreExpr-F.Function l t key → Acts texts 1 (at ss (Begins e ws u)) (λ f w. Goes (with_register d (FunctionAt key) f) (tick (tick w))) (at ss (Holds (At d) ws u)) }
{}

/// Where a call gave no value and one is used, the run ends (U13).
#[tactic(auto, using(crate::proofs::Nothing::nothing_ends))]
pub fn uses_of_nothing_end_the_run()
    ensures { (texts : List Text) (ss : List Pending) (q : Point) (ws : List Waiting) (u : Purpose) → is_used ws u ≡ true → Acts texts 1 (at ss (Holds Void ws u)) (λ f w. Breaks (Undefined (breach U13 w) w)) q }
{}

/// A structure is copied cell by cell, and the place of the left side is the answer.
#[tactic(auto, using(crate::proofs::Names::structure_acts))]
pub fn structures_are_copied()
    ensures { (texts : List Text) (u : Purpose) (ss : List Pending) (ws : List Waiting) (n : ℕ) (g h : Held) → Acts texts 1 (at ss (Holds h (Waiting.StructureNow n g ∷ ws) u)) (λ f w. changes f (and_then (copied (base_of (answer_of f g)) (further_of (answer_of f g)) (base_of (answer_of f h)) (further_of (answer_of f h)) n w) (λ _ w. went (tick (pass (Work n) w))))) (at ss (Holds g ws u)) }
{}

/// The left side of `&&` and `||` and the condition of `? :` lead to the right side, or to an answer.
#[tactic(auto, using(crate::proofs::Calling::and_branches, crate::proofs::Loops::or_branches, crate::proofs::Loops::choice_branches))]
pub fn conditions_branch()
    ensures and { (texts : List Text) (u : Purpose) (ss : List Pending) (ws : List Waiting) (d : ℕ) (same : (d == d) ≡ true) (apart : Apart d ws) (g : Held) (s t : CType) (b : CoreExpr) (c : Call) (f : Frame) (w : World) → IsThere g → ran 1 (alone texts) texts (state_at c (at ss (Holds g (Waiting.And s t b ∷ ws) u)) f w) ≡ chosen c (at ss (Begins b (Waiting.Alone (single.Truth t) ∷ ws) u)) (Goes f) (at ss (Holds (In d) ws u)) (λ v. Goes (with_register d (Number 0) f) (tick v)) (tested s (value_of f g) w) }
    ensures or { (texts : List Text) (ss : List Pending) (u : Purpose) (d : ℕ) (ws : List Waiting) (same : (d == d) ≡ true) (apart : Apart d ws) (g : Held) (s t : CType) (b : CoreExpr) (c : Call) (f : Frame) (w : World) → IsThere g → ran 1 (alone texts) texts (state_at c (at ss (Holds g (Waiting.Or s t b ∷ ws) u)) f w) ≡ chosen c (at ss (Holds (In d) ws u)) (λ v. Goes (with_register d (Number 1) f) (tick v)) (at ss (Begins b (Waiting.Alone (single.Truth t) ∷ ws) u)) (Goes f) (tested s (value_of f g) w) }
    ensures choice { (texts : List Text) (ss : List Pending) (u : Purpose) (d : ℕ) (ws : List Waiting) (same : (d == d) ≡ true) (apart : Apart d ws) (g : Held) (t : CType) (a b : CoreExpr) (c : Call) (f : Frame) (w : World) → IsThere g → ran 1 (alone texts) texts (state_at c (at ss (Holds g (Waiting.Choice t a b ∷ ws) u)) f w) ≡ chosen c (at ss (Begins a (Waiting.Alone single.Whole ∷ ws) u)) (Goes f) (at ss (Begins b (Waiting.Alone single.Whole ∷ ws) u)) (Goes f) (tested t (value_of f g) w) }
{}
