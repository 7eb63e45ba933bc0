// What statements do from point to point. Each function here does nothing: its contract is the law.
ghost use Rattle.std.specs.Prelude.{List, None, Option, Some, [], drop, false, length, replicate, true, ℕ, ◌==◌, ◌∷◌, ◌≡◌};
ghost use Rattle.sc_core.specs.Types.{type_of};
ghost use Rattle.sc_core.specs.declared.expression.CoreExpr.{CoreExpr};
ghost use Rattle.sc_core.specs.declared.statement.AutoInit.{AutoInit};
ghost use Rattle.sc_core.specs.declared.statement.CoreStmt.{CoreStmt, out-CoreStmt};
ghost use Rattle.sc_core.specs.declared.statement.CoreStmt.TheOpen.{CoreStmt-F};
ghost use Rattle.sc_core.specs.declared.statement.LabelAt.{LabelAt};
ghost use Rattle.sc_core.specs.declared.statement.SwitchLabel.{SwitchLabel};
ghost use Rattle.sc_interp.specs.Steady.{alone, on_line, ran};
ghost use Rattle.sc_interp.specs.declared.stepped.Shown.TheVariants.{Line};
ghost use Rattle.sc_interp_machine.specs.declared.body.Pending.{Pending};
ghost use Rattle.sc_interp_machine.specs.declared.body.Use.TheVariants.{Discard, If, While};
ghost use Rattle.sc_meaning.specs.Accesses.{set_at, tested};
ghost use Rattle.sc_meaning.specs.Expressions.{automatic_in};
ghost use Rattle.sc_meaning.specs.Statements.{Broke, Continued, Jumped, Normal, Way, block_autos, born_autos, id_of, initial_structure, place_in, place_of, set_bytes};
ghost use Rattle.sc_meaning.specs.Values.{scalar_size};
ghost use Rattle.sc_meaning.specs.Versions.{Text};
ghost use Rattle.sc_meaning.specs.Violations.{bits};
ghost use Rattle.sc_meaning.specs.World.{Begin, Declares, End, Work, World, pass, tick};
ghost use Rattle.sc_points.specs.Lists.{Moves};
ghost use Rattle.sc_points.specs.Points.{Acts, Begins, Call, Compares, Copies, Does, Fills, Frame, Goes, Holds, IsThere, Leaves, Returns, Sets, Slides, Turns, Uses, answer_of, at, at_first_line, changes, chosen, closes, env_of, is_block, opens, state_at, state_behind, value_of};
ghost use Rattle.sc_points.specs.declared.held.Held.{Held};
ghost use Rattle.sc_points.specs.declared.held.Held.TheVariants.{In};
ghost use Rattle.sc_types.specs.declared.ctype.CType.{CType};
ghost use Rattle.sc_interp_machine.specs.declared.body.Pending.TheVariants as pending;
ghost use Rattle.sc_core.specs.declared.statement.AutoInit.TheVariants as piece;
ghost use Rattle.sc_interp_machine.specs.declared.body.Use.TheVariants as uses;

/// The condition of `while`, `do`, `for` and `if`, with `else` and without it, leads to the part that is repeated or chosen, or behind it.
#[tactic(auto, using(crate::proofs::Frames::while_branches, crate::proofs::Loops::repeat_branches, crate::proofs::Loops::for_branches, crate::proofs::Frames::if_branches, crate::proofs::Frames::if_only_branches))]
pub fn tests_branch()
    ensures while_loop { (texts : List Text) (ss : List Pending) (g : Held) (there : IsThere g) (t : CType) (s q : CoreStmt) (c : Call) (f : Frame) (w : World) → ran 1 (alone texts) texts (state_at c (at ss (Holds g [] (Uses (While t s q)))) f w) ≡ chosen c (at (pending.Again s ∷ ss) (Does q)) (Goes f) (at ss (Leaves Normal)) (λ v. Goes f (pass End v)) (tested t (value_of f g) w) }
    ensures do_loop { (texts : List Text) (ss : List Pending) (g : Held) (there : IsThere g) (t : CType) (s : CoreStmt) (c : Call) (f : Frame) (w : World) → ran 1 (alone texts) texts (state_at c (at ss (Holds g [] (Uses (uses.Repeat t s)))) f w) ≡ chosen c (at ss (Turns s)) (Goes f) (at ss (Leaves Normal)) (λ v. Goes f (pass End v)) (tested t (value_of f g) w) }
    ensures for_loop { (texts : List Text) (ss : List Pending) (g : Held) (there : IsThere g) (t : CType) (s q : CoreStmt) (x : Option CoreExpr) (c : Call) (f : Frame) (w : World) → ran 1 (alone texts) texts (state_at c (at ss (Holds g [] (Uses (uses.For t s x q)))) f w) ≡ chosen c (at (pending.Third x s ∷ ss) (Does q)) (Goes f) (at ss (Leaves Normal)) (λ v. Goes f (pass End v)) (tested t (value_of f g) w) }
    ensures choice { (texts : List Text) (ss : List Pending) (g : Held) (there : IsThere g) (t : CType) (q r : CoreStmt) (c : Call) (f : Frame) (w : World) → ran 1 (alone texts) texts (state_at c (at ss (Holds g [] (Uses (If t q (Some r))))) f w) ≡ chosen c (at (pending.End ∷ ss) (Does q)) (Goes f) (at (pending.End ∷ ss) (Does r)) (Goes f) (tested t (value_of f g) w) }
    ensures only { (texts : List Text) (ss : List Pending) (g : Held) (there : IsThere g) (t : CType) (q : CoreStmt) (c : Call) (f : Frame) (w : World) → ran 1 (alone texts) texts (state_at c (at ss (Holds g [] (Uses (If t q None)))) f w) ≡ chosen c (at (pending.End ∷ ss) (Does q)) (Goes f) (at (pending.End ∷ ss) (Leaves Normal)) (Goes f) (tested t (value_of f g) w) }
{}

/// A statement with an expression, a loop's turn, and the end of a turn reach their line.
#[tactic(auto)]
pub fn lines_are_reached()
    ensures expression { (texts : List Text) (ss : List Pending) (s : CoreStmt) (l : ℕ) (e : CoreExpr) → out-CoreStmt s ≡ CoreStmt-F.Expression l e → Acts texts 1 (at ss (Does s)) (at_first_line l) (at ss (Begins e [] (Uses Discard))) }
    ensures loop_line { (texts : List Text) (ss : List Pending) (s a : CoreStmt) (l : ℕ) (e : CoreExpr) (is : out-CoreStmt s ≡ CoreStmt-F.While l e a) → Moves texts 1 (at ss (Does s)) (at_first_line l) (Line l) (at ss (Begins e [] (Uses (While (type_of e) s a)))) }
    ensures again { (texts : List Text) (ss : List Pending) (s a : CoreStmt) (l : ℕ) (e : CoreExpr) (is : out-CoreStmt s ≡ CoreStmt-F.While l e a) → Moves texts 1 (at (pending.Again s ∷ ss) (Leaves Normal)) (λ f w. Goes f (on_line l w)) (Line l) (at ss (Begins e [] (Uses (While (type_of e) s a)))) }
    ensures goto { (texts : List Text) (ss : List Pending) (s : CoreStmt) (l k : ℕ) → out-CoreStmt s ≡ CoreStmt-F.Goto l k → Acts texts 1 (at ss (Does s)) (at_first_line l) (at (pending.End ∷ ss) (Leaves (Jumped k))) }
{}

/// A statement that ends leads to the next of its list, or out of it; `break`, `continue` and `return` lead out of lists, loops and `switch`.
#[tactic(auto, using(crate::proofs::Lines::end_slides, crate::proofs::Lines::list_goes_on, crate::proofs::Lines::list_ends, crate::proofs::Lines::break_leaves_list, crate::proofs::Switches::break_leaves_switch, crate::proofs::Loops::break_slides, crate::proofs::Lines::continue_leaves_list, crate::proofs::Loops::continue_slides, crate::proofs::Lines::return_leaves_list, crate::proofs::Lines::return_leaves_loop))]
pub fn statements_end_and_lists_go_on()
    ensures ends { (texts : List Text) (ss : List Pending) (way : Way) → Slides texts 1 (at (pending.End ∷ ss) (Leaves way)) (pass End) (at ss (Leaves way)) }
    ensures goes_on { (texts : List Text) (ss : List Pending) (s : CoreStmt) (q : CoreStmt) (qs : List CoreStmt) → Slides texts 1 (at (pending.Rest s (q ∷ qs) ∷ ss) (Leaves Normal)) (λ w. w) (at (pending.Rest s qs ∷ ss) (Does q)) }
    ensures list_ends { (texts : List Text) (ss : List Pending) (s : CoreStmt) → Slides texts 1 (at (pending.Rest s [] ∷ ss) (Leaves Normal)) (λ w. w) (at ss (Leaves Normal)) }
    ensures break_list { (texts : List Text) (ss : List Pending) (s : CoreStmt) (qs : List CoreStmt) → Slides texts 1 (at (pending.Rest s qs ∷ ss) (Leaves Broke)) (λ w. w) (at ss (Leaves Broke)) }
    ensures break_switch { (texts : List Text) (ss : List Pending) → Slides texts 1 (at (pending.EndSwitch ∷ ss) (Leaves Broke)) (pass End) (at ss (Leaves Normal)) }
    ensures break_loop { (texts : List Text) (ss : List Pending) (s : CoreStmt) → Slides texts 1 (at (pending.Again s ∷ ss) (Leaves Broke)) (pass End) (at ss (Leaves Normal)) }
    ensures continue_list { (texts : List Text) (ss : List Pending) (s : CoreStmt) (qs : List CoreStmt) → Slides texts 1 (at (pending.Rest s qs ∷ ss) (Leaves Continued)) (λ w. w) (at ss (Leaves Continued)) }
    ensures continue_loop { (texts : List Text) (ss : List Pending) (s : CoreStmt) → Slides texts 1 (at (pending.Again s ∷ ss) (Leaves Continued)) (λ w. w) (at ss (Turns s)) }
    ensures return_list { (texts : List Text) (ss : List Pending) (s : CoreStmt) (qs : List CoreStmt) (h : Held) → Slides texts 1 (at (pending.Rest s qs ∷ ss) (Returns h)) (λ w. w) (at ss (Returns h)) }
    ensures return_loop { (texts : List Text) (ss : List Pending) (s : CoreStmt) (h : Held) → Slides texts 1 (at (pending.Again s ∷ ss) (Returns h)) (pass End) (at ss (Returns h)) }
{}

/// A block is entered with its objects, and left with their deaths: at its end, by a jump or by a return.
#[tactic(auto, using(crate::proofs::Frames::enter_acts, crate::proofs::Frames::leave_acts, crate::proofs::Frames::return_leave_acts))]
pub fn blocks_are_entered_and_left()
    ensures enters { (texts : List Text) (ss : List Pending) (s : CoreStmt) (l b n : ℕ) (ls : List LabelAt) (qs : List CoreStmt) → out-CoreStmt s ≡ CoreStmt-F.Block l b ls qs → (c : Call) (f : Frame) (w : World) → length f.blocks ≡ n → ran 1 (alone texts) texts (state_at c (at ss (Does s)) f w) ≡ state_behind c (at (pending.Rest s qs ∷ pending.EndBlock n ∷ ss) (Leaves Normal)) (opens b f (born_autos (block_autos (env_of c f) b) [] (pass Begin w))) }
    ensures leaves { (texts : List Text) (ss : List Pending) (n : ℕ) (way : Way) → Acts texts 1 (at (pending.EndBlock n ∷ ss) (Leaves way)) (closes n) (at ss (Leaves way)) }
    ensures returns { (texts : List Text) (ss : List Pending) (n r : ℕ) → Acts texts 1 (at (pending.EndBlock n ∷ ss) (Returns (In r))) (closes n) (at ss (Returns (In r))) }
{}

/// The labels of a `switch` are compared in their order; it goes on at the first that is the value, else at `default`, else at its end.
#[tactic(auto, using(crate::proofs::Switches::label_differs, crate::proofs::Switches::label_enters, crate::proofs::Switches::label_begins, crate::proofs::Switches::default_enters, crate::proofs::Switches::no_label_slides))]
pub fn switches_go_on_at_a_label()
    ensures differs { (texts : List Text) (ss : List Pending) (l : SwitchLabel) (ls : List SwitchLabel) (h : Held) (d : Option ℕ) (a : CoreStmt) (c : Call) (f : Frame) (w : World) (v : ℕ) → l.value ≡ Some v → (v == bits (value_of f h)) ≡ false → ran 1 (alone texts) texts (state_at c (at ss (Compares (l ∷ ls) h d a)) f w) ≡ state_at c (at ss (Compares ls h d a)) f (tick w) }
    ensures enters { (texts : List Text) (ss : List Pending) (l : SwitchLabel) (ls : List SwitchLabel) (h : Held) (d : Option ℕ) (a : CoreStmt) (c : Call) (f : Frame) (w : World) (v line b n : ℕ) (ks : List LabelAt) (qs : List CoreStmt) → l.value ≡ Some v → (v == bits (value_of f h)) ≡ true → out-CoreStmt a ≡ CoreStmt-F.Block line b ks qs → length f.blocks ≡ n → ran 1 (alone texts) texts (state_at c (at ss (Compares (l ∷ ls) h d a)) f w) ≡ state_behind c (at (pending.Rest a (drop l.at qs) ∷ pending.EndBlock n ∷ pending.EndSwitch ∷ ss) (Leaves Normal)) (opens b f (born_autos (block_autos (env_of c f) b) [] (pass Begin (tick w)))) }
    ensures begins { (texts : List Text) (ss : List Pending) (l : SwitchLabel) (ls : List SwitchLabel) (h : Held) (d : Option ℕ) (a : CoreStmt) (c : Call) (f : Frame) (w : World) (v : ℕ) → l.value ≡ Some v → (v == bits (value_of f h)) ≡ true → is_block (out-CoreStmt a) ≡ false → ran 1 (alone texts) texts (state_at c (at ss (Compares (l ∷ ls) h d a)) f w) ≡ state_at c (at (pending.EndSwitch ∷ ss) (Does a)) f (tick w) }
    ensures default { (texts : List Text) (ss : List Pending) (h : Held) (j : ℕ) (a : CoreStmt) (c : Call) (f : Frame) (w : World) (line b n : ℕ) (ks : List LabelAt) (qs : List CoreStmt) → out-CoreStmt a ≡ CoreStmt-F.Block line b ks qs → length f.blocks ≡ n → ran 1 (alone texts) texts (state_at c (at ss (Compares [] h (Some j) a)) f w) ≡ state_behind c (at (pending.Rest a (drop j qs) ∷ pending.EndBlock n ∷ pending.EndSwitch ∷ ss) (Leaves Normal)) (opens b f (born_autos (block_autos (env_of c f) b) [] (pass Begin w))) }
    ensures none { (texts : List Text) (ss : List Pending) (h : Held) (a : CoreStmt) → Slides texts 1 (at ss (Compares [] h None a)) (λ w. w) (at (pending.EndSwitch ∷ ss) (Leaves Normal)) }
{}

/// A jump leaves lists without its label, and goes on in the list that has it.
#[tactic(auto, using(crate::proofs::Switches::jump_lands, crate::proofs::Switches::jump_leaves_list))]
pub fn jumps_land_at_their_label()
    ensures lands { (texts : List Text) (ss : List Pending) (k : ℕ) (s : CoreStmt) (qs ps : List CoreStmt) (l b j : ℕ) (ks : List LabelAt) → out-CoreStmt s ≡ CoreStmt-F.Block l b ks ps → place_of k ks ≡ Some j → Slides texts 1 (at (pending.Rest s qs ∷ ss) (Leaves (Jumped k))) (λ w. w) (at (pending.Rest s (drop j ps) ∷ ss) (Leaves Normal)) }
    ensures leaves { (texts : List Text) (ss : List Pending) (k : ℕ) (s : CoreStmt) (qs : List CoreStmt) → place_in k (out-CoreStmt s) ≡ None → Slides texts 1 (at (pending.Rest s qs ∷ ss) (Leaves (Jumped k))) (λ w. w) (at ss (Leaves (Jumped k))) }
{}

/// The pieces of an initialiser are set one after another: values, bytes of strings, missing bytes and whole structures.
#[tactic(auto, using(crate::proofs::Initial::declared_acts, crate::proofs::Initial::set_acts, crate::proofs::Initial::text_acts, crate::proofs::Initial::zero_acts, crate::proofs::Initial::copy_acts))]
pub fn initialisers_are_filled_in()
    ensures declared { (texts : List Text) (ss : List Pending) (b i : ℕ) (is : List AutoInit) (s : CoreStmt) (l : ℕ) → out-CoreStmt s ≡ CoreStmt-F.Initialize l b i is → Acts texts 1 (at ss (Does s)) (λ f w. Goes f (on_line l (pass (Declares (id_of (automatic_in f.blocks b i))) (tick w)))) (at ss (Fills b i is)) }
    ensures value { (texts : List Text) (ss : List Pending) (b i : ℕ) (is : List AutoInit) (at_byte : ℕ) (t : CType) (h : Held) → IsThere h → Acts texts 1 (at ss (Holds h [] (Sets b i at_byte t is))) (λ f w. Goes f (pass (Work (scalar_size t)) (set_at (automatic_in f.blocks b i) at_byte (scalar_size t) (value_of f h) w))) (at ss (Fills b i is)) }
    ensures text { (texts : List Text) (ss : List Pending) (b i : ℕ) (is : List AutoInit) (at_byte : ℕ) (bytes : List ℕ) → Acts texts 1 (at ss (Fills b i (piece.Text at_byte bytes ∷ is))) (λ f w. Goes f (set_bytes (id_of (automatic_in f.blocks b i)) at_byte bytes w)) (at ss (Fills b i is)) }
    ensures zero { (texts : List Text) (ss : List Pending) (b i : ℕ) (is : List AutoInit) (at_byte n : ℕ) → Acts texts 1 (at ss (Fills b i (piece.Zero at_byte n ∷ is))) (λ f w. Goes f (set_bytes (id_of (automatic_in f.blocks b i)) at_byte (replicate n 0) w)) (at ss (Fills b i is)) }
    ensures structure { (texts : List Text) (ss : List Pending) (b i : ℕ) (is : List AutoInit) (size : ℕ) (h : Held) → Acts texts 1 (at ss (Holds h [] (Copies b i size is))) (λ f w. changes f (initial_structure (automatic_in f.blocks b i) size (answer_of f h) w)) (at ss (Fills b i is)) }
{}
