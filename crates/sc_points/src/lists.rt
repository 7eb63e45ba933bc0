// Lists of instructions, each of which is a move of the machine. Each function here does nothing: its contract is the law.
ghost use Rattle.std.specs.Prelude.{Bool, List, None, Some, [], false, nat_lt, slice_index_or, suc, true, ℕ, ◌+◌, ◌==◌, ◌∷◌, ◌≡◌, ◌≤◌};
ghost use Rattle.sc_base.specs.declared.integer.Int.{Int};
ghost use Rattle.sc_base.specs.declared.key.Key.{Key};
ghost use Rattle.sc_core.specs.Types.{type_of};
ghost use Rattle.sc_core.specs.declared.expression.CoreExpr.{out-CoreExpr};
ghost use Rattle.sc_core.specs.declared.expression.CoreExpr.TheOpen.{CoreExpr-F};
ghost use Rattle.sc_core.specs.declared.module.Fun.{Fun};
ghost use Rattle.sc_core.specs.declared.statement.CoreStmt.{out-CoreStmt};
ghost use Rattle.sc_core.specs.declared.statement.CoreStmt.TheOpen.{CoreStmt-F};
ghost use Rattle.sc_interp.specs.Steady.{alone, ran, with_frame, without_call};
ghost use Rattle.sc_interp.specs.declared.stepped.Shown.{Shown};
ghost use Rattle.sc_interp.specs.declared.stepped.Shown.TheVariants.{Entered, Nothing};
ghost use Rattle.sc_interp_machine.specs.declared.body.Pending.{Pending};
ghost use Rattle.sc_meaning.specs.Calls.{parameters};
ghost use Rattle.sc_meaning.specs.Expressions.{value_rule};
ghost use Rattle.sc_meaning.specs.Outcomes.{Done, Outcome};
ghost use Rattle.sc_meaning.specs.Statements.{Normal};
ghost use Rattle.sc_meaning.specs.Values.{FunctionAt, Value};
ghost use Rattle.sc_meaning.specs.Versions.{InText, Text, callee_of};
ghost use Rattle.sc_meaning.specs.World.{Born, ComesBack, Enter, GoesOut, Happens, OpenBlock, World, pass, tick};
ghost use Rattle.sc_points.specs.Lists.{AreMade, Instructions, IsMade, ListGoneBy, Moves, Moving, On, Stand, deed, forked, standing_of, state_of};
ghost use Rattle.sc_points.specs.Loop.{Loop, does, free, points};
ghost use Rattle.sc_points.specs.Points.{Acts, Apart, Call, CallsOut, Does, Frame, Goes, Holds, Leaves, Point, Purpose, Returns, Slides, Tells, Waiting, Went, at, callee, chosen, point_shown, state_at, state_behind, value_of, values_of, with_register};
ghost use Rattle.sc_points.specs.declared.held.Held.{Held};
ghost use Rattle.sc_points.specs.declared.held.Held.TheVariants.{In, Void};
ghost use Rattle.sc_types.specs.declared.ctype.CType.{CType, out-CType};
ghost use Rattle.sc_types.specs.declared.ctype.CType.TheOpen.{CType-F};
ghost use Rattle.sc_words.specs.declared.stop.StopAt.{StopAt};
ghost use Rattle.sc_words.specs.declared.stop.Walk.{Walk};
ghost use Rattle.sc_world.specs.Goes.{GoneBy, closed, want_of};
ghost use Rattle.sc_world.specs.Standing.{Standing};
ghost use Rattle.sc_world.specs.Wants.{Want};
ghost use Rattle.sc_world.specs.declared.halt.Halt.{Halt};
ghost use Rattle.sc_world.specs.declared.halt.Halt.TheVariants.{Paused};
ghost use Rattle.sc_world.specs.Goes as whole;

/// Where each instruction from a place on is a move of the machine, or no step of it, a go of the list from there is a go of the machine: what it
/// leaves is what is asked of a go from that place. Where it halts before its turns are taken, every go of the machine from there does, at the same place.
#[tactic(auto)]
pub fn lists_go_as_the_machine_does()
    ensures goes { (texts : List Text) (points : ℕ → Point) (does : Instructions) (want : Want) (halt : Halt) (last x : Stand) → ((n : ℕ) → AreMade texts points does n x.at) → ListGoneBy points does want halt last x → GoneBy texts want halt (standing_of points last) (standing_of points x) }
    ensures asked { (texts : List Text) (points : ℕ → Point) (does : Instructions) (stops : List StopAt) (walk : Walk) (turns : ℕ) (halt : Halt) (last x : Stand) → ((n : ℕ) → AreMade texts points does n x.at) → ListGoneBy points does (want_of stops walk turns (standing_of points x)) halt last x → whole.Goes texts stops walk turns (Some (standing_of points x)) halt (Some (closed (standing_of points last))) }
    ensures place { (texts : List Text) (points : ℕ → Point) (does : Instructions) (want : Want) (g h : Halt) (last x : Stand) (end : Standing) → ((n : ℕ) → AreMade texts points does n x.at) → ListGoneBy points does want g last x → GoneBy texts want h end (standing_of points x) → ((t : ℕ) → g ≡ Paused t → ⊥) → ((t : ℕ) → h ≡ Paused t → ⊥) → (g ≡ h) × (state_of points last.at ≡ end.state) × (last.steps ≡ end.steps) }
{}

/// One step from a point shows what is known of the point.
#[tactic(auto)]
pub fn points_show_what_is_known_of_them()
    ensures { (texts : List Text) (p : Point) → Tells texts 0 p (point_shown p) }
{}

/// One step from point to point is a move that shows what is known of the point. A step that no instruction makes, and that shows nothing, is the
/// first step of what follows. What so moves in at most eight steps to the point of a place is an instruction that goes on there, whose bytes are
/// those of births and copies; and so is a step that tests.
#[tactic(auto)]
pub fn steps_are_joined_to_instructions()
    ensures once { (texts : List Text) (p q : Point) (does : Frame → World → Went) (now : Shown) → Acts texts 1 p does q → point_shown p ≡ now → Moves texts 0 p does now q }
    ensures slide { (texts : List Text) (k : ℕ) (p q r : Point) (go : World → World) (does : Frame → World → Went) (now : Shown) → Slides texts 1 p go q → point_shown p ≡ Nothing → Moves texts k q does now r → Moves texts (suc k) p (λ f w. does f (go w)) now r }
    ensures made { (texts : List Text) (points : ℕ → Point) (k : ℕ) (p : Point) (does : Frame → World → Went) (i : ℕ) (now : Shown) → Moves texts k p does now (points i) → k ≤ 7 → (c : Call) (f : Frame) (w : World) → IsMade texts points (state_at c p f w) (deed c i (suc k) now w (does f w)) }
    ensures branches { (texts : List Text) (points : ℕ → Point) (p : Point) (c : Call) (f : Frame) (w : World) (i j : ℕ) (on off : World → Went) (o : Outcome Bool) → ran 1 (alone texts) texts (state_at c p f w) ≡ chosen c (points i) on (points j) off o → point_shown p ≡ Nothing → IsMade texts points (state_at c p f w) (forked c i on j off w o) }
{}

/// A call of a text's function, whose last step shows the entry, and its return are instructions: the list goes on in the call of the function,
/// and comes back to that of its caller.
#[tactic(auto)]
pub fn calls_and_returns_are_instructions()
    ensures once { (texts : List Text) (points : ℕ → Point) (p : Point) (c : Call) (f : Frame) (w : World) (i : ℕ) (now : Shown) (x : Went) → ran 1 (alone texts) texts (state_at c p f w) ≡ state_behind c (points i) x → point_shown p ≡ now → IsMade texts points (state_at c p f w) (deed c i 1 now w x) }
    ensures call { (texts : List Text) (points : ℕ → Point) (ss : List Pending) (u : Purpose) (ws : List Waiting) (i : ℕ) (p : Point) (ty : CType) (h : Held) (hs : List Held) → CallsOut texts p ty h hs ss u ws → (c : Call) (f : Frame) (w v : World) (key : Key) (t : Text) (fun : Fun) (ids : List ℕ) (regs : ℕ → Value) → value_of f h ≡ FunctionAt key → value_rule texts c.text ty (FunctionAt key) ≡ None → callee_of texts key ≡ InText t fun → nat_lt (pass GoesOut w).stack ((pass GoesOut w).used + fun.cost) ≡ false → parameters (slice_index_or fun.blocks 0 []) (values_of f hs) [] (with_frame key t fun (pass GoesOut w)) ≡ Done ids v → points i ≡ at [] (Does fun.body) → let born : Born = record { block = 0; ids = ids } in IsMade texts points (state_at c p f w) (deed (callee ss u ws c f t fun ids) i 2 Entered w (Goes (record { regs = regs; blocks = born ∷ [] }) (pass (Happens (Enter key t.core.name)) (pass (OpenBlock born) v)))) }
    ensures return_value { (texts : List Text) (points : ℕ → Point) (ss : List Pending) (u : Purpose) (ws : List Waiting) (i : ℕ) (d r : ℕ) (same : (d == d) ≡ true) (apart : Apart d ws) (c : Call) (f0 f : Frame) (t : Text) (fun : Fun) (ids : List ℕ) (w : World) → points i ≡ at ss (Holds (In d) ws u) → IsMade texts points (state_at (callee ss u ws c f0 t fun ids) (at [] (Returns (In r))) f w) (deed c i 3 Nothing w (Goes (with_register d (f.regs r) f0) (tick (pass ComesBack (without_call ids fun.cost w))))) }
    ensures return_nothing { (texts : List Text) (points : ℕ → Point) (ss : List Pending) (u : Purpose) (ws : List Waiting) (i : ℕ) (c : Call) (f0 f : Frame) (t : Text) (fun : Fun) (ids : List ℕ) (w : World) → points i ≡ at ss (Holds Void ws u) → IsMade texts points (state_at (callee ss u ws c f0 t fun ids) (at [] (Returns Void)) f w) (deed c i 3 Nothing w (Goes f0 (tick (pass ComesBack (without_call ids fun.cost w))))) }
    ensures end { (texts : List Text) (points : ℕ → Point) (ss : List Pending) (u : Purpose) (ws : List Waiting) (i : ℕ) (c : Call) (f0 f : Frame) (t : Text) (fun : Fun) (ids : List ℕ) (w : World) → points i ≡ at ss (Holds Void ws u) → IsMade texts points (state_at (callee ss u ws c f0 t fun ids) (at [] (Leaves Normal)) f w) (deed c i 3 Nothing w (Goes f0 (tick (pass ComesBack (without_call ids fun.cost w))))) }
{}

/// The lines, the load and the branch of `while (x) ;` are a list of five instructions that are moves, for any number of turns.
#[tactic(auto)]
pub fn a_loop_is_a_list_of_moves()
    ensures moves { (texts : List Text) (x : Loop) (ss : List Pending) (k j : ℕ) (t : CType) (int : Int) (constant : Bool) (is_loop : out-CoreStmt x.whole ≡ CoreStmt-F.While x.line x.condition x.part) (is_empty : out-CoreStmt x.part ≡ CoreStmt-F.Empty x.part_line) (is_value : out-CoreExpr x.condition ≡ CoreExpr-F.Convert k x.type x.name) (is_name : out-CoreExpr x.name ≡ CoreExpr-F.Automatic j t x.block x.slot) (is_int : out-CType (type_of x.name) ≡ CType-F.Int int constant) → Moving texts (points x ss) free (does x) }
    ensures made { (texts : List Text) (x : Loop) (ss : List Pending) (k j : ℕ) (t : CType) (int : Int) (constant : Bool) (is_loop : out-CoreStmt x.whole ≡ CoreStmt-F.While x.line x.condition x.part) (is_empty : out-CoreStmt x.part ≡ CoreStmt-F.Empty x.part_line) (is_value : out-CoreExpr x.condition ≡ CoreExpr-F.Convert k x.type x.name) (is_name : out-CoreExpr x.name ≡ CoreExpr-F.Automatic j t x.block x.slot) (is_int : out-CType (type_of x.name) ≡ CType-F.Int int constant) (n : ℕ) (c : Call) (i : ℕ) (f : Frame) (w : World) → AreMade texts (points x ss) (does x) n (On c i f w) }
{}
