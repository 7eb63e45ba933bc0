// What calls do from point to point. Each function here does nothing: its contract is the law.
ghost use Rattle.std.specs.Prelude.{List, None, Some, [], false, nat_lt, slice_index_or, true, ℕ, ◌++◌, ◌+◌, ◌-◌, ◌==◌, ◌∷◌, ◌≡◌};
ghost use Rattle.sc_base.specs.declared.key.Key.{Key};
ghost use Rattle.sc_base.specs.declared.report.Rule.{Rule};
ghost use Rattle.sc_core.specs.declared.module.Fun.{Fun};
ghost use Rattle.sc_interp.specs.Shows.{shown};
ghost use Rattle.sc_interp.specs.Steady.{alone, ran, with_frame, without_call};
ghost use Rattle.sc_interp.specs.declared.stepped.Shown.TheVariants.{Nothing};
ghost use Rattle.sc_interp_machine.specs.declared.body.Pending.{Pending};
ghost use Rattle.sc_meaning.specs.Calls.{parameters};
ghost use Rattle.sc_meaning.specs.Expressions.{Answer, base_of, call_breach, value_rule};
ghost use Rattle.sc_meaning.specs.Functions.{library_call};
ghost use Rattle.sc_meaning.specs.Outcomes.{Done, Ending, Over, StackFull, Undefined};
ghost use Rattle.sc_meaning.specs.Statements.{Normal};
ghost use Rattle.sc_meaning.specs.Values.{FunctionAt, Value};
ghost use Rattle.sc_meaning.specs.Versions.{InLibrary, InText, Text, callee_of};
ghost use Rattle.sc_meaning.specs.World.{Born, ComesBack, Enter, GoesOut, Happens, OpenBlock, World, pass, tick, work};
ghost use Rattle.sc_meaning.specs.declared.library.LibFun.{LibFun};
ghost use Rattle.sc_points.specs.Lists.{IsMade, On, ended_call};
ghost use Rattle.sc_points.specs.Loop.{points};
ghost use Rattle.sc_points.specs.Points.{Apart, Call, CallsOut, Does, Form, Frame, Holds, IsThere, Leaves, Point, Purpose, Returns, Shaped, Waiting, at, callee, comes_back, formed, held_in, state_at, state_behind, value_of, values_of, with_register};
ghost use Rattle.sc_points.specs.declared.held.Held.{Held};
ghost use Rattle.sc_points.specs.declared.held.Held.TheVariants.{In, Void};
ghost use Rattle.sc_types.specs.declared.ctype.CType.{CType};
ghost use Rattle.sc_world.specs.Moves.{Silent};

/// A call goes out behind its last argument, or behind its function where it has none. From there it is two steps to the first statement of a text's
/// function, and its return is three, which come back to the caller with the answer.
#[tactic(auto)]
pub fn calls_lead_into_functions_and_back()
    ensures argument { (texts : List Text) (u : Purpose) (ss : List Pending) (ws : List Waiting) (ty : CType) (g h : Held) (hs : List Held) → IsThere g → CallsOut texts (at ss (Holds g (Waiting.Argument ty h [] hs ∷ ws) u)) ty h (hs ++ g ∷ []) ss u ws }
    ensures function { (texts : List Text) (u : Purpose) (ss : List Pending) (ws : List Waiting) (ty : CType) (h : Held) → IsThere h → CallsOut texts (at ss (Holds h (Waiting.Callee ty [] ∷ ws) u)) ty h [] ss u ws }
    ensures call { (texts : List Text) (ss : List Pending) (u : Purpose) (ws : List Waiting) (p : Point) (ty : CType) (h : Held) (hs : List Held) → CallsOut texts p ty h hs ss u ws → (c : Call) (f : Frame) (w v : World) (key : Key) (t : Text) (fun : Fun) (ids : List ℕ) (regs : ℕ → Value) → value_of f h ≡ FunctionAt key → value_rule texts c.text ty (FunctionAt key) ≡ None → callee_of texts key ≡ InText t fun → nat_lt (pass GoesOut w).stack ((pass GoesOut w).used + fun.cost) ≡ false → parameters (slice_index_or fun.blocks 0 []) (values_of f hs) [] (with_frame key t fun (pass GoesOut w)) ≡ Done ids v → let born : Born = record { block = 0; ids = ids } in ran 2 (alone texts) texts (state_at c p f w) ≡ state_at (callee ss u ws c f t fun ids) (at [] (Does fun.body)) (record { regs = regs; blocks = born ∷ [] }) (pass (Happens (Enter key t.core.name)) (pass (OpenBlock born) v)) }
    ensures return_value { (texts : List Text) (ss : List Pending) (u : Purpose) (ws : List Waiting) (d r : ℕ) (same : (d == d) ≡ true) (apart : Apart d ws) (c : Call) (f0 f : Frame) (t : Text) (fun : Fun) (ids : List ℕ) (w : World) → ran 3 (alone texts) texts (state_at (callee ss u ws c f0 t fun ids) (at [] (Returns (In r))) f w) ≡ state_at c (at ss (Holds (In d) ws u)) (with_register d (f.regs r) f0) (tick (pass ComesBack (without_call ids fun.cost w))) }
    ensures return_nothing { (texts : List Text) (u : Purpose) (ss : List Pending) (ws : List Waiting) (c : Call) (f0 f : Frame) (t : Text) (fun : Fun) (ids : List ℕ) (w : World) → ran 3 (alone texts) texts (state_at (callee ss u ws c f0 t fun ids) (at [] (Returns Void)) f w) ≡ state_at c (at ss (Holds Void ws u)) f0 (tick (pass ComesBack (without_call ids fun.cost w))) }
    ensures end { (texts : List Text) (u : Purpose) (ss : List Pending) (ws : List Waiting) (c : Call) (f0 f : Frame) (t : Text) (fun : Fun) (ids : List ℕ) (w : World) → ran 3 (alone texts) texts (state_at (callee ss u ws c f0 t fun ids) (at [] (Leaves Normal)) f w) ≡ state_at c (at ss (Holds Void ws u)) f0 (tick (pass ComesBack (without_call ids fun.cost w))) }
{}

/// A call of the library is four steps, which come back with its answer; where it answers, none of them shows anything or ends the run. So it is an
/// instruction, whose bytes are the work that is done in it.
#[tactic(auto)]
pub fn the_library_answers_in_four_steps()
    ensures acts { (texts : List Text) (u : Purpose) (ss : List Pending) (ws : List Waiting) (d : ℕ) (same : (d == d) ≡ true) (apart : Apart d ws) (form : Form) (p : Point) (ty : CType) (h : Held) (hs : List Held) → CallsOut texts p ty h hs ss u ws → (c : Call) (f : Frame) (w : World) (key : Key) (fun : LibFun) → value_of f h ≡ FunctionAt key → value_rule texts c.text ty (FunctionAt key) ≡ None → callee_of texts key ≡ InLibrary fun → Shaped form (library_call (alone texts) fun key (values_of f hs) (pass GoesOut w)) → ran 4 (alone texts) texts (state_at c p f w) ≡ state_behind c (at ss (Holds (held_in form d) ws u)) (comes_back d f (library_call (alone texts) fun key (values_of f hs) (pass GoesOut w))) }
    ensures silent { (texts : List Text) (u : Purpose) (ss : List Pending) (ws : List Waiting) (p : Point) (ty : CType) (h : Held) (hs : List Held) (calls : CallsOut texts p ty h hs ss u ws) (c : Call) (f : Frame) (w : World) (key : Key) (fun : LibFun) (is : value_of f h ≡ FunctionAt key) (rule : value_rule texts c.text ty (FunctionAt key) ≡ None) (found : callee_of texts key ≡ InLibrary fun) (a : Answer) (v : World) → library_call (alone texts) fun key (values_of f hs) (pass GoesOut w) ≡ Done a v → Silent 3 texts (state_at c p f w) }
    ensures answers { (texts : List Text) (u : Purpose) (ss : List Pending) (ws : List Waiting) (p : Point) (ty : CType) (h : Held) (hs : List Held) (calls : CallsOut texts p ty h hs ss u ws) (c : Call) (f : Frame) (w : World) (key : Key) (fun : LibFun) (is : value_of f h ≡ FunctionAt key) (rule : value_rule texts c.text ty (FunctionAt key) ≡ None) (found : callee_of texts key ≡ InLibrary fun) (points : ℕ → Point) (i d : ℕ) (same : (d == d) ≡ true) (apart : Apart d ws) (form : Form) (a : Answer) (v : World) (done : library_call (alone texts) fun key (values_of f hs) (pass GoesOut w) ≡ Done a v) (shape : a ≡ formed form (base_of a)) (back : points i ≡ at ss (Holds (held_in form d) ws u)) → IsMade texts points (state_at c p f w) (record { next = On c i (with_register d (base_of a) f) (tick (pass ComesBack v)); steps = 4; shown = Nothing; bytes = work v.trail - work (pass GoesOut w).trail }) }
{}

/// A call that ends the run in the step that makes it is an instruction of two steps: its value is no function of the type, the stack has no room,
/// a parameter is not born, or the library ends the run.
#[tactic(auto)]
pub fn calls_that_end_the_run_are_two_steps()
    ensures rule { (texts : List Text) (u : Purpose) (ss : List Pending) (ws : List Waiting) (p : Point) (ty : CType) (h : Held) (hs : List Held) (calls : CallsOut texts p ty h hs ss u ws) (c : Call) (f : Frame) (w : World) (points : ℕ → Point) (rule : Rule) → value_rule texts c.text ty (value_of f h) ≡ Some rule → IsMade texts points (state_at c p f w) (ended_call (pass GoesOut w) (Undefined (call_breach (value_of f h) (pass GoesOut w) rule) (pass GoesOut w))) }
    ensures stack { (texts : List Text) (u : Purpose) (ss : List Pending) (ws : List Waiting) (p : Point) (ty : CType) (h : Held) (hs : List Held) (calls : CallsOut texts p ty h hs ss u ws) (c : Call) (f : Frame) (w : World) (points : ℕ → Point) (key : Key) (is : value_of f h ≡ FunctionAt key) (rule : value_rule texts c.text ty (FunctionAt key) ≡ None) (t : Text) (fun : Fun) (found : callee_of texts key ≡ InText t fun) → nat_lt (pass GoesOut w).stack ((pass GoesOut w).used + fun.cost) ≡ true → IsMade texts points (state_at c p f w) (ended_call (pass GoesOut w) (StackFull key (pass GoesOut w))) }
    ensures births { (texts : List Text) (u : Purpose) (ss : List Pending) (ws : List Waiting) (p : Point) (ty : CType) (h : Held) (hs : List Held) (calls : CallsOut texts p ty h hs ss u ws) (c : Call) (f : Frame) (w : World) (points : ℕ → Point) (key : Key) (is : value_of f h ≡ FunctionAt key) (rule : value_rule texts c.text ty (FunctionAt key) ≡ None) (t : Text) (fun : Fun) (found : callee_of texts key ≡ InText t fun) (e : Ending) → nat_lt (pass GoesOut w).stack ((pass GoesOut w).used + fun.cost) ≡ false → parameters (slice_index_or fun.blocks 0 []) (values_of f hs) [] (with_frame key t fun (pass GoesOut w)) ≡ Over e → IsMade texts points (state_at c p f w) (ended_call (pass GoesOut w) e) }
    ensures library { (texts : List Text) (u : Purpose) (ss : List Pending) (ws : List Waiting) (p : Point) (ty : CType) (h : Held) (hs : List Held) (calls : CallsOut texts p ty h hs ss u ws) (c : Call) (f : Frame) (w : World) (points : ℕ → Point) (key : Key) (is : value_of f h ≡ FunctionAt key) (rule : value_rule texts c.text ty (FunctionAt key) ≡ None) (fun : LibFun) (e : Ending) → callee_of texts key ≡ InLibrary fun → library_call (alone texts) fun key (values_of f hs) (pass GoesOut w) ≡ Over e → IsMade texts points (state_at c p f w) (ended_call (pass GoesOut w) e) }
{}

/// Neither the step before a call is made nor those of a return show anything.
#[tactic(auto)]
pub fn calls_show_nothing_on_the_way()
    ensures call { (texts : List Text) (u : Purpose) (ss : List Pending) (ws : List Waiting) (p : Point) (ty : CType) (h : Held) (hs : List Held) (calls : CallsOut texts p ty h hs ss u ws) (c : Call) (f : Frame) (w : World) → Silent 1 texts (state_at c p f w) }
    ensures return_value { (texts : List Text) (u : Purpose) (ss : List Pending) (ws : List Waiting) (r : ℕ) (c : Call) (f0 f : Frame) (t : Text) (fun : Fun) (ids : List ℕ) (w : World) → Silent 2 texts (state_at (callee ss u ws c f0 t fun ids) (at [] (Returns (In r))) f w) }
    ensures return_nothing { (texts : List Text) (u : Purpose) (ss : List Pending) (ws : List Waiting) (c : Call) (f0 f : Frame) (t : Text) (fun : Fun) (ids : List ℕ) (w : World) → Silent 2 texts (state_at (callee ss u ws c f0 t fun ids) (at [] (Returns Void)) f w) }
    ensures end { (texts : List Text) (u : Purpose) (ss : List Pending) (ws : List Waiting) (c : Call) (f0 f : Frame) (t : Text) (fun : Fun) (ids : List ℕ) (w : World) → Silent 2 texts (state_at (callee ss u ws c f0 t fun ids) (at [] (Leaves Normal)) f w) }
{}
