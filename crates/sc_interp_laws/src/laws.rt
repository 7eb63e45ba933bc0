// What holds of every step. Each function here does nothing: its contract is the law.
ghost use Rattle.std.specs.Prelude.{◌≡◌, ◌+◌, ◌*◌, ◌<◌, ◌≤◌, true, List, [], ℕ};
ghost use Rattle.sc_base.specs.declared.key.Key.{Key};
ghost use Rattle.sc_meaning.specs.Values.{Value};
ghost use Rattle.sc_meaning.specs.World.{At, Event, Frame, Happens, Item as Happening, World, events, pass};
ghost use Rattle.sc_meaning.specs.Marks.{declares_in, marked_by};
ghost use Rattle.sc_meaning.specs.Outcomes.{Outcome, went, world_after};
ghost use Rattle.sc_meaning.specs.Changes.{happened};
ghost use Rattle.sc_meaning.specs.Functions.{library_call};
ghost use Rattle.sc_meaning.specs.declared.library.LibFun.{LibFun};
ghost use Rattle.sc_meaning.specs.Versions.{History, callee_of, version_at};
ghost use Rattle.sc_meaning.specs.Expressions.{Answer, Env};
ghost use Rattle.sc_meaning.specs.Statements.{Way};
ghost use Rattle.sc_meaning.specs.Calls.{call};
ghost use Rattle.sc_meaning.specs.Laws.{Leads};
ghost use Rattle.sc_interp_machine.specs.Machine as expr;
ghost use Rattle.sc_interp_machine.specs.Means as expr_rest;
ghost use Rattle.sc_interp_machine.specs.Bodies as body;
ghost use Rattle.sc_interp_machine.specs.BodyMeans as body_rest;
ghost use Rattle.sc_interp_machine.specs.Runs as whole;
ghost use Rattle.sc_interp_machine.specs.RunMeans as whole_rest;
ghost use Rattle.sc_interp_machine.specs.declared.body.Doing.{Doing};
ghost use Rattle.sc_interp_machine.specs.declared.body.Pending.{Pending};
ghost use Rattle.sc_interp_machine.specs.declared.pending.Item.{Item};
ghost use Rattle.sc_interp_machine.specs.declared.pending.Mode.{Mode};
ghost use Rattle.sc_interp_laws.specs.Worlds.{body_left, expr_left, world_of};
ghost use Rattle.sc_interp_laws.specs.Events.{IsPrefix};
ghost use Rattle.sc_interp_laws.specs.Inside.{Inside};
ghost use Rattle.sc_interp_laws.specs.Lawful.{Along, IsOfHeap, IsOwn, IsWrite, Lawfully, own_of};
ghost use Rattle.sc_interp_laws.specs.Lean.{AreLean, IsLean};
ghost use Rattle.sc_interp_laws.specs.Moved.{StepBacked};
ghost use Rattle.sc_interp_laws.specs.Near.{RunNears, goes_on, near};
ghost use Rattle.sc_interp_laws.specs.Paid.{AllPay, BodyPaid, ExprPaid, credit, doing_credit, doing_pays, done, items_credit, mode_credit, mode_pays, pays, pendings_credit};

/// Each step of an expression, a body or a run adds some things that happen to what happened before, and nothing else
/// makes its world another.
#[tactic(auto, using(crate::proofs::ExprSteps::advance_leads, crate::proofs::BodySteps::advance_leads, crate::proofs::RunSteps::advance_leads))]
pub fn steps_add_to_what_happened()
    ensures expressions { (env : Env) (mode : Mode) (is : List Item) (w : World) → Leads w (expr_left (expr.advance env mode is w)) }
    ensures bodies { (mode : Doing) (ss : List Pending) (env : Env) (w : World) → Leads w (body_left (body.advance mode ss env w)) }
    ensures runs { (h : History) (s : whole.State) → Leads (world_of s) (world_of (whole.advance h s)) }
{}

/// From the world of each state things happen that lead to the end of what the state means, whatever the bound.
#[tactic(auto, using(crate::proofs::ExprMeans::means_leads, crate::proofs::BodyMeans::means_leads, crate::proofs::RunMeans::means_leads))]
pub fn states_lead_to_what_they_mean()
    ensures expressions { (h : History) (env : Env) (n : ℕ) (mode : Mode) (is : List Item) (w : World) (out : Outcome Answer) → expr_rest.Means h env n mode is w out → Leads w (world_after out) }
    ensures bodies { (h : History) (n : ℕ) (mode : Doing) (ss : List Pending) (env : Env) (w : World) (out : Outcome Way) → body_rest.Means h n mode ss env w out → Leads w (world_after out) }
    ensures runs { (h : History) (n : ℕ) (s : whole.State) (out : Outcome Answer) → whole_rest.Means h n s out → Leads (world_of s) (world_after out) }
{}

/// After k steps of a call, the events that passed so far are the first events of the call's meaning at every bound that is greater
/// than k.
#[tactic(auto, using(crate::proofs::RunMeans::events_begin))]
pub fn events_so_far_begin_those_of_the_call()
    ensures { (h : History) (k n : ℕ) (key : Key) (vs : List Value) (w : World) → k < n → IsPrefix (events (world_of (whole.ran k h (whole.callee_next h key vs (callee_of (version_at h w.count) key) [] w))).trail) (events (world_after (call n h key vs w)).trail) }
{}

/// Each step is paid: it uses up credit, or it does work, of which a unit pays four steps. It may only not be one that is made for
/// nothing: the beginning of a conversion of a conversion, a piece of an initialiser that has no byte, or a label `default`
/// before another; and a run that is over makes no step.
#[tactic(auto, using(crate::proofs::ExprPays::advance_paid, crate::proofs::BodyPays::advance_paid, crate::proofs::RunPays::advance_paid))]
pub fn steps_are_paid_by_work()
    ensures expressions { (env : Env) (mode : Mode) (is : List Item) (w : World) → mode_pays mode ≡ true → ExprPaid (mode_credit mode + items_credit is) (done w) (expr.advance env mode is w) }
    ensures bodies { (mode : Doing) (ss : List Pending) (env : Env) (w : World) → doing_pays mode ≡ true → BodyPaid (doing_credit mode + pendings_credit ss) (done w) (body.advance mode ss env w) }
    ensures runs { (h : History) (s : whole.State) → pays s ≡ true → 1 + credit (whole.advance h s) + 4 * done (world_of s) ≤ credit s + 4 * done (world_of (whole.advance h s)) }
{}

/// So k steps of a run, none of which is made for nothing, take no more than the credit of the state in which they begin and four for each
/// unit of work that they do.
#[tactic(auto, using(crate::proofs::RunPays::ran_paid))]
pub fn runs_are_paid_by_work()
    ensures { (k : ℕ) (h : History) (s : whole.State) → AllPay k h s → k + credit (whole.ran k h s) + 4 * done (world_of s) ≤ credit s + 4 * done (world_of (whole.ran k h s)) }
{}

/// What a step of an expression changes is a living object that may be written, and no object is born there, and none dies. In a
/// step of a body objects with automatic storage duration are born, those alone die that are in its entered blocks, and it writes
/// to these too, and to the object that it sets up.
#[tactic(auto, using(crate::proofs::Lawfully::expr_writes, crate::proofs::Lawfully::body_changes))]
pub fn steps_change_what_they_may()
    ensures expressions { (env : Env) (mode : Mode) (is : List Item) (w : World) → Along IsWrite w (expr_left (expr.advance env mode is w)) }
    ensures bodies { (mode : Doing) (ss : List Pending) (env : Env) (w : World) → Along (IsOwn (own_of mode env)) w (body_left (body.advance mode ss env w)) }
{}

/// As many units of work are done at least as births and copies of structures move bytes, in each step but that of a call that is
/// over in the step that makes it.
#[tactic(auto, using(crate::proofs::Moves::advance_backs))]
pub fn moved_bytes_are_work()
    ensures { (h : History) (s : whole.State) → StepBacked s (whole.advance h s) }
{}

/// In a call of the library, where nothing changes behind an event, blocks of the heap alone are born, living blocks of the heap
/// alone die, and what it writes to is a living object that may be written.
#[tactic(auto, using(crate::proofs::LibraryLawful::library_goes))]
pub fn calls_of_the_library_change_what_they_may()
    ensures { (h : History) → ((e : Event) (w : World) → happened h e w ≡ went (pass (Happens e) w)) → (f : LibFun) (key : Key) (vs : List Value) (w : World) → Along IsOfHeap w (world_after (library_call h f key vs w)) }
{}

/// A step of a run, where nothing changes behind an event, changes what it may: a body as above, and at its end its parameters die; a
/// call of the library as above; and as a function is entered its parameters are born and set, and nothing else is.
#[tactic(auto, using(crate::proofs::RunLawful::advance_lawful))]
pub fn runs_change_what_they_may()
    ensures { (h : History) → ((e : Event) (w : World) → happened h e w ≡ went (pass (Happens e) w)) → (s : whole.State) → Lawfully s (world_of (whole.advance h s)) }
{}

/// At a line, the trail says which object the call that reached it initialises there: the one that the mark just before the
/// line names, and none where no such mark stands there.
#[tactic(auto, using(crate::proofs::Told::line_tells))]
pub fn lines_tell_what_is_initialised()
    ensures { (w : World) (f : Frame) (i : Happening) (home : List ℕ) (line : ℕ) → declares_in (pass (Happens (At home line f.enter)) (pass i w)) f ≡ marked_by i }
{}

/// What happens in a step of an expression or of a body stays inside of the innermost call, and tells nothing: no function is
/// entered or left, and no line is reached.
#[tactic(auto, using(crate::proofs::Inside::expr_inside, crate::proofs::Inside::body_inside))]
pub fn steps_stay_inside()
    ensures expressions { (env : Env) (mode : Mode) (is : List Item) (w : World) → Inside w (expr_left (expr.advance env mode is w)) }
    ensures bodies { (mode : Doing) (ss : List Pending) (env : Env) (w : World) → Inside w (body_left (body.advance mode ss env w)) }
{}

/// In a run whose program is lean, each step without work comes nearer to the next work, which is seven steps away at most; eight
/// steps are paid by a unit of work. What the step leaves is lean again, and no step is made for nothing.
#[tactic(auto, using(crate::proofs::RunNears::advance_nears, crate::proofs::RunNears::near_most, crate::proofs::RunNears::lean_pays))]
pub fn lean_runs_come_nearer_to_work()
    ensures nearer { (h : History) → AreLean h → (s : whole.State) → IsLean s → goes_on s ≡ true → RunNears (near s) (done (world_of s)) (whole.advance h s) }
    ensures most { (s : whole.State) → IsLean s → near s ≤ 7 }
    ensures none { (s : whole.State) → IsLean s → goes_on s ≡ true → pays s ≡ true }
{}
