// What holds of every run. Each function here does nothing: its contract is the law.
ghost use Rattle.std.specs.Prelude.{◌≡◌, ◌+◌, ◌≤◌, ℕ, List, None, Some, length, take};
ghost use Rattle.sc_base.specs.declared.key.Key.{Key};
ghost use Rattle.sc_base.specs.declared.memory.Kind.{Kind};
ghost use Rattle.sc_core.specs.declared.expression.CoreExpr.{CoreExpr};
ghost use Rattle.sc_core.specs.declared.statement.CoreStmt.{CoreStmt};
ghost use Rattle.sc_meaning.specs.Values.{Value};
ghost use Rattle.sc_meaning.specs.World.{World, Birth, fresh, object_at, pass, passed};
ghost use Rattle.sc_meaning.specs.declared.spot.Spot.{Spot};
ghost use Rattle.sc_meaning.specs.Outcomes.{Breach, Undefined, world_after, world_at};
ghost use Rattle.sc_meaning.specs.Versions.{History};
ghost use Rattle.sc_meaning.specs.Expressions.{Env};
ghost use Rattle.sc_meaning.specs.Calls.{call, eval, exec};
ghost use Rattle.sc_meaning.specs.Behaviour.{Start, ending, events_upto, first_world};
ghost use Rattle.sc_meaning.specs.Integers.{AreWhole, Gives, IsInteger, IsWhole};
ghost use Rattle.sc_meaning.specs.Laws.{EndsAs, Extends, KeepsObjects, Leads, upto, with_history};

/// Every part of a run, from the world in which it begins to the one in which it ends, is a list of things that happen
/// one after another.
#[tactic(auto, using(crate::proofs::Growing::eval_leads, crate::proofs::Growing::exec_leads, crate::proofs::Growing::call_leads))]
pub fn parts_only_pass_items()
    ensures expressions { (n : ℕ) (h : History) (env : Env) (e : CoreExpr) (w : World) → Leads w (world_after (eval n h env e w)) }
    ensures statements { (n : ℕ) (h : History) (env : Env) (s : CoreStmt) (w : World) → Leads w (world_after (exec n h env s w)) }
    ensures calls { (n : ℕ) (h : History) (key : Key) (vs : List Value) (w : World) → Leads w (world_after (call n h key vs w)) }
{}

/// The trail of a run tells all of it: the world at its end is what its items make of the first world.
#[tactic(auto, using(crate::proofs::Runs::ending_told))]
pub fn trail_tells_the_run()
    ensures { (n : ℕ) (s : Start) → world_at (ending n s) ≡ passed (world_at (ending n s)).trail (first_world s) }
{}

/// A greater bound only extends: where the smaller one was enough the outcome is the same, and else the run goes on from
/// the world in which it was used up.
#[tactic(auto, using(crate::proofs::Deeper::eval_extends, crate::proofs::Deeper::exec_extends, crate::proofs::Deeper::call_extends, crate::proofs::Deeper::ending_more))]
pub fn greater_bounds_extend()
    ensures expressions { (n m : ℕ) (h : History) (env : Env) (e : CoreExpr) (w : World) → n ≤ m → Extends (eval n h env e w) (eval m h env e w) }
    ensures statements { (n m : ℕ) (h : History) (env : Env) (s : CoreStmt) (w : World) → n ≤ m → Extends (exec n h env s w) (exec m h env s w) }
    ensures calls { (n m : ℕ) (h : History) (key : Key) (vs : List Value) (w : World) → n ≤ m → Extends (call n h key vs w) (call m h key vs w) }
    ensures runs { (n m : ℕ) (s : Start) → n ≤ m → EndsAs (ending n s) (ending m s) }
{}

/// An undefined step ends the run: at every greater bound it ends at the same step, in the same world.
#[tactic(auto, using(crate::proofs::Deeper::undefined_stays))]
pub fn undefined_steps_end_runs()
    ensures { (n m : ℕ) (s : Start) (b : Breach) (w : World) → n ≤ m → ending n s ≡ Undefined b w → ending m s ≡ Undefined b w }
{}

/// The first c + 1 events of a run depend only on the versions that come before the first one that is later than c events.
#[tactic(auto, using(crate::proofs::Sooner::events_shared))]
pub fn later_versions_change_nothing()
    ensures { (c n : ℕ) (s : Start) (k : History) → upto c s.history ≡ upto c k → take (c + 1) (events_upto n s) ≡ take (c + 1) (events_upto n (with_history s k)) }
{}

/// Whatever happens, each number stands for one object from its birth on, whose size and kind stay, and which stays dead
/// once it is dead; and a birth takes a number that no object has had.
pub fn objects_keep_their_numbers()
    ensures kept { (w v : World) → Leads w v → KeepsObjects w.objects v.objects }
    ensures new { (size : ℕ) (kind : Kind) (at : Spot) (w : World) → (object_at w.objects (length w.objects + 1) ≡ None) × (object_at (pass (Birth size kind at) w).objects (length w.objects + 1) ≡ Some (fresh size kind)) }
{}

/// Where the types of the tree are right, an expression of integer type gives a number and never a pointer, unless it gives
/// nothing at all; and using nothing is an undefined step.
#[tactic(auto, using(crate::proofs::Returning::integer_gives))]
pub fn integers_are_never_pointers()
    ensures { (n : ℕ) (h : History) (env : Env) (e : CoreExpr) (w : World) → AreWhole h → IsWhole e → Gives IsInteger (eval n h env e w) }
{}
