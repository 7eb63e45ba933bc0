// What holds of worlds that are alike. Each function here does nothing: its contract is the law.
ghost use Rattle.std.specs.Prelude.{List, length, map, true, ℕ, ◌≡◌};
ghost use Rattle.sc_base.specs.declared.key.Key.{Key};
ghost use Rattle.sc_core.specs.declared.expression.CoreExpr.{CoreExpr};
ghost use Rattle.sc_core.specs.declared.statement.CoreStmt.{CoreStmt};
ghost use Rattle.sc_meaning.specs.Behaviour.{Start, ending, first_world};
ghost use Rattle.sc_meaning.specs.Beside.{Beside};
ghost use Rattle.sc_meaning.specs.Calls.{call, eval, exec};
ghost use Rattle.sc_meaning.specs.Changes.{changed, happened};
ghost use Rattle.sc_meaning.specs.Expressions.{Env};
ghost use Rattle.sc_meaning.specs.Functions.{library_call};
ghost use Rattle.sc_meaning.specs.Values.{Value};
ghost use Rattle.sc_meaning.specs.Versions.{History, Text};
ghost use Rattle.sc_meaning.specs.World.{Event, Item, World, events, pass};
ghost use Rattle.sc_meaning.specs.declared.library.LibFun.{LibFun};
ghost use Rattle.sc_interp_machine.specs.Runs.{State, advance};
ghost use Rattle.sc_like.specs.Alike.{Like, shown_of};
ghost use Rattle.sc_like.specs.Counts.{ShowsAll, events_shown, has_no_line};
ghost use Rattle.sc_like.specs.Behind.{DiffersBeside, LikeSoFar, Settled};
ghost use Rattle.sc_like.specs.Outcomes.{AreAlike, EndsAlike};
ghost use Rattle.sc_like.specs.States.{StatesAlike};
ghost use Rattle.sc_like.specs.Unseen.{TellsForms, form_of, is_unseen};

/// Whatever happens in both of two worlds that are alike, they stay so; and so they are behind the same change of the texts, or both
/// end in it.
#[tactic(auto, using(crate::proofs::Keeping::passes, crate::proofs::Alike::changes))]
pub fn worlds_stay_alike()
    ensures items { (i : Item) (w v : World) → Like w v → Like (pass i w) (pass i v) }
    ensures changes { (old new : List Text) (w v : World) → Like w v → AreAlike Like (changed old new w) (changed old new v) }
{}

/// Behind all versions of two histories, where the same texts are present, every part of the meaning gives the same in worlds that are
/// alike, at every bound, and leaves worlds that are alike: how many events have passed in each is not asked.
#[tactic(auto, using(crate::proofs::Alike::expressions, crate::proofs::Alike::statements, crate::proofs::Alike::calls, crate::proofs::Alike::library, crate::proofs::Alike::events))]
pub fn alike_worlds_mean_the_same()
    ensures expressions { (n : ℕ) (h k : History) (env : Env) (e : CoreExpr) (w v : World) → Settled h k w v → AreAlike (Settled h k) (eval n h env e w) (eval n k env e v) }
    ensures statements { (n : ℕ) (h k : History) (env : Env) (s : CoreStmt) (w v : World) → Settled h k w v → AreAlike (Settled h k) (exec n h env s w) (exec n k env s v) }
    ensures calls { (n : ℕ) (h k : History) (key : Key) (vs : List Value) (w v : World) → Settled h k w v → AreAlike (Settled h k) (call n h key vs w) (call n k key vs v) }
    ensures library { (f : LibFun) (h k : History) (key : Key) (vs : List Value) (w v : World) → Settled h k w v → AreAlike (Settled h k) (library_call h f key vs w) (library_call k f key vs v) }
    ensures events { (h k : History) (e : Event) (w v : World) → Settled h k w v → AreAlike (Settled h k) (happened h e w) (happened k e v) }
{}

/// So does each step of the interpreter.
#[tactic(auto, using(crate::proofs::Alike::steps))]
pub fn alike_runs_step_alike()
    ensures { (h k : History) (s t : State) → StatesAlike (Settled h k) s t → StatesAlike (Settled h k) (advance h s) (advance k t) }
{}

/// Where as many events passed in both worlds, it holds under any history.
#[tactic(auto, using(crate::proofs::Alike::expressions_so_far, crate::proofs::Alike::statements_so_far, crate::proofs::Alike::calls_so_far, crate::proofs::Alike::runs))]
pub fn alike_worlds_of_one_history_mean_the_same()
    ensures expressions { (n : ℕ) (h : History) (env : Env) (e : CoreExpr) (w v : World) → LikeSoFar w v → AreAlike LikeSoFar (eval n h env e w) (eval n h env e v) }
    ensures statements { (n : ℕ) (h : History) (env : Env) (s : CoreStmt) (w v : World) → LikeSoFar w v → AreAlike LikeSoFar (exec n h env s w) (exec n h env s v) }
    ensures calls { (n : ℕ) (h : History) (key : Key) (vs : List Value) (w v : World) → LikeSoFar w v → AreAlike LikeSoFar (call n h key vs w) (call n h key vs v) }
    ensures runs { (n : ℕ) (s t : Start) → DiffersBeside s t → EndsAlike LikeSoFar (ending n s) (ending n t) }
{}

/// What the meaning does in calls of compiled code and the code does not is not seen: work, the marks of statements and calls, and lines of compiled
/// calls may pass in one of two worlds that are alike; and beside one of them any memory may stand, and the machine be told anything.
/// What happened tells the forms of the active calls, from the first world on.
#[tactic(auto, using(crate::proofs::Hiding::passes_unseen, crate::proofs::Hiding::told_beside, crate::proofs::Hiding::tells_on))]
pub fn what_code_leaves_out_is_not_seen()
    ensures items { (i : Item) (w v : World) → Like w v → TellsForms v → is_unseen (map form_of v.frames) i ≡ true → Like w (pass i v) }
    ensures beside { (w v : World) (b : Beside) → Like w v → Like (record w { beside = b }) v }
    ensures forms { (i : Item) (w : World) → TellsForms w → TellsForms (pass i w) }
    ensures first { (s : Start) → TellsForms (first_world s) }
{}

/// To be alike is an equality.
#[tactic(auto, using(crate::proofs::Hiding::like_same, crate::proofs::Hiding::like_back, crate::proofs::Hiding::like_on))]
pub fn alike_is_an_equality()
    ensures same { (w : World) → Like w w }
    ensures back { (w v : World) → Like w v → Like v w }
    ensures on { (w v u : World) → Like w v → Like v u → Like w u }
{}

/// A run's own world, in which no line of compiled code passes, counts the events that the meaning's world shows.
#[tactic(auto, using(crate::proofs::Counting::shows_on, crate::proofs::Counting::counts_shown))]
pub fn runs_count_what_is_shown()
    ensures kept { (i : Item) (w : World) → ShowsAll w → has_no_line (shown_of w.trail).forms i ≡ true → ShowsAll (pass i w) }
    ensures first { (s : Start) → ShowsAll (first_world s) }
    ensures counts { (w v : World) → w.count ≡ length (events w.trail) → ShowsAll w → Like w v → w.count ≡ length (events_shown v) }
{}
