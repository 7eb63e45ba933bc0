// What holds of the machine. Each function here does nothing: its contract is the law.
ghost use Rattle.std.specs.Prelude.{◌≡◌, ◌≤◌, List, [], suc, ℕ};
ghost use Rattle.sc_base.specs.declared.key.Key.{Key};
ghost use Rattle.sc_core.specs.declared.expression.CoreExpr.{CoreExpr};
ghost use Rattle.sc_core.specs.declared.statement.CoreStmt.{CoreStmt};
ghost use Rattle.sc_meaning.specs.Values.{Value};
ghost use Rattle.sc_meaning.specs.World.{World};
ghost use Rattle.sc_meaning.specs.Outcomes.{Done, Ending, Outcome, Over};
ghost use Rattle.sc_meaning.specs.Versions.{History, callee_of, version_at};
ghost use Rattle.sc_meaning.specs.Expressions.{Answer, Env};
ghost use Rattle.sc_meaning.specs.Statements.{Way};
ghost use Rattle.sc_meaning.specs.Calls.{call, eval, exec};
ghost use Rattle.sc_interp_machine.specs.Machine.{Advanced, Breaks, Gives, GoesOn, advance, ran};
ghost use Rattle.sc_interp_machine.specs.declared.body.Doing.{Doing};
ghost use Rattle.sc_interp_machine.specs.declared.body.Doing.TheVariants.{Exec};
ghost use Rattle.sc_interp_machine.specs.declared.body.Pending.{Pending};
ghost use Rattle.sc_interp_machine.specs.declared.pending.Item.{Item};
ghost use Rattle.sc_interp_machine.specs.declared.pending.Mode.{Mode};
ghost use Rattle.sc_interp_machine.specs.declared.pending.Mode.TheVariants.{Eval};
ghost use Rattle.sc_interp_machine.specs.Means.{Comes, Means};
ghost use Rattle.sc_interp_machine.specs.Bodies as body;
ghost use Rattle.sc_interp_machine.specs.BodyMeans as rest;
ghost use Rattle.sc_interp_machine.specs.Runs as whole;
ghost use Rattle.sc_interp_machine.specs.RunMeans as left;

/// An expression begins as its meaning, and each step keeps what the whole expression gives: what is pending goes at
/// least n + 1 deep before the step, and at least n deep after it, whether it goes on, calls, answers, or ends the run.
#[tactic(auto, using(crate::proofs::Follows::follows, crate::proofs::Follows::begins))]
pub fn expression_steps_keep_the_meaning()
    ensures begins { (h : History) (env : Env) (n k : ℕ) (e : CoreExpr) (w : World) → n ≤ k → Means h env n (Eval e) [] w (eval k h env e w) }
    ensures steps { (h : History) (env : Env) (n : ℕ) (mode : Mode) (is : List Item) (w : World) (out : Outcome Answer) → Means h env (suc n) mode is w out → Comes h env n (advance env mode is w) out }
{}

/// Where k steps bring an expression to its answer, or to the end of the run, and no call goes out, the meaning gives just that
/// at every bound of at least k.
#[tactic(auto, using(crate::proofs::Follows::gives_meaning, crate::proofs::Follows::breaks_meaning))]
pub fn expressions_give_their_meaning()
    ensures answers { (h : History) (env : Env) (k n : ℕ) (e : CoreExpr) (w v : World) (a : Answer) → k ≤ n → ran k env (GoesOn (Eval e) [] w) ≡ Gives a v → eval n h env e w ≡ Done a v }
    ensures ends { (h : History) (env : Env) (k n : ℕ) (e : CoreExpr) (w : World) (end : Ending) → k ≤ n → ran k env (GoesOn (Eval e) [] w) ≡ Breaks end → eval n h env e w ≡ Over end }
{}

/// A statement begins as its meaning, and each step keeps what the whole body gives: what is pending goes at least n + 1
/// deep before the step, and at least n deep after it. A line that a step answers becomes an event outside, with the changes of
/// the program that stand behind it, and then the body goes on.
#[tactic(auto, using(crate::proofs::BodyFollows::follows, crate::proofs::BodyFollows::begins))]
pub fn body_steps_keep_the_meaning()
    ensures begins { (h : History) (env : Env) (n k : ℕ) (s : CoreStmt) (w : World) → n ≤ k → rest.Means h n (Exec s) [] env w (exec k h env s w) }
    ensures steps { (h : History) (n : ℕ) (mode : Doing) (ss : List Pending) (env : Env) (w : World) (out : Outcome Way) → rest.Means h (suc n) mode ss env w out → rest.Comes h n (body.advance mode ss env w) out }
{}

/// Where k steps, each line being one more, bring a statement to the way in which it is left, or to the end of the run, and no
/// call goes out, the meaning gives just that at every bound of at least k.
#[tactic(auto, using(crate::proofs::BodyFollows::leaves_meaning, crate::proofs::BodyFollows::breaks_meaning))]
pub fn bodies_give_their_meaning()
    ensures ways { (h : History) (env : Env) (k n : ℕ) (s : CoreStmt) (w v : World) (way : Way) → k ≤ n → body.ran k h (body.GoesOn (Exec s) [] env w) ≡ body.Leaves way v → exec n h env s w ≡ Done way v }
    ensures ends { (h : History) (env : Env) (k n : ℕ) (s : CoreStmt) (w : World) (end : Ending) → k ≤ n → body.ran k h (body.GoesOn (Exec s) [] env w) ≡ body.Breaks end → exec n h env s w ≡ Over end }
{}

/// A call of a key begins as its meaning, and each step of the run keeps what the outermost call gives: whatever is pending in
/// the innermost body and in all callers goes at least n + 1 deep before the step, and at least n deep after it.
#[tactic(auto, using(crate::proofs::RunFollows::follows, crate::proofs::RunFollows::call_means))]
pub fn run_steps_keep_the_meaning()
    ensures begins { (h : History) (n k : ℕ) (key : Key) (vs : List Value) (w : World) → suc n ≤ k → left.Means h n (whole.callee_next h key vs (callee_of (version_at h w.count) key) [] w) (call k h key vs w) }
    ensures steps { (h : History) (n : ℕ) (s : whole.State) (out : Outcome Answer) → left.Means h (suc n) s out → left.Means h n (whole.advance h s) out }
{}

/// Where k steps bring a call of a key to its answer, or to the end of the run, calls inside it included, the meaning gives just
/// that at every bound that is greater than k.
#[tactic(auto, using(crate::proofs::RunFollows::answers_meaning, crate::proofs::RunFollows::ends_meaning))]
pub fn runs_give_their_meaning()
    ensures answers { (h : History) (k n : ℕ) (key : Key) (vs : List Value) (w v : World) (a : Answer) → suc k ≤ n → whole.ran k h (whole.callee_next h key vs (callee_of (version_at h w.count) key) [] w) ≡ whole.Answers a [] v → call n h key vs w ≡ Done a v }
    ensures ends { (h : History) (k n : ℕ) (key : Key) (vs : List Value) (w : World) (e : Ending) → suc k ≤ n → whole.ran k h (whole.callee_next h key vs (callee_of (version_at h w.count) key) [] w) ≡ whole.Ends e → call n h key vs w ≡ Over e }
{}
