// What each part of the meaning leaves as it was. Each function here does nothing: its contract is the law.
ghost use Rattle.std.specs.Prelude.{List, [], slice_index_or, ℕ, ◌+◌, ◌∷◌, ◌≤◌};
ghost use Rattle.sc_base.specs.declared.key.Key.{Key};
ghost use Rattle.sc_core.specs.declared.expression.CoreExpr.{CoreExpr};
ghost use Rattle.sc_core.specs.declared.module.Fun.{Fun};
ghost use Rattle.sc_core.specs.declared.statement.CoreStmt.{CoreStmt};
ghost use Rattle.sc_meaning.specs.Behaviour.{Start, first_world};
ghost use Rattle.sc_meaning.specs.Calls.{call, eval, exec, frame_of, parameters, resume, turn};
ghost use Rattle.sc_meaning.specs.Expressions.{Env};
ghost use Rattle.sc_meaning.specs.Statements.{block_autos, born_autos, with_block};
ghost use Rattle.sc_meaning.specs.Values.{Value};
ghost use Rattle.sc_meaning.specs.Versions.{History, Text};
ghost use Rattle.sc_meaning.specs.World.{OpenBlock, Push, Stack, World, pass};
ghost use Rattle.sc_compiled_frames.specs.Kept.{Ends, IsNamed, IsProper, Kept, Leaves, calls, whole};
ghost use Rattle.sc_compiled_frames.specs.Open.{IsOpen};

/// A call, and an expression, leaves the active calls as they were; a statement, however it is left, all but the line of its own call: so
/// the blocks that are open are the same. Each leaves the stack used as it was, as many calls out as there were, and the objects of open blocks
/// alive, with their sizes.
/// It holds at every bound and under any history.
#[tactic(auto, using(crate::proofs::Whole::call_keeps, crate::proofs::Whole::eval_keeps, crate::proofs::Whole::exec_keeps, crate::proofs::Whole::turn_keeps, crate::proofs::Whole::resume_keeps))]
pub fn calls_leave_frames()
    ensures returned { (h : History) (n : ℕ) (key : Key) (vs : List Value) (w : World) → Leaves whole w (call n h key vs w) }
    ensures evaluated { (h : History) (n : ℕ) (env : Env) (e : CoreExpr) (w : World) → Leaves whole w (eval n h env e w) }
    ensures executed { (h : History) (n : ℕ) (env : Env) (s : CoreStmt) (w : World) → Leaves calls w (exec n h env s w) }
    ensures turned { (h : History) (n : ℕ) (env : Env) (s : CoreStmt) (w : World) → Leaves calls w (turn n h env s w) }
    ensures resumed { (h : History) (n : ℕ) (env : Env) (s : CoreStmt) (at : ℕ) (w : World) → Leaves calls w (resume n h env s at w) }
{}

/// The blocks that are open in a call have different numbers, of which the first is 0, and their objects live, each of its slot's size: so it
/// is as a call is entered, as a block is entered, behind each part of the text, and where later blocks are counted from a greater number.
/// What it asks of names and of pieces of pointers holds as a run begins, and each part of the meaning keeps it.
#[tactic(auto, using(crate::proofs::Opens::open_kept, crate::proofs::Opens::call_opens, crate::proofs::Opens::block_opens, crate::proofs::Opens::open_later, crate::proofs::Opens::begins))]
pub fn open_blocks_stand()
    ensures stay { (env : Env) (around : List ℕ) (next : ℕ) (w v : World) → IsOpen env around next w → Kept calls w v → IsOpen env around next v }
    ensures entered { (key : Key) (t : Text) (f : Fun) (vs : List Value) (w : World) → IsNamed w → Ends (λ ids x. IsOpen (record { text = t; fun = f; blocks = record { block = 0; ids = ids } ∷ [] }) (0 ∷ []) 1 (pass (OpenBlock (record { block = 0; ids = ids })) x)) (parameters (slice_index_or f.blocks 0 []) vs [] (pass (Push (frame_of key t w)) (pass (Stack (w.used + f.cost)) w))) }
    ensures inner { (env : Env) (around : List ℕ) (next : ℕ) (w : World) → IsOpen env around next w → Ends (λ ids u. IsOpen (with_block env (record { block = next; ids = ids })) (next ∷ around) (next + 1) (pass (OpenBlock (record { block = next; ids = ids })) u)) (born_autos (block_autos env next) [] w) }
    ensures later { (env : Env) (around : List ℕ) (next more : ℕ) (w : World) → next ≤ more → IsOpen env around next w → IsOpen env around more w }
    ensures first { (s : Start) → IsNamed (first_world s) × IsProper (first_world s) }
{}
