// Statements in order, and blocks that are not entered. Each function here does nothing: its contract is the law.
ghost use Rattle.std.specs.Prelude.{[], Some, false, slice_get, slice_index_or, true, ◌∷◌, ◌++◌, ◌==◌, ◌≡◌, ◌≢◌, ◌<◌, ◌≤◌, List, length, suc, ℕ, ◌+◌, ◌-◌, ◌*◌};
ghost use Rattle.sc_compiled_bodies.specs.Exits.{within, Ended, Runs};
ghost use Rattle.sc_compiled_expressions.specs.Standing.{Home, Stands, is_entered, slots};
ghost use Rattle.sc_compiled_expressions.specs.Parts.{Lags};
ghost use Rattle.sc_meaning.specs.World.{Born, CloseBlock, OpenBlock, World, pass};
ghost use Rattle.sc_mixed.specs.declared.calls.Calls.{Calls};
ghost use Rattle.sc_mixed_means.specs.Stages.{Stage};
ghost use Rattle.sc_core.specs.declared.statement.CoreStmt.TheOpen.{CoreStmt-F};
ghost use Rattle.sc_core.specs.declared.statement.CoreStmt.{CoreStmt, out-CoreStmt};
ghost use Rattle.sc_gen_body.specs.Jumps.{Around};
ghost use Rattle.sc_compiled_bodies.specs.Good.{GivesWay, IsFrame};
ghost use Rattle.sc_compiled_bodies.specs.Procedures.{EndsGivingBack, GivesBack};
ghost use Rattle.sc_compiled_bodies.specs.Steps.{AreSteps};
ghost use Rattle.sc_gen_code.specs.Code.{Code, block_service};
ghost use Rattle.sc_program.specs.declared.frame.Slot.{Slot};
ghost use Rattle.sc_compiled_frames.specs.Frames.{Fits, Has};
ghost use Rattle.sc_compiled_expressions.specs.Coming.{Comes};
ghost use Rattle.sc_compiled_bodies.specs.Blocks.{HasTable};
ghost use Rattle.sc_meaning.specs.Expressions.{Env};
ghost use Rattle.sc_meaning.specs.Versions.{History};
ghost use Rattle.sc_compiled_expressions.specs.Good.{IsDeeper, IsPlaced};
ghost use Rattle.sc_compiled_bodies.specs.Lists.{GiveWays, code_of_list};
ghost use Rattle.sc_meaning.specs.Calls.{exec};
ghost use Rattle.sc_meaning.specs.Statements.{block_autos, stmts_of};

/// A block without objects, which compiled code does not enter, is opened and left in the meaning alone: nothing is seen of it, and the call stands
/// inside it, and behind it, with the same words and the same world.
#[tactic(auto, using(crate::proofs::Unentered::block_opened, crate::proofs::Unentered::block_closed))]
pub fn blocks_without_objects_are_not_seen()
    ensures opened { (home : Home) (b : Born) → b.ids ≡ [] → is_entered home.style home.autos b.block ≡ false → (s : Stage) (c : Calls) (w v : World) → Stands home s c w v → Lags v (pass (OpenBlock b) v) × Stands (within home (b ∷ [])) s c w (pass (OpenBlock b) v) }
    ensures closed { (home : Home) (b : Born) → b.ids ≡ [] → is_entered home.style home.autos b.block ≡ false → (s : Stage) (c : Calls) (w v : World) → Stands (within home (b ∷ [])) s c w v → Lags v (pass CloseBlock v) × Stands home s c w (pass CloseBlock v) }
{}

/// The code of statements in order does what they mean, if that of each does; so does the code of a block without objects and labels, which is not
/// entered.
#[tactic(auto, using(crate::proofs::Listing::list_runs, crate::proofs::Blocks::block_runs))]
pub fn lists_and_blocks_do_what_is_meant()
    ensures lists { (home : Home) (most deep : ℕ) (around : Around) (bound : ℕ → ℕ) → IsDeeper deep bound → (ss : List CoreStmt) (at : ℕ) → GiveWays home most deep ss at around → (s : Stage) (c : Calls) (w v : World) → c.regs.pc ≡ home.base + 4 * at → IsPlaced home c.regs.pc (code_of_list home ss at around) → Stands home s c w v → Runs most s (Ended home around (at + length (code_of_list home ss at around)) c w) c w v (λ h m. stmts_of (exec (bound m) h) home.env ss v) }
    ensures blocks { (home : Home) (most deep l b : ℕ) (st : CoreStmt) (ss : List CoreStmt) (at : ℕ) (around : Around) → out-CoreStmt st ≡ CoreStmt-F.Block l b [] ss → is_entered home.style home.autos b ≡ false → block_autos home.env b ≡ [] → GiveWays (within home (record { block = b; ids = [] } ∷ [])) most deep ss at around → GivesWay home most (suc deep) st at around }
{}

/// The code of a block with objects and without labels, which is entered, does what the block means, if that of its statements does inside it: its objects are
/// born in their slots, its statements are executed, and the objects die where it ends behind itself. It asks that the slots fit the frame below its last word,
/// that the block is not open yet, that its number fits one word, and that the text's tables have it (`HasTable`).
#[tactic(auto, using(crate::proofs::EnteredBlocks::entered_runs))]
pub fn entered_blocks_do_what_is_meant()
    ensures { (home : Home) (most deep l b : ℕ) (st : CoreStmt) (ss : List CoreStmt) (at : ℕ) (around : Around) → out-CoreStmt st ≡ CoreStmt-F.Block l b [] ss → is_entered home.style home.autos b ≡ true → (b == 0) ≡ false → b < 2048 → block_autos home.env b ≡ slice_index_or home.autos b [] → Fits (slots home) home.cost → ((o : Born) → Has o home.env.blocks → o.block ≢ b) → ((i : ℕ) (x : Slot) → slice_get (slots home b) i ≡ Some x → x.offset + x.size ≤ home.cost - 4) → ((s : Stage) → Comes home.from s → HasTable home b s) → ((ids : List ℕ) → GiveWays (within home (record { block = b; ids = ids } ∷ [])) most deep ss (at + length (block_service 2 b)) (record around { blocks = around.blocks ++ b ∷ [] })) → GivesWay home most (suc deep) st at around }
{}

/// Statements `x = n;`, where the text reaches the object of the name x, `return;`, `return n;`, and others of which as much is known, in a block without
/// objects and labels: their code does what they mean, whatever their number, and every way in which they end goes on behind them or returns. So it is what is
/// asked of the body of a function.
#[tactic(auto, using(crate::proofs::Steps::block_gives, crate::proofs::Steps::block_back))]
pub fn bodies_of_stores_do_what_is_meant()
    ensures gives { (home : Home) (most deep l b : ℕ) (st : CoreStmt) (ss : List CoreStmt) (at : ℕ) (around : Around) → 3 ≤ deep → IsFrame home → out-CoreStmt st ≡ CoreStmt-F.Block l b [] ss → is_entered home.style home.autos b ≡ false → block_autos home.env b ≡ [] → AreSteps (λ s. (at : ℕ) → GivesWay (within home (record { block = b; ids = [] } ∷ [])) most deep s at around) home.text ss → GivesWay home most (suc deep) st at around }
    ensures ends { (text : Code) (k l b : ℕ) (h : History) (env : Env) (st : CoreStmt) (ss : List CoreStmt) (v : World) → out-CoreStmt st ≡ CoreStmt-F.Block l b [] ss → block_autos env b ≡ [] → AreSteps EndsGivingBack text ss → GivesBack (exec k h env st v) }
{}
