// What holds of the frame of a compiled call. Each function here does nothing: its contract is the law.
ghost use Rattle.std.specs.Prelude.{List, Some, [], slice_get, ℕ, ◌%◌, ◌+◌, ◌++◌, ◌<◌, ◌^◌, ◌∷◌, ◌≡◌, ◌≢◌, ◌≤◌};
ghost use Rattle.sc_base.specs.declared.key.Key.{Key};
ghost use Rattle.sc_base.specs.declared.memory.Word.{Word};
ghost use Rattle.sc_core.specs.declared.module.Auto.{Auto};
ghost use Rattle.sc_program.specs.declared.frame.Slot.{Slot};
ghost use Rattle.sc_meaning.specs.Behaviour.{Start, first_world};
ghost use Rattle.sc_meaning.specs.Beside.{empty_memory};
ghost use Rattle.sc_meaning.specs.Outcomes.{Done};
ghost use Rattle.sc_meaning.specs.Statements.{all_dead, born_autos};
ghost use Rattle.sc_meaning.specs.Values.{Value};
ghost use Rattle.sc_mem.specs.Flat.{put, raw_read};
ghost use Rattle.sc_meaning.specs.World.{Born, CloseBlock, OpenBlock, Stack, World, pass};
ghost use Rattle.sc_compiled_frames.specs.Means.{Means};
ghost use Rattle.sc_compiled_frames.specs.Words.{AreStubs};
ghost use Rattle.sc_compiled_frames.specs.Frames.{Fits, Has, HasFrame, IsBelow, LeavesRest, entered, foot, waiting};
ghost use Rattle.sc_mem.specs.Safe.{Store};

/// Where the slots of a function's blocks fit its frame, and a block is not open yet, the frame holds the block's objects in their slots, and
/// no other live object, behind its births; and the block's objects no more behind their deaths. So it is of the first frame of a run,
/// and there are slots that fit.
#[tactic(auto, using(crate::proofs::Blocks::block_entered, crate::proofs::Blocks::block_left, crate::proofs::Blocks::first_frame, crate::proofs::Blocks::one_fits))]
pub fn blocks_stand_in_their_slots()
    ensures entered { (slots : ℕ → List Slot) (cost : ℕ) → Fits slots cost → (bs : List Born) (b : ℕ) → ((o : Born) → Has o bs → o.block ≢ b) → (autos : List Auto) → ((j : ℕ) (x : Auto) → slice_get autos j ≡ Some x → slice_get (slots b) j ≡ Some x.slot) → (ids : List ℕ) (w v : World) → HasFrame slots cost bs w → born_autos autos [] w ≡ Done ids v → HasFrame slots cost (bs ++ entered b ids ∷ []) (pass (OpenBlock (entered b ids)) v) }
    ensures left { (slots : ℕ → List Slot) (cost : ℕ) → Fits slots cost → (bs : List Born) (b : ℕ) → ((o : Born) → Has o bs → o.block ≢ b) → (ids : List ℕ) (w : World) → HasFrame slots cost (bs ++ entered b ids ∷ []) w → HasFrame slots cost bs (pass CloseBlock (all_dead ids w)) }
    ensures first { (slots : ℕ → List Slot) (cost : ℕ) (s : Start) → s.beside.memory ≡ Some (empty_memory s.stack s.heap) → s.heap ≤ 67108864 → s.stack ≤ 16777216 → cost ≤ s.stack → cost % 4 ≡ 0 → HasFrame slots cost [] (pass (Stack cost) (first_world s)) }
    ensures fits { (slots : ℕ → List Slot) × (s : Slot) × Fits slots 16 × (slice_get (slots 0) 0 ≡ Some s) }
{}

/// The births of a block's objects in their slots leave each object where it stands, those above the frame as live as they were, and what stands beside all
/// objects above these slots; and so do their deaths, which leave all that stands beside objects. So what waits is kept as a block is entered and left.
#[tactic(auto, using(crate::proofs::Blocks::births_leave, crate::proofs::Blocks::deaths_leave))]
pub fn births_and_deaths_leave_the_rest()
    ensures births { (slots : ℕ → List Slot) (cost : ℕ) → Fits slots cost → (bs : List Born) (b : ℕ) → ((o : Born) → Has o bs → o.block ≢ b) → (autos : List Auto) → ((j : ℕ) (x : Auto) → slice_get autos j ≡ Some x → slice_get (slots b) j ≡ Some x.slot) → (depth : ℕ) → ((i : ℕ) (s : Slot) → slice_get (slots b) i ≡ Some s → s.offset + s.size ≤ depth) → (ids : List ℕ) (w v : World) → HasFrame slots cost bs w → born_autos autos [] w ≡ Done ids v → (x y : Store) → w.beside.memory ≡ Some x → v.beside.memory ≡ Some y → LeavesRest (foot w + depth) (foot w + cost) x y }
    ensures deaths { (slots : ℕ → List Slot) (cost : ℕ) → Fits slots cost → (bs : List Born) (b : ℕ) → ((o : Born) → Has o bs → o.block ≢ b) → (ids : List ℕ) (w : World) → HasFrame slots cost (bs ++ entered b ids ∷ []) w → (x y : Store) → w.beside.memory ≡ Some x → (all_dead ids w).beside.memory ≡ Some y → LeavesRest 0 (foot w + cost) x y }
{}

/// The word of a value is put into the frame below all slots: the frame holds what it did, and the word is read there.
#[tactic(auto, using(crate::proofs::Waiting::word_waits, crate::proofs::Waiting::word_is_read))]
pub fn words_wait_in_the_frame()
    ensures waits { (slots : ℕ → List Slot) (cost : ℕ) (bs : List Born) (f : Key → ℕ) (w : World) (stubs : AreStubs w.beside.functions f) (mem : HasFrame slots cost bs w) (t : ℕ) (even : t % 4 ≡ 0) (room : t + 4 ≤ cost) (x : Word) (v : Value) → IsBelow slots t → Means f mem.holds.memory.flat.objects x v → HasFrame slots cost bs (waiting (foot w + t) x w) }
    ensures read { (slots : ℕ → List Slot) (cost : ℕ) (bs : List Born) (f : Key → ℕ) (w : World) (stubs : AreStubs w.beside.functions f) (mem : HasFrame slots cost bs w) (t : ℕ) (even : t % 4 ≡ 0) (room : t + 4 ≤ cost) (x : Word) → x.bits < 2 ^ 32 → raw_read (put mem.holds.memory.flat (foot w + t) 4 x) (foot w + t) 4 ≡ Some x }
{}
