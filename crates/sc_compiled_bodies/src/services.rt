// How the machine goes through the services of compiled code. Each function here does nothing: its contract is the law.
ghost use Rattle.std.specs.Prelude.{List, Some, [], false, map, slice_get, slice_index_or, suc, true, ℕ, ◌+◌, ◌-◌, ◌==◌, ◌∷◌, ◌≡◌, ◌≢◌, ◌≤◌};
ghost use Rattle.sc_core.specs.declared.module.Auto.{Auto};
ghost use Rattle.sc_emu.specs.Operations.{difference, sum};
ghost use Rattle.sc_emu.specs.Registers.{register};
ghost use Rattle.sc_isa.specs.declared.instruction.Instr.TheVariants.{Ecall};
ghost use Rattle.sc_isa_image.specs.Lookups.{text_at};
ghost use Rattle.sc_isa_image.specs.declared.text.TextAt.{TextAt};
ghost use Rattle.sc_compiled_expressions.specs.Instructions.{HasMemory, InstrAt};
ghost use Rattle.sc_compiled_expressions.specs.Parts.{Family, Leading, Means, MeansAt};
ghost use Rattle.sc_meaning.specs.Expressions.{Answer};
ghost use Rattle.sc_like.specs.Alike.{Like};
ghost use Rattle.sc_meaning.specs.Outcomes.{Done, and_then};
ghost use Rattle.sc_meaning.specs.Statements.{all_dead, born_autos};
ghost use Rattle.sc_meaning.specs.Versions.{History};
ghost use Rattle.sc_meaning.specs.World.{Born, CloseBlock, OpenBlock, World, pass};
ghost use Rattle.sc_program.specs.declared.frame.Slot.{Slot};
ghost use Rattle.sc_compiled_frames.specs.Frames.{Fits, Has};
ghost use Rattle.sc_compiled_expressions.specs.Standing.{AreTargets, Home, Stands, is_entered, slots};
ghost use Rattle.sc_compiled_bodies.specs.Exits.{Stays, within};
ghost use Rattle.sc_mixed.specs.Bridge.{with_registers};
ghost use Rattle.sc_mixed.specs.declared.calls.Calls.{Calls};
ghost use Rattle.sc_mixed.specs.declared.calls.Next.TheVariants.{Serves};
ghost use Rattle.sc_mixed_means.specs.Stages.{Live, Stage};
ghost use Rattle.sc_mixed_means.specs.Waiting.{KeepsWaiting};
ghost use Rattle.sc_services.specs.Blocks.{block_left, slots_of};
ghost use Rattle.sc_services.specs.Entering.{may_enter};
ghost use Rattle.sc_services.specs.Frames.{is_on_stack};
ghost use Rattle.sc_services.specs.Leaving.{may_leave};
ghost use Rattle.sc_services.specs.Tagging.{IsTagIn, tagged};

/// An `ecall` means what the service means whose number is in t0. The service that tags means what follows where a0 has the tag of what
/// stands at its address.
#[tactic(auto, using(crate::proofs::Asking::ecall_means, crate::proofs::Tagging::tag_means))]
pub fn services_are_asked_for()
    ensures asked { (s : Stage) (n : ℕ) (c : Calls) (w v : World) (r : Family Answer) → HasMemory w → InstrAt s.image c.regs.pc Ecall → Leading v r → MeansAt s n (Serves (register c.regs 5).bits) (with_registers (record { pc = sum c.regs.pc 4; words = c.regs.words }) c) w v r → Means s n c w v r }
    ensures tags { (s : Stage) (n : ℕ) (c : Calls) (w v : World) (r : Family Answer) (tag : ℕ) → HasMemory w → IsTagIn w (register c.regs 10).bits (Some tag) → Leading v r → Means s n (with_registers (tagged tag c.regs) c) w v r → MeansAt s n (Serves 4) c w v r }
{}

/// The service that enters a block with objects is what the meaning makes of the block's beginning: its objects are born in the slots of the tables, in the run
/// as in the meaning, or no more can be born, and both end so. It asks that the text may enter the block, and that what waits is kept (as births do).
#[tactic(auto, using(crate::proofs::BlockEntry::block_entry_means))]
pub fn blocks_are_entered()
    ensures { (s : Stage) (b : ℕ) → (b == 0) ≡ false → (place : TextAt) (autos : List Auto) → slots_of place.frame b ≡ map (λ (x : Auto). x.slot) autos → (n : ℕ) (c : Calls) (w v : World) (r : Family Answer) (rest : List ℕ → World → Family Answer) → Leading v r → ((ids : List ℕ) (u : World) → Leading u (rest ids u)) → is_on_stack c.regs w ≡ true → text_at s.image (difference c.regs.pc 4) ≡ Some place → (register c.regs 6).bits ≡ b → may_enter b place w.frames ≡ true → ((h : History) (m : ℕ) → r h (s.look.step + m) ≡ and_then (born_autos autos [] v) (λ ids u. rest ids (pass (OpenBlock (record { block = b; ids = ids })) u) h m)) → ((ids : List ℕ) (x : World) → born_autos autos [] w ≡ Done ids x → KeepsWaiting c.lower w (pass (OpenBlock (record { block = b; ids = ids })) x)) → ((ids : List ℕ) (x u : World) → born_autos autos [] w ≡ Done ids x → born_autos autos [] v ≡ Done ids u → Like x u → Means s n c (pass (OpenBlock (record { block = b; ids = ids })) x) (pass (OpenBlock (record { block = b; ids = ids })) u) (rest ids (pass (OpenBlock (record { block = b; ids = ids })) u))) → MeansAt s (suc n) (Serves 2) c w v r }
{}

/// The service that leaves a block with objects, the innermost one that is open, is what the meaning makes of the block's end: its objects die in the run as in
/// the meaning, whatever stands in a0.
#[tactic(auto, using(crate::proofs::BlockExit::block_exit_means))]
pub fn blocks_are_left()
    ensures { (s : Stage) (b : ℕ) → b ≢ 0 → (ids : List ℕ) (n : ℕ) (c : Calls) (w v : World) (r rest : Family Answer) → Leading v r → Leading (pass CloseBlock (all_dead ids v)) rest → (register c.regs 6).bits ≡ b → may_leave b w ≡ true → block_left b w ≡ pass CloseBlock (all_dead ids w) → ((h : History) → Live s.past (pass CloseBlock (all_dead ids v)) h → (m : ℕ) → r h (s.look.step + m) ≡ rest h m) → KeepsWaiting c.lower w (pass CloseBlock (all_dead ids w)) → Means s n c (pass CloseBlock (all_dead ids w)) (pass CloseBlock (all_dead ids v)) rest → MeansAt s (suc n) (Serves 3) c w v r }
{}

/// A compiled call stands inside a block with objects behind their births, and outside of it behind their deaths, in the run as in the meaning. What waits in
/// other calls is kept, and so is what a statement leaves of its own call.
#[tactic(auto, using(crate::proofs::BlockStanding::all_inside, crate::proofs::BlockStanding::all_outside))]
pub fn calls_stand_in_entered_blocks()
    ensures inside { (home : Home) (b : ℕ) → is_entered home.style home.autos b ≡ true → Fits (slots home) home.cost → ((o : Born) → Has o home.env.blocks → o.block ≢ b) → ((i : ℕ) (x : Slot) → slice_get (slots home b) i ≡ Some x → x.offset + x.size ≤ home.cost - 4) → (s : Stage) (c : Calls) (w v : World) → (st : Stands home s c w v) → (ids : List ℕ) (x u : World) → born_autos (slice_index_or home.autos b []) [] w ≡ Done ids x → born_autos (slice_index_or home.autos b []) [] v ≡ Done ids u → Like x u → AreTargets st.value home (pass (OpenBlock (record { block = b; ids = ids })) x) → Stands (within home (record { block = b; ids = ids } ∷ [])) s c (pass (OpenBlock (record { block = b; ids = ids })) x) (pass (OpenBlock (record { block = b; ids = ids })) u) × (KeepsWaiting c.lower w (pass (OpenBlock (record { block = b; ids = ids })) x) × Stays home c w c (pass (OpenBlock (record { block = b; ids = ids })) x)) }
    ensures outside { (home : Home) (b : ℕ) → is_entered home.style home.autos b ≡ true → Fits (slots home) home.cost → ((o : Born) → Has o home.env.blocks → o.block ≢ b) → (s : Stage) (c : Calls) (ids : List ℕ) (w v : World) → (st : Stands (within home (record { block = b; ids = ids } ∷ [])) s c w v) → AreTargets st.value (within home (record { block = b; ids = ids } ∷ [])) (pass CloseBlock (all_dead ids w)) → Stands home s c (pass CloseBlock (all_dead ids w)) (pass CloseBlock (all_dead ids v)) × (KeepsWaiting c.lower w (pass CloseBlock (all_dead ids w)) × Stays home c w c (pass CloseBlock (all_dead ids w))) }
{}
