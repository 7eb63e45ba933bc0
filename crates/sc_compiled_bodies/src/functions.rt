// A function's text before its body and behind it. Each function here does nothing: its contract is the law.
ghost use Rattle.std.specs.Prelude.{List, [], Some, length, pos, slice_index_or, ℕ, ◌+◌, ◌-◌, ◌*◌, ◌/◌, ◌<◌, ◌≤◌, ◌^◌, ◌∷◌, ◌≡◌};
ghost use Rattle.sc_base.specs.declared.memory.Word.{Word};
ghost use Rattle.sc_isa_image.specs.Stubs.{stub_address, upper_of};
ghost use Rattle.sc_emu.specs.Operations.{plain};
ghost use Rattle.sc_emu.specs.Registers.{AreRegisters, register};
ghost use Rattle.sc_mem.specs.Flat.{raw_read};
ghost use Rattle.sc_gen_code.specs.Code.{addi, block_service, ecall, service};
ghost use Rattle.sc_gen_code.specs.declared.symbolic.Target.{Target};
ghost use Rattle.sc_gen_body.specs.Statements.{epilogue};
ghost use Rattle.sc_core.specs.declared.statement.CoreStmt.{CoreStmt};
ghost use Rattle.sc_gen_body.specs.Jumps.{Around};
ghost use Rattle.sc_compiled_bodies.specs.Exits.{Ended, Runs};
ghost use Rattle.sc_compiled_bodies.specs.Good.{GivesWay, code_of_statement};
ghost use Rattle.sc_compiled_expressions.specs.Good.{IsDeeper, IsPlaced};
ghost use Rattle.sc_compiled_expressions.specs.Standing.{Home, Stands};
ghost use Rattle.sc_meaning.specs.Calls.{exec};
ghost use Rattle.sc_compiled_frames.specs.Kept.{out_along};
ghost use Rattle.sc_compiled_bodies.specs.Ways.{LeadsTo, MeansHolding, MeansWith};
ghost use Rattle.sc_gen_body.specs.Functions.{frame_taken};
ghost use Rattle.sc_compiled_values.specs.Straight.{Words, with};
ghost use Rattle.sc_compiled_expressions.specs.Instructions.{HasMemory};
ghost use Rattle.sc_compiled_expressions.specs.Parts.{Family, Leading, Means};
ghost use Rattle.sc_compiled_expressions.specs.Placing.{CodeAt};
ghost use Rattle.sc_meaning.specs.Expressions.{Answer};
ghost use Rattle.sc_meaning.specs.World.{World};
ghost use Rattle.sc_mixed.specs.Bridge.{with_registers};
ghost use Rattle.sc_mixed.specs.declared.calls.Calls.{Calls};
ghost use Rattle.sc_mixed.specs.declared.calls.Next.TheVariants.{Serves};
ghost use Rattle.sc_mixed_means.specs.Stages.{Stage};

/// A stub of a function in object form means what the function's text means, with another word in t1 alone.
#[tactic(auto, using(crate::proofs::Ends::stub_leads))]
pub fn stubs_lead_to_texts()
    ensures { (s : Stage) (n number at : ℕ) (c : Calls) (w v : World) (r : Family Answer) → HasMemory w → LeadsTo s.image number at → AreRegisters c.regs.words → c.regs.pc ≡ stub_address number → Leading v r → MeansWith s n at (with (register c.regs) 6 (plain (upper_of at * 2 ^ 12))) c w v r → Means s n c w v r }
{}

/// The first three words of a text ask for the entry of block 0; those of `return e` behind the value, for its exit; and those behind the
/// body, for the return without a value. All other registers are as they were.
#[tactic(auto, using(crate::proofs::Ends::entry_asked, crate::proofs::Ends::exit_asked, crate::proofs::Ends::fall_asked))]
pub fn entries_and_exits_are_asked_for()
    ensures entry { (s : Stage) (value : Target → ℕ) (n : ℕ) (c : Calls) (w v : World) (r : Family Answer) → HasMemory w → AreRegisters c.regs.words → Leading v r → CodeAt s.image value c.regs.pc (addi 5 0 (pos 2) ∷ addi 6 0 (pos 0) ∷ ecall ∷ []) → MeansHolding s n (Serves 2) (c.regs.pc + 12) (with (with (register c.regs) 5 (plain 2)) 6 (plain 0)) c w v r → Means s n c w v r }
    ensures exit { (s : Stage) (value : Target → ℕ) (n : ℕ) (c : Calls) (w v : World) (r : Family Answer) → HasMemory w → AreRegisters c.regs.words → Leading v r → CodeAt s.image value c.regs.pc (block_service 3 0) → MeansHolding s n (Serves 3) (c.regs.pc + 12) (with (with (register c.regs) 5 (plain 3)) 6 (plain 0)) c w v r → Means s n c w v r }
    ensures fall { (s : Stage) (value : Target → ℕ) (n : ℕ) (c : Calls) (w v : World) (r : Family Answer) → HasMemory w → AreRegisters c.regs.words → Leading v r → CodeAt s.image value c.regs.pc (service 6) → MeansHolding s n (Serves 6) (c.regs.pc + 8) (with (register c.regs) 5 (plain 6)) c w v r → Means s n c w v r }
{}

/// Where the word of the place of return waits in the last place of the frame, the epilogue means what stands at that place, with the frame given back
/// and a0 as it was: for each size of a frame.
#[tactic(auto, using(crate::proofs::Ends::epilogue_returns))]
pub fn epilogues_return()
    ensures { (s : Stage) (value : Target → ℕ) (n : ℕ) (c : Calls) (w v : World) (r : Family Answer) (mem : HasMemory w) → Leading v r → (cost sp : ℕ) (x : Word) → CodeAt s.image value c.regs.pc (epilogue cost) → AreRegisters c.regs.words → register c.regs 2 ≡ plain sp → sp + cost < 2 ^ 32 → raw_read mem.memory.flat (sp + (cost - 4)) 4 ≡ Some x → x.bits < 2 ^ 32 → x.bits / 2 * 2 ≡ x.bits → ((zs : List Word) → AreRegisters zs → slice_index_or zs 2 (plain 0) ≡ plain (sp + cost) → slice_index_or zs 10 (plain 0) ≡ register c.regs 10 → Means s n (with_registers (record { pc = x.bits; words = zs }) c) w v r) → Means s n c w v r }
{}

/// Where the code of a statement ends, as many calls are out as where it began: what went out came back.
#[tactic(auto, using(crate::proofs::Outs::outs_brought))]
pub fn what_went_out_came_back()
    ensures { (home : Home) (most deep : ℕ) (st : CoreStmt) (at : ℕ) (around : Around) → GivesWay home most deep st at around → (bound : ℕ → ℕ) → IsDeeper deep bound → (s : Stage) (c : Calls) (w v : World) → c.regs.pc ≡ home.base + 4 * at → IsPlaced home c.regs.pc (code_of_statement home st at around) → Stands home s c w v → Runs most s (λ t way u b d y. Ended home around (at + length (code_of_statement home st at around)) c w t way u b d y × (out_along u.trail 0 ≡ out_along v.trail 0)) c w v (λ h m. exec (bound m) h home.env st v) }
{}

/// The words behind the entry take the frame: sp goes down by its cost, ra and the registers from a0 on are as they were.
#[tactic(auto, using(crate::proofs::Taking::frame_goes))]
pub fn frames_are_taken()
    ensures { (s : Stage) (value : Target → ℕ) (n : ℕ) (c : Calls) (w v : World) (r : Family Answer) (mem : HasMemory w) → Leading v r → (cost pc sp : ℕ) (g : Words) → CodeAt s.image value pc (frame_taken cost) → g 0 ≡ plain 0 → g 2 ≡ plain sp → cost ≤ sp → sp < 2 ^ 32 → ((h : Words) → h 0 ≡ plain 0 → h 1 ≡ g 1 → h 2 ≡ plain (sp - cost) → ((j : ℕ) → h (10 + j) ≡ g (10 + j)) → MeansWith s n (pc + 4 * length (frame_taken cost)) h c w v r) → MeansWith s n pc g c w v r }
{}
