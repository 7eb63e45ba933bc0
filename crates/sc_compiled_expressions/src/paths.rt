// How the machine goes through compiled code. Each function here does nothing: its contract is the law.
ghost use Rattle.std.specs.Prelude.{List, Some, if◌then◌else◌, length, nat_lt, pos, true, ℕ, ℤ, ◌*◌, ◌+◌, ◌<◌, ◌^◌, ◌≡◌};
ghost use Rattle.sc_base.specs.declared.memory.Word.{Word};
ghost use Rattle.sc_emu.specs.Operations.{bits_of, is_taken, load_size, loaded, sum};
ghost use Rattle.sc_emu.specs.Registers.{Registers, register, with_word};
ghost use Rattle.sc_gen_code.specs.Code.{Code};
ghost use Rattle.sc_gen_code.specs.declared.symbolic.Target.{Target};
ghost use Rattle.sc_isa.specs.declared.instruction.BranchOp.{BranchOp};
ghost use Rattle.sc_isa.specs.declared.instruction.Instr.TheVariants.{Branch, Jal, Load};
ghost use Rattle.sc_isa.specs.declared.instruction.Instr.{Instr};
ghost use Rattle.sc_isa.specs.declared.instruction.LoadOp.{LoadOp};
ghost use Rattle.sc_isa_image.specs.declared.image.Image.{Image};
ghost use Rattle.sc_meaning.specs.Expressions.{Answer};
ghost use Rattle.sc_meaning.specs.Outcomes.{Breach, Over, Undefined};
ghost use Rattle.sc_meaning.specs.Versions.{History};
ghost use Rattle.sc_meaning.specs.World.{Work, World, pass};
ghost use Rattle.sc_mem.specs.Flat.{raw_read};
ghost use Rattle.sc_mixed.specs.Bridge.{with_registers};
ghost use Rattle.sc_mixed.specs.Instructions.{Instruction};
ghost use Rattle.sc_mixed.specs.declared.calls.Calls.{Calls};
ghost use Rattle.sc_mixed.specs.declared.calls.Next.{Next};
ghost use Rattle.sc_mixed.specs.declared.execute.Went.TheVariants.{On};
ghost use Rattle.sc_mixed.specs.declared.execute.Went.{Went};
ghost use Rattle.sc_mixed_means.specs.Owed.{is_own_step};
ghost use Rattle.sc_mixed_means.specs.Stages.{Live, Stage};
ghost use Rattle.sc_compiled_expressions.specs.Instructions.{HasMemory, InstrAt, goes_to, makes, writes};
ghost use Rattle.sc_compiled_expressions.specs.Parts.{Family, Leading, Means, MeansAt};
ghost use Rattle.sc_compiled_expressions.specs.Placing.{CodeAt, computed};

/// An instruction that only computes, and a load that finds a word, each have one next state: the registers that the instruction makes, and
/// the same world.
#[tactic(auto, using(crate::proofs::Ways::computes_one_way, crate::proofs::Ways::loads_one_way))]
pub fn instructions_go_one_way()
    ensures computes { (i : Image) (ins : Instr) (r next : Registers) (w : World) → HasMemory w → InstrAt i r.pc ins → makes ins r ≡ Some next → (how : Went) (regs : Registers) (x : World) → Instruction i r w how regs x → (how ≡ On) × (regs ≡ next) × (x ≡ w) }
    ensures loads { (i : Image) (op : LoadOp) (rd base : ℕ) (offset : ℤ) (r : Registers) (w : World) (mem : HasMemory w) (z : Word) → InstrAt i r.pc (Load op rd base offset) → raw_read mem.memory.flat (sum (register r base).bits (bits_of offset)) (load_size op) ≡ Some z → (how : Went) (regs : Registers) (x : World) → Instruction i r w how regs x → (how ≡ On) × (regs ≡ writes rd (loaded op z) r) × (x ≡ w) }
{}

/// A place of compiled code means, as many moves deep, what the place behind code that only computes means, behind a load, behind a branch
/// over one word, and behind a jump over words.
#[tactic(auto, using(crate::proofs::Straight::straight_means, crate::proofs::Straight::load_means, crate::proofs::Straight::skip_means, crate::proofs::Straight::over_means))]
pub fn code_means_what_comes_behind_it()
    ensures straight { (s : Stage) (value : Target → ℕ) (n : ℕ) (code : Code) (c : Calls) (w v : World) (ws : List Word) (r : Family Answer) → HasMemory w → CodeAt s.image value c.regs.pc code → computed code c.regs.words ≡ Some ws → Leading v r → Means s n (with_registers (record { pc = c.regs.pc + 4 * length code; words = ws }) c) w v r → Means s n c w v r }
    ensures load { (s : Stage) (value : Target → ℕ) (n : ℕ) (op : LoadOp) (rd base : ℕ) (offset : ℤ) (c : Calls) (w v : World) (z : Word) (r : Family Answer) (mem : HasMemory w) → InstrAt s.image c.regs.pc (Load op rd base offset) → raw_read mem.memory.flat (sum (register c.regs base).bits (bits_of offset)) (load_size op) ≡ Some z → Leading v r → Means s n (with_registers (record { pc = c.regs.pc + 4; words = with_word c.regs.words rd (loaded op z) }) c) w v r → Means s n c w v r }
    ensures skip { (s : Stage) (value : Target → ℕ) (n : ℕ) (op : BranchOp) (a b : ℕ) (c : Calls) (w v : World) (r : Family Answer) → HasMemory w → InstrAt s.image c.regs.pc (Branch op a b (pos 8)) → c.regs.pc + 8 < 2 ^ 32 → Leading v r → Means s n (with_registers (goes_to (if is_taken op (register c.regs a).bits (register c.regs b).bits then c.regs.pc + 8 else c.regs.pc + 4) c.regs) c) w v r → Means s n c w v r }
    ensures over { (s : Stage) (value : Target → ℕ) (n k : ℕ) (c : Calls) (w v : World) (r : Family Answer) → HasMemory w → InstrAt s.image c.regs.pc (Jal 0 (if nat_lt k 262143 then pos (4 * k + 4) else pos 0)) → nat_lt k 262143 ≡ true → c.regs.pc + (4 * k + 4) < 2 ^ 32 → Leading v r → Means s n (with_registers (goes_to (c.regs.pc + (4 * k + 4)) c.regs) c) w v r → Means s n c w v r }
{}

/// Where the meaning's next step is an undefined one of compiled code itself, a place means it as it stands; and what it means behind work of
/// the meaning, it means before.
#[tactic(auto, using(crate::proofs::Moving::lost_means, crate::proofs::Moving::worked_means))]
pub fn undefined_steps_and_work_are_no_code()
    ensures lost { (s : Stage) (n : ℕ) (next : Next) (c : Calls) (w v : World) (r : Family Answer) (b : Breach) → is_own_step b v ≡ true → ((h : History) → Live s.past v h → (m : ℕ) → r h m ≡ Over (Undefined b v)) → MeansAt s n next c w v r }
    ensures worked { (s : Stage) (n : ℕ) (next : Next) (c : Calls) (z : ℕ) (w v : World) (r : Family Answer) → MeansAt s n next c w (pass (Work z) v) r → MeansAt s n next c w v r }
{}
