// What the code of operators makes of words. Each function here does nothing: its contract is the law.
ghost use Rattle.std.specs.Prelude.{Bool, List, None, Some, [], false, true, ℕ, ℤ, ◌*◌, ◌<◌, ◌==◌, ◌^◌, ◌∷◌, ◌≡◌};
ghost use Rattle.sc_base.specs.declared.integer.Int.{Int};
ghost use Rattle.sc_base.specs.declared.integer.Int.TheVariants.{Int as PlainInt};
ghost use Rattle.sc_base.specs.declared.key.Key.{Key};
ghost use Rattle.sc_base.specs.declared.operator.Op.{Op};
ghost use Rattle.sc_core.specs.declared.expression.UnaryOperator.{UnaryOperator};
ghost use Rattle.sc_core.specs.declared.expression.UnaryOperator.TheVariants.{Not};
ghost use Rattle.sc_emu.specs.Machine.{State};
ghost use Rattle.sc_emu.specs.Operations.{plain};
ghost use Rattle.sc_gen_code.specs.Operators.{advanced, branch, by_bytes, immediate, is_comparison, is_unsigned, operate, unary_of};
ghost use Rattle.sc_gen_code.specs.declared.symbolic.Symbolic.{Symbolic};
ghost use Rattle.sc_isa.specs.declared.instruction.Instr.{Instr};
ghost use Rattle.sc_meaning.specs.Accesses.{placed, pointer_test, steps_of};
ghost use Rattle.sc_meaning.specs.Values.{Number, Value};
ghost use Rattle.sc_meaning.specs.Violations.{order_rule, shift_rule, target};
ghost use Rattle.sc_meaning.specs.World.{Object};
ghost use Rattle.sc_mem.specs.Flat.{Flat};
ghost use Rattle.sc_objects.specs.declared.objects.Obj.{Obj};
ghost use Rattle.sc_ops.specs.Numbers.{converted};
ghost use Rattle.sc_ops.specs.Operators.{rule_of, truth_of, value_of};
ghost use Rattle.sc_compiled_frames.specs.Means.{Means};
ghost use Rattle.sc_compiled_frames.specs.Words.{HeldWords};
ghost use Rattle.sc_compiled_values.specs.Operators.{IsOperator, Operands, single, takes, told};
ghost use Rattle.sc_compiled_values.specs.Pointers.{Advances, IsMove, IsOrder};
ghost use Rattle.sc_compiled_values.specs.Straight.{IsFile, IsStraight, Steps, Words, after, after_one};

/// The code of each of the sixteen operators on two integers leaves in a0 the number that C means, in each of the nine types, where the
/// operator breaks no rule, and changes no other register. Some registers hold two operands.
#[tactic(auto, using(crate::proofs::Operating::operates, crate::proofs::Operating::operate_keeps, crate::proofs::Constants::met))]
pub fn operators_compute_what_is_meant()
    ensures operates { (r : Words) (x y n m : ℕ) (h : Operands r x y n m) (o : Op) (k : Int) → IsOperator o → rule_of o k n m ≡ None → after (operate o (is_unsigned k) x y) r 10 ≡ plain (value_of o k n m) }
    ensures keeps { (o : Op) (u : Bool) (x y : ℕ) (r : Words) (j : ℕ) → (j == 10) ≡ false → after (operate o u x y) r j ≡ r j }
    ensures met { Operands (λ j. plain j) 10 11 10 11 }
{}

/// So does the one instruction of an operator with a constant, where there is one, and the code of `+ - ~ !` on a number; `!` leaves 1
/// of each word that is 0, and 0 of any other.
#[tactic(auto, using(crate::proofs::Constants::immediates, crate::proofs::Constants::singles, crate::proofs::Constants::denies))]
pub fn constants_compute_what_is_meant()
    ensures immediates { (r : Words) (x n m : ℕ) (z0 : r 0 ≡ plain 0) (left : r x ≡ plain n) (wide : n < 2 ^ 32) (broad : m < 2 ^ 32) (o : Op) (k : Int) (i : Symbolic) → rule_of o k n m ≡ None → immediate o (is_unsigned k) x m ≡ Some i → after (i ∷ []) r 10 ≡ plain (value_of o k n m) }
    ensures singles { (r : Words) (n : ℕ) (o : UnaryOperator) (k : Int) → r 0 ≡ plain 0 → r 10 ≡ plain n → n < 2 ^ 32 → after (unary_of o) r 10 ≡ plain (single o k n) }
    ensures denies { (r : Words) → after (unary_of Not) r 10 ≡ plain (truth_of ((r 10).bits == 0)) }
{}

/// The branch of a comparison is taken just where its truth is the one that is said.
#[tactic(auto, using(crate::proofs::Constants::branches))]
pub fn branches_take_what_is_meant()
    ensures { (r : Words) (x y n m : ℕ) (h : Operands r x y n m) (o : Op) (k : Int) (sense : Bool) (z : ℤ) → is_comparison o ≡ true → takes (branch o (is_unsigned k) sense x y z) r ≡ told sense (value_of o k n m) }
{}

/// The code of a pointer plus or minus a number of elements leaves in a0 the word of the pointer that C means, where no rule is broken;
/// so does the one instruction where the number is a constant that is few bytes.
/// So does the code of an order of two pointers leave its truth.
#[tactic(auto, using(crate::proofs::Pointers::advances, crate::proofs::Pointers::met, crate::proofs::Comparing::orders, crate::proofs::Moving::bytes_move))]
pub fn pointers_go_as_is_meant()
    ensures advances { (f : Key → ℕ) (fs : List Key) (m : Flat) (os : List Object) → HeldWords fs m os → (r : Words) (size x y n : ℕ) (k : Int) (v : Value) (o : Op) → Advances f m.objects r size x y n k v → IsMove o → shift_rule os v (Number n) (steps_of o k (Number n)) size ≡ None → Means f m.objects (after (advanced o size x y) r 10) (placed v (target v (steps_of o k (Number n)) size)) }
    ensures bytes { (f : Key → ℕ) (fs : List Key) (m : Flat) (os : List Object) → HeldWords fs m os → (r : Words) (x c size n : ℕ) (k : Int) (v : Value) (o : Op) → Means f m.objects (r x) v → converted c k ≡ c → n ≡ c * size → n < 2048 → IsMove o → shift_rule os v (Number c) (steps_of o k (Number c)) size ≡ None → Means f m.objects (after (by_bytes o x n ∷ []) r 10) (placed v (target v (steps_of o k (Number c)) size)) }
    ensures orders { (f : Key → ℕ) (fs : List Key) (m : Flat) (os : List Object) → HeldWords fs m os → (r : Words) (x y : ℕ) (v u : Value) (o : Op) → Means f m.objects (r x) v → Means f m.objects (r y) u → IsOrder o → order_rule os v u ≡ None → after (operate o true x y) r 10 ≡ plain (truth_of (pointer_test o v u)) }
    ensures met { (f : Key → ℕ) (t : List Obj) → Advances f t (λ j. plain 0) 4 10 11 0 PlainInt (Number 0) }
{}

/// What such code makes of registers is what the machine does: at an instruction on registers alone it goes on with the next one, its
/// memory as it was.
#[tactic(auto, using(crate::proofs::Steps::straight_steps))]
pub fn straight_code_is_stepped()
    ensures { (i : Instr) (s : State) (r : Words) → IsStraight i → IsFile s.registers.words r → Steps i s (after_one i r) }
{}
