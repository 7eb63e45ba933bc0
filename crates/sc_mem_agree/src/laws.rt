// Each rule of memory is the meaning's. Each function here does nothing: its contract is the law.
ghost use Rattle.std.specs.Prelude.{◌≡◌, ℕ, List, ℤ, Bool, true, false};
ghost use Rattle.sc_base.specs.declared.key.Key.{Key};
ghost use Rattle.sc_base.specs.declared.memory.Word.{Word};
ghost use Rattle.sc_objects.specs.declared.objects.Obj.{Obj};
ghost use Rattle.sc_mem.specs.Words.{IsSize};
ghost use Rattle.sc_mem.specs.Violations.{reach_rule};
ghost use Rattle.sc_mem.specs.Comparisons.{difference_rule, equality_rule, free_rule, is_overlapping, is_same, order_rule, truth_rule, write_rule};
ghost use Rattle.sc_mem.specs.Flat.{Flat, cells_at};
ghost use Rattle.sc_mem.specs.Violations.{load_rule, shift_rule, store_rule};
ghost use Rattle.sc_meaning.specs.Values.{Number, Pointer, Value, same_value};
ghost use Rattle.sc_meaning.specs.World.{Object};
ghost use Rattle.sc_meaning.specs.Violations.{cells_read, is_outside, difference_rule as difference_of_meaning, equality_rule as equality_of_meaning, free_rule as free_of_meaning, is_overlapping as overlapping_of_meaning, load_rule as load_of_meaning, order_rule as order_of_meaning, reach_rule as reach_of_meaning, shift_rule as shift_of_meaning, store_rule as store_of_meaning, truth_rule as truth_of_meaning, write_rule as write_of_meaning};
ghost use Rattle.sc_mem_agree.specs.Agreement.{Agree, AreCells, AreDistinct, StandsFor};

/// A range that is read, a range that is written, and a store and a load of 1, 2 or 4 bytes break the same rule in memory
/// as in the meaning. For a load the cells inside the object stand for its bytes.
#[tactic(auto, using(crate::proofs::Accesses::reach_same, crate::proofs::Accesses::write_same, crate::proofs::Accesses::store_same, crate::proofs::Loads::load_same))]
pub fn accesses_agree()
    ensures reads { (f : Key → ℕ) (os : List Object) (t : List Obj) (w : Word) (v : Value) (n : ℕ) → Agree os t → StandsFor f t w v → reach_rule t w n ≡ reach_of_meaning os v 0 n }
    ensures writes { (f : Key → ℕ) (os : List Object) (t : List Obj) (w : Word) (v : Value) (n : ℕ) → Agree os t → StandsFor f t w v → write_rule t w n ≡ write_of_meaning os v 0 n }
    ensures stores { (f : Key → ℕ) (os : List Object) (m : Flat) (w : Word) (v : Value) (n : ℕ) → IsSize n → Agree os m.objects → StandsFor f m.objects w v → store_rule m w n ≡ store_of_meaning os v 0 n }
    ensures loads { (f : Key → ℕ) (os : List Object) (m : Flat) (w : Word) (v : Value) (n : ℕ) (pointer : Bool) → IsSize n → AreDistinct f → Agree os m.objects → StandsFor f m.objects w v → (is_outside os v 0 n ≡ false → AreCells f m.objects (cells_at m w.bits n) (cells_read os v 0 n)) → load_rule m w n pointer ≡ load_of_meaning os v 0 n pointer }
{}

/// So does a pointer plus a number.
#[tactic(auto, using(crate::proofs::Steps::shift_same))]
pub fn arithmetic_agrees()
    ensures { (f : Key → ℕ) (os : List Object) (m : Flat) (w : Word) (v : Value) (x size : ℕ) (n : ℤ) → Agree os m.objects → StandsFor f m.objects w v → shift_rule m w n size ≡ shift_of_meaning os v (Number x) n size }
{}

/// So do a truth test of a pointer, and equality, order and difference of two. Two words are one where their
/// values are, and the ranges of two pointers overlap in memory where they do in the meaning.
#[tactic(auto, using(crate::proofs::Pairs::truth_same, crate::proofs::Pairs::equality_same, crate::proofs::Pairs::order_same, crate::proofs::Pairs::difference_same, crate::proofs::Cells::same_word, crate::proofs::Overlaps::overlap_same))]
pub fn comparisons_agree()
    ensures truth { (f : Key → ℕ) (os : List Object) (t : List Obj) (w : Word) (v : Value) → Agree os t → StandsFor f t w v → truth_rule t w ≡ truth_of_meaning os true v }
    ensures equality { (f : Key → ℕ) (os : List Object) (t : List Obj) (w x : Word) (v u : Value) → Agree os t → StandsFor f t w v → StandsFor f t x u → equality_rule t w x ≡ equality_of_meaning os v u }
    ensures order { (f : Key → ℕ) (os : List Object) (t : List Obj) (w x : Word) (v u : Value) → Agree os t → StandsFor f t w v → StandsFor f t x u → order_rule t w x ≡ order_of_meaning os v u }
    ensures difference { (f : Key → ℕ) (os : List Object) (t : List Obj) (w x : Word) (v u : Value) (size : ℕ) → Agree os t → StandsFor f t w v → StandsFor f t x u → difference_rule t w x size ≡ difference_of_meaning os v u size }
    ensures same { (f : Key → ℕ) (t : List Obj) (w x : Word) (v u : Value) → AreDistinct f → StandsFor f t w v → StandsFor f t x u → is_same w x ≡ same_value v u }
    ensures overlap { (f : Key → ℕ) (t : List Obj) (w x : Word) (o i n p j m : ℕ) → StandsFor f t w (Pointer o i) → StandsFor f t x (Pointer p j) → is_overlapping t w n x m ≡ overlapping_of_meaning (Pointer o i) n (Pointer p j) m }
{}

/// So does freeing.
#[tactic(auto, using(crate::proofs::Steps::free_same))]
pub fn freeing_agrees()
    ensures { (f : Key → ℕ) (os : List Object) (t : List Obj) (w : Word) (v : Value) → Agree os t → StandsFor f t w v → free_rule t w ≡ free_of_meaning os v }
{}
