// What holds of words and values where memory holds the objects of a world. Each function here does nothing: its contract is the law.
ghost use Rattle.std.specs.Prelude.{Bool, IsSome, List, None, Some, [], false, length, not, slice_get, true, ℕ, ◌%◌, ◌+◌, ◌++◌, ◌-◌, ◌<◌, ◌==◌, ◌^◌, ◌∷◌, ◌≡◌, ◌≤◌};
ghost use Rattle.sc_base.specs.declared.key.Key.{Key};
ghost use Rattle.sc_base.specs.declared.memory.Word.{Word};
ghost use Rattle.sc_emu.specs.Operations.{load_size, loaded};
ghost use Rattle.sc_isa.specs.declared.instruction.LoadOp.{LoadOp};
ghost use Rattle.sc_isa_image.specs.Stubs.{stub_address};
ghost use Rattle.sc_mem.specs.Flat.{Flat, aligned_place, copied, place, put, raw_read, with_birth, with_death, fresh as empty};
ghost use Rattle.sc_mem.specs.Words.{IsSize};
ghost use Rattle.sc_mem_store.specs.Apart.{AreOnce};
ghost use Rattle.sc_mem_store.specs.Holding.{IsTag, value_at};
ghost use Rattle.sc_mem_store.specs.Living.{IsBare};
ghost use Rattle.sc_mem_store.specs.Stray.{is_nowhere};
ghost use Rattle.sc_meaning.specs.Accesses.{as_type, copy_at, is_true, set_at};
ghost use Rattle.sc_meaning.specs.Behaviour.{Start, first_world};
ghost use Rattle.sc_meaning.specs.Beside.{empty_memory};
ghost use Rattle.sc_meaning.specs.Expressions.{Answer, base_of, further_of};
ghost use Rattle.sc_meaning.specs.Statements.{auto_kind};
ghost use Rattle.sc_meaning.specs.Values.{FunctionAt, Pointer, Value, int_of, is_pointer_type, layer_size, scalar_size, value_of_cells};
ghost use Rattle.sc_meaning.specs.Violations.{cells_read, load_rule, reach_rule, store_rule, write_rule};
ghost use Rattle.sc_meaning.specs.World.{Birth, Death, Object, World, ended, fresh, object_at, pass};
ghost use Rattle.sc_meaning.specs.declared.spot.Spot.TheVariants.{Slot};
ghost use Rattle.sc_objects.specs.Blocks.{Blocks, IsTiled};
ghost use Rattle.sc_objects.specs.Numbered.{IsClear, IsLive, object_of};
ghost use Rattle.sc_objects.specs.declared.objects.Obj.{Obj};
ghost use Rattle.sc_types.specs.declared.ctype.CType.TheOpen.{CType-F};
ghost use Rattle.sc_types.specs.declared.ctype.CType.{CType, out-CType};
ghost use Rattle.sc_types.specs.declared.ctype.Signature.{Signature};
ghost use Rattle.sc_compiled_frames.specs.Accesses.{IsCanonical, Reads, Stores};
ghost use Rattle.sc_compiled_frames.specs.Conversions.{by_constants, narrowing, renarrowing};
ghost use Rattle.sc_compiled_frames.specs.Means.{IsWord, Means};
ghost use Rattle.sc_compiled_frames.specs.Stubs.{stub_of};
ghost use Rattle.sc_compiled_frames.specs.Words.{AreSeated, AreStubs, HeldWords, IsInside, IsOf};
ghost use Rattle.sc_compiled_frames.specs.Worlds.{HoldsWords};

/// A word means the value that its tag and address find, and no other; it is 0 exactly where its value is false; the address of a function's
/// stub, with the functions' tag, means the function; and a word means the same as long as objects stay where they stand. Stubs that stand
/// one behind another are as is asked.
#[tactic(auto, using(crate::proofs::Values::means_value, crate::proofs::Values::value_means, crate::proofs::Values::means_once, crate::proofs::Values::means_stays, crate::proofs::Converting::truth_is, crate::proofs::Converting::function_means, crate::proofs::Stubs::stubs_are))]
pub fn words_mean_one_value()
    ensures value { (fs : List Key) (f : Key → ℕ) (t : List Obj) (x : Word) (v : Value) → AreStubs fs f → AreSeated t → Means f t x v → value_at fs t x.tag x.bits ≡ v }
    ensures found { (fs : List Key) (f : Key → ℕ) (t : List Obj) (x : Word) → AreStubs fs f → AreSeated t → x.bits < 2 ^ 32 → IsTag t x.tag → IsInside t x.bits x.tag → is_nowhere (value_at fs t x.tag x.bits) ≡ false → Means f t x (value_at fs t x.tag x.bits) }
    ensures once { (fs : List Key) (f : Key → ℕ) (t : List Obj) (x : Word) (v u : Value) → AreStubs fs f → AreSeated t → Means f t x v → Means f t x u → v ≡ u }
    ensures truth { (fs : List Key) (f : Key → ℕ) (t : List Obj) (x : Word) (v : Value) → AreStubs fs f → AreSeated t → Means f t x v → (x.bits == 0) ≡ not (is_true v) }
    ensures functions { (fs : List Key) (f : Key → ℕ) (t : List Obj) (n : ℕ) (key : Key) → AreStubs fs f → AreSeated t → slice_get fs n ≡ Some key → Means f t (record { bits = f key; tag = 4294967295 }) (FunctionAt key) }
    ensures stays { (f : Key → ℕ) (t u : List Obj) (x : Word) (v : Value) → ((id : ℕ) (p : Obj) → object_of t id ≡ Some p → (q : Obj) × (object_of u id ≡ Some q) × (q.base ≡ p.base) × (q.size ≡ p.size)) → AreSeated u → Means f t x v → Means f u x v }
    ensures stubs { (fs : List Key) → AreOnce fs → stub_address (length fs) ≤ 2 ^ 32 → AreStubs fs (stub_of fs) }
{}

/// A load that breaks no rule finds a word at the address of the place, and its register gets the word of the value that the meaning reads,
/// converted to the type; each scalar type has an instruction that reads it.
#[tactic(auto, using(crate::proofs::Loading::load_word, crate::proofs::Narrowing::load_reads))]
pub fn loads_read_what_is_meant()
    ensures loads { (fs : List Key) (f : Key → ℕ) (stubs : AreStubs fs f) (m : Flat) (os : List Object) (h : HeldWords fs m os) (op : LoadOp) (ty : CType) (a : Answer) (x : Word) → Reads op (out-CType ty) → 0 < scalar_size ty → IsWord f m.objects a x → load_rule os (base_of a) (further_of a) (scalar_size ty) (is_pointer_type ty) ≡ None → (w : Word) × (raw_read m x.bits (load_size op) ≡ Some w) × Means f m.objects (loaded op w) (as_type ty (value_of_cells (cells_read os (base_of a) (further_of a) (scalar_size ty)))) }
    ensures reads { (l : CType-F CType Signature) → 0 < layer_size l → (op : LoadOp) × Reads op l }
{}

/// A store that breaks no rule writes what the meaning writes, and a copy of a structure's bytes copies what the meaning copies.
#[tactic(auto, using(crate::proofs::Storing::store_word, crate::proofs::Copying::copy_words))]
pub fn stores_write_what_is_meant()
    ensures stores { (fs : List Key) (f : Key → ℕ) (stubs : AreStubs fs f) (m : Flat) (w : World) (h : HeldWords fs m w.objects) (ty : CType) (a : Answer) (x y : Word) (v : Value) → 0 < scalar_size ty → IsWord f m.objects a x → Means f m.objects y v → IsOf ty v → store_rule w.objects (base_of a) (further_of a) (scalar_size ty) ≡ None → Stores fs m (put m x.bits (scalar_size ty) y) x.bits (scalar_size ty) (set_at (base_of a) (further_of a) (scalar_size ty) v w).objects }
    ensures copies { (fs : List Key) (f : Key → ℕ) (stubs : AreStubs fs f) (m : Flat) (w : World) (h : HeldWords fs m w.objects) (n : ℕ) (a b : Answer) (x y : Word) → 0 < n → IsWord f m.objects a x → IsWord f m.objects b y → write_rule w.objects (base_of a) (further_of a) n ≡ None → reach_rule w.objects (base_of b) (further_of b) n ≡ None → HeldWords fs (copied m x.bits y.bits n) (copy_at (base_of a) (further_of a) (base_of b) (further_of b) n w).objects }
{}

/// The operations of a conversion make of a value's word that of the value converted to the type, where the type is another or not; and
/// what a conversion gives is a value of the type.
#[tactic(auto, using(crate::proofs::Converting::type_converts, crate::proofs::Converting::type_reconverts, crate::proofs::Converting::as_type_canonical))]
pub fn conversions_give_values_of_the_type()
    ensures converts { (f : Key → ℕ) (t : List Obj) (ty : CType) (x : Word) (v : Value) → IsOf ty v → Means f t x v → Means f t (by_constants (narrowing (int_of ty)) x) (as_type ty v) }
    ensures reconverts { (f : Key → ℕ) (t : List Obj) (from to : CType) (x : Word) (v : Value) → IsOf to v → IsCanonical from v → Means f t x v → Means f t (by_constants (renarrowing (int_of from) (int_of to)) x) (as_type to v) }
    ensures canonical { (f : Key → ℕ) (t : List Obj) (ty : CType) (x : Word) (v : Value) → Means f t x v → IsCanonical ty (as_type ty v) }
{}

/// Memory holds the objects and its words are values as a run begins, behind a birth in the stack, behind a death, and where the word of a
/// value is put beside all objects; so does the memory that a world has beside it. A memory with one object, and the word of its address, meet all that is asked.
#[tactic(auto, using(crate::proofs::Living::begins, crate::proofs::Living::birth_in_stack, crate::proofs::Living::death, crate::proofs::Beside::words_beside, crate::proofs::Worlds::world_begins, crate::proofs::Worlds::world_births, crate::proofs::Worlds::world_deaths, crate::proofs::Trial::met))]
pub fn memory_goes_on_to_hold_words()
    ensures born { (fs : List Key) (m : Flat) (os : List Object) (size : ℕ) (constant : Bool) (base : ℕ) → HeldWords fs m os → base % 4 ≡ 0 → 0x1F000000 ≤ base → IsClear m.objects base size → IsSome (place m base size) → length m.objects < 4294967294 → HeldWords fs (with_birth m (record { size = size; kind = auto_kind constant; base = base; live = true })) (os ++ fresh size (auto_kind constant) ∷ []) }
    ensures dead { (fs : List Key) (m : Flat) (os : List Object) (id : ℕ) (p : Obj) → HeldWords fs m os → IsLive m.objects id p → HeldWords fs (with_death m id) (ended os id (object_at os id)) }
    ensures first { (fs : List Key) (heap stack : ℕ) (b : Blocks) → heap ≤ 67108864 → stack ≤ 16777216 → b.bytes ≡ heap → IsTiled b → HeldWords fs (empty stack heap) [] }
    ensures beside { (fs : List Key) (f : Key → ℕ) → AreStubs fs f → (m : Flat) (os : List Object) (at n : ℕ) (w : Word) (v : Value) → HeldWords fs m os → IsSize n → IsBare m.objects at → Means f m.objects w v → IsSome (aligned_place m at n) → HeldWords fs (put m at n w) os }
    ensures run_begins { (s : Start) → s.beside.memory ≡ Some (empty_memory s.stack s.heap) → s.heap ≤ 67108864 → s.stack ≤ 16777216 → HoldsWords (first_world s) }
    ensures slot_born { (w : World) (size offset : ℕ) (constant : Bool) (h : HoldsWords w) → (0x20000000 - w.used + offset) % 4 ≡ 0 → 0x1F000000 ≤ 0x20000000 - w.used + offset → IsClear h.memory.flat.objects (0x20000000 - w.used + offset) size → IsSome (place h.memory.flat (0x20000000 - w.used + offset) size) → length h.memory.flat.objects < 4294967294 → HoldsWords (pass (Birth size (auto_kind constant) (Slot offset)) w) }
    ensures object_dead { (w : World) (id : ℕ) (p : Obj) (h : HoldsWords w) → IsLive h.memory.flat.objects id p → HoldsWords (pass (Death id) w) }
    ensures met { (fs : List Key) (f : Key → ℕ) → (m : Flat) × (os : List Object) × HeldWords fs m os × Means f m.objects (record { bits = 0x1FFFFFF0; tag = 1 }) (Pointer 1 0) }
{}
