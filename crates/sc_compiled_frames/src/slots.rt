// The slots of formed functions in their frames. Each function here does nothing: its contract is the law.
ghost use Rattle.std.specs.Prelude.{List, true, ℕ, ◌+◌, ◌≡◌, ◌≤◌};
ghost use Rattle.sc_core.specs.declared.module.Fun.{Fun};
ghost use Rattle.sc_core_formed.specs.Frames.{is_frame, objects_begin};
ghost use Rattle.sc_core_needs.specs.Needs.{need_of_statement};
ghost use Rattle.sc_compiled_frames.specs.Frames.{Fits, IsBelow};
ghost use Rattle.sc_compiled_frames.specs.Slots.{slots_of};
ghost use Rattle.sc_types.specs.declared.ctype.StructDef.{StructDef};

/// The slots of a formed function fit its frame: they lie in it at multiples of 4, and no two have a byte or an end in common. The words
/// that wait, and arguments past the eighth, lie below them all.
#[tactic(auto, using(crate::proofs::Fitting::slots_fit, crate::proofs::Fitting::words_below))]
pub fn formed_slots_fit_their_frame()
    ensures fit { (structs : List StructDef) (f : Fun) (formed : is_frame structs f ≡ true) → Fits (slots_of f) f.cost }
    ensures below { (structs : List StructDef) (f : Fun) (formed : is_frame structs f ≡ true) (t : ℕ) → t + 4 ≤ objects_begin (need_of_statement f.body) → IsBelow (slots_of f) t }
{}
