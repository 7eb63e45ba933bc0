// What holds of the notes of a run. Each function here does nothing: its contract is the law.
ghost use Rattle.std.specs.Prelude.{◌≡◌, ◌↔◌, ◌++◌, ◌∷◌, [], ℕ, List, Option, true};
ghost use Rattle.sc_base.specs.declared.memory.Form.{Form};
ghost use Rattle.sc_base.specs.declared.note.Note.{Note};
ghost use Rattle.sc_base.specs.declared.note.Note.TheVariants.{Start};
ghost use Rattle.sc_record.specs.Applied.{apply};
ghost use Rattle.sc_record.specs.Recorded.{has_start, state_after};
ghost use Rattle.sc_record.specs.Lawful.{AreLawful, IsLawful};

/// Once a run has begun, the state after one note more is what that note makes of the state before it.
pub fn states_follow_the_notes()
    ensures { (notes : List Note) (n : Note) → has_start notes ≡ true → state_after (notes ++ n ∷ []) ≡ apply (state_after notes) n }
{}

/// The notes before the last start do not count.
pub fn earlier_runs_do_not_count()
    ensures { (before notes : List Note) (stack heap : ℕ) → state_after (before ++ Start stack heap ∷ notes) ≡ state_after (Start stack heap ∷ notes) }
{}

/// Behind some notes, a list with one note more is lawful where the list is and that note is lawful behind it.
pub fn lawful_runs_grow()
    ensures { (word : ℕ → Option ℕ) (forms : ℕ → Option Form) (before notes : List Note) (n : Note) → AreLawful word forms before (notes ++ n ∷ []) ↔ (AreLawful word forms before notes × IsLawful word forms (before ++ notes) n) }
{}
