// What the numbers say of the notes. Each function here does nothing: its contract is the law.
ghost use Rattle.std.specs.Prelude.{◌≡◌, ◌++◌, ◌∷◌, [], List};
ghost use Rattle.std.specs.Map.{keys_of};
ghost use Rattle.sc_base.specs.declared.note.Note.{Note};
ghost use Rattle.sc_probe.specs.declared.coverage.Line.{Line};
ghost use Rattle.sc_probe.specs.Numbers.{number_of};
ghost use Rattle.sc_probe.specs.Counted.{counted, counts_of};
ghost use Rattle.sc_probe.specs.Covered.{covered_by, lines_told, number_at, tells_line};

/// The numbers of some notes and one more are those of the notes with that one counted.
pub fn counts_are_of_the_notes()
    ensures { (notes : List Note) (n : Note) → counts_of (notes ++ n ∷ []) ≡ counted n (counts_of notes) }
{}

/// After any notes the number of a line is how many of them say that it was reached, and the lines stand in the order
/// in which they were first reached.
pub fn lines_are_of_the_notes()
    ensures numbers { (notes : List Note) (line : Line) → number_at (covered_by [] notes) line ≡ number_of (tells_line line) notes }
    ensures order { (notes : List Note) → keys_of (covered_by [] notes) ≡ lines_told notes }
{}
