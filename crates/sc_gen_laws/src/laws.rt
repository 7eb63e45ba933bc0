// Laws of the code, and of the object of a formed module.
ghost use Rattle.std.specs.Prelude.{◌≡◌, ℕ, ◌+◌, ◌*◌, ◌≤◌, Option, None, Some, true, List, length, slice_get};
ghost use Rattle.sc_core.specs.declared.expression.CoreExpr.{CoreExpr};
ghost use Rattle.sc_core.specs.declared.module.Auto.{Auto};
ghost use Rattle.sc_core.specs.declared.module.Core.{Core};
ghost use Rattle.sc_core.specs.declared.module.Fun.{Fun};
ghost use Rattle.sc_core_formed.specs.Frames.{functions};
ghost use Rattle.sc_object.specs.Reading.{is_spellable};
ghost use Rattle.sc_gen.specs.Blocks.{frame_table};
ghost use Rattle.sc_gen.specs.Limits.{first_long};
ghost use Rattle.sc_gen.specs.Objects.{object_of};
ghost use Rattle.sc_gen_body.specs.declared.jumps.Place.{Place};
ghost use Rattle.sc_gen_code.specs.declared.style.Spot.{Spot};
ghost use Rattle.sc_gen_code.specs.declared.style.Style.{Style};
ghost use Rattle.sc_gen_code.specs.Code.{Code};
ghost use Rattle.sc_gen_code.specs.Styles.{IsStyle};
ghost use Rattle.sc_gen_body.specs.Functions.{function_code};
ghost use Rattle.sc_gen_body.specs.Jumps.{go, go_in};
ghost use Rattle.sc_gen_laws.specs.Counts.{IsMeasured};
ghost use Rattle.sc_gen_laws.specs.Filed.{IsKept};
ghost use Rattle.sc_gen_laws.specs.Inside.{RefersInside};
ghost use Rattle.sc_gen_laws.specs.Nodes.{function_nodes};
ghost use Rattle.sc_gen_laws.specs.Paths.{converts_once, function_way};
ghost use Rattle.sc_gen_laws.specs.Sound.{IsSound};
ghost use Rattle.sc_gen_laws.specs.Turns.{IsPaid, expression_way, top, turns};

/// The text of a function of n nodes has at most 128 * (n + 1) bytes, in a tree as C makes it.
pub fn texts_are_short()
    ensures { (st : Style) (f : Fun) → IsStyle st → IsMeasured f → 4 * length (function_code st f) ≤ 128 * (function_nodes f + 1) }
{}

/// In the code of an expression no piece between two units of work takes more than 63 turns, if no operand is converted twice
/// in a row.
pub fn expressions_are_paid()
    ensures { (st : Style) (slots : List (List Auto)) (e : CoreExpr) (at : Spot) → IsStyle st → (top e).once ≡ true → IsPaid (expression_way st slots e at) }
{}

/// The same of the code of a function, if no operand in it is converted twice in a row. A jump out of blocks or into one takes
/// at most 6 turns, as the ways through statements have it.
pub fn bodies_are_paid()
    ensures paid { (st : Style) (f : Fun) → IsStyle st → converts_once f.body ≡ true → IsPaid (function_way st f) }
    ensures exits { (blocks : List ℕ) (at : ℕ) (place : Place) → turns (go blocks at place) ≤ 6 }
    ensures entries { (block : Option ℕ) (at to : ℕ) → turns (go_in block at to) ≤ 6 }
{}

/// The table of each function's frame is sound, where the module's functions are formed.
pub fn frames_are_sound()
    ensures { (core : Core) → functions core core.funs ≡ true → (i n : ℕ) (f : Fun) → slice_get core.funs i ≡ Some f → IsSound (frame_table n f) }
{}

/// What the object of a module refers to, it has: symbols name its sections, relocations and frames its symbols. Local symbols
/// stand first, and relocations by their sections. So it is by whatever compiler.
pub fn objects_refer_inside()
    ensures { (code : Fun → Code) (core : Core) → RefersInside (object_of code core) }
{}

/// The object of a module, by whatever compiler, has a file, where no text is too long and names, numbers and counts fit.
pub fn objects_have_files()
    ensures { (code : Fun → Code) (core : Core) → IsKept code core → first_long code core.funs ≡ None → is_spellable 2 (object_of code core) ≡ true }
{}
