// Laws of the words of compiled code. Each function here does nothing: its contract is the law.
ghost use Rattle.std.specs.Prelude.{◌≡◌, ◌≤◌, ℕ, List, Option, Some};
ghost use Rattle.sc_base.specs.declared.key.Key.{Key};
ghost use Rattle.sc_core.specs.declared.module.Core.{Core};
ghost use Rattle.sc_core.specs.declared.module.Fun.{Fun};
ghost use Rattle.sc_gen_body.specs.Functions.{function_code};
ghost use Rattle.sc_gen_code.specs.declared.style.Style.{Style};
ghost use Rattle.sc_gen.specs.Limits.{plain_code};
ghost use Rattle.sc_gen.specs.Objects.{object_of};
ghost use Rattle.sc_image.specs.declared.module.Linking.{Linking};
ghost use Rattle.sc_image.specs.Placing.{placed_modules, texts_behind};
ghost use Rattle.sc_image.specs.Running.{with_entry, without};
ghost use Rattle.sc_isa_image.specs.declared.image.Image.{Image};
ghost use Rattle.sc_isa_image.specs.Lookups.{word_at};
ghost use Rattle.sc_link.specs.declared.placed.Placed.{Placed};
ghost use Rattle.sc_link.specs.Entries.{is_object, texts_in};
ghost use Rattle.sc_link.specs.Linked.{AreApart, IsLinked};
ghost use Rattle.sc_places.specs.Layout.{behind_texts, text_end};
ghost use Rattle.sc_placed_laws.specs.Sound.{HasRegisters, IsSoundCode};
ghost use Rattle.sc_placed_laws.specs.Texts.{AreMade, AreNumbered, HasText, IsMade, Stand, StandTo};

/// Each word of a function's code is one of an instruction whose numbers fit their fields, or waits for an address in a field that has
/// room for it; the first word of a call is followed by a jump by its register (RISC-V unprivileged manual, RV32IM; RISC-V psABI).
pub fn code_is_sound()
    ensures { (st : Style) (f : Fun) → HasRegisters st → IsSoundCode (function_code st f) }
{}

/// The objects of the plain compiler, and those of each style whose copies stand in registers that there are, are made of such code.
pub fn objects_are_made()
    ensures plain { (core : Core) → IsMade (object_of plain_code core) }
    ensures styled { (core : Core) (style : Fun → Style) (tree : Fun → Fun) → ((f : Fun) → HasRegisters (style f)) → IsMade (object_of (λ f. function_code (style f) (tree f)) core) }
{}

/// In an image of such objects that stand one behind the other each word, of a stub or of a text with its relocations, is one of an
/// instruction, whose text is read as that instruction.
pub fn words_have_texts()
    ensures { (es : List Placed) (funs : List Key) (i : Image) (pc w : ℕ) → AreMade es → Stand 0x00100000 es → IsLinked es funs i → word_at i pc ≡ Some w → HasText w }
{}

/// The texts of formed modules that stand so are apart: no address is one of two of them, as linking asks.
pub fn texts_are_apart()
    ensures { (es : List Placed) (made : AreMade es) → AreNumbered es made → Stand 0x00100000 es → AreApart (texts_in es) }
{}

/// Modules that are placed from nothing stand one behind the other, where their texts fit; so does a list with one module more, which is
/// placed behind all others, and one without a module.
pub fn entries_stand()
    ensures first { (ms : List Linking) → texts_behind 0x00100000 ms ≤ 0x04100000 → StandTo (behind_texts (placed_modules ms)) 0x00100000 (placed_modules ms) }
    ensures more { (es : List Placed) (m : Linking) (keeps : List (Option ℕ)) → StandTo (behind_texts es) 0x00100000 es → text_end (is_object m.form) (behind_texts es) m.object.sections ≤ 0x04100000 → StandTo (behind_texts (with_entry es m keeps)) 0x00100000 (with_entry es m keeps) }
    ensures fewer { (es : List Placed) (name : List ℕ) → StandTo (behind_texts es) 0x00100000 es → StandTo (behind_texts (without name es)) 0x00100000 (without name es) }
    ensures inside { (es : List Placed) → behind_texts es ≤ 0x04100000 → StandTo (behind_texts es) 0x00100000 es → Stand 0x00100000 es }
{}
