// Functions that take nothing: compiled code can meet what is asked of it. Each function here does nothing: its contract is the law.
ghost use Rattle.std.specs.Prelude.{Some, [], true, ◌∷◌, ◌≡◌, ◌≤◌, suc, ℕ};
ghost use Rattle.sc_base.specs.declared.key.Key.{Key};
ghost use Rattle.sc_core.specs.declared.module.Core.{Core};
ghost use Rattle.sc_core.specs.declared.module.Fun.{Fun};
ghost use Rattle.sc_isa_image.specs.Lookups.{value_of};
ghost use Rattle.sc_isa_image.specs.Stubs.{stub_address};
ghost use Rattle.sc_isa_image.specs.declared.image.Image.{Image};
ghost use Rattle.sc_meaning.specs.Versions.{callee_of};
ghost use Rattle.sc_mixed.specs.Bridge.{is_code};
ghost use Rattle.sc_mixed_means.specs.Owed.{CompiledTextsAreRight};
ghost use Rattle.sc_mixed_means.specs.Stages.{Build, Look, Past, texts_of};
ghost use Rattle.sc_compiled_bodies.specs.Caller.{HasFunctions, build as calling_build, caller};
ghost use Rattle.sc_compiled_bodies.specs.Empty.{IsEmpty};
ghost use Rattle.sc_compiled_bodies.specs.Procedures.{IsProcedure, last_stage};
ghost use Rattle.sc_compiled_bodies.specs.Storing.{IsStoring};
ghost use Rattle.sc_compiled_bodies.specs.Small.{HasFunction, build, key as small_key};

/// The premise on compiled texts holds of each build all of whose compiled functions are `T f(void)` without automatic objects, if the code of each
/// body does what the body means (`GivesWay`) where the functions that it calls return within fewer moves, and every way in which it ends goes on behind it
/// or returns, with a value or without one, in a run whose texts do not change: from the stub to the return each move of such a function is one of the
/// meaning's call, and such functions and interpreted calls may call it as often as they like.
#[tactic(auto, using(crate::proofs::Whole::procedures_right))]
pub fn functions_that_do_their_bodies_are_right()
    ensures { (look : Look) (b : Build) → ((p : Past) → texts_of p ≡ b.texts → (key : Key) → is_code (callee_of b.texts key) ≡ true → IsProcedure (last_stage look b p) key) → CompiledTextsAreRight look (b ∷ []) }
{}

/// So it is of each build all of whose compiled functions are `T f(void)` of statements `x = n;`, `g();`, `return;` and `return n;`, where the image has the
/// objects of these names at the places of the build and all that is called is such a function, in a run whose texts do not change. A move looks two deeper
/// than statements are deep, which is 3 for those that store, and 4 for those that call.
#[tactic(auto, using(crate::proofs::Storing::storing_texts))]
pub fn functions_that_store_and_call_are_right()
    ensures { (look : Look) (b : Build) (deep : ℕ) → 3 ≤ deep → suc (suc deep) ≤ look.step → ((key : Key) → is_code (callee_of b.texts key) ≡ true → IsStoring deep b.texts b.image b.places key) → CompiledTextsAreRight look (b ∷ []) }
{}

/// So it is of each build all of whose compiled functions are `void f(void) { }`, in a run whose texts do not change: from the
/// stub to the return each move of such a function is one of the meaning's call, and interpreted calls may call it as often as they like.
#[tactic(auto, using(crate::proofs::Nothing::empty_texts))]
pub fn functions_without_statements_are_right()
    ensures { (look : Look) (b : Build) → 2 ≤ look.step → ((key : Key) → is_code (callee_of b.texts key) ≡ true → IsEmpty b.texts b.image key) → CompiledTextsAreRight look (b ∷ []) }
{}

/// And so of one build by its words: one text with one function in object form, which is called by its key and has a stub, in an image whose tables
/// have the ten words that the generator writes for it. Interpreted calls cross to it, and the premise on compiled texts holds.
#[tactic(auto, using(crate::proofs::Small::small_right, crate::proofs::Small::small_crosses))]
pub fn one_function_is_right()
    ensures right { (f : Fun) (c : Core) (i : Image) → HasFunction i → (look : Look) → 2 ≤ look.step → CompiledTextsAreRight look (build f c i ∷ []) }
    ensures crosses { (f : Fun) (c : Core) (i : Image) → HasFunction i → (is_code (callee_of (build f c i).texts small_key) ≡ true) × (value_of i small_key ≡ Some (stub_address 0)) }
{}

/// And so of one build by its words in which a function stores, calls another and returns: one text with `void f(void) { x = 1; g(); return; }` and
/// `int g(void) { return 3; }` in object form, in an image whose tables have their stubs, the twenty words that the generator writes for the one and the
/// seventeen that it writes for the other, where the build has a place for x. Interpreted calls cross to f, and the premise on compiled texts holds.
#[tactic(auto, using(crate::proofs::Caller::caller_right, crate::proofs::Caller::caller_crosses))]
pub fn two_functions_are_right()
    ensures right { (f : Fun) (c : Core) (i : Image) → HasFunctions i → (look : Look) → 6 ≤ look.step → CompiledTextsAreRight look (calling_build f c i ∷ []) }
    ensures crosses { (f : Fun) (c : Core) (i : Image) → HasFunctions i → (is_code (callee_of (calling_build f c i).texts caller) ≡ true) × (value_of i caller ≡ Some (stub_address 0)) }
{}
