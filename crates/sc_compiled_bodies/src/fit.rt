// Worlds and builds of which the premises on runs of both forms hold. Each function here does nothing: its contract is the law.
ghost use Rattle.std.specs.Prelude.{List, None, Some, [], length, true, ℕ, ◌^◌, ◌≡◌, ◌≤◌};
ghost use Rattle.sc_base.specs.declared.key.Key.{Key};
ghost use Rattle.sc_isa_image.specs.Lookups.{value_of};
ghost use Rattle.sc_isa_image.specs.Stubs.{stub_address};
ghost use Rattle.sc_isa_image.specs.declared.image.Image.{Image};
ghost use Rattle.sc_like.specs.Alike.{Like};
ghost use Rattle.sc_like.specs.Unseen.{TellsForms};
ghost use Rattle.sc_meaning.specs.Behaviour.{Start, first_world};
ghost use Rattle.sc_meaning.specs.Beside.{empty_memory};
ghost use Rattle.sc_meaning.specs.Versions.{Text, births_of, callee_of};
ghost use Rattle.sc_compiled_frames.specs.Stubs.{stub_of};
ghost use Rattle.sc_compiled_frames.specs.Words.{AreStubs};
ghost use Rattle.sc_compiled_frames.specs.Worlds.{HoldsWords};
ghost use Rattle.sc_meaning.specs.World.{GoesOut, World, pass};
ghost use Rattle.sc_mem_store.specs.Apart.{AreOnce};
ghost use Rattle.sc_mixed.specs.Bridge.{is_code};
ghost use Rattle.sc_mixed.specs.declared.calls.Lower.{Lower};
ghost use Rattle.sc_mixed_means.specs.Owed.{CallsMean};
ghost use Rattle.sc_mixed_means.specs.Stages.{Stage, texts_of};
ghost use Rattle.sc_mixed_means.specs.Waiting.{AreStubsOf, IsFit};
ghost use Rattle.sc_program.specs.declared.storage.StaticId.{StaticId};

/// The memory of a run as it begins is fit, as its entry's call goes out, where its texts have no objects of static storage duration and
/// the functions have the numbers of their stubs.
#[tactic(auto, using(crate::proofs::First::first_fit))]
pub fn first_worlds_are_fit()
    ensures { (s : Start) (texts : List Text) (image : Image) (places : List (StaticId × ℕ)) → births_of texts ≡ [] → s.beside.memory ≡ Some (empty_memory s.stack s.heap) → s.heap ≤ 67108864 → s.stack ≤ 16777216 → AreOnce s.beside.functions → AreStubsOf image s.beside.functions → stub_address (length s.beside.functions) ≤ 2 ^ 32 → IsFit texts image places [] (pass GoesOut (first_world s)) }
{}

/// A fit memory holds the objects of its world, its words are values, and its functions have stubs: what the laws on the code of a module ask of memory.
/// And what happened tells the forms of the active calls, also in a world of the meaning that is alike.
#[tactic(auto, using(crate::proofs::First::fit_words, crate::proofs::First::fit_forms))]
pub fn fit_memories_hold_words()
    ensures words { (texts : List Text) (image : Image) (places : List (StaticId × ℕ)) (lower : List Lower) (w : World) → IsFit texts image places lower w → HoldsWords w × AreStubs w.beside.functions (stub_of w.beside.functions) }
    ensures forms { (texts : List Text) (image : Image) (places : List (StaticId × ℕ)) (lower : List Lower) (w v : World) → IsFit texts image places lower w → Like w v → TellsForms v }
{}

/// Where no compiled function has a stub in the image, no call crosses to compiled code, so nothing is owed.
#[tactic(auto, using(crate::proofs::First::no_stubs))]
pub fn without_stubs_nothing_is_owed()
    ensures { (s : Stage) → ((key : Key) → is_code (callee_of (texts_of s.past) key) ≡ true → value_of s.image key ≡ None) → CallsMean s }
{}
