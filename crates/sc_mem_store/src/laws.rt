// What words of a memory stand for, and what its tests find. The functions do nothing: their contracts are the laws.
ghost use Rattle.std.specs.Prelude.{◌≡◌, ◌^◌, ◌<◌, List};
ghost use Rattle.sc_base.specs.declared.key.Key.{Key};
ghost use Rattle.sc_base.specs.declared.memory.Word.{Word};
ghost use Rattle.sc_objects.specs.declared.objects.Obj.{Obj};
ghost use Rattle.sc_mem.specs.Flat.{Flat};
ghost use Rattle.sc_meaning.specs.World.{Object};
ghost use Rattle.sc_mem_agree.specs.Agreement.{Agree};
ghost use Rattle.sc_mem_store.specs.Apart.{AreBelow, AreOnce};
ghost use Rattle.sc_mem_store.specs.Holding.{Holds, IsTag, value_at};

/// A memory that holds the objects of a run agrees with them, so that its tests of undefined steps are those of the meaning.
#[tactic(auto, using(crate::proofs::Agreeing::held_agree))]
pub fn held_objects_agree()
    ensures { (objects : List Object) (m : Flat) (functions : List Key) → Holds objects m functions → Agree objects m.objects }
{}

/// Every word is a value, and no two words are the same one.
pub fn words_have_values_of_their_own()
    ensures { (functions : List Key) (table : List Obj) (v w : Word) → AreOnce functions → AreBelow table → IsTag table v.tag → IsTag table w.tag → v.bits < 2 ^ 32 → w.bits < 2 ^ 32 → value_at functions table v.tag v.bits ≡ value_at functions table w.tag w.bits → (v.tag ≡ w.tag) × (v.bits ≡ w.bits) }
{}
