// What holds of the machine of runs of both forms. Each function here does nothing: its contract is the law.
ghost use Rattle.std.specs.Prelude.{◌≡◌, ◌⊎◌, [], List, None, Ok, Result};
ghost use Rattle.sc_interp.specs.declared.going.Going.{Going};
ghost use Rattle.sc_isa_image.specs.declared.image.Image.{Image};
ghost use Rattle.sc_meaning.specs.Versions.{Text};
ghost use Rattle.sc_meaning.specs.World.{World};
ghost use Rattle.sc_mixed.specs.Adding.{Adds};
ghost use Rattle.sc_mixed.specs.Goes.{Goes};
ghost use Rattle.sc_mixed.specs.Machine.{Moves, StepsFrom};
ghost use Rattle.sc_mixed.specs.Sources.{AreSources};
ghost use Rattle.sc_mixed.specs.Standing.{IsLost, Standing, status_in};
ghost use Rattle.sc_mixed.specs.declared.broken.Break.{Break};
ghost use Rattle.sc_mixed.specs.declared.calls.Calls.{Calls};
ghost use Rattle.sc_mixed.specs.declared.calls.Moved.{Moved};
ghost use Rattle.sc_mixed.specs.declared.calls.Next.{Next as Coming};
ghost use Rattle.sc_mixed.specs.declared.calls.Next.TheVariants.{Steps};
ghost use Rattle.sc_world.specs.Standing.{state_of};
ghost use Rattle.sc_world.specs.Wants.{Want};
ghost use Rattle.sc_world.specs.declared.halt.Halt.{Halt};

/// In a program all of whose modules are interpreted, where nothing waits below its calls, a move is the step of the machine of interpreted
/// programs, with what it shows and costs; and nothing waits below behind it.
#[tactic(auto, using(crate::proofs::Sources::as_before))]
pub fn interpreted_programs_go_as_before()
    ensures { (texts : List Text) (i : Image) (g : Going) (c : Calls) (w : World) (result : Result Moved Break) (next : Coming) (d : Calls) (v : World) → AreSources texts → c.lower ≡ [] → status_in g c ≡ None → Moves texts i (Steps g) c w result next d v → StepsFrom texts (state_of g c.callers w) c result next d v }
{}

/// A move behind which the run goes on adds some things that happen to what happened before, and nothing else makes its world another, but
/// for words of memory beside all objects; and memory stays as large as it is. So does a go, but one in which no room was left for the run.
#[tactic(auto, using(crate::proofs::Growing::moves_lead, crate::proofs::Growing::goes_lead))]
pub fn moves_add_to_what_happened()
    ensures moves { (texts : List Text) (i : Image) (next after : Coming) (c d : Calls) (w v : World) (moved : Moved) → Moves texts i next c w (Ok moved) after d v → Adds w v }
    ensures goes { (texts : List Text) (want : Want) (first : Standing) (halt : Halt) (last : Standing) → Goes texts want first halt last → IsLost last ⊎ Adds first.world last.world }
{}
