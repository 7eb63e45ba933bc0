// What holds of a run whose texts change. Each function here does nothing: its contract is the law.
ghost use Rattle.std.specs.Prelude.{◌≡◌, ◌<◌, ◌≤◌, [], ℕ, List, Option, Some, true};
ghost use Rattle.sc_base.specs.declared.key.Key.{Key};
ghost use Rattle.sc_meaning.specs.Behaviour.{Start, ending, events_upto, first_world};
ghost use Rattle.sc_meaning.specs.Laws.{Leads, with_history};
ghost use Rattle.sc_meaning.specs.Outcomes.{Ending, world_at};
ghost use Rattle.sc_meaning.specs.Versions.{History, Text};
ghost use Rattle.sc_meaning.specs.World.{Event, events};
ghost use Rattle.sc_interp_machine.specs.Runs.{Ends};
ghost use Rattle.sc_interp_laws.specs.Events.{IsPrefix};
ghost use Rattle.sc_interp_laws.specs.Lean.{IsLean};
ghost use Rattle.sc_interp_laws.specs.Near.{near};
ghost use Rattle.sc_interp_world.specs.Outputs.{output};
ghost use Rattle.sc_interp.specs.Ends.{start_of};
ghost use Rattle.sc_interp.specs.Steady.{alone};
ghost use Rattle.sc_words.specs.declared.stop.StopAt.{StopAt};
ghost use Rattle.sc_words.specs.declared.stop.Walk.{Walk};
ghost use Rattle.sc_world.specs.declared.halt.Halt.{Halt};
ghost use Rattle.sc_world.specs.Changing.{changed_standing};
ghost use Rattle.sc_world.specs.Goes.{Goes, started};
ghost use Rattle.sc_world.specs.Standing.{Standing, has_ended, world_of};
ghost use Rattle.sc_world_change_laws.specs.Through.{HaltsBehind, IsBehindEvent, IsRunThrough, with_version};
ghost use Rattle.sc_world_change_laws.specs.Still.{IsStill};
ghost use Rattle.sc_world_laws.specs.Told.{IsAt, now};

/// A run from its start on is a run through one version. Each go under the present texts keeps it a run through its history, and
/// one that halts at a stop stands behind an event. Where it stands so and its texts change, it is a run through the history with one
/// version more, which comes at this event, and it stands behind it still: the next change may come there too.
#[tactic(auto, using(crate::proofs::Through::begins_through, crate::proofs::Through::goes_through, crate::proofs::Through::change_through, crate::proofs::Through::change_behind))]
pub fn runs_go_through_their_history()
    ensures begins { (texts : List Text) (key : Key) (stack heap : ℕ) (input : List ℕ) → IsRunThrough (start_of texts key stack heap input) (alone texts) texts (Some (started texts key stack heap input)) }
    ensures goes { (s : Start) (h : History) (texts : List Text) (stops : List StopAt) (walk : Walk) (turns : ℕ) (old : Option Standing) (halt : Halt) (new : Option Standing) → Goes texts stops walk turns old halt new → IsRunThrough s h texts old → IsRunThrough s h texts new × HaltsBehind s h texts halt new }
    ensures changes { (s : Start) (h : History) (old new : List Text) (m : Standing) → IsBehindEvent s h old m → IsRunThrough s (with_version h new (world_of m.state)) new (Some (changed_standing old new m)) }
    ensures again { (s : Start) (h : History) (old new : List Text) (m : Standing) → IsBehindEvent s h old m → IsBehindEvent s (with_version h new (world_of m.state)) new (changed_standing old new m) }
{}

/// A change of its texts leaves a run where it stands: no step is made, no turn is taken, no event passes, no byte is written, and the
/// active calls stay. So it stands among its events as before, is as lean, and as near to its next work.
#[tactic(auto, using(crate::proofs::Still::still, crate::proofs::Still::still_at, crate::proofs::Still::still_lean, crate::proofs::Still::still_near))]
pub fn changes_leave_a_run_where_it_stands()
    ensures still { (old new : List Text) (m : Standing) → IsStill m (changed_standing old new m) }
    ensures at { (old new : List Text) (m : Standing) (es : List Event) → IsAt m es → now m ≡ [] → IsAt (changed_standing old new m) es × (now (changed_standing old new m) ≡ []) }
    ensures lean { (old new : List Text) (m : Standing) → IsLean m.state → IsLean (changed_standing old new m).state }
    ensures near { (old new : List Text) (m : Standing) → near (changed_standing old new m).state ≤ near m.state }
{}

/// What a run through its history has shown so far is the first of what the meaning gives for the history, at every bound above its
/// steps: the events, the bytes that were written, and all that happened. The start of the run leads to where it stands. Where it is
/// over, all events have passed, and it ended as the meaning does.
#[tactic(auto, using(crate::proofs::Through::first_events, crate::proofs::Through::all_events, crate::proofs::Through::through_leads, crate::proofs::Through::through_comes, crate::proofs::Through::ends_as_meant))]
pub fn runs_show_what_their_history_gives()
    ensures shows { (s : Start) (h : History) (texts : List Text) (m : Standing) → IsRunThrough s h texts (Some m) → (n : ℕ) → m.steps < n → IsPrefix (events (world_of m.state).trail) (events_upto n (with_history s h)) }
    ensures happens { (s : Start) (h : History) (texts : List Text) (m : Standing) → IsRunThrough s h texts (Some m) → (n : ℕ) → m.steps < n → Leads (world_of m.state) (world_at (ending n (with_history s h))) }
    ensures written { (s : Start) (h : History) (texts : List Text) (m : Standing) → IsRunThrough s h texts (Some m) → (n : ℕ) → m.steps < n → IsPrefix (output (world_of m.state).trail) (output (world_at (ending n (with_history s h))).trail) }
    ensures comes { (s : Start) (h : History) (texts : List Text) (m : Standing) → IsRunThrough s h texts (Some m) → Leads (first_world s) (world_of m.state) }
    ensures over { (s : Start) (h : History) (texts : List Text) (m : Standing) → IsRunThrough s h texts (Some m) → has_ended m.state ≡ true → (n : ℕ) → m.steps < n → events (world_of m.state).trail ≡ events_upto n (with_history s h) }
    ensures ends { (s : Start) (h : History) (texts : List Text) (m : Standing) (e : Ending) → IsRunThrough s h texts (Some m) → m.state ≡ Ends e → (n : ℕ) → m.steps < n → ending n (with_history s h) ≡ e }
{}
