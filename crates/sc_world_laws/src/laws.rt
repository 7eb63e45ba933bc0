// What holds of every run that is kept between goes. Each function here does nothing: its contract is the law.
ghost use Rattle.std.specs.Prelude.{◌≡◌, ◌+◌, ◌*◌, ◌<◌, ◌≤◌, ◌-◌, ◌/◌, List, None, Some, [], true, ℕ};
ghost use Rattle.sc_base.specs.declared.key.Key.{Key};
ghost use Rattle.sc_words.specs.declared.stop.StopAt.{StopAt};
ghost use Rattle.sc_words.specs.declared.stop.Walk.{Walk};
ghost use Rattle.sc_meaning.specs.World.{Event, World, events, work};
ghost use Rattle.sc_meaning.specs.Versions.{Text};
ghost use Rattle.sc_meaning.specs.Laws.{Leads};
ghost use Rattle.sc_interp_laws.specs.Events.{IsPrefix};
ghost use Rattle.sc_interp_laws.specs.Inside.{AreHidden};
ghost use Rattle.sc_interp_laws.specs.Paid.{AllPay, credit, done, pays};
ghost use Rattle.sc_interp.specs.Steady.{alone, advance};
ghost use Rattle.sc_interp.specs.Shows.{shown};
ghost use Rattle.sc_interp_machine.specs.Runs.{State};
ghost use Rattle.sc_world_laws.specs.Formed.{AreFormed};
ghost use Rattle.sc_world_laws.specs.Told.{HaltsAt, IsAt, IsFramed, IsLastAt, PassedEach, Tells, event_of, now, selects};
ghost use Rattle.sc_world.specs.declared.halt.Halt.{Halt};
ghost use Rattle.sc_world.specs.declared.halt.Halt.TheVariants.{Paused};
ghost use Rattle.sc_interp_laws.specs.Lean.{AreLean, IsLean};
ghost use Rattle.sc_world.specs.Goes.{GoneBy, Goes, after, started, stepped};
ghost use Rattle.sc_world.specs.Standing.{Standing, has_ended, world_of};
ghost use Rattle.sc_world.specs.Wants.{Want, rests};

/// The turns that a step takes, its bytes among them, are paid by credit that it uses up and by work, of which a unit pays five turns;
/// and so are those of any number of steps. It may only not be a step that is made for nothing (`pays`), and a run
/// that is over makes none.
#[tactic(auto, using(crate::proofs::Turns::step_paid, crate::proofs::Turns::turns_paid))]
pub fn turns_are_paid_by_work()
    ensures one { (texts : List Text) (m : Standing) → pays m.state ≡ true → (stepped texts m).turns + credit (stepped texts m).state + 5 * done (world_of m.state) ≤ m.turns + credit m.state + 5 * done (world_of (stepped texts m).state) }
    ensures all { (k : ℕ) (texts : List Text) (m : Standing) → AllPay k (alone texts) m.state → (after k texts m).turns + credit (after k texts m).state + 5 * done (world_of m.state) ≤ m.turns + credit m.state + 5 * done (world_of (after k texts m).state) }
{}

/// One step adds at most one event at which a go may halt; it is the last thing that happens in the step, and it is the one that
/// is shown.
#[tactic(auto, using(crate::proofs::Halting::step_told, crate::proofs::Halting::step_is_framed))]
pub fn steps_tell_what_is_shown()
    ensures tells { (texts : List Text) (s : State) → IsFramed s → Tells (event_of (shown (alone texts) texts s) (world_of (advance (alone texts) texts s)).frames) (world_of s) (world_of (advance (alone texts) texts s)) }
    ensures framed { (texts : List Text) (s : State) → IsFramed s → IsFramed (advance (alone texts) texts s) }
{}

/// A run stands among its events from its start on, where nothing was looked at yet, and a go leads from such a place to another.
#[tactic(auto, using(crate::proofs::Halting::run_starts, crate::proofs::Halting::goes_at))]
pub fn runs_stand_among_their_events()
    ensures starts { (texts : List Text) (key : Key) (stack : ℕ) (heap : ℕ) (input : List ℕ) → (old : List Event) × IsAt (started texts key stack heap input) old × AreHidden old }
    ensures goes_on { (texts : List Text) (stops : List StopAt) (walk : Walk) (turns : ℕ) (m : Standing) (old : List Event) (halt : Halt) (n : Standing) → IsAt m old → Goes texts stops walk turns (Some m) halt (Some n) → IsAt n (events (world_of n.state).trail) }
{}

/// A go halts at the first event that is selected behind the old place, of any events of which those that passed are the first, and
/// all where the run is over: at a stop or where the walk selects; or it passes none that is selected, to the end or to where its
/// turns were taken.
#[tactic(auto, using(crate::proofs::Halting::goes_halt))]
pub fn goes_halt_at_the_first_selected_event()
    ensures { (texts : List Text) (stops : List StopAt) (walk : Walk) (turns : ℕ) (m : Standing) (old : List Event) (halt : Halt) (n : Standing) (all : List Event) → IsAt m old → Goes texts stops walk turns (Some m) halt (Some n) → IsPrefix (events (world_of n.state).trail) all → (has_ended n.state ≡ true → events (world_of n.state).trail ≡ all) → HaltsAt (selects stops walk (world_of m.state).enters) halt old all (events (world_of n.state).trail) }
{}

/// A go that halts at an event halts right behind it: that is the last thing that happened, and the innermost call was entered by
/// it, or came by it to its present line. All that was shown was looked at then.
#[tactic(auto)]
pub fn goes_halt_right_behind_events()
    ensures seen { (texts : List Text) (stops : List StopAt) (walk : Walk) (turns : ℕ) (m : Standing) (old : List Event) (halt : Halt) (n : Standing) → IsAt m old → Goes texts stops walk turns (Some m) halt (Some n) → now n ≡ [] }
    ensures last { (texts : List Text) (stops : List StopAt) (walk : Walk) (turns : ℕ) (m : Standing) (old : List Event) (halt : Halt) (n : Standing) (v : World) → IsAt m old → Goes texts stops walk turns (Some m) halt (Some n) → v.trail ≡ [] → Leads v (world_of n.state) → IsLastAt halt (world_of n.state) }
{}

/// A single step is a move. In whatever moves goes are made, two from one place that halt before their turns are taken halt for one reason at
/// one place, behind as many steps.
#[tactic(auto, using(crate::proofs::Moving::one_move, crate::proofs::Moving::one_place))]
pub fn moves_leave_where_a_go_halts()
    ensures one { (texts : List Text) (want : Want) (h : Halt) (last : Standing) (m : Standing) → rests want m ≡ None → GoneBy texts want h last (stepped texts m) → GoneBy texts want h last m }
    ensures place { (texts : List Text) (want : Want) (g : Halt) (h : Halt) (last : Standing) (end : Standing) (m : Standing) → GoneBy texts want g last m → GoneBy texts want h end m → ((t : ℕ) → g ≡ Paused t → ⊥) → ((t : ℕ) → h ≡ Paused t → ⊥) → (g ≡ h) × (last.state ≡ end.state) × (last.steps ≡ end.steps) }
{}

/// A bound on the meaning that is enough for a run's turns, whatever number of nodes its program is said to have.
#[tactic(auto, using(crate::proofs::Halting::turns_bound))]
pub fn turns_bound_the_meaning()
    ensures { (m : Standing) (old : List Event) (nodes : ℕ) → IsAt m old → m.steps < 8 * (m.turns + 1) * (nodes + 1) }
{}

/// In a run whose program is lean a go that pauses has passed each event before which its work is below a 64th of its turns, of all
/// that happens in any world to which it leads. The
/// start of such a run is lean, and so is each place that a go leads to.
#[tactic(auto)]
pub fn pauses_come_late()
    ensures work { (texts : List Text) (stops : List StopAt) (walk : Walk) (turns : ℕ) (m : Standing) (t : ℕ) (n : Standing) → AreLean (alone texts) → IsLean m.state → Goes texts stops walk turns (Some m) (Paused t) (Some n) → t / 64 ≤ work (world_of n.state).trail - work (world_of m.state).trail }
    ensures passed { (texts : List Text) (stops : List StopAt) (walk : Walk) (turns : ℕ) (m : Standing) (t : ℕ) (n : Standing) (v : World) → AreLean (alone texts) → IsLean m.state → Goes texts stops walk turns (Some m) (Paused t) (Some n) → Leads (world_of n.state) v → PassedEach t (world_of m.state).trail (world_of n.state).trail v.trail }
    ensures starts { (texts : List Text) (key : Key) (stack : ℕ) (heap : ℕ) (input : List ℕ) → AreLean (alone texts) → IsLean (started texts key stack heap input).state }
    ensures keeps { (texts : List Text) (stops : List StopAt) (walk : Walk) (turns : ℕ) (m : Standing) (halt : Halt) (n : Standing) → AreLean (alone texts) → IsLean m.state → Goes texts stops walk turns (Some m) halt (Some n) → IsLean n.state }
{}

/// A program of checked modules is lean: no conversion in it is that of a conversion, no `switch` has two labels `default`, and
/// each piece of an initialiser has a byte.
#[tactic(auto)]
pub fn formed_programs_are_lean()
    ensures { (texts : List Text) → AreFormed texts → AreLean (alone texts) }
{}
