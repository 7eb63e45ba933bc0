// What holds of a history that gets one version more. Each function here does nothing: its contract is the law.
ghost use Rattle.std.specs.Prelude.{◌≡◌, ◌<◌, ◌≤◌, ◌++◌, [], ◌∷◌, ℕ, List};
ghost use Rattle.sc_base.specs.declared.key.Key.{Key};
ghost use Rattle.sc_meaning.specs.World.{Event, Happens, World, pass};
ghost use Rattle.sc_meaning.specs.Outcomes.{and_then, went};
ghost use Rattle.sc_meaning.specs.Versions.{History, Text, Version, version_at};
ghost use Rattle.sc_meaning.specs.Changes.{changed, happened, settled};
ghost use Rattle.sc_interp_machine.specs.Runs.{State, advance};
ghost use Rattle.sc_interp_laws.specs.Worlds.{world_of};
ghost use Rattle.sc_interp.specs.Shows.{shown};
ghost use Rattle.sc_interp.specs.Steady as steady;
ghost use Rattle.sc_meaning.specs.Laws.{HaveCome};
ghost use Rattle.sc_interp_change_laws.specs.Following.{changed_state, reached_in, LastShows, Shows};
ghost use Rattle.sc_interp_change_laws.specs.Showing.{IsEvent};

/// Where a run stands, and every version so far has come, a change of its texts is the next version of the history, at the present
/// count of events: with it the world settles as without it, and then changes from the texts that were present to those of the
/// version. So it is behind an event that passes. From then on the texts of the version are present.
#[tactic(auto, using(crate::proofs::Later::changes_now, crate::proofs::Later::is_present))]
pub fn changes_are_the_next_version()
    ensures settles { (h : History) (v : Version) (w : World) → HaveCome v.count h → w.count ≡ v.count → settled (h ++ v ∷ []) w ≡ and_then (settled h w) (λ _ u. changed (version_at h v.count) v.texts u) }
    ensures passes { (h : History) (v : Version) (e : Event) (w : World) → HaveCome v.count h → (pass (Happens e) w).count ≡ v.count → happened (h ++ v ∷ []) e w ≡ and_then (happened h e w) (λ _ u. changed (version_at h v.count) v.texts u) }
    ensures present { (h : History) (v : Version) (n : ℕ) → HaveCome n h → v.count ≤ n → version_at (h ++ v ∷ []) n ≡ v.texts }
{}

/// A version that comes at a later event changes nothing, and its texts are not present.
#[tactic(auto, using(crate::proofs::Later::changes_nothing_before, crate::proofs::Later::is_not_present_before))]
pub fn versions_change_nothing_before()
    ensures settles { (h : History) (v : Version) (w : World) → w.count < v.count → settled (h ++ v ∷ []) w ≡ settled h w }
    ensures present { (h : History) (v : Version) (n : ℕ) → n < v.count → version_at (h ++ v ∷ []) n ≡ version_at h n }
{}

/// Versions that came at earlier events change nothing again.
#[tactic(auto)]
pub fn versions_change_nothing_behind()
    ensures { (m : ℕ) (h : History) (w : World) → m < w.count → HaveCome m h → settled h w ≡ went w }
{}

/// A run whose last step ended with an event gets one version more there, behind all that have come: with it the run stands where it
/// stood, in the world in which the texts have changed; and wherever fewer events have passed it stands as without it.
#[tactic(auto, using(crate::proofs::Changed::reached_before, crate::proofs::Changed::reached_changed, crate::proofs::Changed::shows_still))]
pub fn a_change_is_a_version_of_the_run()
    ensures before { (h : History) (v : Version) (key : Key) (w : World) (k : ℕ) → (world_of (reached_in h key w k)).count < v.count → reached_in h key w k ≡ reached_in (h ++ v ∷ []) key w k }
    ensures there { (h : History) (v : Version) (key : Key) (w : World) (k : ℕ) → HaveCome v.count h → LastShows h key w k v.count → reached_in (h ++ v ∷ []) key w k ≡ changed_state (version_at h v.count) v.texts (reached_in h key w k) }
    ensures again { (h : History) (v : Version) (key : Key) (w : World) (k : ℕ) → LastShows h key w k v.count → LastShows (h ++ v ∷ []) key w k v.count }
{}

/// Where all versions of a run have come, its next step is that of a program of the present texts alone. A step that shows a line or an
/// entry ends with this event.
#[tactic(auto, using(crate::proofs::Going::step_steady, crate::proofs::Showing::step_shows))]
pub fn present_texts_make_the_steps()
    ensures steps { (h : History) (texts : List Text) (s : State) → HaveCome (world_of s).count h → version_at h (world_of s).count ≡ texts → advance h s ≡ steady.advance (steady.alone texts) texts s }
    ensures shows { (h : History) (texts : List Text) (s : State) → IsEvent (shown h texts s) → Shows (world_of s).count texts (world_of (steady.advance h texts s)).count (λ g. advance g s) }
{}
