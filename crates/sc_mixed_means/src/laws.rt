// What holds of runs of both forms, where compiled texts are right. Each function here does nothing: its contract is the law.
ghost use Rattle.std.specs.Prelude.{List, ℕ};
ghost use Rattle.sc_mixed_means.specs.Owed.{CompiledTextsAreRight};
ghost use Rattle.sc_mixed_means.specs.Places.{MovesKeepTheMeaning};
ghost use Rattle.sc_mixed_means.specs.Runs.{AreInOrder, ChangesEndAsMeant, RunsEndAsMeant, RunsReturnAsMeant, RunsShowTheirMeaning, history_of};
ghost use Rattle.sc_mixed_means.specs.Sources.{BuildsAreSources};
ghost use Rattle.sc_mixed_means.specs.Stages.{Build, Fits, Look, Past};

/// What a place of a run of both forms means before a move, it means after it: a step of interpreted calls, a crossing from one form to the other and back,
/// an instruction or a service. Of compiled code that asks what it owes, and nothing else.
#[tactic(auto, using(crate::proofs::Moves::moves_keep))]
pub fn moves_keep_the_meaning()
    ensures { MovesKeepTheMeaning }
{}

/// What a run of both forms shows, through moves and changes of its texts, begins what the meaning of its call shows under a history of these texts. Where a
/// move or a change ends the run, or the entry's call has returned, the meaning ends so. From an undefined step of compiled code on no more is said, and not before.
#[tactic(auto, using(crate::proofs::Runs::runs_show, crate::proofs::Runs::runs_end, crate::proofs::Runs::changes_over, crate::proofs::Returns::runs_return))]
pub fn mixed_runs_show_their_meaning()
    ensures shown { RunsShowTheirMeaning }
    ensures ends { RunsEndAsMeant }
    ensures changes { ChangesEndAsMeant }
    ensures returned { RunsReturnAsMeant }
{}

/// The history of a run's texts is one that the run can have, and no further version comes in it.
#[tactic(auto, using(crate::proofs::Histories::history_fits))]
pub fn every_run_has_a_history()
    ensures { (p : Past) → AreInOrder p → (until : ℕ) → Fits p (history_of p) until }
{}

/// Where no text is compiled, nothing is owed.
#[tactic(auto, using(crate::proofs::Sources::nothing_owed))]
pub fn interpreted_texts_owe_nothing()
    ensures { (look : Look) (bs : List Build) → BuildsAreSources bs → CompiledTextsAreRight look bs }
{}
