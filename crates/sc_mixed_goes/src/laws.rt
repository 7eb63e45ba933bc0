// What holds of the goes of runs of both forms. Each function here does nothing: its contract is the law.
ghost use Rattle.sc_mixed_goes.specs.Shows.{ChangesShowTheMeaning, StartsAreRuns, WalksShowTheMeaning};
ghost use Rattle.sc_mixed_goes.specs.Stretches.{WalksAreMoves};

/// A go of a run of both forms, or a step of one instruction, is a stretch of moves, as the theorem on such runs has them.
#[tactic(auto)]
pub fn walks_are_moves()
    ensures { WalksAreMoves }
{}

/// A run of both forms that is not over as it starts stands at the first place of a run of the theorem.
#[tactic(auto)]
pub fn starts_are_runs()
    ensures { StartsAreRuns }
{}

/// A go, or a step of one instruction, leaves such a run where what it has shown is the first of what the meaning shows, under the history
/// of its texts; or over, as the meaning ends. From an undefined step of compiled code on no more is said, and not before.
#[tactic(auto)]
pub fn walks_show_the_meaning()
    ensures { WalksShowTheMeaning }
{}

/// A change of the texts at a stop is one more version of its history, and leaves it where it stands.
#[tactic(auto)]
pub fn changes_show_the_meaning()
    ensures { ChangesShowTheMeaning }
{}
