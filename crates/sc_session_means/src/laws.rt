// What holds of a session's runs of both forms. The function here does nothing: its contract is the law.
ghost use Rattle.std.specs.Prelude.{List, None, Option, ℕ};
ghost use Rattle.sc_mixed_goes.specs.Shows.{Course};
ghost use Rattle.sc_session.specs.Transcript.{AnswersTo, Moment, empty};
ghost use Rattle.sc_session.specs.declared.limits.Limits.{Limits};
ghost use Rattle.sc_session_means.specs.Follows.{Keeps};
ghost use Rattle.sc_session_means.specs.Sessions.{Placing, Tells};
ghost use Rattle.sc_words.specs.declared.answer.Answer.{Answer};
ghost use Rattle.sc_words.specs.declared.command.Command.{Command};

/// Whatever a session answers tells of its run of both forms what the meaning of C gives, where the compiled texts of the run are right:
/// from its start by `run` on, through the changes at its stops, of which one comes at each.
#[tactic(auto)]
pub fn sessions_show_the_meaning()
    ensures first { (at : Placing) (limits : Limits) (probes : ℕ) → Keeps at (empty limits probes) None }
    ensures tells { (at : Placing) (old : Moment) (run : Option Course) (c : Command) (front : List ℕ) (said : Answer) (new : Moment) → Keeps at old.session run → AnswersTo old c front said new → (after : Option Course) × Tells at old run c said after × Keeps at new.session after }
{}
