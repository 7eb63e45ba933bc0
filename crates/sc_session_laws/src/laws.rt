// What holds of a session from its start on. Each function here does nothing: its contract is the law.
ghost use Rattle.std.specs.Prelude.{List, Option, None, ℕ};
ghost use Rattle.sc_words.specs.declared.answer.Answer.{Answer};
ghost use Rattle.sc_words.specs.declared.command.Command.{Command};
ghost use Rattle.sc_session.specs.declared.limits.Limits.{Limits};
ghost use Rattle.sc_session.specs.Modules.{texts};
ghost use Rattle.sc_session.specs.Plain.{Plain};
ghost use Rattle.sc_session.specs.Transcript.{AnswersTo, Moment, empty};
ghost use Rattle.sc_session_laws.specs.Courses.{Course, StandsSo, Tells};
ghost use Rattle.sc_session_laws.specs.Follows.{Keeps};

/// Whatever a session answers tells of its run what the meaning of the program gives, and the session behind it stands there; so it
/// does from its start on, whatever the commands are. A run is one of the meaning's here as long as all its modules are interpreted:
/// each change of them at a stop is one more version of its history.
#[tactic(auto)]
pub fn answers_tell_the_meaning()
    ensures first { (limits : Limits) (probes : ℕ) → Keeps (empty limits probes) None }
    ensures tells { (old : Moment) (run : Option Course) (c : Command) (front : List ℕ) (said : Answer) (new : Moment) → Keeps old.session run → AnswersTo old c front said new → (after : Option Course) × Tells old run c front said (texts new.session.modules) after × Keeps new.session after }
    ensures stands { (session : Plain) (run : Option Course) → Keeps session run → StandsSo session run }
{}
