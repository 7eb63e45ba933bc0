// What holds of the refusals of the machines.
ghost use Rattle.sc_parse_laws.specs.Crowds.{RefusesCalls, RefusesLists};
ghost use Rattle.sc_parse_laws.specs.Sizes.{NeedsLittleRoom};
ghost use Rattle.sc_parse_laws.specs.Claims.{NamesMark, NamesLimit, NamesNoMark, NamesUnitMark, NamesUnitLimit, RefusesBeyond};

/// A construct that is left out is named only at a token where it shows, and a limit only where tokens pass it, in
/// expressions and in units; each unit of the grammar beyond the limits is refused for one, and so are tokens with more
/// than 31 arguments or parameters in a list, whatever comes behind them.
pub fn names_what_refuses()
    ensures marks { NamesMark }
    ensures limits { NamesLimit }
    ensures faults { NamesNoMark }
    ensures unit_marks { NamesUnitMark }
    ensures unit_limits { NamesUnitLimit }
    ensures beyond { RefusesBeyond }
    ensures calls { RefusesCalls }
    ensures lists { RefusesLists }
{}

/// An expression that is read has a room of at most 6,600 words, so that `room` may be asked for it.
pub fn reads_little()
    ensures room { NeedsLittleRoom }
{}
