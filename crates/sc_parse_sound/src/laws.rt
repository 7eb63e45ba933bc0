// What holds of the machine and the grammar.
ghost use Rattle.sc_parse_sound.specs.Claims.{TakesNoOther};

/// The machine takes no tokens as an expression but those of the grammar within the limits.
pub fn takes_expressions()
    ensures taken { TakesNoOther }
{}
