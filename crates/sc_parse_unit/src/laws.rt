// What holds of the machine and the grammar.
ghost use Rattle.sc_parse_unit.specs.Claims.{FindsEachUnit, RefusesNoUnit, TakesNoOther};

/// The machine finds each unit of the grammar within the limits, takes nothing else for one, and refuses as none only
/// what is none.
pub fn reads_units()
    ensures found { FindsEachUnit }
    ensures taken { TakesNoOther }
    ensures refused { RefusesNoUnit }
{}
