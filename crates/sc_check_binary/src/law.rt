// What holds of every tree that the productions make.
ghost use Rattle.sc_check_binary.specs.Formed.{MakesFormed};

/// Every production makes a formed tree of formed operands: the operand of a conversion is none, and what is changed is an
/// lvalue. A law of the definitions; there is nothing to run.
pub fn makes_formed()
    ensures { MakesFormed }
{}
