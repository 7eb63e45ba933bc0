// Why an initialiser is refused.
ghost use Rattle.std.specs.Prelude.{◌≡◌};

use sc_check_operand::{Cause, Diagnostic};
use sc_check_scope::{CheckFault, Problem};

/// A constant is wanted in a construct of this line.
pub(crate) fn not_constant(line: u32) -> CheckFault
    ensures { result ≡ CheckFault.Found (Problem.Typing (record { cause = Cause.NotConstant; line = line })) }
{
    CheckFault::Found(Problem::Typing(Diagnostic {
        cause: Cause::NotConstant,
        line,
    }))
}
