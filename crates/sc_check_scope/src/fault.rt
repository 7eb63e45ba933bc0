// Why a construct is refused: a rule of expressions or one of declarations.
ghost use Rattle.std.specs.Prelude.{◌≡◌};

use sc_base::NoMemory;
use sc_check_declare::{Failure, Reason, Refused};
use sc_check_operand::{Cause, Diagnostic, TypeFault};

/// The rule that a construct breaks, with its line.
#[derive(Clone, Copy, Debug, PartialEq, Eq)]
pub enum Problem {
    Typing(Diagnostic),
    Declaring(Refused),
}

/// Why a construct has no typed tree.
#[derive(Clone, Copy, Debug, PartialEq, Eq)]
pub enum CheckFault {
    Found(Problem),
    NoMemory,
}

impl From<NoMemory> for CheckFault {
    ghost use Rattle.sc_check_scope.specs.declared.fault.CheckFault.TheVariants as f;

    ghost from_gives = { λ _ e. e ≡ f.NoMemory };

    fn from(_: NoMemory) -> CheckFault {
        CheckFault::NoMemory
    }
}

impl From<TypeFault> for CheckFault {
    ghost use Rattle.sc_check_scope.specs.Steps.{of_type_fault};

    ghost from_gives = { λ x e. e ≡ of_type_fault x };

    fn from(fault: TypeFault) -> CheckFault {
        match fault {
            TypeFault::Diagnosed(d) => CheckFault::Found(Problem::Typing(d)),
            TypeFault::NoMemory => CheckFault::NoMemory,
        }
    }
}

impl From<Failure> for CheckFault {
    ghost use Rattle.sc_check_scope.specs.Steps.{of_failure};

    ghost from_gives = { λ x e. e ≡ of_failure x };

    fn from(failure: Failure) -> CheckFault {
        match failure {
            Failure::Refused(r) => CheckFault::Found(Problem::Declaring(r)),
            Failure::NoMemory => CheckFault::NoMemory,
        }
    }
}

/// The refusal of a construct of this line by a rule of declarations.
pub fn rule(line: u32) -> CheckFault
    ensures { result ≡ CheckFault.Found (Problem.Declaring (record { reason = Reason.Rule; line = line })) }
{
    CheckFault::Found(Problem::Declaring(Refused {
        reason: Reason::Rule,
        line,
    }))
}

/// The refusal of a construct of this line by a rule of expressions.
pub(crate) fn wrong(cause: Cause, line: u32) -> CheckFault
    ensures { result ≡ CheckFault.Found (Problem.Typing (record { cause = cause; line = line })) }
{
    CheckFault::Found(Problem::Typing(Diagnostic { cause, line }))
}
