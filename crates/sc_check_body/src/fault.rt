// Why a unit is refused.
ghost use Rattle.std.specs.Prelude.{◌≡◌};

use sc_base::NoMemory;
use sc_check_declare::{Failure, Reason, Refused};
use sc_check_labels::{LabelFault, LabelRefused};
use sc_check_operand::TypeFault;
use sc_check_scope::{CheckFault, Problem};

/// What is found: the rule of a construct that fails, or a rule of labels.
#[derive(Clone, Copy, Debug, PartialEq, Eq)]
pub enum Finding {
    Construct(Problem),
    Label(LabelRefused),
}

/// Why a unit has no typed tree.
#[derive(Clone, Copy, Debug, PartialEq, Eq)]
pub enum UnitFault {
    Found(Finding),
    NoMemory,
}

impl From<NoMemory> for UnitFault {
    ghost use Rattle.sc_check_body.specs.declared.fault.UnitFault.TheVariants as f;

    ghost from_gives = { λ _ e. e ≡ f.NoMemory };

    fn from(_: NoMemory) -> UnitFault {
        UnitFault::NoMemory
    }
}

impl From<LabelFault> for UnitFault {
    ghost use Rattle.sc_check_body.specs.Faults.{of_label};

    ghost from_gives = { λ x e. e ≡ of_label x };

    fn from(fault: LabelFault) -> UnitFault {
        match fault {
            LabelFault::Refused(r) => UnitFault::Found(Finding::Label(r)),
            LabelFault::NoMemory => UnitFault::NoMemory,
        }
    }
}

impl From<CheckFault> for UnitFault {
    ghost use Rattle.sc_check_body.specs.Faults.{of_check};

    ghost from_gives = { λ x e. e ≡ of_check x };

    fn from(fault: CheckFault) -> UnitFault {
        match fault {
            CheckFault::Found(problem) => UnitFault::Found(Finding::Construct(problem)),
            CheckFault::NoMemory => UnitFault::NoMemory,
        }
    }
}

impl From<TypeFault> for UnitFault {
    ghost use Rattle.sc_check_body.specs.Faults.{of_typing};

    ghost from_gives = { λ x e. e ≡ of_typing x };

    fn from(fault: TypeFault) -> UnitFault {
        match fault {
            TypeFault::Diagnosed(d) => UnitFault::Found(Finding::Construct(Problem::Typing(d))),
            TypeFault::NoMemory => UnitFault::NoMemory,
        }
    }
}

impl From<Failure> for UnitFault {
    ghost use Rattle.sc_check_body.specs.Faults.{of_declaring};

    ghost from_gives = { λ x e. e ≡ of_declaring x };

    fn from(failure: Failure) -> UnitFault {
        match failure {
            Failure::Refused(r) => UnitFault::Found(Finding::Construct(Problem::Declaring(r))),
            Failure::NoMemory => UnitFault::NoMemory,
        }
    }
}

/// The refusal of a construct of this line by a rule of declarations or statements (X7).
pub fn rule(line: u32) -> UnitFault
    ensures { result ≡ UnitFault.Found (Finding.Construct (Problem.Declaring (record { reason = Reason.Rule; line = line }))) }
{
    UnitFault::Found(Finding::Construct(Problem::Declaring(Refused {
        reason: Reason::Rule,
        line,
    })))
}
