// Why a label or a `goto` is refused.
ghost use Rattle.std.specs.Prelude.{◌≡◌};

use sc_base::NoMemory;

/// The rule that a label or a `goto` breaks.
#[derive(Clone, Copy, Debug, PartialEq, Eq)]
pub enum LabelRule {
    /// `case` or `default` outside of a `switch`, or a label that is there already (X7).
    Constraint,
    /// `case` or `default` below the list of its `switch`'s body (X9 `casedepth`).
    CaseDepth,
    /// More `case` labels than one `switch` may have (X10 `cases`).
    Cases,
    /// A `goto` to a label that is nowhere in the function (X6).
    Undeclared,
    /// A `goto` that is not inside a block in whose list its label stands (X9 `gotoin`).
    GotoIn,
}

/// A refusal: the rule, and the line of the label or of the `goto`.
#[derive(Clone, Copy, Debug, PartialEq, Eq)]
pub struct LabelRefused {
    pub rule: LabelRule,
    pub line: u32,
}

/// Why a label or a `goto` has no place in the typed tree.
#[derive(Clone, Copy, Debug, PartialEq, Eq)]
pub enum LabelFault {
    Refused(LabelRefused),
    NoMemory,
}

impl From<NoMemory> for LabelFault {
    ghost use Rattle.sc_check_labels.specs.declared.fault.LabelFault.TheVariants as f;

    ghost from_gives = { λ _ e. e ≡ f.NoMemory };

    fn from(_: NoMemory) -> LabelFault {
        LabelFault::NoMemory
    }
}

pub(crate) fn refusal(rule: LabelRule, line: u32) -> LabelFault
    ensures { result ≡ LabelFault.Refused (record { rule = rule; line = line }) }
{
    LabelFault::Refused(LabelRefused { rule, line })
}
