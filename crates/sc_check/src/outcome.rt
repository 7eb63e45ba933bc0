// The refusal of translation that a finding stands for.
ghost use Rattle.std.specs.Prelude.{◌≡◌, [], IfOk};
ghost use Rattle.sc_check.specs.Outcomes as spec;

use sc_base::{Bytes, Fault, NoMemory, Refusal, X};
use sc_check_body::{Finding, UnitFault};
use sc_check_declare::{Failure, told as declaring};
use sc_check_labels::LabelRule;
use sc_check_operand::{kind_of, left_out, limit};
use sc_check_scope::Problem;
use std::alloc::Global;

fn label_kind(alloc: Global, rule: LabelRule) -> Result<X, NoMemory>
    ensures { IfOk result (λ x. x ≡ spec.label_kind rule) }
{
    match rule {
        LabelRule::Constraint => Ok(X::X7),
        LabelRule::CaseDepth => left_out(alloc, b"casedepth"),
        LabelRule::Cases => limit(alloc, b"cases"),
        LabelRule::Undeclared => Ok(X::X6),
        LabelRule::GotoIn => left_out(alloc, b"gotoin"),
    }
}

/// The refusal of this kind; its file stays empty.
fn refused(alloc: Global, kind: X, line: u32) -> Fault
    ensures { result ≡ Fault.Refused (record { kind = kind; file = []; line = line }) }
{
    Fault::Refused(Refusal {
        kind,
        file: Bytes::from_vec(Vec::new(alloc)),
        line,
    })
}

fn told_by(alloc: Global, kind: Result<X, NoMemory>, line: u32) -> Fault
    ensures { spec.TellsKind kind line result }
{
    match kind {
        Ok(kind) => refused(alloc, kind, line),
        Err(_) => Fault::NoMemory,
    }
}

fn found(alloc: Global, finding: Finding) -> Fault
    ensures { spec.Tells (UnitFault.Found finding) result }
{
    match finding {
        Finding::Label(r) => told_by(alloc, label_kind(alloc, r.rule), r.line),
        Finding::Construct(Problem::Typing(d)) => told_by(alloc, kind_of(alloc, d.cause), d.line),
        Finding::Construct(Problem::Declaring(r)) => declaring(alloc, Failure::Refused(r)),
    }
}

/// The refusal of translation that stops a unit.
pub(crate) fn told(alloc: Global, fault: UnitFault) -> Fault
    ensures { spec.Tells fault result }
{
    match fault {
        UnitFault::NoMemory => Fault::NoMemory,
        UnitFault::Found(finding) => found(alloc, finding),
    }
}
