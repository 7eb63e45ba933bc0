// The labels of a `switch` (ANSI 3.6.1, 3.6.4.2).
ghost use Rattle.std.specs.Prelude.{◌≡◌, OnOk};
ghost use Rattle.sc_check_labels.specs.Faults.{GivesWith};
ghost use Rattle.sc_check_labels.specs.Switches as spec;

use crate::fault::{LabelFault, LabelRule, refusal};
use crate::labels::{Labels, OpenSwitch};
use crate::tables::Values;
use sc_base::{Int, Items, NoMemory, Stack};
use sc_core::SwitchLabel;
use sc_ops::convert;
use std::alloc::Global;

/// The most `case` labels of one `switch`.
const MAX_CASES: usize = 1023;

/// Begins a `switch` on this type.
pub fn open_switch(alloc: Global, f: &mut Labels, of: Int) -> Result<(), NoMemory>
    ensures { OnOk result (f.new ≡ spec.open_switch of f.old) }
{
    let switch = OpenSwitch {
        of,
        values: Values::new(alloc),
        has_default: false,
        labels: Items::new(alloc),
    };
    f.switches.push(switch)
}

/// Ends the innermost `switch`; the answer is its labels.
pub fn close_switch(alloc: Global, f: &mut Labels) -> Items<SwitchLabel>
    ensures { (result, f.new) ≡ spec.close_switch f.old }
{
    match f.switches.pop() {
        Some(switch) => switch.labels,
        None => Items::new(alloc),
    }
}

/// The value of a label in the type of the controlling expression.
fn value_for(of: Int, bits: Option<u32>) -> Option<u32>
    ensures { result ≡ spec.value_for of bits }
{
    match bits {
        Some(bits) => Some(convert(bits, of)),
        None => None,
    }
}

fn note_in(
    switches: &mut Stack<OpenSwitch>,
    bits: Option<u32>,
    place: Option<u32>,
) -> Result<(), NoMemory>
    ensures { OnOk result (switches.new ≡ spec.note_in bits place switches.old) }
{
    let Some(at) = place else {
        return Ok(());
    };
    let Some(switch) = switches.pop() else {
        return Ok(());
    };
    let mut switch = switch;
    let value = value_for(switch.of, bits);
    switch.labels.push(SwitchLabel { value, at })?;
    switches.push(switch)
}

/// The beginning of a statement with a label: `case` with the bits of its constant, or `default`. `place` is its place in the list of
/// the innermost `switch`'s body, where it stands there. So labels stand in the order in which they are written.
pub fn note_label(f: &mut Labels, bits: Option<u32>, place: Option<u32>) -> Result<(), NoMemory>
    ensures { OnOk result (f.new ≡ spec.note_label bits place f.old) }
{
    note_in(&mut f.switches, bits, place)
}

/// A `case` label with the bits of its constant (ANSI 3.6.4.2).
///
/// # Errors
///
/// - `Constraint` (X7): the `switch` has the value already.
/// - `Cases` (X10 `cases`): the `switch` has as many `case` labels as it may have.
fn add_case(switch: &mut OpenSwitch, line: u32, bits: u32) -> Result<(), LabelFault>
    ensures { GivesWith (spec.add_case line bits switch.old) result switch.new }
{
    let value = convert(bits, switch.of);
    if switch.values.has(value) {
        return Err(refusal(LabelRule::Constraint, line));
    }
    if switch.values.len() >= MAX_CASES {
        return Err(refusal(LabelRule::Cases, line));
    }
    switch.values.push(value)?;
    Ok(())
}

/// The label `default` (ANSI 3.6.4.2).
///
/// # Errors
///
/// `Constraint` (X7): the `switch` has one already.
fn add_default(switch: &mut OpenSwitch, line: u32) -> Result<(), LabelFault>
    ensures { GivesWith (spec.add_default line switch.old) result switch.new }
{
    if switch.has_default {
        return Err(refusal(LabelRule::Constraint, line));
    }
    switch.has_default = true;
    Ok(())
}

fn add(switch: &mut OpenSwitch, line: u32, bits: Option<u32>) -> Result<(), LabelFault>
    ensures { GivesWith (spec.add line bits switch.old) result switch.new }
{
    match bits {
        Some(bits) => add_case(switch, line, bits),
        None => add_default(switch, line),
    }
}

/// A label of the innermost of these `switch` statements.
fn add_in(
    switches: &mut Stack<OpenSwitch>,
    line: u32,
    bits: Option<u32>,
    place: Option<u32>,
) -> Result<(), LabelFault>
    ensures { GivesWith (spec.add_in line bits place switches.old) result switches.new }
{
    let Some(switch) = switches.pop() else {
        return Err(refusal(LabelRule::Constraint, line));
    };
    let mut switch = switch;
    if place.is_none() {
        drop(switch);
        return Err(refusal(LabelRule::CaseDepth, line));
    }
    match add(&mut switch, line, bits) {
        Ok(()) => Ok(switches.push(switch)?),
        Err(fault) => {
            drop(switch);
            Err(fault)
        }
    }
}

/// The end of a statement with a label, which was noted at its beginning.
///
/// # Errors
///
/// - `Constraint` (X7): it is in no `switch`, or the `switch` has the label already.
/// - `CaseDepth` (X9 `casedepth`): it is below the list of the innermost `switch`'s body.
/// - `Cases` (X10 `cases`): the `switch` has as many `case` labels as it may have.
pub fn add_label(
    f: &mut Labels,
    line: u32,
    bits: Option<u32>,
    place: Option<u32>,
) -> Result<(), LabelFault>
    ensures { GivesWith (spec.add_label line bits place f.old) result f.new }
{
    add_in(&mut f.switches, line, bits, place)
}
