// Expressions of whose operands not all are evaluated.
ghost use Rattle.std.specs.Prelude.{◌≡◌, ◌+◌, List, true, Some, IfOk};
ghost use Rattle.sc_meaning.specs.Versions.{Text as Program};
ghost use Rattle.sc_interp_machine.specs.declared.pending.Single.TheVariants as single;
ghost use Rattle.sc_points.specs.Points.{IsThere, held_in};
ghost use Rattle.sc_points.specs.declared.held.Held.TheVariants as form;
ghost use Rattle.sc_flat.specs.Lists.{Draft as List_of, form_of};
ghost use Rattle.sc_flat.specs.Written.{Labelled, Marked, Pushed, plainly};
ghost use Rattle.sc_flat.specs.declared.instruction.Operation.TheVariants as operation;

use crate::parts::{Unwritten, Written, alone, fill, is_there};
use sc_flat::{Draft, Instruction, Operation};
use sc_interp_machine::Single;
use sc_points::Held;
use sc_types::CType;

/// The labels of a conditional expression: of its third operand, and behind it.
#[derive(Clone, Copy)]
pub struct Ways {
    pub other: u32,
    pub end: u32,
}

/// The left operand of `&&` is tested; the label at which the list goes on where it is zero.
pub fn tests_and(draft: &mut Draft, t: CType, x: Written, register: u32) -> Result<u32, Unwritten>
    ensures there { IfOk result (λ _. IsThere x.held) }
    ensures tests { IfOk result (λ l. (texts : List Program) → (m : List_of) × Labelled texts draft.old m l × Pushed texts m draft.new (plainly 0 (operation.And register t x.held l))) }
{
    if !is_there(x.held) {
        drop(t);
        return Err(Unwritten::Unlisted);
    }
    let label = draft.label()?;
    draft.push(Instruction::next(0, Operation::And(register, t, x.held, label)))?;
    Ok(label)
}

/// The left operand of `||` is tested; the label at which the list goes on where it is not zero.
pub fn tests_or(draft: &mut Draft, t: CType, x: Written, register: u32) -> Result<u32, Unwritten>
    ensures there { IfOk result (λ _. IsThere x.held) }
    ensures tests { IfOk result (λ l. (texts : List Program) → (m : List_of) × Labelled texts draft.old m l × Pushed texts m draft.new (plainly 0 (operation.Or register t x.held l))) }
{
    if !is_there(x.held) {
        drop(t);
        return Err(Unwritten::Unlisted);
    }
    let label = draft.label()?;
    draft.push(Instruction::next(0, Operation::Or(register, t, x.held, label)))?;
    Ok(label)
}

/// The right operand of `&&` and `||` is tested, and the label is behind it.
pub fn decided(
    draft: &mut Draft,
    t: CType,
    y: Written,
    register: u32,
    label: u32,
) -> Result<Written, Unwritten>
    ensures there { IfOk result (λ _. IsThere y.held) }
    ensures held { IfOk result (λ w. (w.held ≡ form.In register) × (w.next ≡ register + 1)) }
    ensures tests { IfOk result (λ _. (texts : List Program) → (m : List_of) × Pushed texts draft.old m (plainly 0 (operation.Alone register (single.Truth t) y.held)) × Marked texts m draft.new label) }
{
    let w = alone(draft, Single::Truth(t), y, Held::In(register), register)?;
    draft.mark(label)?;
    Ok(w)
}

/// The condition is tested.
pub fn chooses(draft: &mut Draft, t: CType, x: Written) -> Result<Ways, Unwritten>
    ensures there { IfOk result (λ _. IsThere x.held) }
    ensures tests { IfOk result (λ l. (texts : List Program) → (m n : List_of) × Labelled texts draft.old m l.other × Labelled texts m n l.end × Pushed texts n draft.new (plainly 0 (operation.Choice t x.held l.other))) }
{
    if !is_there(x.held) {
        drop(t);
        return Err(Unwritten::Unlisted);
    }
    let other = draft.label()?;
    let end = draft.label()?;
    draft.push(Instruction::next(0, Operation::Choice(t, x.held, other)))?;
    Ok(Ways { other, end })
}

/// The second operand's answer is the whole's, and the third one begins.
pub fn turns(draft: &mut Draft, y: Written, register: u32, ways: Ways) -> Result<(), Unwritten>
    ensures turns { IfOk result (λ _. (texts : List Program) → (m : List_of) × Pushed texts draft.old m (record { work = 0; operation = operation.Alone register single.Whole y.held; label = Some ways.end }) × Marked texts m draft.new ways.other) }
{
    draft.push(Instruction {
        work: 0,
        operation: Operation::Alone(register, Single::Whole, y.held),
        label: Some(ways.end),
    })?;
    draft.mark(ways.other)?;
    Ok(())
}

// Whether two answers have one form, whatever their registers.
fn is_alike(a: Held, b: Held) -> bool
    ensures { result ≡ true → form_of a ≡ form_of b }
{
    like(a, 0) == like(b, 0)
}

// The form of an answer, in a register.
fn like(held: Held, register: u32) -> Held
    ensures { result ≡ held_in (form_of held) register }
{
    match held {
        Held::In(_) => Held::In(register),
        Held::At(_) => Held::At(register),
        Held::Beyond(_, further) => Held::Beyond(register, further),
        Held::Named(_, _) => Held::At(register),
        Held::NamedBeyond(_, _, further) => Held::Beyond(register, further),
        Held::Void => Held::Void,
    }
}

/// The third operand's answer is the whole's.
pub fn chosen(
    draft: &mut Draft,
    y: Written,
    z: Written,
    register: u32,
    end: u32,
) -> Result<Written, Unwritten>
    ensures alike { IfOk result (λ _. form_of y.held ≡ form_of z.held) }
    ensures held { IfOk result (λ w. (w.held ≡ held_in (form_of z.held) register) × (w.next ≡ register + 1)) }
    ensures ends { IfOk result (λ _. (texts : List Program) → (m : List_of) × Pushed texts draft.old m (plainly 0 (operation.Alone register single.Whole z.held)) × Marked texts m draft.new end) }
{
    if !is_alike(y.held, z.held) {
        return Err(Unwritten::Unlisted);
    }
    let w = fill(
        draft,
        Instruction::next(0, Operation::Alone(register, Single::Whole, z.held)),
        like(z.held, register),
        register,
    )?;
    draft.mark(end)?;
    Ok(w)
}
