// What is written of the parts of an expression.
ghost use Rattle.std.specs.Prelude.{◌≡◌, ◌+◌, ◌≤◌, List, true, IfOk};
ghost use Rattle.sc_meaning.specs.Versions.{Text as Program};
ghost use Rattle.sc_points.specs.Points.{IsThere};
ghost use Rattle.sc_points.specs.declared.held.Held.TheVariants as form;
ghost use Rattle.sc_flat.specs.Written.{Pushed, Slid, plainly};
ghost use Rattle.sc_flat.specs.declared.instruction.Operation.TheVariants as operation;
ghost use Rattle.sc_flat_write.specs.Parts.{IsNoValue};

use sc_base::NoMemory;
use sc_flat::{Draft, Instruction, Operation};
use sc_interp_machine::{Pair, Single, Store};
use sc_points::Held;

/// What was written of an expression: the form of its answer, and the first register behind those that the answer needs.
#[derive(Clone, Copy, Debug)]
pub struct Written {
    pub held: Held,
    pub next: u32,
}

/// Why an expression was not written.
#[derive(Clone, Copy, Debug, PartialEq, Eq)]
pub enum Unwritten {
    NoMemory,
    /// No list is made of it: it calls a function, it uses a value that is none, or it wants more registers than there are numbers.
    Unlisted,
}

impl From<NoMemory> for Unwritten {
    fn from(_: NoMemory) -> Unwritten {
        Unwritten::NoMemory
    }
}

/// Whether there is an answer.
pub fn is_there(held: Held) -> bool
    ensures { result ≡ true → IsThere held }
{
    match held {
        Held::In(_) => true,
        Held::At(_) => true,
        Held::Beyond(_, _) => true,
        Held::Named(_, _) => true,
        Held::NamedBeyond(_, _, _) => true,
        Held::Void => false,
    }
}

/// An instruction that fills a register with an answer of this form.
pub fn fill(
    draft: &mut Draft,
    instruction: Instruction,
    held: Held,
    register: u32,
) -> Result<Written, Unwritten>
    requires { instruction.work ≤ 2 }
    ensures held { IfOk result (λ w. (w.held ≡ held) × (w.next ≡ register + 1)) }
    ensures pushed { IfOk result (λ _. (texts : List Program) → Pushed texts draft.old draft.new instruction) }
{
    let Some(next) = register.checked_add(1) else {
        drop(instruction);
        return Err(Unwritten::Unlisted);
    };
    draft.push(instruction)?;
    Ok(Written { held, next })
}

/// What is done with one answer.
pub fn alone(
    draft: &mut Draft,
    single: Single,
    x: Written,
    held: Held,
    register: u32,
) -> Result<Written, Unwritten>
    ensures there { IfOk result (λ _. IsThere x.held) }
    ensures held { IfOk result (λ w. (w.held ≡ held) × (w.next ≡ register + 1)) }
    ensures pushed { IfOk result (λ _. (texts : List Program) → Pushed texts draft.old draft.new (plainly 0 (operation.Alone register single x.held))) }
{
    if !is_there(x.held) {
        drop(single);
        return Err(Unwritten::Unlisted);
    }
    let instruction = Instruction::next(0, Operation::Alone(register, single, x.held));
    let w = fill(draft, instruction, held, register)?;
    Ok(w)
}

/// What is done with two values.
pub fn both(
    draft: &mut Draft,
    pair: Pair,
    x: Written,
    y: Written,
    held: Held,
    register: u32,
) -> Result<Written, Unwritten>
    ensures there { IfOk result (λ _. IsThere x.held × IsThere y.held) }
    ensures held { IfOk result (λ w. (w.held ≡ held) × (w.next ≡ register + 1)) }
    ensures pushed { IfOk result (λ _. (texts : List Program) → Pushed texts draft.old draft.new (plainly 0 (operation.Both register pair x.held y.held))) }
{
    if !is_there(x.held) || !is_there(y.held) {
        drop(pair);
        return Err(Unwritten::Unlisted);
    }
    let instruction = Instruction::next(0, Operation::Both(register, pair, x.held, y.held));
    let w = fill(draft, instruction, held, register)?;
    Ok(w)
}

/// What is done with a place and a value.
pub fn stores(
    draft: &mut Draft,
    store: Store,
    x: Written,
    y: Written,
    register: u32,
) -> Result<Written, Unwritten>
    ensures there { IfOk result (λ _. IsThere y.held) }
    ensures held { IfOk result (λ w. (w.held ≡ form.In register) × (w.next ≡ register + 1)) }
    ensures pushed { IfOk result (λ _. (texts : List Program) → Pushed texts draft.old draft.new (plainly 0 (operation.Stores register store x.held y.held))) }
{
    if !is_there(y.held) {
        drop(store);
        return Err(Unwritten::Unlisted);
    }
    let instruction = Instruction::next(0, Operation::Stores(register, store, x.held, y.held));
    let w = fill(draft, instruction, Held::In(register), register)?;
    Ok(w)
}

/// An answer that is there already, in another form, behind so much work.
pub fn keep(draft: &mut Draft, held: Held, work: u32, next: u32) -> Result<Written, Unwritten>
    requires { work ≤ 2 }
    ensures held { IfOk result (λ w. (w.held ≡ held) × (w.next ≡ next)) }
    ensures slid { IfOk result (λ _. (texts : List Program) → Slid texts draft.old draft.new work) }
{
    draft.slide(work)?;
    Ok(Written { held, next })
}

/// A structure is copied to a place; the answer is that place.
pub fn copies(draft: &mut Draft, size: u32, x: Written, y: Written) -> Result<Written, Unwritten>
    ensures held { IfOk result (λ w. w ≡ x) }
    ensures pushed { IfOk result (λ _. (texts : List Program) → Pushed texts draft.old draft.new (plainly 0 (operation.Copies size x.held y.held))) }
{
    draft.push(Instruction::next(0, Operation::Copies(size, x.held, y.held)))?;
    Ok(x)
}

/// A place stays as it is.
pub fn as_it_is(draft: &mut Draft, x: Written) -> Result<Written, Unwritten>
    ensures place { IfOk result (λ _. IsNoValue x.held) }
    ensures held { IfOk result (λ w. w ≡ x) }
    ensures slid { IfOk result (λ _. (texts : List Program) → Slid texts draft.old draft.new 0) }
{
    match x.held {
        Held::In(_) => Err(Unwritten::Unlisted),
        Held::At(_)
        | Held::Beyond(_, _)
        | Held::Named(_, _)
        | Held::NamedBeyond(_, _, _)
        | Held::Void => keep(draft, x.held, 0, x.next),
    }
}
