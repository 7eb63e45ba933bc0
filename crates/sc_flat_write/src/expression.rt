// An expression is written (ANSI 3.3): its parts from left to right, each behind the one before it.
ghost use Rattle.std.specs.Prelude.{◌≡◌, ◌≤◌, List, IfOk};
ghost use Rattle.sc_meaning.specs.Versions.{Text as Program};
ghost use Rattle.sc_core.specs.Types as types;
ghost use Rattle.sc_flat.specs.Lists.{IsWritten};
ghost use Rattle.sc_flat_write.specs.Parts.{PartWritten};

use crate::choices::{chooses, chosen, decided, tests_and, tests_or, turns};
use crate::forms::{arrow_of, is_read, is_void, member_of, target_of};
use crate::parts::{
    Unwritten, Written, alone, as_it_is, both, copies, fill, is_there, keep, stores,
};
use sc_base::{Duplicate, NoMemory};
use sc_core::{CoreExpr, type_of};
use sc_flat::{Draft, Instruction, Operation};
use sc_interp_machine::{Pair, Single, Store};
use sc_points::Held;
use sc_types::CType;
use std::alloc::Global;

// The type of a part.
fn typed(alloc: Global, e: &CoreExpr) -> Result<CType, NoMemory>
    ensures { IfOk result (λ t. t ≡ types.type_of e.now) }
{
    type_of(e).copy(alloc)
}

// A part is written behind a step that no instruction makes.
#[cycle(write)]
fn part(
    alloc: Global,
    draft: &mut Draft,
    e: &CoreExpr,
    work: u32,
    first: u32,
) -> Result<Written, Unwritten>
    requires { work ≤ 2 }
    ensures { IfOk result (λ w. (texts : List Program) → PartWritten texts draft.old draft.new work e.now first w) }
{
    draft.slide(work)?;
    let w = write_expression(alloc, draft, e, first)?;
    Ok(w)
}

/// Writes an expression behind what was written, with registers from one on.
///
/// # Errors
///
/// `Unwritten`. What was written then is of no use.
#[cycle(write)]
pub fn write_expression(
    alloc: Global,
    draft: &mut Draft,
    e: &CoreExpr,
    first: u32,
) -> Result<Written, Unwritten>
    ensures { IfOk result (λ w. (texts : List Program) → IsWritten texts draft.old draft.new e.now first w.next w.held) }
{
    match e {
        CoreExpr::Number(_, _, n) => {
            let instruction = Instruction::next(1, Operation::Constant(first, *n));
            let w = fill(draft, instruction, Held::In(first), first)?;
            Ok(w)
        }
        CoreExpr::Literal(_, _, i) => {
            let instruction = Instruction::next(1, Operation::Literal(first, *i));
            let w = fill(draft, instruction, Held::At(first), first)?;
            Ok(w)
        }
        CoreExpr::Automatic(_, _, b, i) => {
            let w = keep(draft, Held::Named(*b, *i), 2, first)?;
            Ok(w)
        }
        CoreExpr::Static(_, _, key) => {
            let key = key.copy(alloc)?;
            let instruction = Instruction::next(1, Operation::Static(first, key));
            let w = fill(draft, instruction, Held::At(first), first)?;
            Ok(w)
        }
        CoreExpr::Function(_, _, key) => {
            let key = key.copy(alloc)?;
            let instruction = Instruction::next(1, Operation::Function(first, key));
            let w = fill(draft, instruction, Held::At(first), first)?;
            Ok(w)
        }
        CoreExpr::Index(_, _, size, a, b) => {
            let x = part(alloc, draft, a.get(), 1, first)?;
            let y = part(alloc, draft, b.get(), 0, x.next)?;
            let s = typed(alloc, a.get())?;
            let t = typed(alloc, b.get())?;
            let w = both(
                draft,
                Pair::Index(*size, s, t),
                x,
                y,
                Held::At(first),
                first,
            )?;
            Ok(w)
        }
        CoreExpr::Call(_, _, _, _) => Err(Unwritten::Unlisted),
        CoreExpr::Member(_, _, n, a) => {
            let x = part(alloc, draft, a.get(), 1, first)?;
            match member_of(*n, x.held) {
                Some(held) => {
                    let w = keep(draft, held, 1, x.next)?;
                    Ok(w)
                }
                None => Err(Unwritten::Unlisted),
            }
        }
        CoreExpr::Arrow(_, _, n, a) => {
            let x = part(alloc, draft, a.get(), 1, first)?;
            if is_there(x.held) {
                let w = keep(draft, arrow_of(*n, x.held), 1, x.next)?;
                Ok(w)
            } else {
                Err(Unwritten::Unlisted)
            }
        }
        CoreExpr::Step(_, _, s, n, a) => {
            let x = part(alloc, draft, a.get(), 1, first)?;
            let t = typed(alloc, a.get())?;
            let w = alone(
                draft,
                Single::Increment(*s, *n, t),
                x,
                Held::In(first),
                first,
            )?;
            Ok(w)
        }
        CoreExpr::Address(_, _, a) => {
            let x = part(alloc, draft, a.get(), 1, first)?;
            let w = alone(draft, Single::Address, x, Held::In(first), first)?;
            Ok(w)
        }
        CoreExpr::Indirection(_, _, a) => {
            let x = part(alloc, draft, a.get(), 1, first)?;
            if is_there(x.held) {
                let w = keep(draft, target_of(x.held), 1, x.next)?;
                Ok(w)
            } else {
                Err(Unwritten::Unlisted)
            }
        }
        CoreExpr::Unary(_, _, o, a) => {
            let x = part(alloc, draft, a.get(), 1, first)?;
            let t = typed(alloc, a.get())?;
            let w = alone(draft, Single::Unary(*o, t), x, Held::In(first), first)?;
            Ok(w)
        }
        CoreExpr::Cast(_, t, a) => {
            let x = part(alloc, draft, a.get(), 1, first)?;
            if is_void(t) {
                let w = keep(draft, Held::Void, 1, x.next)?;
                Ok(w)
            } else {
                let t = t.copy(alloc)?;
                let w = alone(draft, Single::Cast(t), x, Held::In(first), first)?;
                Ok(w)
            }
        }
        CoreExpr::Binary(_, _, o, a, b) => {
            let x = part(alloc, draft, a.get(), 1, first)?;
            let y = part(alloc, draft, b.get(), 0, x.next)?;
            let s = typed(alloc, a.get())?;
            let t = typed(alloc, b.get())?;
            let w = both(draft, Pair::Binary(*o, s, t), x, y, Held::In(first), first)?;
            Ok(w)
        }
        CoreExpr::Offset(_, _, o, size, a, b) => {
            let x = part(alloc, draft, a.get(), 1, first)?;
            let y = part(alloc, draft, b.get(), 0, x.next)?;
            let s = typed(alloc, a.get())?;
            let t = typed(alloc, b.get())?;
            let w = both(
                draft,
                Pair::Offset(*o, *size, s, t),
                x,
                y,
                Held::In(first),
                first,
            )?;
            Ok(w)
        }
        CoreExpr::Difference(_, _, size, a, b) => {
            let x = part(alloc, draft, a.get(), 1, first)?;
            let y = part(alloc, draft, b.get(), 0, x.next)?;
            let w = both(draft, Pair::Difference(*size), x, y, Held::In(first), first)?;
            Ok(w)
        }
        CoreExpr::Compare(_, _, o, a, b) => {
            let x = part(alloc, draft, a.get(), 1, first)?;
            let y = part(alloc, draft, b.get(), 0, x.next)?;
            let w = both(draft, Pair::Compare(*o), x, y, Held::In(first), first)?;
            Ok(w)
        }
        CoreExpr::And(_, _, a, b) => {
            let x = part(alloc, draft, a.get(), 1, first)?;
            let s = typed(alloc, a.get())?;
            let label = tests_and(draft, s, x, first)?;
            let y = write_expression(alloc, draft, b.get(), first)?;
            let t = typed(alloc, b.get())?;
            let w = decided(draft, t, y, first, label)?;
            Ok(w)
        }
        CoreExpr::Or(_, _, a, b) => {
            let x = part(alloc, draft, a.get(), 1, first)?;
            let s = typed(alloc, a.get())?;
            let label = tests_or(draft, s, x, first)?;
            let y = write_expression(alloc, draft, b.get(), first)?;
            let t = typed(alloc, b.get())?;
            let w = decided(draft, t, y, first, label)?;
            Ok(w)
        }
        CoreExpr::Conditional(_, _, a, b, c) => {
            let x = part(alloc, draft, a.get(), 1, first)?;
            let t = typed(alloc, a.get())?;
            let ways = chooses(draft, t, x)?;
            let y = write_expression(alloc, draft, b.get(), first)?;
            turns(draft, y, first, ways)?;
            let z = write_expression(alloc, draft, c.get(), first)?;
            let w = chosen(draft, y, z, first, ways.end)?;
            Ok(w)
        }
        CoreExpr::Assign(_, _, a, b) => {
            let x = part(alloc, draft, a.get(), 1, first)?;
            let y = part(alloc, draft, b.get(), 0, x.next)?;
            let t = typed(alloc, a.get())?;
            let w = stores(draft, Store::Assign(t), x, y, first)?;
            Ok(w)
        }
        CoreExpr::AssignStructure(_, _, size, a, b) => {
            let x = part(alloc, draft, a.get(), 1, first)?;
            let y = part(alloc, draft, b.get(), 0, x.next)?;
            let w = copies(draft, *size, x, y)?;
            Ok(w)
        }
        CoreExpr::Compound(_, _, o, i, a, b) => {
            let x = part(alloc, draft, a.get(), 1, first)?;
            let y = part(alloc, draft, b.get(), 0, x.next)?;
            let s = typed(alloc, a.get())?;
            let t = typed(alloc, b.get())?;
            let w = stores(draft, Store::Compound(*o, *i, s, t), x, y, first)?;
            Ok(w)
        }
        CoreExpr::CompoundOffset(_, _, o, size, a, b) => {
            let x = part(alloc, draft, a.get(), 1, first)?;
            let y = part(alloc, draft, b.get(), 0, x.next)?;
            let s = typed(alloc, a.get())?;
            let t = typed(alloc, b.get())?;
            let w = stores(draft, Store::Move(*o, *size, s, t), x, y, first)?;
            Ok(w)
        }
        CoreExpr::Comma(_, _, a, b) => {
            let x = part(alloc, draft, a.get(), 1, first)?;
            let y = part(alloc, draft, b.get(), 0, first)?;
            drop(x);
            let w = keep(draft, y.held, 1, y.next)?;
            Ok(w)
        }
        CoreExpr::Convert(_, t, a) => {
            let x = part(alloc, draft, a.get(), 0, first)?;
            if is_read(type_of(a.get())) {
                let s = typed(alloc, a.get())?;
                let t = t.copy(alloc)?;
                let w = alone(draft, Single::Convert(s, t), x, Held::In(first), first)?;
                Ok(w)
            } else {
                let w = as_it_is(draft, x)?;
                Ok(w)
            }
        }
    }
}
