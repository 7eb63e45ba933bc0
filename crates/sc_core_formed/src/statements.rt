// What holds of every statement of a typed tree (ANSI 3.6), and how its blocks are numbered.
ghost use Rattle.std.specs.Prelude.{◌≡◌, ◌+◌, Some, None, IfOk, length, map};
ghost use Rattle.sc_core.specs.declared.statement.CoreStmt.{out-CoreStmt};
ghost use Rattle.sc_core_formed.specs.Expressions.{auto_at};
ghost use Rattle.sc_core_formed.specs.Names.{distinct, value_eq};
ghost use Rattle.sc_core_formed.specs.Open.{numbers};
ghost use Rattle.sc_core_formed.specs.Statements as spec;

use crate::expressions::expression;
use crate::names::{Indexed, add_value};
use crate::open::{Open, inside, is_open};
use indexmap::IndexSet;
use sc_base::{NoMemory, Shared};
use sc_check_operand::{is_scalar, is_void, shape_of};
use sc_core::{Auto, AutoInit, CoreExpr, CoreStmt, Fun, LabelAt, SwitchLabel};
use sc_core_labels::Targets;
use sc_core_needs::{is_condition, is_done, is_promoted_value, is_structure, is_value_for};
use sc_types::{CType, is_object, size_of};
use std::alloc::Global;

/// Whether a statement stands in the body of a loop, of a `switch` (ANSI 3.6.6).
#[derive(Clone, Copy, Debug, PartialEq, Eq)]
pub(crate) struct Body {
    pub in_loop: bool,
    pub in_switch: bool,
}

fn of_loop(body: Body) -> Body
    ensures { result ≡ spec.of_loop body }
{
    Body {
        in_loop: true,
        in_switch: body.in_switch,
    }
}

fn of_switch(body: Body) -> Body
    ensures { result ≡ spec.of_switch body }
{
    Body {
        in_loop: body.in_loop,
        in_switch: true,
    }
}

fn is_whole(m: &Indexed, f: &Fun, around: &Open, e: &CoreExpr) -> bool
    ensures { result ≡ spec.is_whole m.now.core.now f.now (numbers around.now) e.now }
{
    expression(m, f.blocks.as_slice(), around, e) && is_done(e)
}

fn is_test(m: &Indexed, f: &Fun, around: &Open, e: &CoreExpr) -> bool
    ensures { result ≡ spec.is_test m.now.core.now f.now (numbers around.now) e.now }
{
    expression(m, f.blocks.as_slice(), around, e) && is_condition(&m.core.structs, e)
}

fn whole_or_none(m: &Indexed, f: &Fun, around: &Open, e: &Option<Shared<CoreExpr>>) -> bool
    ensures { result ≡ spec.whole_or_none m.now.core.now f.now (numbers around.now) e.now }
{
    match e {
        Some(e) => is_whole(m, f, around, e.get()),
        None => true,
    }
}

fn test_or_none(m: &Indexed, f: &Fun, around: &Open, e: &Option<Shared<CoreExpr>>) -> bool
    ensures { result ≡ spec.test_or_none m.now.core.now f.now (numbers around.now) e.now }
{
    match e {
        Some(e) => is_test(m, f, around, e.get()),
        None => true,
    }
}

fn is_given(m: &Indexed, f: &Fun, around: &Open, of: &CType, e: &CoreExpr) -> bool
    ensures { result ≡ spec.is_given m.now.core.now f.now (numbers around.now) of.now e.now }
{
    expression(m, f.blocks.as_slice(), around, e) && is_value_for(&m.core.structs, of, e)
}

/// The end of what has `n` bytes and stands at a place, behind what ends before it and inside the object.
fn placed(size: u32, end: u32, at: u32, n: u32) -> Option<u32>
    ensures { result ≡ spec.placed size end at n }
{
    match at.checked_add(n) {
        Some(next) => {
            if n > 0 && end <= at && next <= size {
                Some(next)
            } else {
                None
            }
        }
        None => None,
    }
}

/// The end of a scalar, which stands at a multiple of its size.
fn scalar_placed(size: u32, end: u32, at: u32, n: u32) -> Option<u32>
    ensures { result ≡ spec.scalar_placed size end at n }
{
    if n > 0 && at % n == 0 {
        placed(size, end, at, n)
    } else {
        None
    }
}

fn text_placed(size: u32, end: u32, at: u32, n: usize) -> Option<u32>
    ensures { result ≡ spec.placed size end at n }
{
    if n <= size as usize {
        placed(size, end, at, n as u32)
    } else {
        None
    }
}

fn is_scalar_piece(m: &Indexed, f: &Fun, around: &Open, of: &CType, e: &CoreExpr) -> bool
    ensures { result ≡ spec.is_scalar_piece m.now.core.now f.now (numbers around.now) of.now e.now }
{
    is_object(of, &m.core.structs)
        && is_scalar(shape_of(&m.core.structs, of))
        && is_given(m, f, around, of, e)
}

fn is_structure_piece(m: &Indexed, f: &Fun, around: &Open, of: &CType, e: &CoreExpr) -> bool
    ensures { result ≡ spec.is_structure_piece m.now.core.now f.now (numbers around.now) of.now e.now }
{
    is_structure(shape_of(&m.core.structs, of)) && is_given(m, f, around, of, e)
}

/// Where one piece of an object's initialiser ends (ANSI 3.5.7).
fn piece_end(
    m: &Indexed,
    f: &Fun,
    around: &Open,
    object: &Auto,
    end: u32,
    piece: &AutoInit,
) -> Option<u32>
    ensures { result ≡ spec.piece_end m.now.core.now f.now (numbers around.now) object.now.of object.now.slot.size end piece.now }
{
    let size = object.slot.size;
    match piece {
        AutoInit::Value(at, of, e) => {
            if is_scalar_piece(m, f, around, of, e.get()) {
                scalar_placed(size, end, *at, size_of(of, &m.core.structs))
            } else {
                None
            }
        }
        AutoInit::Text(at, bytes) => text_placed(size, end, *at, bytes.as_slice().len()),
        AutoInit::Zero(at, n) => placed(size, end, *at, *n),
        AutoInit::Structure(n, e) => {
            if is_structure_piece(m, f, around, &object.of, e.get()) && *n == size {
                placed(size, end, 0, *n)
            } else {
                None
            }
        }
    }
}

fn pieces_end(
    m: &Indexed,
    f: &Fun,
    around: &Open,
    object: &Auto,
    pieces: &[AutoInit],
) -> Option<u32>
    ensures { result ≡ spec.pieces_end m.now.core.now f.now (numbers around.now) object.now.of object.now.slot.size 0 pieces.now }
{
    let mut end = 0;
    for piece in pieces {
        match piece_end(m, f, around, object, end, piece) {
            Some(next) => end = next,
            None => return None,
        }
    }
    Some(end)
}

fn pieces_of(m: &Indexed, f: &Fun, around: &Open, block: u32, n: u32, pieces: &[AutoInit]) -> bool
    ensures { result ≡ spec.pieces_of m.now.core.now f.now (numbers around.now) (auto_at f.now.blocks block n) pieces.now }
{
    match f.blocks.as_slice().get(block as usize) {
        Some(autos) => match autos.as_slice().get(n as usize) {
            Some(x) => pieces_end(m, f, around, x, pieces).is_some(),
            None => false,
        },
        None => false,
    }
}

/// The initialiser of an automatic object of a block that is open (ANSI 3.5.7).
fn is_initialized(
    m: &Indexed,
    f: &Fun,
    around: &Open,
    block: u32,
    n: u32,
    pieces: &[AutoInit],
) -> bool
    ensures { result ≡ spec.is_initialized m.now.core.now f.now (numbers around.now) block n pieces.now }
{
    is_open(around, block) && pieces_of(m, f, around, block, n, pieces)
}

/// Whether each place is below the number of a block's items.
fn stand_below(n: usize, labels: &[LabelAt]) -> bool
    ensures { result ≡ spec.stand_below n labels.now }
{
    for l in labels {
        if l.at as usize >= n {
            return false;
        }
    }
    true
}

/// The next block, which has a table, with the labels of its list.
fn is_block(f: &Fun, next: usize, n: u32, labels: &[LabelAt], items: usize) -> bool
    ensures { result ≡ spec.is_block f.now next n labels.now items }
{
    n as usize == next && next < f.blocks.len() && stand_below(items, labels)
}

/// Whether the label of a `goto` stands in the list of a block that is open there (ANSI 3.6.6.1).
fn is_target(targets: &Targets, around: &Open, label: u32) -> bool
    ensures { result ≡ spec.is_target targets.now (numbers around.now) label }
{
    match targets.block(label) {
        Some(block) => is_open(around, block),
        None => false,
    }
}

/// Whether each place is below the number of the body's statements.
fn are_below(n: usize, labels: &[SwitchLabel]) -> bool
    ensures { result ≡ spec.are_below n labels.now }
{
    for l in labels {
        if l.at as usize >= n {
            return false;
        }
    }
    true
}

/// Whether each value is there once, `default` too.
fn are_distinct(alloc: Global, labels: &[SwitchLabel]) -> Result<bool, NoMemory>
    ensures { IfOk result (λ yes. yes ≡ distinct value_eq (map (λ l. l.value) labels.now)) }
{
    let mut values = IndexSet::new(alloc);
    for l in labels {
        if !add_value(&mut values, l.value)? {
            return Ok(false);
        }
    }
    Ok(true)
}

/// Whether each value is there once, `default` too, and each place is below the number of the body's statements
/// (ANSI 3.6.1, 3.6.4.2).
fn are_labels(alloc: Global, n: usize, labels: &[SwitchLabel]) -> Result<bool, NoMemory>
    ensures { IfOk result (λ yes. yes ≡ spec.are_labels n labels.now) }
{
    if !are_below(n, labels) {
        return Ok(false);
    }
    are_distinct(alloc, labels)
}

fn items_of(s: &CoreStmt) -> usize
    ensures { result ≡ spec.items_layer (out-CoreStmt s.now) }
{
    match s {
        CoreStmt::Block(_, _, _, items) => items.len(),
        _ => 1,
    }
}

fn is_selector(m: &Indexed, f: &Fun, around: &Open, e: &CoreExpr) -> bool
    ensures { result ≡ spec.is_selector m.now.core.now f.now (numbers around.now) e.now }
{
    expression(m, f.blocks.as_slice(), around, e) && is_promoted_value(&m.core.structs, e)
}

fn is_switch(
    m: &Indexed,
    f: &Fun,
    around: &Open,
    e: &CoreExpr,
    labels: &[SwitchLabel],
    s: &CoreStmt,
) -> Result<bool, NoMemory>
    ensures { IfOk result (λ yes. yes ≡ spec.is_switch m.now.core.now f.now (numbers around.now) e.now labels.now s.now) }
{
    if !is_selector(m, f, around, e) {
        return Ok(false);
    }
    are_labels(m.alloc, items_of(s), labels)
}

fn is_return(m: &Indexed, f: &Fun, around: &Open, e: &Option<Shared<CoreExpr>>) -> bool
    ensures { result ≡ spec.is_return m.now.core.now f.now (numbers around.now) e.now }
{
    match e {
        Some(e) => !is_void(&f.of.result) && is_given(m, f, around, &f.of.result, e.get()),
        None => true,
    }
}

fn is_head(
    m: &Indexed,
    f: &Fun,
    around: &Open,
    first: &Option<Shared<CoreExpr>>,
    e: &Option<Shared<CoreExpr>>,
    after: &Option<Shared<CoreExpr>>,
) -> bool
    ensures { result ≡ spec.is_head m.now.core.now f.now (numbers around.now) first.now e.now after.now }
{
    whole_or_none(m, f, around, first)
        && test_or_none(m, f, around, e)
        && whole_or_none(m, f, around, after)
}

fn when(yes: bool, next: usize) -> Option<usize>
    ensures { result ≡ spec.when yes (Some next) }
{
    if yes { Some(next) } else { None }
}

/// Whether a statement is formed whose first block has this number: the number of the next block behind it. `targets` are the
/// labels of the function, and `around` the blocks that are open there.
#[cycle(statement)]
pub(crate) fn statement(
    m: &Indexed,
    f: &Fun,
    targets: &Targets,
    around: &Open,
    body: Body,
    s: &CoreStmt,
    next: usize,
) -> Result<Option<usize>, NoMemory>
    ensures { IfOk result (λ end. end ≡ spec.statement m.now.core.now f.now targets.now s.now (numbers around.now) body next) }
{
    match s {
        CoreStmt::Block(_, n, labels, items) => {
            if is_block(f, next, *n, labels.as_slice(), items.len()) {
                let here = inside(*n, around);
                statements(m, f, targets, &here, body, items.as_slice(), next + 1)
            } else {
                Ok(None)
            }
        }
        CoreStmt::Initialize(_, block, n, pieces) => Ok(when(
            is_initialized(m, f, around, *block, *n, pieces.as_slice()),
            next,
        )),
        CoreStmt::Empty(_) => Ok(Some(next)),
        CoreStmt::Expression(_, e) => Ok(when(is_whole(m, f, around, e.get()), next)),
        CoreStmt::If(_, e, s, other) => {
            if !is_test(m, f, around, e.get()) {
                return Ok(None);
            }
            let Some(next) = statement(m, f, targets, around, body, s.get(), next)? else {
                return Ok(None);
            };
            match other {
                Some(other) => statement(m, f, targets, around, body, other.get(), next),
                None => Ok(Some(next)),
            }
        }
        CoreStmt::Switch(_, e, labels, s) => {
            if !is_switch(m, f, around, e.get(), labels.as_slice(), s.get())? {
                return Ok(None);
            }
            statement(m, f, targets, around, of_switch(body), s.get(), next)
        }
        CoreStmt::While(_, e, s) | CoreStmt::Do(_, s, _, e) => {
            if !is_test(m, f, around, e.get()) {
                return Ok(None);
            }
            statement(m, f, targets, around, of_loop(body), s.get(), next)
        }
        CoreStmt::For(_, first, e, after, s) => {
            if !is_head(m, f, around, first, e, after) {
                return Ok(None);
            }
            statement(m, f, targets, around, of_loop(body), s.get(), next)
        }
        CoreStmt::Case(_, s) | CoreStmt::Default(_, s) => {
            if !body.in_switch {
                return Ok(None);
            }
            statement(m, f, targets, around, body, s.get(), next)
        }
        CoreStmt::Label(_, s) => statement(m, f, targets, around, body, s.get(), next),
        CoreStmt::Goto(_, label) => Ok(when(is_target(targets, around, *label), next)),
        CoreStmt::Continue(_) => Ok(when(body.in_loop, next)),
        CoreStmt::Break(_) => Ok(when(body.in_loop || body.in_switch, next)),
        CoreStmt::Return(_, e) => Ok(when(is_return(m, f, around, e), next)),
    }
}

/// The same of statements in order.
#[cycle(statement)]
fn statements(
    m: &Indexed,
    f: &Fun,
    targets: &Targets,
    around: &Open,
    body: Body,
    items: &[Shared<CoreStmt>],
    next: usize,
) -> Result<Option<usize>, NoMemory>
    ensures { IfOk result (λ end. end ≡ spec.all_of m.now.core.now f.now targets.now items.now (numbers around.now) body next) }
{
    let mut at = next;
    for s in items {
        match statement(m, f, targets, around, body, s.get(), at)? {
            Some(next) => at = next,
            None => return Ok(None),
        }
    }
    Ok(Some(at))
}
