// The code of statements (ANSI 3.6).
ghost use Rattle.std.specs.Prelude.{◌≡◌, ◌<◌, ◌≤◌, ◌+◌, ◌-◌, [], ◌∷◌, ◌++◌, length, map, take, slice_set, if◌then◌else◌, option_map, OnOk, IfOk};
ghost use Rattle.sc_gen_code.specs.Code as words;
ghost use Rattle.sc_gen_body.specs.Frames.{frame_of};
ghost use Rattle.sc_gen_body.specs.Jumps as jumps;
ghost use Rattle.sc_gen_body.specs.Statements as spec;

use crate::frame::FunctionFrame;
use crate::initializers::pieces;
use crate::jumps::{
    Exits, LabelPlace, Place, Text, entering, go, go_in, labelled, leaving, open_block, start_of,
    unless_equal,
};
use sc_base::{Items, NoMemory, Shared};
use sc_core::{CoreExpr, CoreStmt, LabelAt, SwitchLabel};
use sc_gen_code::{
    Access, RA, SP, Symbolic, T0, T1, X0, addi, block_service, close, entered, hole, jump, li,
    near, over, put, put_one, reopen, service,
};
use sc_gen_expr::{expression, test, test_back};
use sc_gen_operand::slot_of;
use sc_isa::{Instr, LoadOp, RegOp};
use std::alloc::Global;

/// The frame is given back, and the function returns.
pub fn epilogue(code: &mut Items<Symbolic>, cost: u32) -> Result<(), NoMemory>
    ensures { OnOk result (code.new ≡ code.old ++ spec.epilogue cost) }
{
    near(code, cost.saturating_sub(4), Access::Load(LoadOp::Lw, RA))?;
    if cost < 2048 {
        return put(code, &[addi(SP, SP, cost as i32), Instr::Jalr(X0, RA, 0)]);
    }
    li(code, T0, cost)?;
    put(
        code,
        &[Instr::Reg(RegOp::Add, SP, SP, T0), Instr::Jalr(X0, RA, 0)],
    )
}

fn value_or_none(
    alloc: Global,
    frame: &FunctionFrame,
    e: Option<&CoreExpr>,
    code: &mut Items<Symbolic>,
) -> Result<(), NoMemory>
    ensures { OnOk result (code.new ≡ code.old ++ spec.value_or_none (frame_of frame.now) (option_map (λ e. e.now) e.entry)) }
{
    match e {
        Some(e) => expression(alloc, &frame.scope, e, frame.temporaries, code),
        None => Ok(()),
    }
}

// The jump back to the body of a loop, where its test holds.
fn ends_turn(
    alloc: Global,
    frame: &FunctionFrame,
    e: Option<&CoreExpr>,
    top: usize,
    code: &mut Items<Symbolic>,
) -> Result<(), NoMemory>
    ensures { OnOk result (code.new ≡ code.old ++ spec.ends_turn (frame_of frame.now) (option_map (λ e. e.now) e.entry) (length code.old) top) }
{
    match e {
        Some(e) => test_back(alloc, &frame.scope, true, e, frame.temporaries, top, code),
        None => {
            let here = code.len();
            put_one(code, jump(here, top))
        }
    }
}

fn returned(
    alloc: Global,
    frame: &FunctionFrame,
    e: &Option<Shared<CoreExpr>>,
    code: &mut Items<Symbolic>,
) -> Result<(), NoMemory>
    ensures { OnOk result (code.new ≡ code.old ++ spec.returned (frame_of frame.now) e.now) }
{
    match e {
        Some(e) => {
            expression(alloc, &frame.scope, e.get(), frame.temporaries, code)?;
            block_service(code, 3, 0)?;
        }
        None => service(code, 6)?,
    }
    epilogue(code, frame.cost)
}

fn goes_to(text: &mut Text, label: u32) -> Result<(), NoMemory>
    ensures { OnOk result (spec.Adds (spec.go_to text.old.blocks (length text.old.code) (jumps.labelled label text.old.labels)) text.old text.new) }
{
    match labelled(text.labels.as_slice(), label) {
        Some(place) => go(&mut text.code, text.blocks.as_slice(), place),
        None => Ok(()),
    }
}

fn optional(e: &Option<Shared<CoreExpr>>) -> Option<&CoreExpr>
    ensures { option_map (λ e. e.now) result ≡ e.now }
{
    match e {
        Some(e) => Some(e.get()),
        None => None,
    }
}

/// The number of a block.
pub fn block_of(s: &CoreStmt) -> Option<u32>
    ensures { result ≡ spec.block_of s.now }
{
    match s {
        CoreStmt::Block(_, number, _, _) => Some(*number),
        CoreStmt::Initialize(_, _, _, _) => None,
        CoreStmt::Empty(_) => None,
        CoreStmt::Expression(_, _) => None,
        CoreStmt::If(_, _, _, _) => None,
        CoreStmt::Switch(_, _, _, _) => None,
        CoreStmt::While(_, _, _) => None,
        CoreStmt::Do(_, _, _, _) => None,
        CoreStmt::For(_, _, _, _, _) => None,
        CoreStmt::Case(_, _) => None,
        CoreStmt::Default(_, _) => None,
        CoreStmt::Label(_, _) => None,
        CoreStmt::Goto(_, _) => None,
        CoreStmt::Continue(_) => None,
        CoreStmt::Break(_) => None,
        CoreStmt::Return(_, _) => None,
    }
}

fn entry_of(frame: &FunctionFrame, s: &CoreStmt) -> Option<u32>
    ensures { result ≡ spec.entry_of (frame_of frame.now) s.now }
{
    match block_of(s) {
        Some(number) => entered(frame.scope.style, frame.scope.slots, number),
        None => None,
    }
}

/// The code of a statement of a function.
#[cycle(statement)]
pub fn statement(
    alloc: Global,
    frame: &FunctionFrame,
    s: &CoreStmt,
    exits: Exits,
    text: &mut Text,
) -> Result<(), NoMemory>
    ensures { OnOk result (spec.Adds (spec.statement_code (frame_of frame.now) s.now (length text.old.code) (spec.around text.old exits)) text.old text.new) }
{
    match s {
        CoreStmt::Block(_, number, labels, items) => {
            entering(
                &mut text.code,
                entered(frame.scope.style, frame.scope.slots, *number),
            )?;
            block(
                alloc,
                frame,
                *number,
                labels.as_slice(),
                items.as_slice(),
                exits,
                text,
            )?;
            Ok(())
        }
        CoreStmt::Initialize(_, block, n, all) => {
            let at = slot_of(frame.scope.slots, *block, *n);
            pieces(alloc, frame, at, all.as_slice(), &mut text.code)
        }
        CoreStmt::Empty(_) => Ok(()),
        CoreStmt::Expression(_, e) => {
            expression(
                alloc,
                &frame.scope,
                e.get(),
                frame.temporaries,
                &mut text.code,
            )
        }
        CoreStmt::If(_, e, first, other) => match other {
            None => {
                let end = tested(alloc, frame, first.get(), e.get(), exits, text)?;
                close(&mut text.code, end);
                Ok(())
            }
            Some(other) => {
                let skipped = tested(alloc, frame, first.get(), e.get(), exits, text)?;
                let end = reopen(&mut text.code, skipped)?;
                statement(alloc, frame, other.get(), exits, text)?;
                close(&mut text.code, end);
                Ok(())
            }
        },
        CoreStmt::Switch(_, e, labels, body) => {
            switch(
                alloc,
                frame,
                body.get(),
                e.get(),
                labels.as_slice(),
                exits,
                text,
            )
        }
        CoreStmt::While(_, e, body) => {
            turns(alloc, frame, body.get(), false, Some(e.get()), None, text)
        }
        CoreStmt::Do(_, body, _, e) => {
            turns(alloc, frame, body.get(), true, Some(e.get()), None, text)
        }
        CoreStmt::For(_, before, e, after, body) => {
            value_or_none(alloc, frame, optional(before), &mut text.code)?;
            turns(
                alloc,
                frame,
                body.get(),
                false,
                optional(e),
                optional(after),
                text,
            )
        }
        CoreStmt::Case(_, s) => statement(alloc, frame, s.get(), exits, text),
        CoreStmt::Default(_, s) => statement(alloc, frame, s.get(), exits, text),
        CoreStmt::Label(_, s) => statement(alloc, frame, s.get(), exits, text),
        CoreStmt::Goto(_, label) => goes_to(text, *label),
        CoreStmt::Continue(_) => go(&mut text.code, text.blocks.as_slice(), exits.on_continue),
        CoreStmt::Break(_) => go(&mut text.code, text.blocks.as_slice(), exits.on_break),
        CoreStmt::Return(_, e) => returned(alloc, frame, e, &mut text.code),
    }
}

/// Statements in order, and the places at which they begin.
#[cycle(statement)]
fn items_from(
    alloc: Global,
    frame: &FunctionFrame,
    items: &[Shared<CoreStmt>],
    exits: Exits,
    text: &mut Text,
) -> Result<Items<usize>, NoMemory>
    ensures { IfOk result (λ found. spec.Lists (spec.items_code (frame_of frame.now) (map (spec.body_of (frame_of frame.now)) items.now) items.now (length text.old.code) (spec.around text.old exits)) (spec.starts (frame_of frame.now) (map (spec.body_of (frame_of frame.now)) items.now) items.now (length text.old.code) (spec.around text.old exits)) text.old text.new found) }
{
    let mut starts = Items::new(alloc);
    for s in items {
        starts.push(text.code.len())?;
        statement(alloc, frame, s.get(), exits, text)?;
    }
    Ok(starts)
}

fn open_label(l: &LabelAt, depth: usize, text: &mut Text) -> Result<(), NoMemory>
    ensures { OnOk result (spec.OpensOne l.now depth text.old text.new) }
{
    let word = text.code.len();
    text.labels.push(LabelPlace {
        label: l.label,
        place: Place { word, depth },
    })?;
    put_one(&mut text.code, over(0))
}

// The jumps of a block's labels stand in front of its statements, behind one over them. Where they go is not known yet.
fn open_labels(labels: &[LabelAt], text: &mut Text) -> Result<(), NoMemory>
    ensures { OnOk result (spec.Opens labels.now text.old text.new) }
{
    if labels.is_empty() {
        return Ok(());
    }
    let depth = text.blocks.len();
    put_one(&mut text.code, over(labels.len()))?;
    for l in labels {
        open_label(l, depth, text)?;
    }
    Ok(())
}

// The word behind a place becomes the jump of a label. The place of this word.
fn set_label(
    code: &mut Items<Symbolic>,
    before: usize,
    first: usize,
    starts: &[usize],
    l: &LabelAt,
) -> usize
    requires { before < length code.old }
    ensures next { result ≡ before + 1 }
    ensures jumps { spec.JumpsTo (jumps.start_of first starts.now) l.now (before + 1) code.old code.new }
{
    let end = code.len();
    let at = before + 1;
    if at < end {
        code.set(at, Symbolic::Plain(jump(at, start_of(first, starts, l.at))));
    }
    at
}

// The jumps of labels, which stand behind a place.
fn set_labels(code: &mut Items<Symbolic>, first: usize, labels: &[LabelAt], starts: &[usize])
    requires { first + length labels.now ≤ length code.old }
    ensures { code.new ≡ jumps.with_jumps code.old first (jumps.start_of first starts.now) labels.now }
{
    let mut at = first;
    for l in labels {
        at = set_label(code, at, first, starts, l);
    }
}

/// The inside of a block, up to the end of its objects; and the places at which its statements begin.
#[cycle(statement)]
fn block(
    alloc: Global,
    frame: &FunctionFrame,
    number: u32,
    labels: &[LabelAt],
    items: &[Shared<CoreStmt>],
    exits: Exits,
    text: &mut Text,
) -> Result<Items<usize>, NoMemory>
    ensures { IfOk result (λ found. spec.Enters (spec.block_inner (frame_of frame.now) number labels.now (map (spec.body_of (frame_of frame.now)) items.now) items.now (length text.old.code) (spec.around text.old exits)) text.old text.new found) }
{
    let first = text.code.len();
    let depth = text.blocks.len();
    let outer = text.labels.len();
    let own = entered(frame.scope.style, frame.scope.slots, number);
    open_block(&mut text.blocks, own)?;
    open_labels(labels, text)?;
    let starts = items_from(alloc, frame, items, exits, text)?;
    set_labels(&mut text.code, first, labels, starts.as_slice());
    text.blocks.truncate(depth);
    text.labels.truncate(outer);
    leaving(&mut text.code, own)?;
    Ok(starts)
}

/// The test of an `if` and its first statement, and the place of the jump that leaves it out, which is written later.
#[cycle(statement)]
fn tested(
    alloc: Global,
    frame: &FunctionFrame,
    first: &CoreStmt,
    e: &CoreExpr,
    exits: Exits,
    text: &mut Text,
) -> Result<usize, NoMemory>
    ensures { IfOk result (λ place. spec.Tests (frame_of frame.now) (spec.body_of (frame_of frame.now) first.now) e.now first.now (spec.around text.old exits) text.old text.new place) }
{
    test(
        alloc,
        &frame.scope,
        true,
        e,
        frame.temporaries,
        &mut text.code,
    )?;
    let place = hole(&mut text.code)?;
    statement(alloc, frame, first, exits, text)?;
    Ok(place)
}

// The word at a place becomes a jump over all that stands behind it, where a loop begins with its test.
fn close_unless(code: &mut Items<Symbolic>, body_first: bool, place: usize)
    ensures { code.new ≡ (if body_first then code.old else slice_set code.old place (words.over (length code.old - (place + 1)))) }
{
    if !body_first {
        close(code, place);
    }
}

/// Every loop: a jump, the words of `break` and `continue`, the body, what comes after each turn, the test, the jump back.
#[cycle(statement)]
fn turns(
    alloc: Global,
    frame: &FunctionFrame,
    body: &CoreStmt,
    body_first: bool,
    e: Option<&CoreExpr>,
    after: Option<&CoreExpr>,
    text: &mut Text,
) -> Result<(), NoMemory>
    ensures { OnOk result (spec.Adds (spec.turns_code (frame_of frame.now) (spec.body_of (frame_of frame.now) body.now) body_first (option_map (λ e. e.now) e.entry) (option_map (λ e. e.now) after.entry) body.now (length text.old.code) (spec.loop_around text.old)) text.old text.new) }
{
    let depth = text.blocks.len();
    let start = text.code.len();
    put_one(&mut text.code, over(2))?;
    let on_break = text.code.len();
    put_one(&mut text.code, over(0))?;
    let on_continue = text.code.len();
    put_one(&mut text.code, over(0))?;
    let top = text.code.len();
    let own = Exits {
        on_break: Place {
            word: on_break,
            depth,
        },
        on_continue: Place {
            word: on_continue,
            depth,
        },
    };
    statement(alloc, frame, body, own, text)?;
    close(&mut text.code, on_continue);
    value_or_none(alloc, frame, after, &mut text.code)?;
    close_unless(&mut text.code, body_first, start);
    ends_turn(alloc, frame, e, top, &mut text.code)?;
    close(&mut text.code, on_break);
    Ok(())
}

// The body of a `switch`, without the entry of a block; and the places at which the statements of its list begin.
#[cycle(statement)]
fn inner(
    alloc: Global,
    frame: &FunctionFrame,
    s: &CoreStmt,
    exits: Exits,
    text: &mut Text,
) -> Result<Items<usize>, NoMemory>
    ensures { IfOk result (λ found. spec.Enters (spec.body_of (frame_of frame.now) s.now s.now (length text.old.code) (spec.around text.old exits)) text.old text.new found) }
{
    match s {
        CoreStmt::Block(_, number, labels, items) => {
            block(
                alloc,
                frame,
                *number,
                labels.as_slice(),
                items.as_slice(),
                exits,
                text,
            )
        }
        _ => {
            statement(alloc, frame, s, exits, text)?;
            Ok(Items::new(alloc))
        }
    }
}

/// `switch`: the value, a jump to the labels, the word of `break`, the body, a jump to the end, the labels.
#[cycle(statement)]
fn switch(
    alloc: Global,
    frame: &FunctionFrame,
    body: &CoreStmt,
    e: &CoreExpr,
    labels: &[SwitchLabel],
    exits: Exits,
    text: &mut Text,
) -> Result<(), NoMemory>
    ensures { OnOk result (spec.Adds (spec.switch_of (frame_of frame.now) (spec.body_of (frame_of frame.now) body.now) e.now labels.now body.now (length text.old.code) (spec.around text.old exits)) text.old text.new) }
{
    expression(alloc, &frame.scope, e, frame.temporaries, &mut text.code)?;
    let depth = text.blocks.len();
    let to_labels = text.code.len();
    put_one(&mut text.code, over(0))?;
    let on_break = text.code.len();
    put_one(&mut text.code, over(0))?;
    let own = Exits {
        on_break: Place {
            word: on_break,
            depth,
        },
        on_continue: exits.on_continue,
    };
    let top = text.code.len();
    let starts = inner(alloc, frame, body, own, text)?;
    let to_end = text.code.len();
    put_one(&mut text.code, over(0))?;
    close(&mut text.code, to_labels);
    let entry = entry_of(frame, body);
    cases(&mut text.code, entry, top, starts.as_slice(), labels)?;
    close(&mut text.code, to_end);
    close(&mut text.code, on_break);
    Ok(())
}

// The labels are compared in their order; the body's block is entered where one is the value.
fn cases(
    code: &mut Items<Symbolic>,
    block: Option<u32>,
    top: usize,
    starts: &[usize],
    labels: &[SwitchLabel],
) -> Result<(), NoMemory>
    ensures { OnOk result (code.new ≡ code.old ++ spec.cases_code block (jumps.start_of top starts.now) (length code.old) None labels.now) }
{
    let mut default = None;
    for l in labels {
        match l.value {
            Some(v) => case(code, block, v, start_of(top, starts, l.at))?,
            None => default = Some(l.at),
        }
    }
    match default {
        Some(n) => go_in(code, block, start_of(top, starts, n)),
        None => Ok(()),
    }
}

fn case(code: &mut Items<Symbolic>, block: Option<u32>, v: u32, to: usize) -> Result<(), NoMemory>
    ensures { OnOk result (code.new ≡ code.old ++ spec.case_code block (length code.old) v to) }
{
    li(code, T1, v)?;
    put_one(code, unless_equal(block))?;
    go_in(code, block, to)
}
