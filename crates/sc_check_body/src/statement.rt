// Statements (ANSI 3.6).
ghost use Rattle.std.specs.Prelude.{◌≡◌, map, IfOk};
ghost use Rattle.std.specs.Option.{option_map};
ghost use Rattle.sc_check_body.specs.Faults.{Says, GivesWith};
ghost use Rattle.sc_check_body.specs.Blocks as spec;

use crate::declarations::declared;
use crate::expressions::{condition, optional_condition, optional_value, selector};
use crate::fault::UnitFault;
use crate::progress::{Around, Body, Translation};
use crate::simple::{expression_statement, goto_statement, jump, node, return_statement};
use sc_base::{Items, Name, NoMemory, Shared};
use sc_check_expr::constant;
use sc_check_labels::{
    add_label, check_gotos, close_list, close_switch, end_label, note_label, number_label,
    open_list, open_switch,
};
use sc_check_scope::{State, enter, leave};
use sc_core::{CoreExpr, CoreStmt};
use sc_tree::{Declaration, Expr, Statement};
use std::alloc::Global;

/// Where the next statement of a list stands; `switched` says whether it is the list of a `switch`.
fn next_place(
    around: Around,
    switched: bool,
    list: &Items<Shared<CoreStmt>>,
) -> Result<Around, NoMemory>
    ensures { IfOk result (λ next. next ≡ spec.next_place switched list.now around) }
{
    match u32::try_from(list.len()) {
        Ok(at) => Ok(around.listed(switched, at)),
        Err(_) => Err(NoMemory),
    }
}

/// The statements of a block behind what is there; `switched` says whether the block is the body of a `switch`.
#[cycle(statements)]
fn listed(
    alloc: Global,
    m: &mut Translation,
    f: &mut Body,
    around: Around,
    switched: bool,
    statements: &[Statement],
    before: Items<Shared<CoreStmt>>,
) -> Result<Items<Shared<CoreStmt>>, UnitFault>
    ensures { GivesWith (spec.statements around switched (map spec.standing statements.now) before (m.old, f.old)) result (m.new, f.new) }
{
    let mut done = before;
    for s in statements {
        let next = next_place(around, switched, &done)?;
        let core = statement(alloc, m, f, next, s)?;
        done.push(core)?;
    }
    Ok(done)
}

/// A block whose scope is there (ANSI 3.6.2); `switched` says whether it is the body of a `switch`.
///
/// # Errors
///
/// The first refusal of its declarations and statements, in the order in which constructs end.
#[cycle(statements)]
pub fn block(
    alloc: Global,
    m: &mut Translation,
    f: &mut Body,
    around: Around,
    switched: bool,
    line: u32,
    statements: &[Statement],
    declarations: &[Declaration],
) -> Result<Shared<CoreStmt>, UnitFault>
    ensures { GivesWith (spec.block around switched line statements.now declarations.now (m.old, f.old)) result (m.new, f.new) }
{
    let (number, initialized) = declared(alloc, m, f, declarations)?;
    open_list(alloc, &mut f.labels, number)?;
    let all = listed(alloc, m, f, around, switched, statements, initialized)?;
    let labels = close_list(alloc, &mut f.labels);
    node(alloc, CoreStmt::Block(line, number, labels, all))
}

/// A block with a scope of its own (ANSI 3.1.2.1).
#[cycle(statements)]
fn inner_block(
    alloc: Global,
    m: &mut Translation,
    f: &mut Body,
    around: Around,
    switched: bool,
    line: u32,
    statements: &[Statement],
    declarations: &[Declaration],
) -> Result<Shared<CoreStmt>, UnitFault>
    ensures { GivesWith (spec.inner_block around switched line (map spec.standing statements.now) declarations.now (m.old, f.old)) result (m.new, f.new) }
{
    let outer = enter(&mut m.st);
    let core = block(
        alloc,
        m,
        f,
        around,
        switched,
        line,
        statements,
        declarations,
    )?;
    leave(&mut m.st, outer);
    Ok(core)
}

// ---- statements with parts

/// `if` with its condition and its statement, and the statement behind `else` (ANSI 3.6.4.1).
#[cycle(statements)]
fn otherwise(
    alloc: Global,
    m: &mut Translation,
    f: &mut Body,
    around: Around,
    line: u32,
    b: &Option<Shared<Statement>>,
    e: Shared<CoreExpr>,
    a: Shared<CoreStmt>,
) -> Result<Shared<CoreStmt>, UnitFault>
    ensures { GivesWith (spec.otherwise line e a (option_map spec.standing b.now) around (m.old, f.old)) result (m.new, f.new) }
{
    match b {
        Some(b) => {
            let b = statement(alloc, m, f, around.part(), b.get())?;
            node(alloc, CoreStmt::If(line, e, a, Some(b)))
        }
        None => node(alloc, CoreStmt::If(line, e, a, None)),
    }
}

/// The body of a `switch`: a block's statements are its list, and another statement is a list of itself alone.
#[cycle(statements)]
fn switch_body(
    alloc: Global,
    m: &mut Translation,
    f: &mut Body,
    around: Around,
    body: &Statement,
) -> Result<Shared<CoreStmt>, UnitFault>
    ensures { GivesWith ((spec.standing body.now).as_body around (m.old, f.old)) result (m.new, f.new) }
{
    match body {
        Statement::Block(line, declarations, statements) => inner_block(
            alloc,
            m,
            f,
            around,
            true,
            *line,
            statements.as_slice(),
            declarations.as_slice(),
        ),
        _ => statement(alloc, m, f, around.alone(), body),
    }
}

/// `switch` (ANSI 3.6.4.2).
#[cycle(statements)]
fn switch_statement(
    alloc: Global,
    m: &mut Translation,
    f: &mut Body,
    around: Around,
    line: u32,
    body: &Statement,
    e: &Expr,
) -> Result<Shared<CoreStmt>, UnitFault>
    ensures { GivesWith (spec.switch line e.now (spec.standing body.now) around (m.old, f.old)) result (m.new, f.new) }
{
    let (e, of) = selector(alloc, &mut m.st, e)?;
    open_switch(alloc, &mut f.labels, of)?;
    let body = switch_body(alloc, m, f, around.switched(), body)?;
    let labels = close_switch(alloc, &mut f.labels);
    node(alloc, CoreStmt::Switch(line, e, labels, body))
}

/// `while` (ANSI 3.6.5.1).
#[cycle(statements)]
fn while_statement(
    alloc: Global,
    m: &mut Translation,
    f: &mut Body,
    around: Around,
    line: u32,
    body: &Statement,
    e: &Expr,
) -> Result<Shared<CoreStmt>, UnitFault>
    ensures { GivesWith (spec.while_loop line e.now (spec.standing body.now) around (m.old, f.old)) result (m.new, f.new) }
{
    let e = condition(alloc, &mut m.st, e)?;
    let body = statement(alloc, m, f, around.looped(), body)?;
    node(alloc, CoreStmt::While(line, e, body))
}

/// `do`, whose `while` stands on another line (ANSI 3.6.5.2).
#[cycle(statements)]
fn do_statement(
    alloc: Global,
    m: &mut Translation,
    f: &mut Body,
    around: Around,
    line: u32,
    body: &Statement,
    at: u32,
    e: &Expr,
) -> Result<Shared<CoreStmt>, UnitFault>
    ensures { GivesWith (spec.do_loop line (spec.standing body.now) at e.now around (m.old, f.old)) result (m.new, f.new) }
{
    let body = statement(alloc, m, f, around.looped(), body)?;
    let e = condition(alloc, &mut m.st, e)?;
    node(alloc, CoreStmt::Do(line, body, at, e))
}

/// The expressions of a `for`, in order.
fn for_expressions(
    alloc: Global,
    st: &mut State,
    first: &Option<Shared<Expr>>,
    second: &Option<Shared<Expr>>,
) -> Result<(Option<Shared<CoreExpr>>, Option<Shared<CoreExpr>>), UnitFault>
    ensures { GivesWith (spec.for_begin first.now second.now st.old) result st.new }
{
    let first = optional_value(alloc, st, first)?;
    let second = optional_condition(alloc, st, second)?;
    Ok((first, second))
}

/// `for` (ANSI 3.6.5.3).
#[cycle(statements)]
fn for_statement(
    alloc: Global,
    m: &mut Translation,
    f: &mut Body,
    around: Around,
    line: u32,
    body: &Statement,
    first: &Option<Shared<Expr>>,
    second: &Option<Shared<Expr>>,
    third: &Option<Shared<Expr>>,
) -> Result<Shared<CoreStmt>, UnitFault>
    ensures { GivesWith (spec.for_loop line first.now second.now third.now (spec.standing body.now) around (m.old, f.old)) result (m.new, f.new) }
{
    let (first, second) = for_expressions(alloc, &mut m.st, first, second)?;
    let third = optional_value(alloc, &mut m.st, third)?;
    let body = statement(alloc, m, f, around.looped(), body)?;
    node(alloc, CoreStmt::For(line, first, second, third, body))
}

/// A statement behind `case`, whose constant comes before it and whose own rules after it (ANSI 3.6.1).
#[cycle(statements)]
fn case_statement(
    alloc: Global,
    m: &mut Translation,
    f: &mut Body,
    around: Around,
    line: u32,
    below: &Statement,
    e: &Expr,
) -> Result<Shared<CoreStmt>, UnitFault>
    ensures { GivesWith (spec.case line e.now (spec.standing below.now) around (m.old, f.old)) result (m.new, f.new) }
{
    let (bits, _) = constant(alloc, &mut m.st, e)?;
    note_label(&mut f.labels, Some(bits), around.at)?;
    let below = statement(alloc, m, f, around, below)?;
    add_label(&mut f.labels, line, Some(bits), around.at)?;
    node(alloc, CoreStmt::Case(line, below))
}

/// A statement behind `default` (ANSI 3.6.1).
#[cycle(statements)]
fn default_statement(
    alloc: Global,
    m: &mut Translation,
    f: &mut Body,
    around: Around,
    line: u32,
    below: &Statement,
) -> Result<Shared<CoreStmt>, UnitFault>
    ensures { GivesWith (spec.default_case line (spec.standing below.now) around (m.old, f.old)) result (m.new, f.new) }
{
    note_label(&mut f.labels, None, around.at)?;
    let below = statement(alloc, m, f, around, below)?;
    add_label(&mut f.labels, line, None, around.at)?;
    node(alloc, CoreStmt::Default(line, below))
}

/// A statement behind a name and a colon, whose own rule comes after it (ANSI 3.6.1).
#[cycle(statements)]
fn label_statement(
    alloc: Global,
    m: &mut Translation,
    f: &mut Body,
    around: Around,
    line: u32,
    below: &Statement,
    name: &Name,
) -> Result<Shared<CoreStmt>, UnitFault>
    ensures { GivesWith (spec.label_statement line name.now (spec.standing below.now) around (m.old, f.old)) result (m.new, f.new) }
{
    let label = number_label(alloc, &mut f.labels, name)?;
    let below = statement(alloc, m, f, around, below)?;
    end_label(&mut f.labels, line, label, around.place)?;
    node(alloc, CoreStmt::Label(line, below))
}

/// A statement.
///
/// # Errors
///
/// The first refusal in the order in which constructs end. Its own: `Rule` (X7) for a controlling expression that is no scalar, or of
/// a `switch` no integer; for `break`, `continue` and labels outside of what they belong to; for equal labels; for a `return`
/// whose value the result does not take. X9 `casedepth` and X10 `cases` of labels. A `goto` is looked at in `end_body`.
#[cycle(statements)]
fn statement(
    alloc: Global,
    m: &mut Translation,
    f: &mut Body,
    around: Around,
    s: &Statement,
) -> Result<Shared<CoreStmt>, UnitFault>
    ensures { GivesWith ((spec.standing s.now).typed around (m.old, f.old)) result (m.new, f.new) }
{
    match s {
        Statement::Block(line, declarations, statements) => inner_block(
            alloc,
            m,
            f,
            around.part(),
            false,
            *line,
            statements.as_slice(),
            declarations.as_slice(),
        ),
        Statement::Empty(line) => node(alloc, CoreStmt::Empty(*line)),
        Statement::Expression(line, e) => expression_statement(alloc, &mut m.st, *line, e.get()),
        Statement::If(line, e, a, b) => {
            let e = condition(alloc, &mut m.st, e.get())?;
            let a = statement(alloc, m, f, around.part(), a.get())?;
            otherwise(alloc, m, f, around, *line, b, e, a)
        }
        Statement::Switch(line, e, body) => {
            switch_statement(alloc, m, f, around, *line, body.get(), e.get())
        }
        Statement::While(line, e, body) => {
            while_statement(alloc, m, f, around, *line, body.get(), e.get())
        }
        Statement::Do(line, body, at, e) => {
            do_statement(alloc, m, f, around, *line, body.get(), *at, e.get())
        }
        Statement::For(line, a, b, c, body) => {
            for_statement(alloc, m, f, around, *line, body.get(), a, b, c)
        }
        Statement::Case(line, e, below) => {
            case_statement(alloc, m, f, around, *line, below.get(), e.get())
        }
        Statement::Default(line, below) => {
            default_statement(alloc, m, f, around, *line, below.get())
        }
        Statement::Label(line, name, below) => {
            label_statement(alloc, m, f, around, *line, below.get(), name)
        }
        Statement::Goto(line, name) => goto_statement(alloc, f, *line, name),
        Statement::Continue(line) => {
            jump(alloc, *line, around.in_loop, CoreStmt::Continue(*line))
        }
        Statement::Break(line) => jump(alloc, *line, around.may_break, CoreStmt::Break(*line)),
        Statement::Return(line, e) => return_statement(alloc, &mut m.st, f, *line, e),
    }
}

/// The end of a body, where each `goto` ends.
///
/// # Errors
///
/// Of the first `goto` that breaks a rule: X6 where its label is nowhere in the function; X9 `gotoin` where it is not inside a block in
/// whose list its label stands.
pub fn end_body(f: &Body) -> Result<(), UnitFault>
    ensures { Says (spec.end_body f.now) result }
{
    Ok(check_gotos(&f.labels)?)
}
