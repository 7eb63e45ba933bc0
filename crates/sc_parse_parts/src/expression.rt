// Expressions of statements and initialisers.
ghost use Rattle.std.specs.Prelude.{◌≡◌, List, [], ◌∷◌, Some, None, Ok};
ghost use Rattle.sc_parse_names.specs.Names.{Names};
ghost use Rattle.sc_parse_grammar.specs.Machine as inner;
ghost use Rattle.sc_parse_grammar.specs.Steps.{IsSymbol};
ghost use Rattle.sc_parse_unit.specs.Machine as spec;
ghost use Rattle.sc_parse_unit.specs.Steps.{Goes};

use crate::declaring::{STUCK, framed, initial_joins, initialized_ends, kept, list_ends};
use sc_base::{Items, Shared, Stack};
use sc_parse_expr::step;
use sc_parse_grammar::{Frame, Operand, State};
use sc_parse_names::{Kind, Symbol, TypeNames};
use sc_parse_unit::{Around, End, Head, Obstacle, Stage, Test};
use sc_tree::{Expr, Initializer, Statement};
use std::alloc::Global;

/// Whether the token is this end.
fn is_end(end: End, kind: Kind) -> bool
    ensures { result ≡ spec.is_end end kind }
{
    match end {
        End::Semicolon => kind == Kind::Semicolon,
        End::Paren => kind == Kind::RightParen,
        End::Colon => kind == Kind::Colon,
    }
}

/// Where only this end goes on, with one thing more open.
fn opens_at(
    end: End,
    kind: Kind,
    around: &mut Stack<Around>,
    frame: Around,
    stage: Stage,
) -> Result<Stage, Obstacle>
    ensures { (names : Names) → Goes (spec.ends_at end kind (Ok (names, (frame ∷ around.old, stage)))) result names around.new }
{
    if is_end(end, kind) {
        return kept(around, frame, stage);
    }
    drop(frame);
    drop(stage);
    Err(STUCK)
}

/// Where only this end goes on, and nothing more is open.
pub fn ends_at(end: End, kind: Kind, stage: Stage) -> Result<Stage, Obstacle>
    ensures { (names : Names) → (fs : List Around) → Goes (spec.ends_at end kind (Ok (names, (fs, stage)))) result names fs }
{
    if is_end(end, kind) {
        return Ok(stage);
    }
    drop(stage);
    Err(STUCK)
}

/// A token behind an expression that may be left out.
fn part_ends(
    kind: Kind,
    around: &mut Stack<Around>,
    x: Option<Shared<Expr>>,
) -> Result<Stage, Obstacle>
    ensures { (names : Names) → Goes (spec.part_ends names kind around.old x) result names around.new }
{
    match around.pop() {
        Some(Around::First(line)) => {
            opens_at(
                End::Semicolon,
                kind,
                around,
                Around::Second(line, x),
                Stage::Need,
            )
        }
        Some(Around::Second(line, first)) => {
            let third = Around::Third(line, first, x);
            opens_at(End::Semicolon, kind, around, third, Stage::Need)
        }
        Some(Around::Third(line, first, second)) => {
            let head = Head::For(line, first, second, x);
            opens_at(End::Paren, kind, around, Around::Under(head), Stage::Due)
        }
        Some(Around::Return(line)) => {
            ends_at(End::Semicolon, kind, Stage::Got(Statement::Return(line, x)))
        }
        Some(other) => {
            drop(other);
            Err(STUCK)
        }
        None => Err(STUCK),
    }
}

fn tested(of: Test, line: u32, x: Shared<Expr>) -> Head
    ensures { result ≡ spec.tested of line x }
{
    match of {
        Test::If => Head::Then(line, x),
        Test::Switch => Head::Switch(line, x),
        Test::While => Head::While(line, x),
    }
}

/// A token behind an expression that may not be left out.
fn whole_ends(
    alloc: Global,
    kind: Kind,
    around: &mut Stack<Around>,
    x: Operand,
) -> Result<Stage, Obstacle>
    ensures { (names : Names) → Goes (spec.whole_ends names kind around.old x) result names around.new }
{
    match around.pop() {
        Some(Around::Test(of, line)) => {
            let head = tested(of, line, x.tree);
            opens_at(End::Paren, kind, around, Around::Under(head), Stage::Due)
        }
        Some(Around::Until(line, body, until)) => {
            let last = Statement::Do(line, body, until, x.tree);
            ends_at(End::Paren, kind, Stage::Semicolon(last))
        }
        Some(Around::Value(line)) => {
            let head = Head::Case(line, x.tree);
            opens_at(End::Colon, kind, around, Around::Under(head), Stage::Due)
        }
        Some(Around::Expression) => {
            let last = Statement::Expression(x.line, x.tree);
            ends_at(End::Semicolon, kind, Stage::Got(last))
        }
        Some(Around::List(line, all)) => {
            initial_joins(
                kind,
                around,
                line,
                all,
                Initializer::Expression(x.line, x.tree),
            )
        }
        Some(Around::Initialized(line, d)) => {
            let initializer = Initializer::Expression(x.line, x.tree);
            initialized_ends(alloc, kind, around, line, d, initializer)
        }
        Some(other) => {
            drop(other);
            Err(STUCK)
        }
        None => Err(STUCK),
    }
}

/// Whether an expression may be left out here.
fn is_optional(around: &Stack<Around>) -> bool
    ensures { result ≡ spec.is_optional around.now }
{
    match around.top() {
        Some(Around::First(_)) => true,
        Some(Around::Second(_, _)) => true,
        Some(Around::Third(_, _, _)) => true,
        Some(Around::Return(_)) => true,
        _ => false,
    }
}

/// A token behind an expression.
fn expression_ends(
    alloc: Global,
    kind: Kind,
    around: &mut Stack<Around>,
    x: Operand,
) -> Result<Stage, Obstacle>
    ensures { (names : Names) → Goes (spec.expression_ends names kind around.old x) result names around.new }
{
    if is_optional(around) {
        part_ends(kind, around, Some(x.tree))
    } else {
        whole_ends(alloc, kind, around, x)
    }
}

/// A token of an expression.
#[tactic(auto, using(crate::proofs::Lifting::expression_err))]
pub fn in_expression(
    alloc: Global,
    names: &mut TypeNames,
    token: &Symbol,
    around: &mut Stack<Around>,
    mut frames: Stack<Frame>,
    state: State,
) -> Result<Stage, Obstacle>
    requires { IsSymbol token.now }
    ensures { Goes (spec.in_expression token.now around.old (inner.step token.now (names.old, (frames, state)))) result names.new around.new }
{
    match step(alloc, names, token, &mut frames, state) {
        Ok(State::Expression(x)) => expression_ends(alloc, token.kind, around, x),
        Ok(other) => Ok(Stage::Expression(frames, other)),
        Err(trouble) => Err(Obstacle::Inner(trouble)),
    }
}

/// An expression of this level at least begins with the token.
pub fn begin(
    alloc: Global,
    names: &mut TypeNames,
    token: &Symbol,
    around: &mut Stack<Around>,
    level: u8,
) -> Result<Stage, Obstacle>
    requires { IsSymbol token.now }
    ensures { Goes (spec.begin level token.now names.old around.old) result names.new around.new }
{
    let frames = framed(alloc, Frame::Only(level))?;
    in_expression(alloc, names, token, around, frames, State::Need)
}

/// An initialiser is due.
pub fn initial(
    alloc: Global,
    names: &mut TypeNames,
    token: &Symbol,
    around: &mut Stack<Around>,
) -> Result<Stage, Obstacle>
    requires { IsSymbol token.now }
    ensures { Goes (spec.initial token.now names.old around.old token.now.kind) result names.new around.new }
{
    match token.kind {
        Kind::LeftBrace => {
            let list = Around::List(token.line, Items::new(alloc));
            kept(around, list, Stage::Initial)
        }
        Kind::RightBrace => list_ends(around),
        _ => begin(alloc, names, token, around, 2),
    }
}

/// The level that the expression has at least.
fn needs(around: &Stack<Around>) -> u8
    ensures { result ≡ spec.needs around.now }
{
    match around.top() {
        Some(Around::Value(_)) => 3,
        _ => 1,
    }
}

/// Whether the token ends an expression that was left out.
fn ends_part(kind: Kind, around: &Stack<Around>) -> bool
    ensures { result ≡ spec.ends_part kind around.now }
{
    match around.top() {
        Some(Around::First(_)) => is_end(End::Semicolon, kind),
        Some(Around::Second(_, _)) => is_end(End::Semicolon, kind),
        Some(Around::Third(_, _, _)) => is_end(End::Paren, kind),
        Some(Around::Return(_)) => is_end(End::Semicolon, kind),
        _ => false,
    }
}

/// An expression is due, or the token behind it where it may be left out.
pub fn expression_due(
    alloc: Global,
    names: &mut TypeNames,
    token: &Symbol,
    around: &mut Stack<Around>,
) -> Result<Stage, Obstacle>
    requires { IsSymbol token.now }
    ensures { Goes (spec.expression_due token.now names.old around.old) result names.new around.new }
{
    if ends_part(token.kind, around) {
        return part_ends(token.kind, around, None);
    }
    let level = needs(around);
    begin(alloc, names, token, around, level)
}
