// An expression at the front of tokens.
ghost use Rattle.std.specs.Prelude.{◌≡◌, ◌≤◌, ℕ, [], None, IfOk, IfErr, OnOk};
ghost use Rattle.std.specs.Prelude.{All};
ghost use Rattle.sc_parse_grammar.specs.declared.operand.Operand.{Operand};
ghost use Rattle.sc_parse_grammar.specs.declared.frame.State.{State};
ghost use Rattle.sc_parse_grammar.specs.Steps.{IsSymbol};
ghost use Rattle.sc_parse_expr.specs.Brackets as brackets;
ghost use Rattle.sc_parse_expr.specs.Reading as spec;

use crate::machine::step;
use sc_base::{Bytes, NoMemory, Shared, Stack};
use sc_parse_grammar::{Frame, Limit, Operand, State, Trouble};
use sc_parse_names::{Kind, Symbol, TypeNames};
use sc_tree::Expr;
use std::alloc::Global;

/// An expression, and how many tokens it takes.
#[derive(Drop)]
pub struct Found {
    pub tree: Shared<Expr>,
    pub taken: usize,
}

/// Why there is no expression, and the line where that shows.
#[derive(Clone, Copy, Debug, PartialEq, Eq)]
pub struct Refused {
    pub trouble: Trouble,
    pub line: u32,
}

impl From<NoMemory> for Refused {
    ghost use Rattle.sc_parse_grammar.specs.declared.trouble.Trouble.TheVariants as trouble;

    ghost from_gives = { λ _ e. e.trouble ≡ trouble.NoMemory };

    fn from(_: NoMemory) -> Refused {
        Refused {
            trouble: Trouble::NoMemory,
            line: 0,
        }
    }
}

/// How many brackets are open behind one token more.
pub fn opens_with(depth: u32, kind: Kind) -> u32
    requires { depth ≤ 500 }
    ensures { result ≡ brackets.opens_with depth kind }
{
    match kind {
        Kind::LeftParen | Kind::LeftBracket | Kind::LeftBrace => depth + 1,
        Kind::RightParen | Kind::RightBracket | Kind::RightBrace => depth.saturating_sub(1),
        _ => depth,
    }
}

fn refusal(trouble: Trouble, last: u32, line: u32) -> Refused
    ensures { result ≡ spec.refused trouble (spec.line_for trouble last line) }
{
    match trouble {
        Trouble::Limit(Limit::Height) => Refused {
            trouble,
            line: last,
        },
        _ => Refused { trouble, line },
    }
}

/// The expression, where one ended.
fn ended(state: State) -> Result<Operand, State>
    ensures ended { IfOk result (λ x. state ≡ State.Expression x) }
    ensures open { IfErr result (λ other. (other ≡ state) × (spec.ended_in state ≡ None)) }
{
    match state {
        State::Expression(x) => Ok(x),
        other => Err(other),
    }
}

/// The end of the tokens.
fn at_end(
    alloc: Global,
    names: &mut TypeNames,
    frames: Stack<Frame>,
    state: State,
    last: u32,
    taken: usize,
) -> Result<Found, Refused>
    ensures { (depth : ℕ) → spec.Answers (spec.read depth last taken (names.old, (frames, state)) []) result names.new }
{
    let mut frames = frames;
    let end = Symbol {
        kind: Kind::End,
        text: Bytes::from_vec(Vec::new(alloc)),
        line: 0,
    };
    match step(alloc, names, &end, &mut frames, state) {
        Ok(next) => match ended(next) {
            Ok(x) => Ok(Found {
                tree: x.tree,
                taken,
            }),
            Err(other) => {
                drop(other);
                Err(Refused {
                    trouble: Trouble::Syntax,
                    line: last,
                })
            }
        },
        Err(trouble) => Err(refusal(trouble, last, last)),
    }
}

/// What a token makes of an expression that is read: it goes on, or ended before the token.
#[derive(Drop)]
pub enum Turn {
    Open(State),
    Done(Operand),
}

fn turned(state: State) -> Turn
    ensures { spec.Turned state result }
{
    match ended(state) {
        Ok(x) => Turn::Done(x),
        Err(other) => Turn::Open(other),
    }
}

/// One token, where this many brackets are open before it.
#[tactic(auto, using(crate::proofs::Turns::turn_ok, crate::proofs::Turns::turn_err, crate::proofs::Turns::turn_deep))]
fn one_token(
    alloc: Global,
    names: &mut TypeNames,
    symbol: &Symbol,
    frames: &mut Stack<Frame>,
    state: State,
    depth: u32,
    last: u32,
    taken: usize,
) -> Result<Turn, Refused>
    requires symbol { IsSymbol symbol.now }
    requires depth { depth ≤ 500 }
    ensures within { OnOk result (brackets.opens_with depth symbol.now.kind ≤ 500) }
    ensures turns { spec.Turns depth last taken (names.old, (frames.old, state)) symbol.now result names.new frames.new }
{
    let open = opens_with(depth, symbol.kind);
    if open > 500 {
        return Err(Refused {
            trouble: Trouble::Limit(Limit::Height),
            line: symbol.line,
        });
    }
    match step(alloc, names, symbol, frames, state) {
        Ok(next) => Ok(turned(next)),
        Err(trouble) => Err(refusal(trouble, last, symbol.line)),
    }
}

/// The expression that the tokens begin with.
fn reading(alloc: Global, symbols: &[Symbol], names: &mut TypeNames) -> Result<Found, Refused>
    requires { All IsSymbol symbols.now }
    ensures { spec.Answers (spec.read 0 1 0 (spec.start names.old) symbols.now) result names.new }
{
    let mut frames = Stack::new(alloc);
    frames.push(Frame::Only(1))?;
    let mut state = State::Need;
    let mut depth = 0;
    let mut last = 1;
    let mut taken = 0;
    let mut left = symbols;
    'reading: while let Some((symbol, rest)) = left.split_first() {
        match one_token(alloc, names, symbol, &mut frames, state, depth, last, taken)? {
            Turn::Done(x) => {
                return Ok(Found {
                    tree: x.tree,
                    taken,
                });
            }
            Turn::Open(next) => state = next,
        }
        depth = opens_with(depth, symbol.kind);
        last = symbol.line;
        taken += 1;
        left = rest;
    }
    at_end(alloc, names, frames, state, last, taken)
}

/// Reads the expression (ANSI 3.3) that the tokens begin with, and that ends with them or before `)`, `]`, `}`, `:` or
/// `;`. `names` are the names of types in scope; the enumeration constants that the expression declares join them, and
/// what a refusal or want of memory leaves in them is of no use. Refused
/// are tokens that begin with no such expression (`Syntax`, or `LeftOut` with what is left out there, at the line of the
/// first token that does not go on), and what is beyond a limit: an expression higher than 200, more than 31 arguments
/// or parameters, more than 500 open brackets. Each token of the kind `Name` has 1 to 255 bytes.
#[tactic(auto, using(crate::proofs::Fronts::found_by, crate::proofs::Fronts::refused_by, crate::proofs::Fronts::one_tree, crate::proofs::Founds::only_found))]
pub fn expression(
    alloc: Global,
    symbols: &[Symbol],
    names: &mut TypeNames,
) -> Result<Found, Refused>
    requires { All IsSymbol symbols.now }
    ensures exact { spec.Answers (spec.read 0 1 0 (spec.start names.old) symbols.now) result names.new }
    ensures found { (x : Operand) (taken : ℕ) → spec.BeginsWithin names.old symbols.now x taken → spec.Gives x taken result }
    ensures only { spec.FoundOnly names.old symbols.now result names.new }
    ensures refused { spec.RefusedOnly names.old symbols.now result }
    ensures one { spec.OneTree names.old symbols.now }
{
    reading(alloc, symbols, names)
}
