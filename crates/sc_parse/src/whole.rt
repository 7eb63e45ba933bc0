// A whole unit.
ghost use Rattle.std.specs.Prelude.{◌≡◌, ◌≤◌, [], ◌∷◌, All, Err, IfOk, OnOk, codes};
ghost use Rattle.sc_parse_names.specs.Names.{Names};
ghost use Rattle.sc_parse_grammar.specs.Steps.{IsSymbol};
ghost use Rattle.sc_parse_expr.specs.Brackets as brackets;
ghost use Rattle.sc_parse_unit.specs.Machine.{start};
ghost use Rattle.sc_parse_unit.specs.Parse.{Gives};
ghost use Rattle.sc_parse_laws.specs.Causes.{Parses};
ghost use Rattle.sc_parse_tokens.specs.Symbols.{symbols as symbols_of};
ghost use Rattle.sc_parse_unit.specs.Parse as spec;
ghost use Rattle.sc_parse.specs.Turns.{Turns};

use crate::machine::advance;
use sc_base::{Bytes, Fault, Items, NoMemory, Refusal, Stack, X};
use sc_lex::Token;
use sc_parse_expr::opens_with;
use sc_parse_grammar::{Limit, Trouble};
use sc_parse_names::{Kind, Mark, Symbol, TypeNames};
use sc_parse_tokens::symbols;
use sc_parse_unit::{Around, Obstacle, Stage};
use sc_tree::Unit;
use std::alloc::Global;

/// The word of a construct that is left out.
fn word_of(mark: Mark) -> &'static [u8]
    ensures { result.now ≡ spec.word_of mark }
{
    match mark {
        Mark::Float => b"float",
        Mark::Volatile => b"volatile",
        Mark::Variadic => b"variadic",
        Mark::LongLong => b"longlong",
        Mark::Wide => b"wide",
        Mark::MultiChar => b"multichar",
        Mark::BitField => b"bitfield",
        Mark::OldStyle => b"oldstyle",
        Mark::ImplicitInt => b"implicitint",
    }
}

fn refused(alloc: Global, kind: X, line: u32) -> Fault
    ensures { Gives (Err (kind, line)) (Err result) }
{
    let file = Bytes::from_vec(Vec::new(alloc));
    Fault::Refused(Refusal { kind, file, line })
}

fn left_out(alloc: Global, mark: Mark, line: u32) -> Fault
    ensures { Gives (Err (X.X9 (spec.word_of mark), line)) (Err result) }
{
    match Bytes::from_slice(alloc, word_of(mark)) {
        Ok(word) => refused(alloc, X::X9(word), line),
        Err(_) => Fault::NoMemory,
    }
}

fn too_high(alloc: Global, line: u32) -> Fault
    ensures { Gives (Err (X.X10 (codes "height"), line)) (Err result) }
{
    match Bytes::from_slice(alloc, b"height") {
        Ok(word) => refused(alloc, X::X10(word), line),
        Err(_) => Fault::NoMemory,
    }
}

fn too_many(alloc: Global, line: u32) -> Fault
    ensures { Gives (Err (X.X10 (codes "arguments"), line)) (Err result) }
{
    match Bytes::from_slice(alloc, b"arguments") {
        Ok(word) => refused(alloc, X::X10(word), line),
        Err(_) => Fault::NoMemory,
    }
}

/// The refusal at a token on line `here`, where the token before it is on line `before`.
fn refusal(alloc: Global, obstacle: Obstacle, before: u32, here: u32) -> Fault
    ensures gives { Gives (Err (spec.refusal obstacle before here)) (Err result) }
    ensures memory { obstacle ≡ Obstacle.Inner Trouble.NoMemory → result ≡ Fault.NoMemory }
{
    match obstacle {
        Obstacle::Nesting => too_high(alloc, here),
        Obstacle::Inner(Trouble::Syntax) => refused(alloc, X::X5, here),
        Obstacle::Inner(Trouble::LeftOut(mark)) => left_out(alloc, mark, here),
        Obstacle::Inner(Trouble::Limit(Limit::Height)) => too_high(alloc, before),
        Obstacle::Inner(Trouble::Limit(Limit::Arguments)) => too_many(alloc, before),
        Obstacle::Inner(Trouble::NoMemory) => Fault::NoMemory,
    }
}

/// The most brackets that are open at one place.
const MAX_OPEN: u32 = 500;

/// Takes a token where `count` brackets are open and the token before it is on line `before`: the stage behind it.
fn take(
    alloc: Global,
    names: &mut TypeNames,
    around: &mut Stack<Around>,
    stage: Stage,
    count: u32,
    before: u32,
    token: &Symbol,
) -> Result<Stage, Fault>
    requires symbol { IsSymbol token.now }
    requires few { count ≤ 500 }
    ensures within { OnOk result (brackets.opens_with count token.now.kind ≤ 500) }
    ensures turns { Turns count before (names.old, (around.old, stage)) token.now result names.new around.new }
{
    let open = opens_with(count, token.kind);
    if open > MAX_OPEN {
        drop(stage);
        return Err(too_high(alloc, token.line));
    }
    match advance(alloc, names, token, around, stage) {
        Ok(next) => Ok(next),
        Err(obstacle) => Err(refusal(alloc, obstacle, before, token.line)),
    }
}

/// What was read up to the end, where the last token is on this line.
fn ended(alloc: Global, around: &mut Stack<Around>, stage: Stage, line: u32) -> Result<Unit, Fault>
    ensures { (names : Names) → Gives (spec.ended line (names, (around.old, stage))) result }
{
    match stage {
        Stage::Over => match around.pop() {
            Some(Around::Unit(items)) => Ok(Unit { items }),
            Some(other) => {
                drop(other);
                Err(refused(alloc, X::X5, line))
            }
            None => Err(refused(alloc, X::X5, line)),
        },
        other => {
            drop(other);
            Err(refused(alloc, X::X5, line))
        }
    }
}

/// What stands behind the last token, which is on this line.
fn end_symbol(alloc: Global, line: u32) -> Symbol
    ensures { result ≡ spec.end_at line }
{
    Symbol {
        kind: Kind::End,
        text: Bytes::from_vec(Vec::new(alloc)),
        line,
    }
}

/// The end behind the last token, which is on line `before`.
fn finish(
    alloc: Global,
    names: &mut TypeNames,
    around: &mut Stack<Around>,
    stage: Stage,
    count: u32,
    before: u32,
) -> Result<Unit, Fault>
    ensures { Gives (spec.answer count before (names.old, (around.old, stage)) []) result }
{
    let end = end_symbol(alloc, before);
    match advance(alloc, names, &end, around, stage) {
        Ok(next) => ended(alloc, around, next, before),
        Err(obstacle) => Err(refusal(alloc, obstacle, before, before)),
    }
}

/// The empty unit, where nothing was read yet.
fn beginning(alloc: Global) -> Result<Stack<Around>, NoMemory>
    ensures { IfOk result (λ around. around ≡ Around.Unit [] ∷ []) }
{
    let mut around = Stack::new(alloc);
    around.push(Around::Unit(Items::new(alloc)))?;
    Ok(around)
}

fn read(alloc: Global, symbols: &[Symbol]) -> Result<Unit, Fault>
    requires { All IsSymbol symbols.now }
    ensures { Gives (spec.answer 0 1 start symbols.now) result }
{
    let mut names = TypeNames::new(alloc)?;
    let mut around = beginning(alloc)?;
    let mut stage = Stage::Due;
    let mut count = 0;
    let mut line = 1;
    let mut left = symbols;
    'symbols: while let Some((symbol, rest)) = left.split_first() {
        match take(alloc, &mut names, &mut around, stage, count, line, symbol) {
            Ok(next) => stage = next,
            Err(fault) => return Err(fault),
        }
        count = opens_with(count, symbol.kind);
        line = symbol.line;
        left = rest;
    }
    finish(alloc, &mut names, &mut around, stage, count, line)
}

/// The unit that the symbols are. X5 has the line of the first that no unit goes on with, or of the last where they end
/// too early; X9 comes at one of a construct that is left out, X10 where a limit is passed. A symbol of the kind `Name`
/// has 1 to 255 bytes.
pub fn unit(alloc: Global, symbols: &[Symbol]) -> Result<Unit, Fault>
    requires { All IsSymbol symbols.now }
    ensures { Parses symbols.now result }
{
    read(alloc, symbols)
}

/// The unit that the tokens are, as `unit` has it (ANSI 3.7). A `Newline` is no token of the grammar.
pub fn parse(alloc: Global, tokens: &[Token]) -> Result<Unit, Fault>
    ensures { Parses (symbols_of tokens.now) result }
{
    match symbols(alloc, tokens) {
        Ok(symbols) => unit(alloc, symbols.as_slice()),
        Err(_) => Err(Fault::NoMemory),
    }
}
