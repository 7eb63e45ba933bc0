// The state of a unit, and what its text becomes.
ghost use Rattle.std.specs.Prelude.{◌≡◌, map, IfOk, IfSome};
ghost use Rattle.sc_pp.specs.Outcomes.{Leaves, Yields};
ghost use Rattle.sc_pp.specs.Directives as spec;

use crate::environment::Environment;
use crate::failure::{beyond, told};
use crate::header::Header;
use sc_base::{Bytes, Fault, Items, NoMemory, Stack};
use sc_lex::Token;
use std::alloc::Global;

/// The most tokens of a unit.
const MAX_TOKENS: usize = 1000000;

/// The unit so far: what names stand for, its tokens, the replacements of macros that may still be made, the number of
/// files that were included, and the built-in headers among them.
#[derive(Drop)]
pub struct State {
    pub env: Environment,
    pub out: Items<Token>,
    pub left: u32,
    pub opened: u32,
    pub seen: Items<Header>,
}

/// A file that is read: its name and its number, and the line of the `#include` in the unit's own file, 0 there.
#[derive(Drop)]
pub struct Place {
    pub name: Bytes,
    pub number: u32,
    pub top: u32,
}

/// Tokens with their macros replaced.
pub fn expanded(
    alloc: Global,
    place: &Place,
    state: &mut State,
    tokens: &[Token],
) -> Result<Items<Token>, Fault>
    ensures yields { Yields (spec.expanded place.now state.old tokens.now) result state.new }
{
    match state.env.expand(alloc, tokens, state.left) {
        Ok((done, left)) => {
            state.left = left;
            Ok(done)
        }
        Err(fault) => Err(told(alloc, &place.name, fault)),
    }
}

/// The line that what stands at a line of this file has in the unit.
pub fn line_in(place: &Place, line: u32) -> u32
    ensures { result ≡ spec.line_in place.now line }
{
    if place.top == 0 { line } else { place.top }
}

fn landed(alloc: Global, place: &Place, tokens: Items<Token>) -> Result<Items<Token>, NoMemory>
    ensures { IfOk result (λ ts. ts ≡ map (spec.landed place.now) tokens) }
{
    let mut rest = Stack::new(alloc);
    rest.push_all(tokens)?;
    let mut out = Items::new(alloc);
    'tokens: while let Some(token) = rest.pop() {
        let line = line_in(place, token.line);
        out.push(Token {
            kind: token.kind,
            text: token.text,
            file: token.file,
            line,
            space: token.space,
        })?;
    }
    Ok(out)
}

fn line_at(tokens: &[Token]) -> u32
    ensures { result ≡ spec.line_at tokens.now }
{
    match tokens {
        [] => 0,
        [first, ..] => first.line,
    }
}

/// Puts tokens behind those of the unit.
pub fn deliver(
    alloc: Global,
    place: &Place,
    state: &mut State,
    tokens: Items<Token>,
) -> Result<(), Fault>
    ensures { Leaves (spec.delivered place.now state.old tokens) result state.new }
{
    let room = MAX_TOKENS.saturating_sub(state.out.len());
    if room < tokens.len() {
        let (_, excess) = tokens.as_slice().split_at(room);
        let line = line_at(excess);
        return Err(beyond(alloc, b"tokens", &place.name, line));
    }
    let landed = landed(alloc, place, tokens)?;
    state.out.append(landed)?;
    Ok(())
}
