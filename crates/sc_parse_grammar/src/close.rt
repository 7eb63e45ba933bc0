// What ends with the next token.
ghost use Rattle.std.specs.Prelude.{◌≡◌, ◌<◌, ◌≤◌, List, [], ◌∷◌, ◌++◌, length, max, Some, None, Ok, IfOk};
ghost use Rattle.sc_parse_grammar.specs.Machine as spec;
ghost use Rattle.sc_parse_grammar.specs.Types.{item_of as item_in};
ghost use Rattle.sc_parse_grammar.specs.Nodes.{call_node as call_in};
ghost use Rattle.sc_parse_grammar.specs.Steps.{Steps, Settles};

use crate::classes::{level_of, operand_of};
use crate::frame::{Frame, State};
use crate::nodes::{
    assign_node, binary_node, call_node, cast_node, comma_node, conditional_node, index_node,
    paren_node, size_node, unary_node,
};
use crate::operand::{Direct, Operand};
use crate::parts::with_step;
use crate::trouble::{Limit, Trouble};
use sc_base::{Items, NoMemory, Shared, Stack};
use sc_tree::{Derivation, Enumerator, Expr, Identifier};
use std::alloc::Global;

/// The level of what the frame makes, or 0 where it is no operator's.
fn level_in(frame: &Frame) -> u8
    ensures { result ≡ spec.level_in frame.now }
{
    match frame {
        Frame::Unary(_, _) | Frame::SizeOf(_) => 15,
        Frame::Cast(_, _) => 14,
        Frame::Binary(_, op) => level_of(*op),
        Frame::Else(_, _) => 3,
        Frame::Assign(_, _) => 2,
        Frame::Comma(_) => 1,
        _ => 0,
    }
}

/// The operand that an operator's frame makes of the one inside it.
fn built(alloc: Global, frame: Frame, x: Operand) -> Result<Operand, NoMemory>
    ensures { IfOk result (λ y. y ≡ spec.built frame x) }
{
    match frame {
        Frame::Unary(line, op) => unary_node(alloc, line, op, x),
        Frame::SizeOf(line) => size_node(alloc, line, x),
        Frame::Cast(line, of) => cast_node(alloc, line, of, x),
        Frame::Binary(a, op) => binary_node(alloc, a, op, x),
        Frame::Else(a, b) => conditional_node(alloc, a, b, x),
        Frame::Assign(a, op) => assign_node(alloc, a, op, x),
        Frame::Comma(a) => comma_node(alloc, a, x),
        other => {
            drop(other);
            Ok(x)
        }
    }
}

fn level_of_top(frames: &Stack<Frame>) -> u8
    ensures { result ≡ spec.level_on frames.now }
{
    match frames.top() {
        Some(frame) => level_in(frame),
        None => 0,
    }
}

/// Closes the frames whose operator binds at least as tightly as `power`: the operand that was read. One that is higher
/// than 200 is refused.
#[tactic(auto, using(crate::proofs::Closing::settles_on, crate::proofs::Closing::settle_ends, crate::proofs::Closing::settle_high))]
pub fn settle(
    alloc: Global,
    power: u8,
    frames: &mut Stack<Frame>,
    mut x: Operand,
) -> Result<Operand, Trouble>
    requires { 0 < power }
    ensures { Settles (spec.settle power frames.old x) result frames.new }
{
    'closing: while level_of_top(frames) >= power {
        if x.height > 200 {
            return Err(Trouble::Limit(Limit::Height));
        }
        if let Some(frame) = frames.pop() {
            x = built(alloc, frame, x)?;
        }
    }
    if x.height > 200 {
        return Err(Trouble::Limit(Limit::Height));
    }
    Ok(x)
}

/// The most arguments or parameters of a list before its last.
const MAX_BEFORE: usize = 30;

/// Whether an argument ends that is the 32nd, or a further one.
pub fn is_full(frames: &Stack<Frame>) -> bool
    ensures { result ≡ spec.is_full frames.now }
{
    match frames.top() {
        Some(Frame::Arguments(_, args, _)) => args.len() > MAX_BEFORE,
        _ => false,
    }
}

fn called(
    alloc: Global,
    a: Operand,
    mut args: Items<Shared<Expr>>,
    highest: u8,
    x: Operand,
) -> Result<State, Trouble>
    ensures { (fs : List Frame) → Steps (Ok (fs, State.Have (call_in a (args ++ x.tree ∷ []) (max highest x.height)))) result fs }
{
    let height = highest.max(x.height);
    args.push(x.tree)?;
    let call = call_node(alloc, a, args, height)?;
    Ok(State::Have(call))
}

pub fn close_paren(alloc: Global, frames: &mut Stack<Frame>, x: Operand) -> Result<State, Trouble>
    ensures { Steps (spec.close_paren frames.old x) result frames.new }
{
    match frames.pop() {
        Some(Frame::Paren(line)) => Ok(State::Have(paren_node(line, x))),
        Some(Frame::Arguments(a, args, highest)) => called(alloc, a, args, highest, x),
        Some(Frame::Only(_)) => Ok(State::Expression(x)),
        Some(other) => {
            drop(other);
            Err(Trouble::Syntax)
        }
        None => Err(Trouble::Syntax),
    }
}

fn indexed(alloc: Global, a: Operand, x: Operand) -> Result<State, Trouble>
    ensures { (fs : List Frame) → Steps (spec.close_bracket (Frame.Index a ∷ fs) x) result fs }
{
    let index = index_node(alloc, a, x)?;
    Ok(State::Have(index))
}

fn array(alloc: Global, d: Direct, x: Operand) -> Result<State, Trouble>
    ensures { (fs : List Frame) → Steps (spec.close_bracket (Frame.Size d ∷ fs) x) result fs }
{
    let array = with_step(d, Derivation::Array(Some(x.tree)), Items::new(alloc))?;
    Ok(State::Direct(array))
}

pub fn close_bracket(alloc: Global, frames: &mut Stack<Frame>, x: Operand) -> Result<State, Trouble>
    ensures { Steps (spec.close_bracket frames.old x) result frames.new }
{
    match frames.pop() {
        Some(Frame::Index(a)) => indexed(alloc, a, x),
        Some(Frame::Size(d)) => array(alloc, d, x),
        Some(Frame::Only(_)) => Ok(State::Expression(x)),
        Some(other) => {
            drop(other);
            Err(Trouble::Syntax)
        }
        None => Err(Trouble::Syntax),
    }
}

/// An item of an enumeration.
pub fn item_of(name: Identifier, value: Option<Shared<Expr>>) -> Enumerator
    ensures { result ≡ item_in name value }
{
    Enumerator {
        line: name.line,
        name: name.name,
        value,
    }
}

pub fn close_brace(frames: &mut Stack<Frame>, x: Operand) -> Result<State, Trouble>
    ensures { Steps (spec.close_brace frames.old x) result frames.new }
{
    match frames.pop() {
        Some(Frame::Item(name)) => Ok(State::ItemEnd(item_of(name, Some(x.tree)), true)),
        Some(Frame::Only(_)) => Ok(State::Expression(x)),
        Some(other) => {
            drop(other);
            Err(Trouble::Syntax)
        }
        None => Err(Trouble::Syntax),
    }
}

pub fn close_then(frames: &mut Stack<Frame>, x: Operand) -> Result<State, Trouble>
    ensures { Steps (spec.close_then frames.old x) result frames.new }
{
    match frames.pop() {
        Some(Frame::Then(a)) => {
            frames.push(Frame::Else(a, x))?;
            Ok(State::Need)
        }
        Some(Frame::Only(_)) => Ok(State::Expression(x)),
        Some(other) => {
            drop(other);
            Err(Trouble::Syntax)
        }
        None => Err(Trouble::Syntax),
    }
}

/// A semicolon, or the end of the tokens.
pub fn close_all(frames: &mut Stack<Frame>, x: Operand) -> Result<State, Trouble>
    ensures { Steps (spec.close_all frames.old x) result frames.new }
{
    match frames.pop() {
        Some(Frame::Only(_)) => Ok(State::Expression(x)),
        Some(other) => {
            drop(other);
            Err(Trouble::Syntax)
        }
        None => Err(Trouble::Syntax),
    }
}

fn argument(
    frames: &mut Stack<Frame>,
    a: Operand,
    mut args: Items<Shared<Expr>>,
    highest: u8,
    x: Operand,
) -> Result<State, Trouble>
    ensures { Steps (spec.separate (Frame.Arguments a args highest ∷ frames.old) x) result frames.new }
{
    let height = highest.max(x.height);
    args.push(x.tree)?;
    frames.push(Frame::Arguments(a, args, height))?;
    Ok(State::Need)
}

fn needs_in(frame: &Frame) -> u8
    ensures { result ≡ spec.needs_in frame.now }
{
    match frame {
        Frame::Only(level) => *level,
        Frame::Unary(_, op) => operand_of(*op),
        Frame::SizeOf(_) => 15,
        Frame::Cast(_, _) => 14,
        Frame::Binary(_, op) => level_of(*op) + 1,
        Frame::Else(_, _) | Frame::Item(_) | Frame::Size(_) => 3,
        Frame::Arguments(_, _, _) | Frame::Assign(_, _) | Frame::Comma(_) => 2,
        _ => 1,
    }
}

/// The level that an operand right inside these frames has at least.
pub fn needs(frames: &Stack<Frame>) -> u8
    ensures { result ≡ spec.needs frames.now }
{
    match frames.top() {
        Some(frame) => needs_in(frame),
        None => 1,
    }
}

/// A comma where the operator may not stand.
fn separate(frames: &mut Stack<Frame>, x: Operand) -> Result<State, Trouble>
    ensures { Steps (spec.separate frames.old x) result frames.new }
{
    match frames.pop() {
        Some(Frame::Arguments(a, args, highest)) => argument(frames, a, args, highest, x),
        Some(Frame::Item(name)) => Ok(State::ItemEnd(item_of(name, Some(x.tree)), false)),
        Some(Frame::Only(_)) => Ok(State::Expression(x)),
        Some(other) => {
            drop(other);
            Err(Trouble::Syntax)
        }
        None => Err(Trouble::Syntax),
    }
}

pub fn at_comma(frames: &mut Stack<Frame>, x: Operand) -> Result<State, Trouble>
    ensures { Steps (spec.at_comma frames.old x) result frames.new }
{
    let due = needs(frames);
    if due <= 1 {
        frames.push(Frame::Comma(x))?;
        return Ok(State::Need);
    }
    separate(frames, x)
}
