// The expressions of `#if`, read one term at a time (ANSI 3.4, 3.8.1).
ghost use Rattle.std.specs.Prelude.{◌≡◌, ◌<◌, ◌≤◌, ◌∷◌, Some};
ghost use Rattle.sc_pp_condition.specs.Machine as spec;
ghost use Rattle.sc_pp_condition.specs.Steps.{Steps};

use crate::number::Value;
use crate::operand::{Operand, applied, chosen, leaf, prefixed};
use crate::operator::{Operator, is_prefix, level_of};
use sc_base::{NoMemory, Stack};

/// A token of the expression. `End` stands behind the last, and `Other` is a token that no such expression has.
#[derive(Clone, Copy, Debug, PartialEq, Eq)]
pub enum Term {
    Number(Value),
    Operator(Operator),
    LeftParen,
    RightParen,
    Question,
    Colon,
    Other,
    End,
}

/// What stands open around the place that is read, with the parts of it that were read.
#[derive(Clone, Copy, Debug, PartialEq, Eq)]
pub(crate) enum Frame {
    Paren,
    Prefix(Operator),
    Binary(Operator, Operand),
    Then(Operand),
    Else(Operand, Operand),
}

/// What the next term has to go on with: an operand is due; one was read, of this level; the end was read.
#[derive(Clone, Copy, Debug, PartialEq, Eq)]
pub(crate) enum State {
    Need,
    Have(Operand, u8),
    Done(Operand),
}

/// Why a step was not taken.
#[derive(Clone, Copy, Debug, PartialEq, Eq)]
pub enum Trouble {
    Syntax,
    NoMemory,
}

impl From<NoMemory> for Trouble {
    ghost use Rattle.sc_pp_condition.specs.declared.machine.Trouble.TheVariants as trouble;

    ghost from_gives = { λ _ e. e ≡ trouble.NoMemory };

    fn from(_: NoMemory) -> Trouble {
        Trouble::NoMemory
    }
}

/// The level that what stands before the term has at least, so that the term goes on with it.
fn power_of(term: Term) -> u8
    ensures value { result ≡ spec.power_of term }
    ensures positive { 0 < result }
    ensures small { result ≤ 13 }
{
    match term {
        Term::Operator(op) => level_of(op),
        Term::Question => 4,
        _ => 1,
    }
}

fn level_in(frame: Frame) -> u8
    ensures { result ≡ spec.level_in frame }
{
    match frame {
        Frame::Prefix(_) => 15,
        Frame::Binary(op, _) => level_of(op),
        Frame::Else(_, _) => 3,
        Frame::Paren | Frame::Then(_) => 0,
    }
}

fn level_on(frames: &Stack<Frame>) -> u8
    ensures { result ≡ spec.level_on frames.now }
{
    match frames.top() {
        Some(frame) => level_in(*frame),
        None => 0,
    }
}

fn built(frame: Frame, x: Operand) -> Operand
    ensures { result ≡ spec.built frame x }
{
    match frame {
        Frame::Prefix(op) => prefixed(op, x),
        Frame::Binary(op, a) => applied(op, a, x),
        Frame::Else(a, b) => chosen(a, b, x),
        Frame::Paren | Frame::Then(_) => x,
    }
}

/// Closes the frames whose operator binds at least as tightly as `power`.
#[tactic(auto, using(crate::proofs::Closing::settles_on, crate::proofs::Closing::settle_ends))]
fn settle(power: u8, frames: &mut Stack<Frame>, mut x: Operand, mut level: u8) -> (Operand, u8)
    requires positive { 0 < power }
    requires small { power ≤ 13 }
    ensures { spec.settle power frames.old x level ≡ (frames.new, (result.0, result.1)) }
{
    'closing: while level_on(frames) >= power {
        if let Some(frame) = frames.pop() {
            level = level_in(frame);
            x = built(frame, x);
        }
    }
    (x, level)
}

fn need(term: Term, frames: &mut Stack<Frame>) -> Result<State, Trouble>
    ensures { Steps (spec.need term frames.old) result frames.new }
{
    match term {
        Term::Number(value) => Ok(State::Have(leaf(value), 17)),
        Term::LeftParen => {
            frames.push(Frame::Paren)?;
            Ok(State::Need)
        }
        Term::Operator(op) => before(op, frames),
        _ => Err(Trouble::Syntax),
    }
}

fn before(op: Operator, frames: &mut Stack<Frame>) -> Result<State, Trouble>
    ensures { Steps (spec.before op frames.old) result frames.new }
{
    if !is_prefix(op) {
        return Err(Trouble::Syntax);
    }
    frames.push(Frame::Prefix(op))?;
    Ok(State::Need)
}

fn between(op: Operator, frames: &mut Stack<Frame>, x: Operand) -> Result<State, Trouble>
    ensures { Steps (spec.between op frames.old x) result frames.new }
{
    if level_of(op) < 4 {
        return Err(Trouble::Syntax);
    }
    frames.push(Frame::Binary(op, x))?;
    Ok(State::Need)
}

fn close_paren(frames: &mut Stack<Frame>, x: Operand) -> Result<State, Trouble>
    ensures { Steps (spec.close_paren frames.old x) result frames.new }
{
    match frames.pop() {
        Some(Frame::Paren) => Ok(State::Have(x, 17)),
        _ => Err(Trouble::Syntax),
    }
}

fn close_then(frames: &mut Stack<Frame>, x: Operand) -> Result<State, Trouble>
    ensures { Steps (spec.close_then frames.old x) result frames.new }
{
    match frames.pop() {
        Some(Frame::Then(a)) => {
            frames.push(Frame::Else(a, x))?;
            Ok(State::Need)
        }
        _ => Err(Trouble::Syntax),
    }
}

fn at_question(frames: &mut Stack<Frame>, x: Operand) -> Result<State, Trouble>
    ensures { Steps (Some (Frame.Then x ∷ frames.old, State.Need)) result frames.new }
{
    frames.push(Frame::Then(x))?;
    Ok(State::Need)
}

fn at_end(frames: &mut Stack<Frame>, x: Operand) -> Result<State, Trouble>
    ensures { Steps (spec.at_end frames.old x) result frames.new }
{
    match frames.pop() {
        None => Ok(State::Done(x)),
        Some(_) => Err(Trouble::Syntax),
    }
}

fn act(term: Term, frames: &mut Stack<Frame>, x: Operand) -> Result<State, Trouble>
    ensures { Steps (spec.act term frames.old x) result frames.new }
{
    match term {
        Term::Operator(op) => between(op, frames, x),
        Term::Question => at_question(frames, x),
        Term::Colon => close_then(frames, x),
        Term::RightParen => close_paren(frames, x),
        Term::End => at_end(frames, x),
        _ => Err(Trouble::Syntax),
    }
}

fn have(term: Term, frames: &mut Stack<Frame>, x: Operand, level: u8) -> Result<State, Trouble>
    ensures { Steps (spec.have term frames.old x level) result frames.new }
{
    let (x, _) = settle(power_of(term), frames, x, level);
    act(term, frames, x)
}

/// Takes the next term.
pub(crate) fn step(term: Term, frames: &mut Stack<Frame>, state: State) -> Result<State, Trouble>
    ensures { Steps (spec.step term (frames.old, state)) result frames.new }
{
    match state {
        State::Need => need(term, frames),
        State::Have(x, level) => have(term, frames, x, level),
        State::Done(_) => Err(Trouble::Syntax),
    }
}
