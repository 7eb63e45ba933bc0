// Expressions: operands, operators and parentheses.
ghost use Rattle.std.specs.Prelude.{◌≡◌, ℕ, ◌<◌, ◌≤◌, List, [], ◌∷◌, ◌++◌, Some, Ok, length, IfOk};
ghost use Rattle.sc_parse_grammar.specs.Machine as spec;
ghost use Rattle.sc_parse_grammar.specs.Steps.{Steps, IsSymbol, IsNamed};
ghost use Rattle.sc_parse_grammar.specs.Grammar.{text_with};
ghost use Rattle.sc_parse_grammar.specs.Nodes.{name_node as name_in, constant_node as constant_in, text_node as text_in};
ghost use Rattle.sc_parse_grammar.specs.Kinds.{binary_of as binary_in, postfix_of as postfix_in, unary_of as unary_in};

use crate::classes::{binary_of, postfix_of, power_of, unary_of};
use crate::close::{
    at_comma, close_all, close_brace, close_bracket, close_paren, close_then, is_full, needs,
    settle,
};
use crate::frame::{Frame, State};
use crate::nodes::{
    arrow_node, call_node, constant_node, member_node, name_node, name_of, offset_node,
    postfix_node, text_node,
};
use crate::operand::Operand;
use crate::trouble::{Limit, Trouble};
use sc_base::{Bytes, Items, NoMemory, Shared, Stack};
use sc_parse_names::{Kind, Symbol};
use sc_tree::{Binary, Constant, Expr, TypeName};
use std::alloc::Global;

/// The token goes on with no operand: what was read may pass a limit all the same.
fn wrong(alloc: Global, frames: &mut Stack<Frame>, x: Operand) -> Result<State, Trouble>
    ensures { Steps (spec.wrong (spec.settle 1 frames.old x)) result frames.new }
{
    let x = settle(alloc, 1, frames, x)?;
    drop(x);
    if is_full(frames) {
        return Err(Trouble::Limit(Limit::Arguments));
    }
    Err(Trouble::Syntax)
}

fn at_assign(
    alloc: Global,
    op: Option<Binary>,
    frames: &mut Stack<Frame>,
    x: Operand,
) -> Result<State, Trouble>
    ensures { Steps (spec.at_assign op frames.old x) result frames.new }
{
    if x.level < 15 {
        return wrong(alloc, frames, x);
    }
    if needs(frames) > 2 {
        return wrong(alloc, frames, x);
    }
    frames.push(Frame::Assign(x, op))?;
    Ok(State::Need)
}

fn at_question(frames: &mut Stack<Frame>, x: Operand) -> Result<State, Trouble>
    ensures { Steps (spec.at_question frames.old x) result frames.new }
{
    if needs(frames) > 3 {
        return Err(Trouble::Syntax);
    }
    frames.push(Frame::Then(x))?;
    Ok(State::Need)
}

/// A token with which the operand ends.
fn operand_ends(
    alloc: Global,
    kind: Kind,
    frames: &mut Stack<Frame>,
    x: Operand,
) -> Result<State, Trouble>
    ensures { Steps (spec.operand_ends kind frames.old x) result frames.new }
{
    match kind {
        Kind::Colon => close_then(frames, x),
        Kind::Comma => at_comma(frames, x),
        Kind::RightParen => close_paren(alloc, frames, x),
        Kind::RightBracket => close_bracket(alloc, frames, x),
        Kind::RightBrace => close_brace(frames, x),
        Kind::Semicolon | Kind::End => close_all(frames, x),
        _ => Err(Trouble::Syntax),
    }
}

/// An operator between two operands, or else the end of the operand.
fn at_operator(
    alloc: Global,
    kind: Kind,
    frames: &mut Stack<Frame>,
    x: Operand,
) -> Result<State, Trouble>
    ensures { Steps (spec.at_operator (binary_in kind) kind frames.old x) result frames.new }
{
    if let Some(op) = binary_of(kind) {
        frames.push(Frame::Binary(x, op))?;
        return Ok(State::Need);
    }
    if is_full(frames) {
        return Err(Trouble::Limit(Limit::Arguments));
    }
    operand_ends(alloc, kind, frames, x)
}

fn at_postfix(
    alloc: Global,
    kind: Kind,
    frames: &mut Stack<Frame>,
    x: Operand,
) -> Result<State, Trouble>
    ensures { Steps (spec.at_postfix (postfix_in kind) frames.old x) result frames.new }
{
    match postfix_of(kind) {
        Some(op) => {
            let made = postfix_node(alloc, x, op)?;
            Ok(State::Have(made))
        }
        None => wrong(alloc, frames, x),
    }
}

fn pushed(frames: &mut Stack<Frame>, frame: Frame) -> Result<State, Trouble>
    ensures { Steps (Ok (frame ∷ frames.old, State.Need)) result frames.new }
{
    frames.push(frame)?;
    Ok(State::Need)
}

/// A token that belongs to the operand before it.
fn behind(
    alloc: Global,
    kind: Kind,
    frames: &mut Stack<Frame>,
    x: Operand,
) -> Result<State, Trouble>
    ensures { Steps (spec.behind kind frames.old x) result frames.new }
{
    match kind {
        Kind::LeftBracket => pushed(frames, Frame::Index(x)),
        Kind::LeftParen => pushed(frames, Frame::Arguments(x, Items::new(alloc), 0)),
        Kind::Dot => Ok(State::Dot(x)),
        Kind::Arrow => Ok(State::Arrow(x)),
        other => at_postfix(alloc, other, frames, x),
    }
}

/// A token after what it closes.
fn act(alloc: Global, kind: Kind, frames: &mut Stack<Frame>, x: Operand) -> Result<State, Trouble>
    ensures { Steps (spec.act kind frames.old x) result frames.new }
{
    match kind {
        Kind::Assign(op) => at_assign(alloc, op, frames, x),
        Kind::Question => at_question(frames, x),
        other => at_operator(alloc, other, frames, x),
    }
}

/// A token behind an operand.
pub fn have(
    alloc: Global,
    kind: Kind,
    frames: &mut Stack<Frame>,
    x: Operand,
) -> Result<State, Trouble>
    ensures { Steps (spec.have kind frames.old x) result frames.new }
{
    let power = power_of(kind);
    if power > 15 {
        if x.level < 16 {
            return wrong(alloc, frames, x);
        }
        if x.height > 200 {
            return Err(Trouble::Limit(Limit::Height));
        }
        return behind(alloc, kind, frames, x);
    }
    let x = settle(alloc, power, frames, x)?;
    act(alloc, kind, frames, x)
}

fn empty_call(alloc: Global, frames: &mut Stack<Frame>) -> Result<State, Trouble>
    ensures { Steps (spec.empty_call frames.old) result frames.new }
{
    match frames.pop() {
        Some(Frame::Arguments(a, args, _)) => called_empty(alloc, a, args),
        Some(other) => {
            drop(other);
            Err(Trouble::Syntax)
        }
        None => Err(Trouble::Syntax),
    }
}

fn called_empty(alloc: Global, a: Operand, args: Items<Shared<Expr>>) -> Result<State, Trouble>
    ensures { (fs : List Frame) (n : ℕ) → Steps (spec.empty_call (Frame.Arguments a args n ∷ fs)) result fs }
{
    if !args.is_empty() {
        return Err(Trouble::Syntax);
    }
    let call = call_node(alloc, a, args, 0)?;
    Ok(State::Have(call))
}

fn at_unary(kind: Kind, line: u32, frames: &mut Stack<Frame>) -> Result<State, Trouble>
    ensures { Steps (spec.at_unary (unary_in kind) line frames.old) result frames.new }
{
    match unary_of(kind) {
        Some(op) => {
            frames.push(Frame::Unary(line, op))?;
            Ok(State::Need)
        }
        None => Err(Trouble::Syntax),
    }
}

fn named(alloc: Global, token: &Symbol) -> Result<State, Trouble>
    requires { IsNamed token.now.text }
    ensures { (fs : List Frame) → Steps (Ok (fs, State.Have (name_in token.now))) result fs }
{
    let made = name_node(alloc, token)?;
    Ok(State::Have(made))
}

fn constant(alloc: Global, line: u32, value: Option<Constant>) -> Result<State, Trouble>
    ensures { (fs : List Frame) → Steps (Ok (fs, State.Have (constant_in line value))) result fs }
{
    let made = constant_node(alloc, line, value)?;
    Ok(State::Have(made))
}

/// The bytes of strings side by side.
fn joined(
    alloc: Global,
    text: Option<Bytes>,
    fits: bool,
    more: &Bytes,
) -> Result<Option<Bytes>, NoMemory>
    ensures { IfOk result (λ both. both ≡ text_with text fits more.now) }
{
    match text {
        None => Ok(None),
        Some(bytes) => {
            if fits {
                Ok(Some(appended(bytes, more)?))
            } else {
                Ok(None)
            }
        }
    }
}

fn appended(bytes: Bytes, more: &Bytes) -> Result<Bytes, NoMemory>
    ensures { IfOk result (λ both. both ≡ bytes ++ more.now) }
{
    let mut all = bytes.into_vec();
    all.extend_from_slice(more.as_slice())?;
    Ok(Bytes::from_vec(all))
}

/// A token where an operand is due; `typed` says whether it is the name of a type.
pub fn need(
    alloc: Global,
    typed: bool,
    token: &Symbol,
    frames: &mut Stack<Frame>,
) -> Result<State, Trouble>
    requires { IsSymbol token.now }
    ensures { Steps (spec.need typed token.now frames.old token.now.kind) result frames.new }
{
    match token.kind {
        Kind::Name => {
            if typed {
                Err(Trouble::Syntax)
            } else {
                named(alloc, token)
            }
        }
        Kind::Constant(value) => constant(alloc, token.line, value),
        Kind::Text(fits) => {
            let empty = Bytes::from_vec(Vec::new(alloc));
            let text = joined(alloc, Some(empty), fits, &token.text)?;
            Ok(State::Texts(token.line, text))
        }
        Kind::LeftParen => Ok(State::Opened(token.line)),
        Kind::RightParen => empty_call(alloc, frames),
        Kind::Sizeof => Ok(State::Sized(token.line)),
        other => at_unary(other, token.line, frames),
    }
}

/// A token behind `sizeof`.
pub fn sized(
    alloc: Global,
    typed: bool,
    token: &Symbol,
    frames: &mut Stack<Frame>,
    line: u32,
) -> Result<State, Trouble>
    requires { IsSymbol token.now }
    ensures { Steps (spec.sized typed token.now frames.old line token.now.kind) result frames.new }
{
    match token.kind {
        Kind::LeftParen => Ok(State::SizedOpened(line, token.line)),
        _ => {
            frames.push(Frame::SizeOf(line))?;
            need(alloc, typed, token, frames)
        }
    }
}

fn text_ends(
    alloc: Global,
    kind: Kind,
    frames: &mut Stack<Frame>,
    line: u32,
    text: Option<Bytes>,
) -> Result<State, Trouble>
    ensures { Steps (spec.have kind frames.old (text_in line text)) result frames.new }
{
    let made = text_node(alloc, line, text)?;
    have(alloc, kind, frames, made)
}

/// A token behind strings.
#[tactic(auto, using(crate::proofs::Others::texts_else))]
pub fn texts(
    alloc: Global,
    token: &Symbol,
    frames: &mut Stack<Frame>,
    line: u32,
    text: Option<Bytes>,
) -> Result<State, Trouble>
    ensures { Steps (spec.texts token.now frames.old line text token.now.kind) result frames.new }
{
    match token.kind {
        Kind::Text(fits) => {
            let all = joined(alloc, text, fits, &token.text)?;
            Ok(State::Texts(line, all))
        }
        _ => text_ends(alloc, token.kind, frames, line, text),
    }
}

/// The member behind `.`.
pub fn dotted(alloc: Global, token: &Symbol, x: Operand) -> Result<State, Trouble>
    requires { IsSymbol token.now }
    ensures { (fs : List Frame) → Steps (spec.dotted fs x token.now.text token.now.kind) result fs }
{
    match token.kind {
        Kind::Name => {
            let name = name_of(alloc, &token.text)?;
            let made = member_node(alloc, x, name)?;
            Ok(State::Have(made))
        }
        _ => Err(Trouble::Syntax),
    }
}

/// The member behind `->`.
pub fn arrowed(alloc: Global, token: &Symbol, x: Operand) -> Result<State, Trouble>
    requires { IsSymbol token.now }
    ensures { (fs : List Frame) → Steps (spec.arrowed fs x token.now.text token.now.kind) result fs }
{
    match token.kind {
        Kind::Name => {
            let name = name_of(alloc, &token.text)?;
            let made = arrow_node(alloc, x, name)?;
            Ok(State::Have(made))
        }
        _ => Err(Trouble::Syntax),
    }
}

/// The member that `__offsetof` asks for.
pub fn offset_comma(
    alloc: Global,
    token: &Symbol,
    line: u32,
    of: Shared<TypeName>,
) -> Result<State, Trouble>
    requires { IsSymbol token.now }
    ensures { (fs : List Frame) → Steps (spec.offset_comma fs line of token.now.text token.now.kind) result fs }
{
    match token.kind {
        Kind::Name => {
            let name = name_of(alloc, &token.text)?;
            Ok(State::OffsetName(line, of, name))
        }
        _ => Err(Trouble::Syntax),
    }
}

/// The parenthesis at the end of `__offsetof`.
pub fn offset_name(
    alloc: Global,
    kind: Kind,
    line: u32,
    of: Shared<TypeName>,
    name: sc_base::Name,
) -> Result<State, Trouble>
    ensures { (fs : List Frame) → Steps (spec.offset_name fs line of name kind) result fs }
{
    match kind {
        Kind::RightParen => {
            let made = offset_node(alloc, line, of, name)?;
            Ok(State::Have(made))
        }
        _ => Err(Trouble::Syntax),
    }
}
