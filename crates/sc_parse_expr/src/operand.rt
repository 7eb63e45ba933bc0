// Operands before which a type may stand.
ghost use Rattle.std.specs.Prelude.{◌≡◌, ℕ, ◌<◌, ◌≤◌, List, [], ◌∷◌};
ghost use Rattle.sc_parse_grammar.specs.Machine as spec;
ghost use Rattle.sc_parse_grammar.specs.Steps.{Steps, IsSymbol};

use crate::words::first_word;
use sc_base::{Items, Shared, Stack};
use sc_parse_grammar::classes::begins_type;
use sc_parse_grammar::expression::need;
use sc_parse_grammar::{Frame, Operand, State, Trouble};
use sc_parse_names::Symbol;
use sc_tree::Expr;
use std::alloc::Global;

/// A type behind `(` and a name, which is that of `__offsetof`.
fn offset_type(
    alloc: Global,
    typed: bool,
    token: &Symbol,
    frames: &mut Stack<Frame>,
) -> Result<State, Trouble>
    requires { IsSymbol token.now }
    ensures { Steps (spec.offset_type typed token.now frames.old) result frames.new }
{
    match frames.pop() {
        Some(Frame::Arguments(a, args, _)) => {
            offset_operand(alloc, typed, token, frames, a, args)
        }
        Some(other) => {
            drop(other);
            Err(Trouble::Syntax)
        }
        None => Err(Trouble::Syntax),
    }
}

fn offset_operand(
    alloc: Global,
    typed: bool,
    token: &Symbol,
    frames: &mut Stack<Frame>,
    a: Operand,
    args: Items<Shared<Expr>>,
) -> Result<State, Trouble>
    requires { IsSymbol token.now }
    ensures { (n : ℕ) → Steps (spec.offset_type typed token.now (Frame.Arguments a args n ∷ frames.old)) result frames.new }
{
    if !args.is_empty() {
        return Err(Trouble::Syntax);
    }
    if a.level <= 17 {
        return Err(Trouble::Syntax);
    }
    frames.push(Frame::OffsetType(a.line))?;
    first_word(alloc, typed, token, frames)
}

/// A token where an operand is due, or the type of `__offsetof`.
pub fn needed(
    alloc: Global,
    typed: bool,
    token: &Symbol,
    frames: &mut Stack<Frame>,
) -> Result<State, Trouble>
    requires { IsSymbol token.now }
    ensures { Steps (spec.needed typed token.now frames.old) result frames.new }
{
    if begins_type(typed, token.kind) {
        return offset_type(alloc, typed, token, frames);
    }
    need(alloc, typed, token, frames)
}

/// A token behind `(` where an operand is due.
pub fn opened(
    alloc: Global,
    typed: bool,
    token: &Symbol,
    frames: &mut Stack<Frame>,
    line: u32,
) -> Result<State, Trouble>
    requires { IsSymbol token.now }
    ensures { Steps (spec.opened typed token.now frames.old line) result frames.new }
{
    if begins_type(typed, token.kind) {
        frames.push(Frame::CastType(line))?;
        return first_word(alloc, typed, token, frames);
    }
    frames.push(Frame::Paren(line))?;
    need(alloc, typed, token, frames)
}

/// A token behind `sizeof (`.
pub fn sized_opened(
    alloc: Global,
    typed: bool,
    token: &Symbol,
    frames: &mut Stack<Frame>,
    line: u32,
    paren: u32,
) -> Result<State, Trouble>
    requires { IsSymbol token.now }
    ensures { Steps (spec.sized_opened typed token.now frames.old line paren) result frames.new }
{
    if begins_type(typed, token.kind) {
        frames.push(Frame::SizeType(line))?;
        return first_word(alloc, typed, token, frames);
    }
    frames.push(Frame::SizeOf(line))?;
    frames.push(Frame::Paren(paren))?;
    need(alloc, typed, token, frames)
}
