// `defined` in conditions.
ghost use Rattle.std.specs.Prelude.{◌≡◌, ◌∷◌, [], Some, None, IfOk};
ghost use Rattle.std.specs.Option.{option_map};
ghost use Rattle.sc_pp.specs.Conditionals as spec;

use crate::environment::Environment;
use sc_base::{Bytes, Duplicate, Items, NoMemory};
use sc_lex::{Token, TokenKind};
use sc_macro::{is_mark, is_name};
use std::alloc::Global;

/// What is due in a condition: nothing of its own; the name that `defined` asks for, or `(`; the name inside
/// parentheses; the closing parenthesis.
#[derive(Clone, Copy, Debug, PartialEq, Eq)]
pub enum Asking {
    Nothing,
    Name,
    Inside,
    Closing,
}

fn asks(token: &Token) -> bool
    ensures { result ≡ spec.asks token.now }
{
    is_name(token) && token.text.as_slice() == b"defined".as_slice()
}

fn digit(alloc: Global, is_one: bool) -> Result<Bytes, NoMemory>
    ensures { IfOk result (λ text. text ≡ spec.digit is_one) }
{
    if is_one {
        Bytes::from_slice(alloc, b"1")
    } else {
        Bytes::from_slice(alloc, b"0")
    }
}

/// 1 or 0 in the place of a name.
fn answer(alloc: Global, env: &Environment, token: &Token) -> Result<Token, NoMemory>
    ensures { IfOk result (λ t. t ≡ spec.answer (spec.is_defined env.now token.now.text) token.now) }
{
    let text = digit(alloc, env.is_defined(&token.text))?;
    Ok(Token {
        kind: TokenKind::Number,
        text,
        file: token.file,
        line: token.line,
        space: token.space,
    })
}

/// Takes a token of a condition; None where `defined` is followed by something else than it should be.
fn ask(
    alloc: Global,
    env: &Environment,
    asking: Asking,
    out: &mut Items<Token>,
    token: &Token,
) -> Result<Option<Asking>, NoMemory>
    ensures { IfOk result (λ next. option_map (λ a. (out.new, a)) next ≡ spec.ask env.now asking out.old token.now) }
{
    match asking {
        Asking::Nothing => {
            if asks(token) {
                Ok(Some(Asking::Name))
            } else {
                out.push(token.copy(alloc)?)?;
                Ok(Some(Asking::Nothing))
            }
        }
        Asking::Name => {
            if is_name(token) {
                out.push(answer(alloc, env, token)?)?;
                Ok(Some(Asking::Nothing))
            } else if is_mark(token, b'(') {
                Ok(Some(Asking::Inside))
            } else {
                Ok(None)
            }
        }
        Asking::Inside => {
            if is_name(token) {
                out.push(answer(alloc, env, token)?)?;
                Ok(Some(Asking::Closing))
            } else {
                Ok(None)
            }
        }
        Asking::Closing => {
            if is_mark(token, b')') {
                Ok(Some(Asking::Nothing))
            } else {
                Ok(None)
            }
        }
    }
}

/// The tokens of a condition in which `defined` is answered; None where it stands otherwise.
pub fn answered(
    alloc: Global,
    env: &Environment,
    tokens: &[Token],
) -> Result<Option<Items<Token>>, NoMemory>
    ensures { IfOk result (λ ts. ts ≡ spec.answered env.now Asking.Nothing [] tokens.now) }
{
    let mut out = Items::new(alloc);
    let mut asking = Asking::Nothing;
    let mut left = tokens;
    'asking: while let Some((token, rest)) = left.split_first() {
        match ask(alloc, env, asking, &mut out, token)? {
            None => return Ok(None),
            Some(next) => asking = next,
        }
        left = rest;
    }
    match asking {
        Asking::Nothing => Ok(Some(out)),
        _ => Ok(None),
    }
}
