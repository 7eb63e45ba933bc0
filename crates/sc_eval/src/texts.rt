// The text in which an expression is evaluated.
ghost use Rattle.std.specs.Prelude.{◌≡◌, ◌++◌, ◌∷◌, [], IfOk, OnOk, true};
ghost use Rattle.sc_eval.specs.Texts as spec;

use sc_base::{Bytes, Duplicate, Items, NoMemory};
use sc_lex::{Token, TokenKind};
use std::alloc::Global;

fn token(alloc: Global, kind: TokenKind, text: &[u8]) -> Result<Token, NoMemory>
    ensures { IfOk result (λ t. t ≡ record { kind = kind; text = text.now; file = 0; line = 1; space = true }) }
{
    let text = Bytes::from_slice(alloc, text)?;
    Ok(Token {
        kind,
        text,
        file: 0,
        line: 1,
        space: true,
    })
}

fn word(alloc: Global, text: &[u8]) -> Result<Token, NoMemory>
    ensures { IfOk result (λ t. t ≡ spec.word text.now) }
{
    token(alloc, TokenKind::Name, text)
}

fn sign(alloc: Global, text: &[u8]) -> Result<Token, NoMemory>
    ensures { IfOk result (λ t. t ≡ spec.sign text.now) }
{
    token(alloc, TokenKind::Punct, text)
}

#[tactic(auto, using(crate::proofs::Parts::three))]
fn put_three(tokens: &mut Items<Token>, a: Token, b: Token, c: Token) -> Result<(), NoMemory>
    ensures { OnOk result (tokens.new ≡ tokens.old ++ (a ∷ b ∷ c ∷ [])) }
{
    tokens.push(a)?;
    tokens.push(b)?;
    tokens.push(c)
}

/// `static long $eval(void) { return (`.
#[tactic(auto, using(crate::proofs::Parts::grouped))]
fn put_opening(tokens: &mut Items<Token>, alloc: Global) -> Result<(), NoMemory>
    ensures { OnOk result (tokens.new ≡ tokens.old ++ spec.opening) }
{
    let a = word(alloc, b"static")?;
    let b = word(alloc, b"long")?;
    let c = word(alloc, b"$eval")?;
    put_three(tokens, a, b, c)?;
    let a = sign(alloc, b"(")?;
    let b = word(alloc, b"void")?;
    let c = sign(alloc, b")")?;
    put_three(tokens, a, b, c)?;
    let a = sign(alloc, b"{")?;
    let b = word(alloc, b"return")?;
    let c = sign(alloc, b"(")?;
    put_three(tokens, a, b, c)
}

/// `); }`.
fn put_closing(tokens: &mut Items<Token>, alloc: Global) -> Result<(), NoMemory>
    ensures { OnOk result (tokens.new ≡ tokens.old ++ spec.closing) }
{
    let a = sign(alloc, b")")?;
    let b = sign(alloc, b";")?;
    let c = sign(alloc, b"}")?;
    put_three(tokens, a, b, c)
}

fn put_all(tokens: &mut Items<Token>, alloc: Global, more: &[Token]) -> Result<(), NoMemory>
    ensures { OnOk result (tokens.new ≡ tokens.old ++ more.now) }
{
    for token in more {
        tokens.push(token.copy(alloc)?)?;
    }
    Ok(())
}

/// The module's tokens, and behind them the function that returns the expression with these tokens.
#[tactic(auto, using(crate::proofs::Parts::grouped))]
pub fn text_of(alloc: Global, tokens: &[Token], e: &[Token]) -> Result<Items<Token>, NoMemory>
    ensures { IfOk result (λ all. all ≡ spec.text_of tokens.now e.now) }
{
    let mut all = Items::new(alloc);
    put_all(&mut all, alloc, tokens)?;
    put_opening(&mut all, alloc)?;
    put_all(&mut all, alloc, e)?;
    put_closing(&mut all, alloc)?;
    Ok(all)
}
