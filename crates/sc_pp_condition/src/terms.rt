// The terms of `#if` that tokens are (ANSI 3.8.1).
ghost use Rattle.std.specs.Prelude.{◌≡◌, IfOk};
ghost use Rattle.sc_pp_condition.specs.Terms as spec;

use crate::character::character_value;
use crate::constant::number_value;
use crate::machine::Term;
use crate::number::Value;
use crate::operator::Operator;
use sc_base::{Items, NoMemory};
use sc_lex::{Token, TokenKind};
use std::alloc::Global;

fn one_byte(a: u8) -> Term
    ensures { result ≡ spec.one_byte a }
{
    match a {
        b'~' => Term::Operator(Operator::Complement),
        b'!' => Term::Operator(Operator::Not),
        b'|' => Term::Operator(Operator::Or),
        b'^' => Term::Operator(Operator::Xor),
        b'&' => Term::Operator(Operator::And),
        b'<' => Term::Operator(Operator::Less),
        b'>' => Term::Operator(Operator::Greater),
        b'+' => Term::Operator(Operator::Plus),
        b'-' => Term::Operator(Operator::Minus),
        b'*' => Term::Operator(Operator::Times),
        b'/' => Term::Operator(Operator::Divide),
        b'%' => Term::Operator(Operator::Remainder),
        b'(' => Term::LeftParen,
        b')' => Term::RightParen,
        b'?' => Term::Question,
        b':' => Term::Colon,
        _ => Term::Other,
    }
}

fn two_bytes(a: u8, b: u8) -> Term
    ensures { result ≡ spec.two_bytes a b }
{
    match (a, b) {
        (b'|', b'|') => Term::Operator(Operator::LogicalOr),
        (b'&', b'&') => Term::Operator(Operator::LogicalAnd),
        (b'=', b'=') => Term::Operator(Operator::Equal),
        (b'!', b'=') => Term::Operator(Operator::NotEqual),
        (b'<', b'=') => Term::Operator(Operator::LessEqual),
        (b'>', b'=') => Term::Operator(Operator::GreaterEqual),
        (b'<', b'<') => Term::Operator(Operator::ShiftLeft),
        (b'>', b'>') => Term::Operator(Operator::ShiftRight),
        _ => Term::Other,
    }
}

fn punctuator(text: &[u8]) -> Term
    ensures { result ≡ spec.punctuator text.now }
{
    match text {
        [a] => one_byte(*a),
        [a, b] => two_bytes(*a, *b),
        _ => Term::Other,
    }
}

fn constant(value: Option<Value>) -> Term
    ensures { result ≡ spec.constant value }
{
    match value {
        Some(value) => Term::Number(value),
        None => Term::Other,
    }
}

fn term_of(kind: TokenKind, text: &[u8]) -> Term
    ensures { result ≡ spec.term_of kind text.now }
{
    match kind {
        TokenKind::Name => Term::Number(Value {
            bits: 0,
            is_unsigned: false,
        }),
        TokenKind::Number => constant(number_value(text)),
        TokenKind::Char => constant(character_value(text)),
        TokenKind::Punct => punctuator(text),
        TokenKind::Str | TokenKind::Other | TokenKind::Newline => Term::Other,
    }
}

/// The terms that tokens are, once their macros are replaced. A name that remains is 0.
pub(crate) fn terms_of(alloc: Global, tokens: &[Token]) -> Result<Items<Term>, NoMemory>
    ensures { IfOk result (λ terms. terms ≡ spec.terms_of tokens.now) }
{
    let mut terms = Items::new(alloc);
    for token in tokens {
        terms.push(term_of(token.kind, token.text.as_slice()))?;
    }
    Ok(terms)
}
