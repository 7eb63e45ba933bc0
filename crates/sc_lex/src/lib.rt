//! The first three phases of translation: a text becomes preprocessing tokens.
#![tactic(auto)]

mod automaton;
mod lexing;
mod mark;
mod phases;
mod piece;
mod token;
mod unclosed;

pub use automaton::token_kind;
pub use lexing::{Scan, cut, is_too_long, lex, refusal_in};
pub use token::{Token, TokenKind};
