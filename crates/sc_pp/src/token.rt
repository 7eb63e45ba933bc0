// Tests on tokens.
ghost use Rattle.std.specs.Prelude.{◌≡◌, IfOk};
ghost use Rattle.sc_pp.specs.Groups.{some_tokens};

use sc_base::{Duplicate, Items, NoMemory};
use sc_lex::Token;
use std::alloc::Global;

pub fn are_some(tokens: &[Token]) -> bool
    ensures { result ≡ some_tokens tokens.now }
{
    match tokens {
        [] => false,
        [_, ..] => true,
    }
}

/// A list of copies.
pub fn copied(alloc: Global, tokens: &[Token]) -> Result<Items<Token>, NoMemory>
    ensures { IfOk result (λ copies. copies ≡ tokens.now) }
{
    let mut out = Items::new(alloc);
    for token in tokens {
        out.push(token.copy(alloc)?)?;
    }
    Ok(out)
}
