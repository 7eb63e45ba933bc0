// What an `#if` decides (ANSI 3.8.1).
ghost use Rattle.std.specs.Prelude.{◌≡◌, ◌≤◌, IfOk, IsErrOf};
ghost use Rattle.sc_pp_condition.specs.Decides as spec;
ghost use Rattle.sc_pp_condition.specs.Grammar.{IsExpression};
ghost use Rattle.sc_pp_condition.specs.Terms.{terms_of};
ghost use Rattle.sc_pp_condition.specs.Verdict.{verdict, IsMeaning};

use crate::machine::{Term, Trouble};
use crate::operand::Operand;
use crate::reading::expression;
use crate::terms::terms_of;
use sc_base::NoMemory;
use sc_lex::Token;
use std::alloc::Global;

/// Why a condition is refused: its tokens are no expression or divide by zero; it is above the limits of 200 for the
/// height of its tree and 500 for parentheses inside each other; or memory ran out.
#[derive(Clone, Copy, Debug, PartialEq, Eq)]
pub enum ConditionFault {
    Malformed,
    TooHigh,
    NoMemory,
}

impl From<NoMemory> for ConditionFault {
    ghost use Rattle.sc_pp_condition.specs.declared.truth.ConditionFault.TheVariants as fault;

    ghost from_gives = { λ _ e. e ≡ fault.NoMemory };

    fn from(_: NoMemory) -> ConditionFault {
        ConditionFault::NoMemory
    }
}

fn open_after(count: u32, term: Term) -> u32
    requires { count ≤ 500 }
    ensures { result ≡ spec.open_after count term }
{
    match term {
        Term::LeftParen => count + 1,
        Term::RightParen => count.saturating_sub(1),
        _ => count,
    }
}

/// Whether more than 500 parentheses are open at some place.
fn is_deep(terms: &[Term]) -> bool
    ensures { result ≡ spec.is_deep 0 terms.now }
{
    let mut count = 0;
    let mut left = terms;
    'terms: while let Some((term, rest)) = left.split_first() {
        count = open_after(count, *term);
        if count > 500 {
            return true;
        }
        left = rest;
    }
    false
}

fn decided(is_deep: bool, x: Operand) -> Result<bool, ConditionFault>
    ensures { result ≡ spec.decided is_deep x }
{
    if is_deep || x.height > 200 {
        return Err(ConditionFault::TooHigh);
    }
    if x.stops {
        return Err(ConditionFault::Malformed);
    }
    Ok(x.value.bits != 0)
}

/// Whether the condition of `#if` holds, once `defined` and macros are replaced: its expression has a value that is not 0.
pub fn condition(alloc: Global, tokens: &[Token]) -> Result<bool, ConditionFault>
    // What an expression decides,
    ensures value { (x : Operand) → IsExpression (terms_of tokens.now) x → spec.Gives (spec.decided (spec.is_deep 0 (terms_of tokens.now)) x) result }
    // and only an expression decides, or is too high.
    ensures ok { IfOk result (λ _. spec.AreExpression tokens.now) }
    ensures high { IsErrOf result ConditionFault.TooHigh → spec.AreExpression tokens.now }
    // So it is this function's answer,
    ensures verdict { spec.Gives (verdict tokens.now) result }
    // which says of all tokens what the grammar says.
    ensures meaning { IsMeaning verdict }
{
    let terms = terms_of(alloc, tokens)?;
    match expression(alloc, terms.as_slice()) {
        Ok(x) => decided(is_deep(terms.as_slice()), x),
        Err(Trouble::Syntax) => Err(ConditionFault::Malformed),
        Err(Trouble::NoMemory) => Err(ConditionFault::NoMemory),
    }
}
