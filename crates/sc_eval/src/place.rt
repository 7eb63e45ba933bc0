// The expression where it stands: behind the module's text, in the body of the function.
ghost use Rattle.std.specs.Prelude.{◌≡◌, ◌∷◌, [], All, IfOk, true};
ghost use Rattle.sc_eval.specs.Places as spec;
ghost use Rattle.sc_parse_grammar.specs.Steps.{IsSymbol};

use sc_base::{Items, Name, NoMemory, Shared, Stack};
use sc_lex::Token;
use sc_parse::advance;
use sc_parse_expr::{Found, Refused, expression};
use sc_parse_grammar::Trouble;
use sc_parse_names::{Symbol, TypeNames};
use sc_parse_tokens::symbols;
use sc_parse_unit::{Around, Stage};
use sc_tree::Expr;
use std::alloc::Global;

/// Nothing was read yet.
fn beginning(alloc: Global) -> Result<Stack<Around>, NoMemory>
    ensures { IfOk result (λ around. around ≡ Around.Unit [] ∷ []) }
{
    let mut around = Stack::new(alloc);
    around.push(Around::Unit(Items::new(alloc)))?;
    Ok(around)
}

/// Whether nothing is open around a place but the unit itself.
fn is_outside(around: Stack<Around>) -> bool
    ensures { result ≡ true → spec.IsUnitAlone around }
{
    let mut around = around;
    match around.pop() {
        Some(Around::Unit(items)) => {
            drop(items);
            around.is_empty()
        }
        Some(other) => {
            drop(other);
            false
        }
        None => false,
    }
}

/// Whether a unit may end at a place.
fn is_at_file(around: Stack<Around>, stage: Stage) -> bool
    ensures { result ≡ true → spec.AtFile around stage }
{
    match stage {
        Stage::Due => is_outside(around),
        other => {
            drop(other);
            false
        }
    }
}

/// The names of types in scope behind the symbols of a unit. Symbols that are none are answered as want of memory.
#[tactic(auto, using(crate::proofs::Scopes::reads_on, crate::proofs::Scopes::reads_whole))]
fn names_behind(alloc: Global, symbols: &[Symbol]) -> Result<TypeNames, NoMemory>
    requires { All IsSymbol symbols.now }
    ensures { IfOk result (λ names. spec.Behind symbols.now names) }
{
    let mut names = TypeNames::new(alloc)?;
    let mut around = beginning(alloc)?;
    let mut stage = Stage::Due;
    let mut left = symbols;
    'symbols: while let Some((symbol, rest)) = left.split_first() {
        match advance(alloc, &mut names, symbol, &mut around, stage) {
            Ok(next) => stage = next,
            Err(_) => return Err(NoMemory),
        }
        left = rest;
    }
    if is_at_file(around, stage) {
        Ok(names)
    } else {
        Err(NoMemory)
    }
}

/// The names of types in scope in the body of the function that stands behind a module's tokens. Tokens that are no unit, which
/// no module has, are answered as want of memory.
#[tactic(auto, using(crate::proofs::Scopes::in_body_so))]
pub fn names_in_body(alloc: Global, tokens: &[Token]) -> Result<TypeNames, NoMemory>
    ensures { IfOk result (λ names. spec.InBody tokens.now names) }
{
    let symbols = symbols(alloc, tokens)?;
    let mut names = names_behind(alloc, symbols.as_slice())?;
    let Ok(name) = Name::new(alloc, b"$eval") else {
        return Err(NoMemory);
    };
    names.add(alloc, name, false)?;
    names.push_scope(alloc)?;
    Ok(names)
}

/// What was read, where it is all of so many symbols.
fn whole(count: usize, found: Result<Found, Refused>) -> Result<Option<Shared<Expr>>, NoMemory>
    ensures { spec.Whole count found result }
{
    match found {
        Ok(found) => {
            let Found { tree, taken } = found;
            if taken == count {
                Ok(Some(tree))
            } else {
                Ok(None)
            }
        }
        Err(refused) => match refused.trouble {
            Trouble::NoMemory => Err(NoMemory),
            Trouble::Syntax | Trouble::LeftOut(_) | Trouble::Limit(_) => Ok(None),
        },
    }
}

/// The expression that these tokens alone are where these names are in scope; `None` where they are none.
#[tactic(auto, using(crate::proofs::Expressions::expressed))]
pub fn expression_of(
    alloc: Global,
    names: TypeNames,
    e: &[Token],
) -> Result<Option<Shared<Expr>>, NoMemory>
    ensures { IfOk result (λ tree. spec.Expresses names e.now tree) }
{
    let mut names = names;
    let symbols = symbols(alloc, e)?;
    let found = expression(alloc, symbols.as_slice(), &mut names);
    whole(symbols.len(), found)
}
