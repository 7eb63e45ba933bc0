// The lines that ask whether a group is read.
ghost use Rattle.std.specs.Prelude.{◌≡◌, []};
ghost use Rattle.sc_pp.specs.Outcomes.{Meets, Yields};
ghost use Rattle.std.specs.Option.{option_map};
ghost use Rattle.sc_pp.specs.declared.asking.Asking.TheVariants as asking;
ghost use Rattle.sc_pp_condition.specs.Verdict.{verdict};
ghost use Rattle.sc_pp.specs.Conditionals as conditions;
ghost use Rattle.sc_pp.specs.Directives as spec;

use crate::asking::answered;
use crate::failure::{beyond, refused};
use crate::line::{Directive, Word};
use crate::state::{Place, State, expanded};
use sc_base::{Bytes, Fault, X};
use sc_lex::Token;
use sc_macro::is_name;
use sc_pp_condition::{ConditionFault, condition};
use std::alloc::Global;

/// The one name that a directive takes.
pub fn only_name(tokens: &[Token]) -> Option<&Bytes>
    ensures { option_map (λ name. name.now) result ≡ conditions.only_name tokens.now }
{
    match tokens {
        [name] => {
            if is_name(name) {
                Some(&name.text)
            } else {
                None
            }
        }
        _ => None,
    }
}

fn tests_name(
    alloc: Global,
    wanted: bool,
    place: &Place,
    state: &mut State,
    directive: &Directive,
) -> Result<bool, Fault>
    ensures { Yields (spec.tests_name wanted place.now state.old directive.now.line (conditions.only_name directive.now.tokens)) result state.new }
{
    match only_name(directive.tokens.as_slice()) {
        None => Err(refused(alloc, X::X2, &place.name, directive.line)),
        Some(name) => {
            let defined = state.env.is_defined(name);
            Ok(if wanted { defined } else { !defined })
        }
    }
}

/// Whether a condition holds whose tokens are ready.
fn truth(alloc: Global, place: &Place, line: u32, tokens: &[Token]) -> Result<bool, Fault>
    ensures { Meets (conditions.told place.now.name line (verdict tokens.now)) result }
{
    match condition(alloc, tokens) {
        Ok(holds) => Ok(holds),
        Err(ConditionFault::Malformed) => Err(refused(alloc, X::X2, &place.name, line)),
        Err(ConditionFault::TooHigh) => Err(beyond(alloc, b"height", &place.name, line)),
        Err(ConditionFault::NoMemory) => Err(Fault::NoMemory),
    }
}

fn tests_tokens(
    alloc: Global,
    place: &Place,
    state: &mut State,
    line: u32,
    tokens: &[Token],
) -> Result<bool, Fault>
    ensures { Yields (spec.tests_tokens place.now state.old line tokens.now) result state.new }
{
    match expanded(alloc, place, state, tokens) {
        Ok(tokens) => truth(alloc, place, line, tokens.as_slice()),
        Err(fault) => Err(fault),
    }
}

fn tests_value(
    alloc: Global,
    place: &Place,
    state: &mut State,
    directive: &Directive,
) -> Result<bool, Fault>
    ensures { Yields (spec.tests_value place.now state.old directive.now.line (conditions.answered state.old.env asking.Nothing [] directive.now.tokens)) result state.new }
{
    match answered(alloc, &state.env, directive.tokens.as_slice()) {
        Ok(answer) => match answer {
            None => Err(refused(alloc, X::X2, &place.name, directive.line)),
            Some(tokens) => { tests_tokens(alloc, place, state, directive.line, tokens.as_slice()) }
        },
        Err(_) => Err(Fault::NoMemory),
    }
}

/// Whether the group behind a directive is read.
pub fn test(
    alloc: Global,
    place: &Place,
    state: &mut State,
    directive: &Directive,
) -> Result<bool, Fault>
    ensures { Yields (spec.test place.now state.old directive.now) result state.new }
{
    match directive.word {
        Word::Ifdef => tests_name(alloc, true, place, state, directive),
        Word::Ifndef => tests_name(alloc, false, place, state, directive),
        _ => tests_value(alloc, place, state, directive),
    }
}
