// What an expression is evaluated by.
ghost use Rattle.std.specs.Prelude.{◌≡◌, ◌≤◌, IfOk, List, Some, codes, length};
ghost use Rattle.sc_core.specs.Modules.{function_of};
ghost use Rattle.sc_eval.specs.Places as places;
ghost use Rattle.sc_eval.specs.Starts as spec;
ghost use Rattle.sc_lex.specs.declared.token.Token.{Token};
ghost use Rattle.sc_eval.specs.Texts.{IsUnit, eval_name, text_of};

use crate::place::{expression_of, names_in_body};
use crate::strings::has_string;
use crate::texts::text_of;
use sc_base::{Bytes, Fault, Items, Name, NoMemory, Refusal, Shared, X};
use sc_check::check;
use sc_core::{Core, Fun};
use sc_lex::{Token, lex};
use sc_parse::parse;
use sc_parse_names::TypeNames;
use sc_tree::Unit;
use sc_types::Structs;
use std::alloc::Global;

/// What is kept of a module's text: its tokens behind preprocessing.
#[derive(Drop)]
pub struct Kept {
    pub tokens: Items<Token>,
}

/// What evaluates an expression: a function without parameters that returns its value as `long`, and the table of structures
/// to which the types in it point, which begins with that of the module.
#[derive(Drop)]
pub struct Evaluation {
    pub function: Shared<Fun>,
    pub structs: Structs,
}

/// A refusal of this kind.
fn refused(alloc: Global, kind: X) -> Fault
    ensures { spec.Refused (λ k. k ≡ kind) result }
{
    match Bytes::from_slice(alloc, b"eval") {
        Ok(file) => Fault::Refused(Refusal {
            kind,
            file,
            line: 1,
        }),
        Err(_) => Fault::NoMemory,
    }
}

fn with_string(alloc: Global) -> Fault
    ensures { spec.Refused (λ k. k ≡ X.X9 (codes "evalstring")) result }
{
    match Bytes::from_slice(alloc, b"evalstring") {
        Ok(word) => refused(alloc, X::X9(word)),
        Err(_) => Fault::NoMemory,
    }
}

/// A refusal of the line's tokens, or of the rules of types.
fn in_line(alloc: Global, fault: Fault) -> Fault
    ensures { places.InLine fault result }
{
    match fault {
        Fault::Refused(refusal) => refused(alloc, refusal.kind),
        Fault::NoMemory => Fault::NoMemory,
    }
}

/// A refusal of this kind where it is a limit of the grammar, or else that the tokens are no expression.
fn by_kind(alloc: Global, kind: X) -> Fault
    ensures { places.ByKind kind result }
{
    match kind {
        X::X10(word) => refused(alloc, X::X10(word)),
        X::X9(word) => {
            drop(word);
            refused(alloc, X::X5)
        }
        X::X1 | X::X2 | X::X3 | X::X4 => refused(alloc, X::X5),
        X::X5 | X::X6 | X::X7 | X::X8 => refused(alloc, X::X5),
    }
}

/// A refusal of the grammar: that of a limit, or else that the tokens are no expression.
fn in_grammar(alloc: Global, fault: Fault) -> Fault
    ensures { places.InGrammar fault result }
{
    match fault {
        Fault::Refused(refusal) => by_kind(alloc, refusal.kind),
        Fault::NoMemory => Fault::NoMemory,
    }
}

/// The function `$eval` of a module, and its structures.
fn taken(alloc: Global, core: Core) -> Result<Evaluation, NoMemory>
    ensures { IfOk result (λ s. (function_of eval_name core.funs ≡ Some s.function) × (s.structs ≡ core.structs)) }
{
    let Ok(name) = Name::new(alloc, b"$eval") else {
        return Err(NoMemory);
    };
    let function = match core.shared_fun(&name) {
        Some(f) => f.share()?,
        None => return Err(NoMemory),
    };
    let Core { structs, .. } = core;
    Ok(Evaluation { function, structs })
}

/// What the rules of types make of the whole text.
#[tactic(auto, using(crate::proofs::Asking::types_refuse, crate::proofs::Asking::types_make))]
fn typed(alloc: Global, name: &Name, unit: &Unit) -> Result<Evaluation, Fault>
    ensures { places.Types name.now unit.now.items result }
{
    match check(alloc, name, unit) {
        Ok(core) => Ok(taken(alloc, core)?),
        Err(fault) => Err(in_line(alloc, fault)),
    }
}

/// The same, where the tokens are an expression without strings. These names are in scope where it stands.
#[tactic(auto, using(crate::proofs::Asking::string_refused, crate::proofs::Asking::none_refused, crate::proofs::Asking::typed_so))]
fn asked(
    alloc: Global,
    names: TypeNames,
    name: &Name,
    e: &[Token],
    unit: &Unit,
) -> Result<Evaluation, Fault>
    ensures { (tokens : List Token) → places.InBody tokens names → IsUnit (text_of tokens e.now) unit.now.items → spec.AnswersTokens tokens name.now e.now result }
{
    match expression_of(alloc, names, e) {
        Ok(Some(tree)) => {
            if has_string(tree.get()) {
                Err(with_string(alloc))
            } else {
                typed(alloc, name, unit)
            }
        }
        Ok(None) => Err(refused(alloc, X::X5)),
        Err(_) => Err(Fault::NoMemory),
    }
}

#[tactic(auto, using(crate::proofs::Asking::grammar_so, crate::proofs::Asking::unit_of_text))]
fn started(alloc: Global, tokens: &[Token], name: &Name, e: &[Token]) -> Result<Evaluation, Fault>
    ensures { spec.AnswersTokens tokens.now name.now e.now result }
{
    let names = names_in_body(alloc, tokens)?;
    let text = text_of(alloc, tokens, e)?;
    match parse(alloc, text.as_slice()) {
        Ok(unit) => asked(alloc, names, name, e, &unit),
        Err(fault) => Err(in_grammar(alloc, fault)),
    }
}

/// What evaluates the expression that a line of at most 1,024 bytes is, in the module of this name of which that is kept: by
/// the grammar and the rules of types a function that stands behind the module's text (ANSI 3.3). Each refusal has the file
/// `eval` and line 1. Kept tokens that are no unit, which no module has, are answered as want of memory.
///
/// # Errors
///
/// The first of: X1 and X10 of the line's tokens; X10 of the grammar over the whole text; X5 where the line's tokens alone are
/// no expression; X9 `evalstring` where a string stands outside `sizeof`; X6 to X10 of the rules of types.
#[tactic(auto, using(crate::proofs::Asking::line_refused, crate::proofs::Asking::line_answers))]
pub fn start_of(alloc: Global, kept: &Kept, name: &Name, line: &[u8]) -> Result<Evaluation, Fault>
    requires { length line.now ≤ 1024 }
    ensures { spec.Answers kept.now.tokens name.now line.now result }
{
    match lex(alloc, line, 0) {
        Ok(e) => started(alloc, kept.tokens.as_slice(), name, e.as_slice()),
        Err(fault) => Err(in_line(alloc, fault)),
    }
}
