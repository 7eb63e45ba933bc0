// The machine that reads a unit, one token at a time.
ghost use Rattle.std.specs.Prelude.{◌≡◌, List, Ok};
ghost use Rattle.sc_parse_names.specs.Names.{Names};
ghost use Rattle.sc_parse_grammar.specs.Steps.{IsSymbol};
ghost use Rattle.sc_parse_unit.specs.Machine as spec;
ghost use Rattle.sc_parse_unit.specs.Steps.{Goes};

use crate::stating::{due, got};
use sc_base::Stack;
use sc_parse_grammar::Trouble;
use sc_parse_names::{Kind, Symbol, TypeNames};
use sc_parse_parts::{
    STUCK, behind_name, behind_type, ends_at, expression_due, in_declarator, in_expression,
    in_specifiers, initial, initial_ends, target,
};
use sc_parse_unit::{Around, End, Obstacle, Stage};
use std::alloc::Global;

/// `(` is due.
fn left_paren(kind: Kind) -> Result<Stage, Obstacle>
    ensures { (names : Names) → (fs : List Around) → Goes (spec.left_paren names fs kind) result names fs }
{
    match kind {
        Kind::LeftParen => Ok(Stage::Need),
        _ => Err(STUCK),
    }
}

/// The token in this place.
fn place(
    alloc: Global,
    names: &mut TypeNames,
    token: &Symbol,
    around: &mut Stack<Around>,
    stage: Stage,
) -> Result<Stage, Obstacle>
    requires { IsSymbol token.now }
    ensures { Goes (spec.place token.now (names.old, (around.old, stage))) result names.new around.new }
{
    match stage {
        Stage::Due => due(alloc, names, token, around),
        Stage::Specifiers(frames, state) => {
            in_specifiers(alloc, names, token, around, frames, state)
        }
        Stage::Declarator(frames, state) => {
            in_declarator(alloc, names, token, around, frames, state)
        }
        Stage::Expression(frames, state) => {
            in_expression(alloc, names, token, around, frames, state)
        }
        Stage::Name(line, name) => behind_name(alloc, names, token, around, line, name),
        Stage::TypeName(line, name) => behind_type(alloc, names, token, around, line, name),
        Stage::Target(line) => target(alloc, token, line),
        Stage::Initial => initial(alloc, names, token, around),
        Stage::Closed(x) => initial_ends(alloc, token.kind, around, x),
        Stage::LeftParen => left_paren(token.kind),
        Stage::Need => expression_due(alloc, names, token, around),
        Stage::Colon => ends_at(End::Colon, token.kind, Stage::Due),
        Stage::Semicolon(last) => ends_at(End::Semicolon, token.kind, Stage::Got(last)),
        Stage::Got(last) => got(alloc, names, token, around, last),
        Stage::Over => Err(STUCK),
    }
}

/// A token that is left out is named where nothing goes on with it.
fn marked(kind: Kind, obstacle: Obstacle) -> Obstacle
    ensures { result ≡ spec.mark_on kind obstacle }
{
    match kind {
        Kind::LeftOut(mark) => match obstacle {
            Obstacle::Inner(Trouble::Syntax) => Obstacle::Inner(Trouble::LeftOut(mark)),
            other => other,
        },
        _ => obstacle,
    }
}

/// Takes the next token: the stage behind it, or why nothing goes on with it. A token of the kind `Name` has 1 to 255
/// bytes. What a refusal or want of memory leaves in `names` and `around` is of no use.
#[tactic(auto, using(crate::proofs::Lifting::marks_ok, crate::proofs::Lifting::marks_err))]
pub fn advance(
    alloc: Global,
    names: &mut TypeNames,
    token: &Symbol,
    around: &mut Stack<Around>,
    stage: Stage,
) -> Result<Stage, Obstacle>
    requires { IsSymbol token.now }
    ensures { Goes (spec.advance token.now (names.old, (around.old, stage))) result names.new around.new }
{
    match place(alloc, names, token, around, stage) {
        Ok(next) => Ok(next),
        Err(obstacle) => Err(marked(token.kind, obstacle)),
    }
}
