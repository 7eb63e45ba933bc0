// Names with which a statement or a declaration begins, labels and `goto` (ANSI 3.6.1, 3.6.6.1).
ghost use Rattle.std.specs.Prelude.{◌≡◌, nat_lt, List, [], ◌∷◌, length, Ok};
ghost use Rattle.sc_parse_names.specs.Names.{Names};
ghost use Rattle.sc_parse_grammar.specs.Machine as inner;
ghost use Rattle.sc_parse_grammar.specs.Nodes.{named_node as named_in};
ghost use Rattle.sc_parse_grammar.specs.Types.{no_words as no_words_at, with_word};
ghost use Rattle.sc_parse_grammar.specs.Steps.{IsSymbol};
ghost use Rattle.sc_parse_unit.specs.Machine as spec;
ghost use Rattle.sc_parse_unit.specs.Steps.{Goes};

use crate::declaring::{STUCK, framed, in_specifiers, kept};
use crate::expression::in_expression;
use sc_base::{Name, Stack};
use sc_parse_grammar::nodes::{name_of, named_node};
use sc_parse_grammar::parts::{added, no_words};
use sc_parse_grammar::{Frame, State};
use sc_parse_names::{Kind, Symbol, TypeNames};
use sc_parse_unit::{Around, Head, Obstacle, Stage};
use sc_tree::{Statement, TypeWord};
use std::alloc::Global;

/// One more than what is open at most around a statement: the unit, a function's block and 1,499 statements.
const ROOM: usize = 1502;

/// Whether a statement may stand here.
pub fn has_room(around: &Stack<Around>) -> bool
    ensures { result ≡ nat_lt (length around.now) 1502 }
{
    around.len() < ROOM
}

/// A label: the statement behind it is due.
fn label(around: &mut Stack<Around>, line: u32, name: Name) -> Result<Stage, Obstacle>
    ensures { (names : Names) → Goes (Ok (names, (Around.Under (Head.Label line name) ∷ around.old, Stage.Due))) result names around.new }
{
    kept(around, Around::Under(Head::Label(line, name)), Stage::Due)
}

fn name_goes_on(
    alloc: Global,
    names: &mut TypeNames,
    token: &Symbol,
    around: &mut Stack<Around>,
    line: u32,
    name: Name,
) -> Result<Stage, Obstacle>
    requires { IsSymbol token.now }
    ensures { Goes (spec.in_expression token.now (Around.Expression ∷ around.old) (inner.step token.now (names.old, (Frame.Only 1 ∷ [], State.Have (named_in line name))))) result names.new around.new }
{
    let x = named_node(alloc, line, name)?;
    let frames = framed(alloc, Frame::Only(1))?;
    around.push(Around::Expression)?;
    in_expression(alloc, names, token, around, frames, State::Have(x))
}

/// A token behind a plain name with which a statement begins: a label, or the expression goes on.
#[tactic(auto, using(crate::proofs::Others::name_else))]
pub fn behind_name(
    alloc: Global,
    names: &mut TypeNames,
    token: &Symbol,
    around: &mut Stack<Around>,
    line: u32,
    name: Name,
) -> Result<Stage, Obstacle>
    requires { IsSymbol token.now }
    ensures { Goes (spec.behind_name token.now names.old around.old line name token.now.kind) result names.new around.new }
{
    match token.kind {
        Kind::Colon => label(around, line, name),
        _ => name_goes_on(alloc, names, token, around, line, name),
    }
}

fn shallow_label(around: &mut Stack<Around>, line: u32, name: Name) -> Result<Stage, Obstacle>
    ensures { (names : Names) → Goes (spec.shallow around.old (Ok (names, (Around.Under (Head.Label line name) ∷ around.old, Stage.Due)))) result names around.new }
{
    if has_room(around) {
        label(around, line, name)
    } else {
        Err(Obstacle::Nesting)
    }
}

fn type_goes_on(
    alloc: Global,
    names: &mut TypeNames,
    token: &Symbol,
    around: &mut Stack<Around>,
    line: u32,
    name: Name,
) -> Result<Stage, Obstacle>
    requires { IsSymbol token.now }
    ensures { Goes (spec.in_specifiers token.now around.old (inner.step token.now (names.old, (Frame.Outer ∷ [], State.Words (with_word (no_words_at line) (TypeWord.Typedef line name)))))) result names.new around.new }
{
    let words = added(no_words(alloc, line), TypeWord::Typedef(line, name))?;
    let frames = framed(alloc, Frame::Outer)?;
    in_specifiers(alloc, names, token, around, frames, State::Words(words))
}

/// A token behind the name of a type with which a declaration begins, or a statement that is labelled.
#[tactic(auto, using(crate::proofs::Others::type_else))]
pub fn behind_type(
    alloc: Global,
    names: &mut TypeNames,
    token: &Symbol,
    around: &mut Stack<Around>,
    line: u32,
    name: Name,
) -> Result<Stage, Obstacle>
    requires { IsSymbol token.now }
    ensures { Goes (spec.behind_type token.now names.old around.old line name token.now.kind) result names.new around.new }
{
    match token.kind {
        Kind::Colon => shallow_label(around, line, name),
        _ => type_goes_on(alloc, names, token, around, line, name),
    }
}

/// The label behind `goto`.
pub fn target(alloc: Global, token: &Symbol, line: u32) -> Result<Stage, Obstacle>
    requires { IsSymbol token.now }
    ensures { (names : Names) → (fs : List Around) → Goes (spec.target token.now names fs line token.now.kind) result names fs }
{
    match token.kind {
        Kind::Name => {
            let name = name_of(alloc, &token.text)?;
            Ok(Stage::Semicolon(Statement::Goto(line, name)))
        }
        _ => Err(STUCK),
    }
}
