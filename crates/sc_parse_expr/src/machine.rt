// The machine that reads expressions, type names, specifiers and declarators, one token at a time.
ghost use Rattle.std.specs.Prelude.{◌≡◌, ◌<◌, ◌≤◌, List, [], ◌∷◌, ◌++◌, Some, None, Ok, Err, length, IfOk, OnOk};
ghost use Rattle.sc_parse_names.specs.Names.{is_typed as typed_in};
ghost use Rattle.sc_parse_grammar.specs.Machine as spec;
ghost use Rattle.sc_parse_grammar.specs.Types.{declare_in};
ghost use Rattle.sc_parse_grammar.specs.Steps.{Steps, Moves, IsSymbol};

use crate::body::{
    due, enumeration, item, items, structure, tagged_enumeration, tagged_structure, void,
};
use crate::declarator::{begin, bracket, group, opens_parameters, stars, suffixes};
use crate::operand::{needed, opened, sized_opened};
use crate::words::words;
use sc_base::{Duplicate, Items, NoMemory, Stack};
use sc_parse_grammar::expression::{
    arrowed, dotted, have, offset_comma, offset_name, sized, texts,
};
use sc_parse_grammar::parts::{added, possible_declarator, with_step};
use sc_parse_grammar::{Direct, Frame, Limit, State, Trouble, Whole};
use sc_parse_names::{Kind, Symbol, TypeNames};
use sc_tree::{Derivation, Enumerator, Parameter, Specifiers, TypeWord};
use std::alloc::Global;

/// The token in this place; `typed` says whether it is the name of a type.
fn place(
    alloc: Global,
    typed: bool,
    token: &Symbol,
    frames: &mut Stack<Frame>,
    state: State,
) -> Result<State, Trouble>
    requires { IsSymbol token.now }
    ensures { Steps (spec.place typed token.now (frames.old, state)) result frames.new }
{
    match state {
        State::Need => needed(alloc, typed, token, frames),
        State::Opened(line) => opened(alloc, typed, token, frames, line),
        State::Sized(line) => sized(alloc, typed, token, frames, line),
        State::SizedOpened(line, paren) => sized_opened(alloc, typed, token, frames, line, paren),
        State::Have(x) => have(alloc, token.kind, frames, x),
        State::Texts(line, text) => texts(alloc, token, frames, line, text),
        State::Dot(x) => dotted(alloc, token, x),
        State::Arrow(x) => arrowed(alloc, token, x),
        State::OffsetComma(line, of) => offset_comma(alloc, token, line, of),
        State::OffsetName(line, of, name) => offset_name(alloc, token.kind, line, of, name),
        State::Due => due(alloc, typed, token, frames),
        State::Words(v) => words(alloc, typed, token, frames, v),
        State::Void(line) => void(alloc, typed, token, frames, line),
        State::Struct(v, line, union) => structure(alloc, token, frames, v, line, union),
        State::StructTag(v, line, union, tag) => {
            tagged_structure(alloc, typed, token, frames, v, line, union, tag)
        }
        State::Enum(v, line) => enumeration(alloc, token, frames, v, line),
        State::EnumTag(v, line, tag) => {
            tagged_enumeration(alloc, typed, token, frames, v, line, tag)
        }
        State::Items => items(alloc, token, frames),
        State::Item(name) => item(token.kind, frames, name),
        State::Begin(mode) => begin(alloc, token, frames, mode),
        State::Stars(mode, line, before) => stars(alloc, token, frames, line, mode, before),
        State::Group(mode, line, before) => {
            group(alloc, typed, token, frames, mode, line, before)
        }
        State::Direct(d) => suffixes(alloc, token.kind, frames, d),
        State::Bracket(d) => bracket(alloc, typed, token, frames, d),
        other => {
            drop(other);
            Err(Trouble::Syntax)
        }
    }
}

/// Whether a list of parameters begins at the token, which has a scope of its own.
fn enters(typed: bool, kind: Kind, state: &State) -> bool
    ensures { result ≡ spec.enters typed kind state.now }
{
    match state {
        State::Direct(_) => kind == Kind::LeftParen,
        State::Group(mode, _, _) => opens_parameters(*mode, typed, kind),
        _ => false,
    }
}

/// A token that is left out is named where nothing goes on with it.
fn marked(kind: Kind, trouble: Trouble) -> Trouble
    ensures { result ≡ spec.mark_of kind trouble }
{
    match kind {
        Kind::LeftOut(mark) => match trouble {
            Trouble::Syntax => Trouble::LeftOut(mark),
            other => other,
        },
        _ => trouble,
    }
}

fn item_ended(
    frames: &mut Stack<Frame>,
    v: Specifiers,
    line: u32,
    tag: Option<sc_base::Name>,
    mut items: Items<Enumerator>,
    x: Enumerator,
    closing: bool,
) -> Result<State, Trouble>
    ensures { Steps (spec.item_behind frames.old v line tag (items ++ x ∷ []) closing) result frames.new }
{
    items.push(x)?;
    if closing {
        let all = added(v, TypeWord::Enum(line, tag, items))?;
        return Ok(State::Words(all));
    }
    frames.push(Frame::Enum(v, line, tag, items))?;
    Ok(State::Items)
}

/// The end of an item: its name is declared.
fn item_ends(
    alloc: Global,
    names: &mut TypeNames,
    frames: &mut Stack<Frame>,
    x: Enumerator,
    closing: bool,
) -> Result<State, Trouble>
    ensures { Moves (spec.item_ends names.old frames.old x closing) result names.new frames.new }
{
    let name = x.name.copy(alloc)?;
    names.add(alloc, name, false)?;
    match frames.pop() {
        Some(Frame::Enum(v, line, tag, items)) => {
            item_ended(frames, v, line, tag, items, x, closing)
        }
        Some(other) => {
            drop(other);
            Err(Trouble::Syntax)
        }
        None => Err(Trouble::Syntax),
    }
}

/// The end of parameters: their scope is left.
fn parameters_end(
    alloc: Global,
    names: &mut TypeNames,
    d: Direct,
    step: Derivation,
) -> Result<State, Trouble>
    ensures { (fs : List Frame) → Moves (spec.parameters_end names.old fs d step) result names.new fs }
{
    let scope = names.pop_scope(alloc);
    let direct = with_step(d, step, scope)?;
    Ok(State::Direct(direct))
}

/// The name of the declarator is declared.
fn declared(alloc: Global, names: &mut TypeNames, whole: &Option<Whole>) -> Result<(), NoMemory>
    ensures { OnOk result (names.new ≡ declare_in whole.now names.old) }
{
    match whole {
        Some(Whole { line: _, direct }) => match &direct.identifier {
            Some(identifier) => {
                let name = identifier.name.copy(alloc)?;
                names.add(alloc, name, false)
            }
            None => Ok(()),
        },
        None => Ok(()),
    }
}

fn parameter_ended(
    alloc: Global,
    names: &mut TypeNames,
    frames: &mut Stack<Frame>,
    d: Direct,
    mut ps: Items<Parameter>,
    p: Parameter,
    closing: bool,
) -> Result<State, Trouble>
    ensures { Moves (spec.parameter_behind names.old frames.old d (ps ++ p ∷ []) closing) result names.new frames.new }
{
    ps.push(p)?;
    if closing {
        return parameters_end(alloc, names, d, Derivation::Prototype(ps));
    }
    frames.push(Frame::Parameters(d, ps))?;
    Ok(State::Due)
}

/// The end of a parameter: its name is declared.
fn parameter_ends(
    alloc: Global,
    names: &mut TypeNames,
    frames: &mut Stack<Frame>,
    v: Specifiers,
    x: Option<Whole>,
    closing: bool,
) -> Result<State, Trouble>
    ensures { Moves (spec.parameter_ends names.old frames.old v x closing) result names.new frames.new }
{
    declared(alloc, names, &x)?;
    let p = Parameter {
        line: v.line,
        specifiers: v,
        declarator: possible_declarator(x),
    };
    match frames.pop() {
        Some(Frame::Parameters(d, ps)) => {
            if ps.len() >= 31 {
                return Err(Trouble::Limit(Limit::Arguments));
            }
            parameter_ended(alloc, names, frames, d, ps, p, closing)
        }
        Some(other) => {
            drop(other);
            Err(Trouble::Syntax)
        }
        None => Err(Trouble::Syntax),
    }
}

fn all_parameters_end(
    alloc: Global,
    names: &mut TypeNames,
    frames: &mut Stack<Frame>,
    step: Derivation,
) -> Result<State, Trouble>
    ensures { Moves (spec.all_parameters_end names.old frames.old step) result names.new frames.new }
{
    match frames.pop() {
        Some(Frame::Parameters(d, ps)) => {
            drop(ps);
            parameters_end(alloc, names, d, step)
        }
        Some(other) => {
            drop(other);
            Err(Trouble::Syntax)
        }
        None => Err(Trouble::Syntax),
    }
}

/// What the token declares or ends comes into effect.
fn effect(
    alloc: Global,
    names: &mut TypeNames,
    frames: &mut Stack<Frame>,
    state: State,
) -> Result<State, Trouble>
    ensures { Moves (spec.effect names.old (frames.old, state)) result names.new frames.new }
{
    match state {
        State::ItemEnd(x, closing) => item_ends(alloc, names, frames, x, closing),
        State::ParameterEnd(v, x, closing) => parameter_ends(alloc, names, frames, v, x, closing),
        State::ParametersEnd(step) => all_parameters_end(alloc, names, frames, step),
        other => Ok(other),
    }
}

/// Whether the token is the name of a type.
pub fn is_typed(names: &TypeNames, token: &Symbol) -> bool
    ensures { result ≡ typed_in names.now token.now }
{
    match token.kind {
        Kind::Name => names.is_type(&token.text),
        _ => false,
    }
}

fn entering(alloc: Global, names: &mut TypeNames, enters: bool) -> Result<(), NoMemory>
    ensures { OnOk result (names.new ≡ spec.entered enters names.old) }
{
    if enters {
        names.push_scope(alloc)?;
    }
    Ok(())
}

/// The token in this place, named where it is left out.
#[tactic(auto, using(crate::proofs::Others::marks, crate::proofs::Others::marks_ok))]
fn marked_place(
    alloc: Global,
    typed: bool,
    token: &Symbol,
    frames: &mut Stack<Frame>,
    state: State,
) -> Result<State, Trouble>
    requires { IsSymbol token.now }
    ensures { Steps (spec.marked token.now.kind (spec.place typed token.now (frames.old, state))) result frames.new }
{
    match place(alloc, typed, token, frames, state) {
        Ok(next) => Ok(next),
        Err(trouble) => Err(marked(token.kind, trouble)),
    }
}

/// Takes the next token: the state behind it, or why nothing goes on with it. Where an expression, specifiers or a
/// declarator end before the token, the state says so, and the token is not taken. A token of the kind `Name` has 1 to
/// 255 bytes. What a refusal or want of memory leaves in `names` and `frames` is of no use.
#[tactic(auto, using(crate::proofs::Others::step_ok, crate::proofs::Others::step_err))]
pub fn step(
    alloc: Global,
    names: &mut TypeNames,
    token: &Symbol,
    frames: &mut Stack<Frame>,
    state: State,
) -> Result<State, Trouble>
    requires { IsSymbol token.now }
    ensures { Moves (spec.step token.now (names.old, (frames.old, state))) result names.new frames.new }
{
    let typed = is_typed(names, token);
    let enters = enters(typed, token.kind, &state);
    entering(alloc, names, enters)?;
    match marked_place(alloc, typed, token, frames, state) {
        Ok(next) => effect(alloc, names, frames, next),
        Err(trouble) => Err(trouble),
    }
}
