// The words of specifiers, and what ends with them.
ghost use Rattle.std.specs.Prelude.{◌≡◌, ◌<◌, ◌≤◌, List, [], ◌∷◌, ◌++◌, Some, None, Ok, false, if◌then◌else◌, length, IfOk};
ghost use Rattle.sc_parse_grammar.specs.Machine as spec;
ghost use Rattle.sc_parse_grammar.specs.Types.{has_words, no_words as no_words_at, with_word, with_const, with_storage, type_of, declarator_of as declarator_at, declarator_in};
ghost use Rattle.sc_parse_grammar.specs.Kinds.{word_of as word_in};
ghost use Rattle.sc_parse_grammar.specs.Steps.{Steps, IsSymbol, IsNamed};

use crate::declarator::begin;
use sc_base::{Items, Name, NoMemory, Shared, Stack};
use sc_parse_grammar::classes::word_of;
use sc_parse_grammar::close::needs;
use sc_parse_grammar::nodes::{name_of, size_type_node};
use sc_parse_grammar::parts::{added, constant, no_words, stored, type_name};
use sc_parse_grammar::{Direct, Frame, Limit, Mode, State, Trouble, Whole};
use sc_parse_names::{Kind, Mark, Symbol};
use sc_tree::{Declarator, Derivation, Member, Parameter, Specifiers, Storage, TypeName, TypeWord};
use std::alloc::Global;

fn cast(
    alloc: Global,
    frames: &mut Stack<Frame>,
    line: u32,
    v: Specifiers,
    x: Option<Whole>,
) -> Result<State, Trouble>
    ensures { Steps (spec.finish Kind.RightParen (Frame.CastType line ∷ frames.old) v x) result frames.new }
{
    if needs(frames) > 14 {
        return Err(Trouble::Syntax);
    }
    let of = type_name(alloc, v, x)?;
    frames.push(Frame::Cast(line, of))?;
    Ok(State::Need)
}

fn sized_type(alloc: Global, line: u32, v: Specifiers, x: Option<Whole>) -> Result<State, Trouble>
    ensures { (fs : List Frame) → Steps (spec.finish Kind.RightParen (Frame.SizeType line ∷ fs) v x) result fs }
{
    let of = type_name(alloc, v, x)?;
    let made = size_type_node(alloc, line, of)?;
    Ok(State::Have(made))
}

fn offset_in(alloc: Global, line: u32, v: Specifiers, x: Option<Whole>) -> Result<State, Trouble>
    ensures { (fs : List Frame) → Steps (spec.finish Kind.Comma (Frame.OffsetType line ∷ fs) v x) result fs }
{
    let of = type_name(alloc, v, x)?;
    Ok(State::OffsetComma(line, of))
}

fn parameter_ended(
    frames: &mut Stack<Frame>,
    d: Direct,
    ps: Items<Parameter>,
    state: State,
) -> Result<State, Trouble>
    ensures { Steps (Ok (Frame.Parameters d ps ∷ frames.old, state)) result frames.new }
{
    frames.push(Frame::Parameters(d, ps))?;
    Ok(state)
}

fn finish_paren(
    alloc: Global,
    frames: &mut Stack<Frame>,
    v: Specifiers,
    x: Option<Whole>,
) -> Result<State, Trouble>
    ensures { Steps (spec.finish Kind.RightParen frames.old v x) result frames.new }
{
    match frames.pop() {
        Some(Frame::CastType(line)) => cast(alloc, frames, line, v, x),
        Some(Frame::SizeType(line)) => sized_type(alloc, line, v, x),
        Some(Frame::Parameters(d, ps)) => {
            parameter_ended(frames, d, ps, State::ParameterEnd(v, x, true))
        }
        Some(other) => {
            drop(other);
            Err(Trouble::Syntax)
        }
        None => Err(Trouble::Syntax),
    }
}

fn finish_comma(
    alloc: Global,
    frames: &mut Stack<Frame>,
    v: Specifiers,
    x: Option<Whole>,
) -> Result<State, Trouble>
    ensures { Steps (spec.finish Kind.Comma frames.old v x) result frames.new }
{
    match frames.pop() {
        Some(Frame::OffsetType(line)) => offset_in(alloc, line, v, x),
        Some(Frame::Parameters(d, ps)) => {
            parameter_ended(frames, d, ps, State::ParameterEnd(v, x, false))
        }
        Some(other) => {
            drop(other);
            Err(Trouble::Syntax)
        }
        None => Err(Trouble::Syntax),
    }
}

/// The token goes on with no parameter, which may be one too many all the same.
pub fn unended(frames: &Stack<Frame>) -> Result<State, Trouble>
    ensures { (fs : List Frame) → Steps (spec.unended frames.now) result fs }
{
    match frames.top() {
        Some(Frame::Parameters(_, ps)) if ps.len() >= 31 => Err(Trouble::Limit(Limit::Arguments)),
        _ => Err(Trouble::Syntax),
    }
}

/// A token behind the specifiers, or the declarator, of a type name or a parameter.
pub fn finish(
    alloc: Global,
    kind: Kind,
    frames: &mut Stack<Frame>,
    v: Specifiers,
    x: Option<Whole>,
) -> Result<State, Trouble>
    ensures { Steps (spec.finish kind frames.old v x) result frames.new }
{
    match kind {
        Kind::RightParen => finish_paren(alloc, frames, v, x),
        Kind::Comma => finish_comma(alloc, frames, v, x),
        _ => {
            drop(v);
            drop(x);
            unended(frames)
        }
    }
}

/// A token behind the specifiers of a declaration.
fn outer_specified(kind: Kind, v: Specifiers) -> Result<State, Trouble>
    ensures { (fs : List Frame) → Steps (spec.outer_specified kind fs v) result fs }
{
    match kind {
        Kind::Semicolon | Kind::Star | Kind::LeftParen | Kind::Name => Ok(State::Specified(v)),
        _ => {
            drop(v);
            Err(Trouble::Syntax)
        }
    }
}

/// A token behind the specifiers of a type name or parameter.
#[tactic(auto, using(crate::proofs::Others::inner_else))]
fn inner_specified(
    alloc: Global,
    token: &Symbol,
    frames: &mut Stack<Frame>,
    v: Specifiers,
    mode: Mode,
) -> Result<State, Trouble>
    requires { IsSymbol token.now }
    ensures { Steps (spec.inner_specified token.now token.now.kind frames.old v mode) result frames.new }
{
    match token.kind {
        Kind::RightParen => finish_paren(alloc, frames, v, None),
        Kind::Comma => finish_comma(alloc, frames, v, None),
        _ => {
            frames.push(Frame::Specifiers(v))?;
            begin(alloc, token, frames, mode)
        }
    }
}

fn member_specified(
    alloc: Global,
    token: &Symbol,
    frames: &mut Stack<Frame>,
    outside: Frame,
    v: Specifiers,
) -> Result<State, Trouble>
    requires { IsSymbol token.now }
    ensures { Steps (spec.begin token.now token.now.kind (Frame.Member v [] ∷ outside ∷ frames.old) Mode.Named) result frames.new }
{
    frames.push(outside)?;
    frames.push(Frame::Member(v, Items::new(alloc)))?;
    begin(alloc, token, frames, Mode::Named)
}

fn again_specified(
    alloc: Global,
    token: &Symbol,
    frames: &mut Stack<Frame>,
    outside: Frame,
    v: Specifiers,
    mode: Mode,
) -> Result<State, Trouble>
    requires { IsSymbol token.now }
    ensures { Steps (spec.inner_specified token.now token.now.kind (outside ∷ frames.old) v mode) result frames.new }
{
    frames.push(outside)?;
    inner_specified(alloc, token, frames, v, mode)
}

/// A token behind at least one type word.
fn specified(
    alloc: Global,
    token: &Symbol,
    frames: &mut Stack<Frame>,
    v: Specifiers,
) -> Result<State, Trouble>
    requires { IsSymbol token.now }
    ensures { Steps (spec.specified token.now frames.old v) result frames.new }
{
    match frames.pop() {
        Some(Frame::Outer) => outer_specified(token.kind, v),
        Some(Frame::Struct(w, line, union, tag, members)) => {
            let outside = Frame::Struct(w, line, union, tag, members);
            member_specified(alloc, token, frames, outside, v)
        }
        Some(Frame::Parameters(d, ps)) => {
            let outside = Frame::Parameters(d, ps);
            again_specified(alloc, token, frames, outside, v, Mode::Either)
        }
        Some(other) => again_specified(alloc, token, frames, other, v, Mode::Abstract),
        None => inner_specified(alloc, token, frames, v, Mode::Abstract),
    }
}

/// A token with which a declaration without a type word goes on.
fn goes_on(kind: Kind) -> Result<State, Trouble>
    ensures { (fs : List Frame) → Steps (spec.goes_on kind) result fs }
{
    match kind {
        Kind::Name | Kind::Star | Kind::LeftParen => Err(Trouble::LeftOut(Mark::ImplicitInt)),
        Kind::RightParen | Kind::Semicolon | Kind::Comma => {
            Err(Trouble::LeftOut(Mark::ImplicitInt))
        }
        _ => Err(Trouble::Syntax),
    }
}

fn first_name(frames: &Stack<Frame>, d: Direct, ps: Items<Parameter>) -> Result<State, Trouble>
    ensures { Steps (spec.plain_name (Frame.Parameters d ps ∷ frames.now)) result frames.now }
{
    drop(d);
    if ps.is_empty() {
        return Err(Trouble::LeftOut(Mark::OldStyle));
    }
    Err(Trouble::LeftOut(Mark::ImplicitInt))
}

/// A plain name where specifiers are due.
fn plain_name(frames: &mut Stack<Frame>) -> Result<State, Trouble>
    ensures { Steps (spec.plain_name frames.old) result frames.new }
{
    match frames.pop() {
        Some(Frame::Outer) => Err(Trouble::LeftOut(Mark::ImplicitInt)),
        Some(Frame::Parameters(d, ps)) => first_name(frames, d, ps),
        Some(other) => {
            drop(other);
            Err(Trouble::Syntax)
        }
        None => Err(Trouble::Syntax),
    }
}

fn nothing_yet(kind: Kind, frames: &mut Stack<Frame>) -> Result<State, Trouble>
    ensures { Steps (spec.nothing_yet kind frames.old) result frames.new }
{
    match kind {
        Kind::Name => plain_name(frames),
        _ => Err(Trouble::Syntax),
    }
}

/// No type word and no storage class stand before the token.
fn unstored(kind: Kind, frames: &mut Stack<Frame>, constant: bool) -> Result<State, Trouble>
    ensures { Steps (if constant then spec.goes_on kind else spec.nothing_yet kind frames.old) result frames.new }
{
    if constant {
        return goes_on(kind);
    }
    nothing_yet(kind, frames)
}

/// No type word stands before the token.
fn wordless(
    kind: Kind,
    frames: &mut Stack<Frame>,
    storage: Option<Storage>,
    v: Specifiers,
) -> Result<State, Trouble>
    ensures { Steps (spec.wordless kind frames.old v storage) result frames.new }
{
    match storage {
        Some(_) => goes_on(kind),
        None => unstored(kind, frames, v.constant),
    }
}

/// Whether a type word is among the specifiers.
fn some_words(words: &Items<TypeWord>) -> bool
    ensures { result ≡ has_words words.now }
{
    !words.is_empty()
}

fn worded(
    alloc: Global,
    token: &Symbol,
    frames: &mut Stack<Frame>,
    v: Specifiers,
) -> Result<State, Trouble>
    requires { IsSymbol token.now }
    ensures { Steps (spec.worded token.now frames.old v) result frames.new }
{
    if some_words(&v.words) {
        return specified(alloc, token, frames, v);
    }
    wordless(token.kind, frames, v.storage, v)
}

fn at_word(
    alloc: Global,
    token: &Symbol,
    frames: &mut Stack<Frame>,
    v: Specifiers,
) -> Result<State, Trouble>
    requires { IsSymbol token.now }
    ensures { Steps (spec.at_word (word_in token.now.kind) token.now frames.old v) result frames.new }
{
    match word_of(token.kind) {
        Some(word) => Ok(State::Words(added(v, word)?)),
        None => worded(alloc, token, frames, v),
    }
}

fn storage_word(
    frames: &mut Stack<Frame>,
    outside: Frame,
    class: Storage,
    v: Specifiers,
) -> Result<State, Trouble>
    ensures { Steps (Ok (outside ∷ frames.old, State.Words (with_storage v class))) result frames.new }
{
    frames.push(outside)?;
    Ok(State::Words(stored(v, class)))
}

/// A storage class where none may stand.
fn second_storage(frames: &Stack<Frame>, v: &Specifiers) -> Result<State, Trouble>
    ensures { (fs : List Frame) → Steps (if has_words v.now.words then spec.unended frames.now else spec.stuck) result fs }
{
    if some_words(&v.words) {
        unended(frames)
    } else {
        Err(Trouble::Syntax)
    }
}

/// A storage class, which only declarations and parameters have.
fn at_storage(frames: &mut Stack<Frame>, class: Storage, v: Specifiers) -> Result<State, Trouble>
    ensures { Steps (spec.at_storage class frames.old v v.storage) result frames.new }
{
    if v.storage.is_some() {
        return second_storage(frames, &v);
    }
    match frames.pop() {
        Some(Frame::Outer) => storage_word(frames, Frame::Outer, class, v),
        Some(Frame::Parameters(d, ps)) => {
            storage_word(frames, Frame::Parameters(d, ps), class, v)
        }
        Some(other) => {
            drop(other);
            Err(Trouble::Syntax)
        }
        None => Err(Trouble::Syntax),
    }
}

fn typedef(alloc: Global, token: &Symbol, v: Specifiers) -> Result<State, Trouble>
    requires { IsNamed token.now.text }
    ensures { (fs : List Frame) → Steps (Ok (fs, State.Words (with_word v (TypeWord.Typedef token.now.line token.now.text)))) result fs }
{
    let name = name_of(alloc, &token.text)?;
    let all = added(v, TypeWord::Typedef(token.line, name))?;
    Ok(State::Words(all))
}

/// A name among specifiers.
fn at_name(
    alloc: Global,
    typed: bool,
    token: &Symbol,
    frames: &mut Stack<Frame>,
    v: Specifiers,
) -> Result<State, Trouble>
    requires named { IsNamed token.now.text }
    requires symbol { IsSymbol token.now }
    ensures { Steps (spec.at_name typed token.now frames.old v) result frames.new }
{
    if typed && v.words.is_empty() {
        return typedef(alloc, token, v);
    }
    worded(alloc, token, frames, v)
}

/// A token among the words of specifiers.
pub fn words(
    alloc: Global,
    typed: bool,
    token: &Symbol,
    frames: &mut Stack<Frame>,
    v: Specifiers,
) -> Result<State, Trouble>
    requires { IsSymbol token.now }
    ensures { Steps (spec.words typed token.now frames.old v token.now.kind) result frames.new }
{
    match token.kind {
        Kind::Const => Ok(State::Words(constant(v))),
        Kind::Struct(union) => Ok(State::Struct(v, token.line, union)),
        Kind::Enum => Ok(State::Enum(v, token.line)),
        Kind::Name => at_name(alloc, typed, token, frames, v),
        Kind::Storage(class) => at_storage(frames, class, v),
        _ => at_word(alloc, token, frames, v),
    }
}

/// The first token of specifiers.
pub fn first_word(
    alloc: Global,
    typed: bool,
    token: &Symbol,
    frames: &mut Stack<Frame>,
) -> Result<State, Trouble>
    requires { IsSymbol token.now }
    ensures { Steps (spec.words typed token.now frames.old (no_words_at token.now.line) token.now.kind) result frames.new }
{
    words(alloc, typed, token, frames, no_words(alloc, token.line))
}
