// Declarators.
ghost use Rattle.std.specs.Prelude.{◌≡◌, ◌<◌, ◌≤◌, List, [], ◌∷◌, ◌++◌, Some, None, Ok, false, length, IfOk};
ghost use Rattle.sc_parse_grammar.specs.Machine as spec;
ghost use Rattle.sc_parse_grammar.specs.Types.{no_direct as nothing, named_direct as named_in, with_step as step_with, pointed as pointed_in, whole as whole_in, member_of, declarator_of as declarator_at};
ghost use Rattle.sc_parse_grammar.specs.Steps.{Steps, IsSymbol, IsNamed};

use crate::body::due;
use crate::words::{finish, unended};
use sc_base::{Items, Name, NoMemory, Stack};
use sc_parse_grammar::classes::begins_parameters;
use sc_parse_grammar::expression::need;
use sc_parse_grammar::parts::{
    const_star, declarator_of, more_stars, named_direct, no_direct, one_star, pointed, with_step,
};
use sc_parse_grammar::{Direct, Frame, Mode, State, Trouble, Whole};
use sc_parse_names::{Entry, Kind, Mark, Symbol};
use sc_tree::{Declarator, Derivation, Identifier, Member, Specifiers};
use std::alloc::Global;

fn next_member(
    frames: &mut Stack<Frame>,
    v: Specifiers,
    ds: Items<Declarator>,
) -> Result<State, Trouble>
    ensures { Steps (Ok (Frame.Member v ds ∷ frames.old, State.Begin Mode.Named)) result frames.new }
{
    frames.push(Frame::Member(v, ds))?;
    Ok(State::Begin(Mode::Named))
}

fn member_of_struct(
    frames: &mut Stack<Frame>,
    v: Specifiers,
    ds: Items<Declarator>,
) -> Result<State, Trouble>
    ensures { Steps (spec.member Kind.Semicolon frames.old v ds) result frames.new }
{
    match frames.pop() {
        Some(Frame::Struct(w, line, union, tag, members)) => {
            let member = Member {
                line: v.line,
                specifiers: v,
                declarators: ds,
            };
            struct_with(frames, w, line, union, tag, members, member)
        }
        Some(other) => {
            drop(other);
            Err(Trouble::Syntax)
        }
        None => Err(Trouble::Syntax),
    }
}

fn struct_with(
    frames: &mut Stack<Frame>,
    w: Specifiers,
    line: u32,
    union: bool,
    tag: Option<Name>,
    mut members: Items<Member>,
    member: Member,
) -> Result<State, Trouble>
    ensures { Steps (Ok (Frame.Struct w line union tag (members ++ member ∷ []) ∷ frames.old, State.Due)) result frames.new }
{
    members.push(member)?;
    frames.push(Frame::Struct(w, line, union, tag, members))?;
    Ok(State::Due)
}

/// A token behind the declarators of a member.
fn member(
    kind: Kind,
    frames: &mut Stack<Frame>,
    v: Specifiers,
    ds: Items<Declarator>,
) -> Result<State, Trouble>
    ensures { Steps (spec.member kind frames.old v ds) result frames.new }
{
    match kind {
        Kind::Comma => next_member(frames, v, ds),
        Kind::Semicolon => member_of_struct(frames, v, ds),
        Kind::Colon => Err(Trouble::LeftOut(Mark::BitField)),
        _ => Err(Trouble::Syntax),
    }
}

fn member_with(
    kind: Kind,
    frames: &mut Stack<Frame>,
    v: Specifiers,
    mut ds: Items<Declarator>,
    whole: Whole,
) -> Result<State, Trouble>
    ensures { Steps (spec.member kind frames.old v (ds ++ declarator_at whole.line whole.direct ∷ [])) result frames.new }
{
    ds.push(declarator_of(whole))?;
    member(kind, frames, v, ds)
}

/// A token behind a declarator of a declaration.
fn outer(kind: Kind, whole: Whole) -> Result<State, Trouble>
    ensures { (fs : List Frame) → Steps (spec.outer kind fs whole) result fs }
{
    match kind {
        Kind::Comma | Kind::Semicolon | Kind::Assign(None) | Kind::LeftBrace => {
            Ok(State::Declared(whole))
        }
        _ => {
            drop(whole);
            Err(Trouble::Syntax)
        }
    }
}

/// The parenthesis round a declarator.
fn ungroup(
    kind: Kind,
    frames: &mut Stack<Frame>,
    mode: Mode,
    line: u32,
    stars: Stack<bool>,
    d: Direct,
) -> Result<State, Trouble>
    ensures { Steps (spec.ungroup kind (Frame.Level mode line stars ∷ frames.old) d) result frames.new }
{
    match kind {
        Kind::RightParen => {
            frames.push(Frame::Level(mode, line, stars))?;
            Ok(State::Direct(d))
        }
        _ => Err(Trouble::Syntax),
    }
}

/// The end of a declarator in parentheses, or of all of it.
fn level_ends(
    alloc: Global,
    kind: Kind,
    frames: &mut Stack<Frame>,
    line: u32,
    direct: Direct,
) -> Result<State, Trouble>
    ensures { Steps (spec.level_ends kind frames.old line direct) result frames.new }
{
    match frames.pop() {
        Some(Frame::Level(mode, outer_line, stars)) => {
            ungroup(kind, frames, mode, outer_line, stars, direct)
        }
        Some(Frame::Outer) => outer(kind, Whole { line, direct }),
        Some(Frame::Member(v, ds)) => member_with(kind, frames, v, ds, Whole { line, direct }),
        Some(Frame::Specifiers(v)) => {
            finish(alloc, kind, frames, v, Some(Whole { line, direct }))
        }
        Some(other) => {
            drop(other);
            Err(Trouble::Syntax)
        }
        None => Err(Trouble::Syntax),
    }
}

fn under_stars(
    alloc: Global,
    kind: Kind,
    frames: &mut Stack<Frame>,
    line: u32,
    stars: Stack<bool>,
    d: Direct,
) -> Result<State, Trouble>
    ensures { Steps (spec.level_ends kind frames.old line (pointed_in stars d)) result frames.new }
{
    let direct = pointed(stars, d)?;
    level_ends(alloc, kind, frames, line, direct)
}

fn direct_ends(
    alloc: Global,
    kind: Kind,
    frames: &mut Stack<Frame>,
    d: Direct,
) -> Result<State, Trouble>
    ensures { Steps (spec.direct_ends kind frames.old d) result frames.new }
{
    match frames.pop() {
        Some(Frame::Level(_, line, stars)) => under_stars(alloc, kind, frames, line, stars, d),
        Some(other) => {
            drop(other);
            Err(Trouble::Syntax)
        }
        None => Err(Trouble::Syntax),
    }
}

fn parameters(alloc: Global, frames: &mut Stack<Frame>, d: Direct) -> Result<State, Trouble>
    ensures { Steps (Ok (Frame.Parameters d [] ∷ frames.old, State.Due)) result frames.new }
{
    frames.push(Frame::Parameters(d, Items::new(alloc)))?;
    Ok(State::Due)
}

/// A token behind the name of a declarator and what it is so far.
pub fn suffixes(
    alloc: Global,
    kind: Kind,
    frames: &mut Stack<Frame>,
    d: Direct,
) -> Result<State, Trouble>
    ensures { Steps (spec.suffixes kind frames.old d) result frames.new }
{
    match kind {
        Kind::LeftBracket => Ok(State::Bracket(d)),
        Kind::LeftParen => parameters(alloc, frames, d),
        other => direct_ends(alloc, other, frames, d),
    }
}

/// Neither a name nor a parenthesis stands behind the stars.
fn bare(
    alloc: Global,
    kind: Kind,
    frames: &mut Stack<Frame>,
    line: u32,
    mode: Mode,
    stars: Stack<bool>,
) -> Result<State, Trouble>
    ensures { Steps (spec.bare kind frames.old line mode stars) result frames.new }
{
    match kind {
        Kind::LeftBracket => {
            frames.push(Frame::Level(mode, line, stars))?;
            Ok(State::Bracket(no_direct(alloc)))
        }
        other => bare_stars(alloc, other, frames, line, stars),
    }
}

/// The specifiers of a parameter stand alone, and nothing goes on with them.
fn bare_specifiers(frames: &mut Stack<Frame>) -> Result<State, Trouble>
    ensures { Steps (spec.bare_specifiers frames.old) result frames.new }
{
    match frames.pop() {
        Some(Frame::Specifiers(v)) => {
            drop(v);
            unended(frames)
        }
        Some(other) => {
            drop(other);
            Err(Trouble::Syntax)
        }
        None => Err(Trouble::Syntax),
    }
}

fn bare_stars(
    alloc: Global,
    kind: Kind,
    frames: &mut Stack<Frame>,
    line: u32,
    stars: Stack<bool>,
) -> Result<State, Trouble>
    ensures { Steps (spec.bare_stars kind frames.old line stars) result frames.new }
{
    if stars.is_empty() {
        return bare_specifiers(frames);
    }
    under_stars(alloc, kind, frames, line, stars, no_direct(alloc))
}

/// A member without a name.
fn unnamed_member(
    kind: Kind,
    frames: &mut Stack<Frame>,
    stars: Stack<bool>,
) -> Result<State, Trouble>
    ensures { Steps (spec.unnamed_member kind frames.old stars) result frames.new }
{
    if !stars.is_empty() {
        return Err(Trouble::Syntax);
    }
    match kind {
        Kind::Colon => unnamed_field(frames),
        _ => Err(Trouble::Syntax),
    }
}

fn unnamed_field(frames: &mut Stack<Frame>) -> Result<State, Trouble>
    ensures { Steps (spec.unnamed_member Kind.Colon frames.old []) result frames.new }
{
    match frames.pop() {
        Some(Frame::Member(v, ds)) => {
            drop(v);
            drop(ds);
            Err(Trouble::LeftOut(Mark::BitField))
        }
        Some(other) => {
            drop(other);
            Err(Trouble::Syntax)
        }
        None => Err(Trouble::Syntax),
    }
}

fn without_name(
    alloc: Global,
    kind: Kind,
    frames: &mut Stack<Frame>,
    line: u32,
    mode: Mode,
    stars: Stack<bool>,
) -> Result<State, Trouble>
    ensures { Steps (spec.without_name kind frames.old line mode stars) result frames.new }
{
    match mode {
        Mode::Named => unnamed_member(kind, frames, stars),
        Mode::Abstract => bare(alloc, kind, frames, line, Mode::Abstract, stars),
        Mode::Either => bare(alloc, kind, frames, line, Mode::Either, stars),
    }
}

fn named(
    alloc: Global,
    token: &Symbol,
    frames: &mut Stack<Frame>,
    line: u32,
    mode: Mode,
    stars: Stack<bool>,
) -> Result<State, Trouble>
    requires { IsNamed token.now.text }
    ensures { Steps (spec.direct token.now Kind.Name frames.old line mode stars) result frames.new }
{
    match mode {
        Mode::Abstract => {
            drop(stars);
            Err(Trouble::Syntax)
        }
        Mode::Named => name_in(alloc, token, frames, line, Mode::Named, stars),
        Mode::Either => name_in(alloc, token, frames, line, Mode::Either, stars),
    }
}

fn name_in(
    alloc: Global,
    token: &Symbol,
    frames: &mut Stack<Frame>,
    line: u32,
    mode: Mode,
    stars: Stack<bool>,
) -> Result<State, Trouble>
    requires { IsNamed token.now.text }
    ensures { Steps (Ok (Frame.Level mode line stars ∷ frames.old, State.Direct (named_in token.now))) result frames.new }
{
    let d = named_direct(alloc, token)?;
    frames.push(Frame::Level(mode, line, stars))?;
    Ok(State::Direct(d))
}

/// A token where a declarator's name or a parenthesis may stand.
#[tactic(auto, using(crate::proofs::Others::direct_else))]
fn direct(
    alloc: Global,
    token: &Symbol,
    frames: &mut Stack<Frame>,
    line: u32,
    mode: Mode,
    stars: Stack<bool>,
) -> Result<State, Trouble>
    requires { IsSymbol token.now }
    ensures { Steps (spec.direct token.now token.now.kind frames.old line mode stars) result frames.new }
{
    match token.kind {
        Kind::Name => named(alloc, token, frames, line, mode, stars),
        Kind::LeftParen => Ok(State::Group(mode, line, stars)),
        other => without_name(alloc, other, frames, line, mode, stars),
    }
}

/// A token where a declarator is due.
#[tactic(auto, using(crate::proofs::Others::begin_else))]
pub fn begin(
    alloc: Global,
    token: &Symbol,
    frames: &mut Stack<Frame>,
    mode: Mode,
) -> Result<State, Trouble>
    requires { IsSymbol token.now }
    ensures { Steps (spec.begin token.now token.now.kind frames.old mode) result frames.new }
{
    match token.kind {
        Kind::Star => {
            let first = one_star(alloc)?;
            Ok(State::Stars(mode, token.line, first))
        }
        _ => direct(alloc, token, frames, token.line, mode, Stack::new(alloc)),
    }
}

/// A token behind a star.
#[tactic(auto, using(crate::proofs::Others::stars_else))]
pub fn stars(
    alloc: Global,
    token: &Symbol,
    frames: &mut Stack<Frame>,
    line: u32,
    mode: Mode,
    before: Stack<bool>,
) -> Result<State, Trouble>
    requires { IsSymbol token.now }
    ensures { Steps (spec.stars token.now token.now.kind frames.old line mode before) result frames.new }
{
    match token.kind {
        Kind::Star => {
            let all = more_stars(before)?;
            Ok(State::Stars(mode, line, all))
        }
        Kind::Const => {
            let all = const_star(before)?;
            Ok(State::Stars(mode, line, all))
        }
        _ => direct(alloc, token, frames, line, mode, before),
    }
}

fn no_size(alloc: Global, d: Direct) -> Result<State, Trouble>
    ensures { (fs : List Frame) → Steps (Ok (fs, State.Direct (step_with d (Derivation.Array None) []))) result fs }
{
    let array = with_step(d, Derivation::Array(None), Items::new(alloc))?;
    Ok(State::Direct(array))
}

/// A token behind `[` in a declarator.
pub fn bracket(
    alloc: Global,
    typed: bool,
    token: &Symbol,
    frames: &mut Stack<Frame>,
    d: Direct,
) -> Result<State, Trouble>
    requires { IsSymbol token.now }
    ensures { Steps (spec.bracket typed token.now frames.old d token.now.kind) result frames.new }
{
    match token.kind {
        Kind::RightBracket => no_size(alloc, d),
        _ => {
            frames.push(Frame::Size(d))?;
            need(alloc, typed, token, frames)
        }
    }
}

/// Whether parameters begin with the token, behind `(` with no name before it.
pub fn opens_parameters(mode: Mode, typed: bool, kind: Kind) -> bool
    ensures { result ≡ spec.opens_parameters mode typed kind }
{
    match mode {
        Mode::Named => false,
        Mode::Abstract | Mode::Either => begins_parameters(typed, kind),
    }
}

/// A name in parentheses, where none may stand in a type name.
fn name_in_group(
    alloc: Global,
    token: &Symbol,
    frames: &mut Stack<Frame>,
    mode: Mode,
) -> Result<State, Trouble>
    requires named { IsNamed token.now.text }
    requires name { token.now.kind ≡ Kind.Name }
    ensures { Steps (spec.in_group token.now frames.old mode Kind.Name) result frames.new }
{
    match mode {
        Mode::Abstract => Err(Trouble::LeftOut(Mark::OldStyle)),
        Mode::Named => name_in(
            alloc,
            token,
            frames,
            token.line,
            Mode::Named,
            Stack::new(alloc),
        ),
        Mode::Either => name_in(
            alloc,
            token,
            frames,
            token.line,
            Mode::Either,
            Stack::new(alloc),
        ),
    }
}

#[tactic(auto, using(crate::proofs::Others::in_group_else))]
fn in_group(
    alloc: Global,
    token: &Symbol,
    frames: &mut Stack<Frame>,
    mode: Mode,
) -> Result<State, Trouble>
    requires { IsSymbol token.now }
    ensures { Steps (spec.in_group token.now frames.old mode token.now.kind) result frames.new }
{
    match token.kind {
        Kind::Name => name_in_group(alloc, token, frames, mode),
        _ => begin(alloc, token, frames, mode),
    }
}

/// A token behind `(` in a declarator.
pub fn group(
    alloc: Global,
    typed: bool,
    token: &Symbol,
    frames: &mut Stack<Frame>,
    mode: Mode,
    line: u32,
    stars: Stack<bool>,
) -> Result<State, Trouble>
    requires { IsSymbol token.now }
    ensures { Steps (spec.group typed token.now frames.old mode line stars) result frames.new }
{
    frames.push(Frame::Level(mode, line, stars))?;
    if opens_parameters(mode, typed, token.kind) {
        frames.push(Frame::Parameters(no_direct(alloc), Items::new(alloc)))?;
        return due(alloc, typed, token, frames);
    }
    in_group(alloc, token, frames, mode)
}
