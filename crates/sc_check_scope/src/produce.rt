// The productions of expressions, over what is in scope (ANSI 3.3). Each refuses as the function that it calls.
ghost use Rattle.std.specs.Prelude.{◌≡◌, Ok, [], ◌∷◌, ◌++◌, IfOk};
ghost use Rattle.sc_check_scope.specs.Steps.{Says, GivesWith, typing};
ghost use Rattle.sc_check_scope.specs.Scopes as scopes;
ghost use Rattle.sc_check_scope.specs.Expressions as spec;
ghost use Rattle.sc_check_unary.specs.Leaves as leaf;
ghost use Rattle.sc_check_unary.specs.Parts as part;
ghost use Rattle.sc_check_unary.specs.Calls as calls;
ghost use Rattle.sc_check_unary.specs.Unary as prefix;
ghost use Rattle.sc_check_binary.specs.Binary as between;
ghost use Rattle.sc_check_binary.specs.Conditional as choice;
ghost use Rattle.sc_check_binary.specs.Assignment as store;

use crate::fault::{CheckFault, wrong};
use crate::state::{Meaning, State};
use sc_base::{Bytes, Int, Name, NoMemory, Shared};
use sc_check_binary as typed;
use sc_check_operand::Cause;
use sc_check_unary as primary;
use sc_core::{CoreExpr, Step, UnaryOperator};
use sc_tree::{Binary, Constant, Postfix, Unary};
use sc_types::{CType, Structs};
use std::alloc::Global;

fn meant(
    alloc: Global,
    line: u32,
    called: bool,
    meaning: &Meaning,
) -> Result<Shared<CoreExpr>, CheckFault>
    ensures { Says (spec.meant line called (Some meaning.now)) result }
{
    match meaning {
        Meaning::Typedef(_) => Err(wrong(Cause::Mismatch, line)),
        Meaning::Constant(bits) => Ok(primary::number(alloc, line, *bits, Int::Int)?),
        Meaning::Automatic(of, block, at, _) => {
            Ok(primary::automatic(alloc, line, of, *block, *at)?)
        }
        Meaning::Static(of, key) => Ok(primary::static_object(alloc, line, of, key)?),
        Meaning::Function(of, key) => Ok(primary::function(alloc, line, called, of, key)?),
    }
}

/// A name (ANSI 3.3.1). `called` says whether it is what a call calls.
///
/// # Errors
///
/// - `Undeclared` (X6): it has no declaration in scope.
/// - `Printf` (X9 `printf`): it is the library's `printf`, and is not called.
pub fn name(
    alloc: Global,
    st: &State,
    line: u32,
    called: bool,
    n: &Name,
) -> Result<Shared<CoreExpr>, CheckFault>
    ensures { Says (spec.name line called n.now st.now) result }
{
    match st.names.find(n) {
        Some(meaning) => meant(alloc, line, called, meaning),
        None => Err(wrong(Cause::Undeclared, line)),
    }
}

/// Whether a name is that of an object that is declared `register`.
pub fn is_register(st: &State, n: &Name) -> bool
    ensures { result ≡ spec.is_register n.now st.now }
{
    match st.names.find(n) {
        Some(Meaning::Automatic(_, _, _, register)) => *register,
        _ => false,
    }
}

/// An integer or character constant (ANSI 3.1.3).
pub fn constant(
    alloc: Global,
    line: u32,
    written: Option<Constant>,
) -> Result<Shared<CoreExpr>, CheckFault>
    ensures { Says (typing (leaf.constant line written)) result }
{
    Ok(primary::constant(alloc, line, written)?)
}

fn terminated(alloc: Global, text: &Bytes) -> Result<Bytes, NoMemory>
    ensures { IfOk result (λ b. b ≡ scopes.terminated text.now) }
{
    let mut bytes = Vec::from_slice(alloc, text.as_slice())?;
    bytes.push(0)?;
    Ok(Bytes::from_vec(bytes))
}

/// The place of a literal, which is one of the unit's from then on where it is evaluated.
fn literal(alloc: Global, st: &mut State, text: &Bytes) -> Result<u32, CheckFault>
    ensures { GivesWith (Ok (spec.literal text.now st.old)) result st.new }
{
    let whole = terminated(alloc, text)?;
    if let Some(at) = st.literals.place_of(&whole) {
        return match u32::try_from(at) {
            Ok(at) => Ok(at),
            Err(_) => Err(CheckFault::NoMemory),
        };
    }
    let Ok(at) = u32::try_from(st.literals.len()) else {
        return Err(CheckFault::NoMemory);
    };
    if st.evaluated {
        st.literals.push(whole)?;
    }
    Ok(at)
}

/// A string (ANSI 3.1.4), `None` where an escape is above 255. It is one of the unit's literals from then on where it is evaluated.
pub fn string(
    alloc: Global,
    st: &mut State,
    line: u32,
    text: &Option<Bytes>,
) -> Result<Shared<CoreExpr>, CheckFault>
    ensures { GivesWith (spec.string line text.now st.old) result st.new }
{
    let Some(text) = text else {
        return Err(wrong(Cause::Mismatch, line));
    };
    let at = literal(alloc, st, text)?;
    Ok(primary::literal(alloc, line, at, text)?)
}

/// `__offsetof(of, n)`.
pub fn offset_of(
    alloc: Global,
    st: &State,
    line: u32,
    of: &CType,
    n: &Name,
) -> Result<Shared<CoreExpr>, CheckFault>
    ensures { Says (typing (leaf.offset_of_member st.now.structs line of.now n.now)) result }
{
    Ok(primary::offset_of_member(alloc, &st.structs, line, of, n)?)
}

/// `sizeof` of a type, or of an expression of this type (ANSI 3.3.3.4).
pub fn size_of(
    alloc: Global,
    st: &State,
    line: u32,
    of: &CType,
) -> Result<Shared<CoreExpr>, CheckFault>
    ensures { Says (typing (leaf.size_of_type st.now.structs line of.now)) result }
{
    Ok(primary::size_of_type(alloc, &st.structs, line, of)?)
}

/// `a[b]` (ANSI 3.3.2.1).
pub fn index(
    alloc: Global,
    st: &State,
    line: u32,
    a: Shared<CoreExpr>,
    b: Shared<CoreExpr>,
) -> Result<Shared<CoreExpr>, CheckFault>
    ensures { Says (typing (part.index st.now.structs line a b)) result }
{
    Ok(primary::index(alloc, &st.structs, line, a, b)?)
}

/// `f(args)` (ANSI 3.3.2.2).
pub fn call(
    alloc: Global,
    st: &State,
    line: u32,
    f: Shared<CoreExpr>,
    args: &[Shared<CoreExpr>],
) -> Result<Shared<CoreExpr>, CheckFault>
    ensures { Says (typing (calls.call st.now.structs line f args.now)) result }
{
    Ok(primary::call(alloc, &st.structs, line, f, args)?)
}

/// `a.n` (ANSI 3.3.2.3).
pub fn member(
    alloc: Global,
    st: &State,
    line: u32,
    a: Shared<CoreExpr>,
    n: &Name,
) -> Result<Shared<CoreExpr>, CheckFault>
    ensures { Says (typing (part.member st.now.structs line a n.now)) result }
{
    Ok(primary::member(alloc, &st.structs, line, a, n)?)
}

/// `a->n` (ANSI 3.3.2.3).
pub fn arrow(
    alloc: Global,
    st: &State,
    line: u32,
    a: Shared<CoreExpr>,
    n: &Name,
) -> Result<Shared<CoreExpr>, CheckFault>
    ensures { Says (typing (part.arrow st.now.structs line a n.now)) result }
{
    Ok(primary::arrow(alloc, &st.structs, line, a, n)?)
}

fn step_of(
    alloc: Global,
    structs: &Structs,
    known: &[bool],
    line: u32,
    how: Step,
    a: Shared<CoreExpr>,
) -> Result<Shared<CoreExpr>, CheckFault>
    ensures { Says (typing (part.step structs.now known.now line how a)) result }
{
    Ok(primary::step(alloc, structs, known, line, how, a)?)
}

fn step(
    alloc: Global,
    st: &State,
    line: u32,
    how: Step,
    a: Shared<CoreExpr>,
) -> Result<Shared<CoreExpr>, CheckFault>
    ensures { Says (typing (part.step st.now.structs st.now.known line how a)) result }
{
    step_of(alloc, &st.structs, st.known.as_slice(), line, how, a)
}

/// `a++` and `a--` (ANSI 3.3.2.4).
pub fn postfix(
    alloc: Global,
    st: &State,
    line: u32,
    op: Postfix,
    a: Shared<CoreExpr>,
) -> Result<Shared<CoreExpr>, CheckFault>
    ensures { Says (spec.postfix line op a st.now) result }
{
    match op {
        Postfix::Increment => step(alloc, st, line, Step::IncrementAfter, a),
        Postfix::Decrement => step(alloc, st, line, Step::DecrementAfter, a),
    }
}

fn address(
    alloc: Global,
    line: u32,
    register: bool,
    a: Shared<CoreExpr>,
) -> Result<Shared<CoreExpr>, CheckFault>
    ensures { Says (typing (prefix.address line register a)) result }
{
    Ok(primary::address(alloc, line, register, a)?)
}

fn indirection(
    alloc: Global,
    st: &State,
    line: u32,
    a: Shared<CoreExpr>,
) -> Result<Shared<CoreExpr>, CheckFault>
    ensures { Says (typing (prefix.indirection st.now.structs line a)) result }
{
    Ok(primary::indirection(alloc, &st.structs, line, a)?)
}

fn arithmetic(
    alloc: Global,
    st: &State,
    line: u32,
    op: UnaryOperator,
    a: Shared<CoreExpr>,
) -> Result<Shared<CoreExpr>, CheckFault>
    ensures { Says (typing (prefix.unary st.now.structs line op a)) result }
{
    Ok(primary::unary(alloc, &st.structs, line, op, a)?)
}

/// An operator before its operand (ANSI 3.3.3). `register` says whether the operand is, or is a member by `.` of, an object that is
/// declared so.
pub fn unary(
    alloc: Global,
    st: &State,
    line: u32,
    op: Unary,
    register: bool,
    a: Shared<CoreExpr>,
) -> Result<Shared<CoreExpr>, CheckFault>
    ensures { Says (spec.unary line op register a st.now) result }
{
    match op {
        Unary::Increment => step(alloc, st, line, Step::IncrementFirst, a),
        Unary::Decrement => step(alloc, st, line, Step::DecrementFirst, a),
        Unary::Address => address(alloc, line, register, a),
        Unary::Indirection => indirection(alloc, st, line, a),
        Unary::Plus => arithmetic(alloc, st, line, UnaryOperator::Plus, a),
        Unary::Minus => arithmetic(alloc, st, line, UnaryOperator::Minus, a),
        Unary::Complement => arithmetic(alloc, st, line, UnaryOperator::Complement, a),
        Unary::Not => arithmetic(alloc, st, line, UnaryOperator::Not, a),
    }
}

/// `(of)a` (ANSI 3.3.4).
pub fn cast(
    alloc: Global,
    st: &State,
    line: u32,
    of: &CType,
    a: Shared<CoreExpr>,
) -> Result<Shared<CoreExpr>, CheckFault>
    ensures { Says (typing (prefix.cast st.now.structs line of.now a)) result }
{
    Ok(primary::cast(alloc, &st.structs, line, of, a)?)
}

/// `a op b` (ANSI 3.3.5 to 3.3.14).
pub fn binary(
    alloc: Global,
    st: &State,
    line: u32,
    op: Binary,
    a: Shared<CoreExpr>,
    b: Shared<CoreExpr>,
) -> Result<Shared<CoreExpr>, CheckFault>
    ensures { Says (typing (between.binary st.now.structs line op a b)) result }
{
    Ok(typed::binary(alloc, &st.structs, line, op, a, b)?)
}

/// `a ? b : d` (ANSI 3.3.15).
pub fn conditional(
    alloc: Global,
    st: &State,
    line: u32,
    a: Shared<CoreExpr>,
    b: Shared<CoreExpr>,
    d: Shared<CoreExpr>,
) -> Result<Shared<CoreExpr>, CheckFault>
    ensures { Says (typing (choice.conditional st.now.structs line a b d)) result }
{
    Ok(typed::conditional(alloc, &st.structs, line, a, b, d)?)
}

fn stored(
    alloc: Global,
    structs: &Structs,
    known: &[bool],
    line: u32,
    a: Shared<CoreExpr>,
    b: Shared<CoreExpr>,
) -> Result<Shared<CoreExpr>, CheckFault>
    ensures { Says (typing (store.assignment structs.now known.now line a b)) result }
{
    Ok(typed::assignment(alloc, structs, known, line, a, b)?)
}

fn changed(
    alloc: Global,
    structs: &Structs,
    known: &[bool],
    line: u32,
    op: Binary,
    a: Shared<CoreExpr>,
    b: Shared<CoreExpr>,
) -> Result<Shared<CoreExpr>, CheckFault>
    ensures { Says (typing (store.compound structs.now known.now line op a b)) result }
{
    Ok(typed::compound(alloc, structs, known, line, op, a, b)?)
}

/// `a = b`, or `a op= b` (ANSI 3.3.16).
pub fn assign(
    alloc: Global,
    st: &State,
    line: u32,
    op: Option<Binary>,
    a: Shared<CoreExpr>,
    b: Shared<CoreExpr>,
) -> Result<Shared<CoreExpr>, CheckFault>
    ensures { Says (spec.assign line op a b st.now) result }
{
    match op {
        None => stored(alloc, &st.structs, st.known.as_slice(), line, a, b),
        Some(op) => changed(alloc, &st.structs, st.known.as_slice(), line, op, a, b),
    }
}

/// `a, b` (ANSI 3.3.17).
pub fn comma(
    alloc: Global,
    line: u32,
    a: Shared<CoreExpr>,
    b: Shared<CoreExpr>,
) -> Result<Shared<CoreExpr>, CheckFault>
    ensures { Says (Ok (between.comma line a b)) result }
{
    Ok(typed::comma(alloc, line, a, b)?)
}
