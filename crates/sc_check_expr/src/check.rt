// The recursion over expressions, type names, specifiers and declarators.
ghost use Rattle.std.specs.Prelude.{◌≡◌, [], map, None};
ghost use Rattle.sc_check_scope.specs.Steps.{GivesWith, each};
ghost use Rattle.sc_check_expr.specs.Typed as spec;

use crate::line::{in_register, line_of};
use crate::parts::{copy_of, with_member};
use sc_base::{Int, Items, Name, Shared};
use sc_check_declare::{DeclaredType, Derived, MemberList, Parameters, Word};
use sc_check_scope::{
    CheckFault, Specified, State, Words, add_parameter, arrow, assign, binary, call, cast,
    close_enumeration, close_structure, comma, conditional, constant as number, constant_value,
    declared_type, derived_array, enter, enumeration_named, enumerator, find_typedef, index, leave,
    list_type, member, name, offset_of, open_enumeration, open_structure, postfix, size_of, string,
    structure_named, unary,
};
use sc_core::{CoreExpr, type_of};
use sc_tree::{
    Binary, Declarator, Derivation, Enumerator, Expr, Member, Parameter, Postfix, Specifiers,
    TypeName, TypeWord, Unary,
};
use std::alloc::Global;

/// The typed tree of an expression (ANSI 3.3), with what its parts declare and its literals in `st`. `called` says whether it is
/// what a call calls.
///
/// # Errors
///
/// The first refusal in the order in which constructs end: X6 to X10.
#[cycle(check)]
pub fn expression(
    alloc: Global,
    st: &mut State,
    called: bool,
    e: &Expr,
) -> Result<Shared<CoreExpr>, CheckFault>
    ensures { GivesWith ((spec.node e.now).typed called st.old) result st.new }
{
    match e {
        Expr::Name(line, n) => Ok(name(alloc, st, *line, called, n)?),
        Expr::Constant(line, k) => Ok(number(alloc, *line, *k)?),
        Expr::String(line, text) => string(alloc, st, *line, text),
        Expr::OffsetOf(line, t, n) => offset_in(alloc, st, *line, t.get(), n),
        Expr::Index(line, a, b) => {
            let a = expression(alloc, st, false, a.get())?;
            index_at(alloc, st, *line, b.get(), a)
        }
        Expr::Call(line, f, args) => {
            let f = expression(alloc, st, true, f.get())?;
            call_with(alloc, st, *line, args, f)
        }
        Expr::Member(line, a, n) => member_of(alloc, st, *line, a.get(), n),
        Expr::Arrow(line, a, n) => member_behind(alloc, st, *line, a.get(), n),
        Expr::Postfix(line, op, a) => stepped(alloc, st, *line, *op, a.get()),
        Expr::Unary(line, op, a) => operated(alloc, st, *line, *op, a.get()),
        Expr::SizeOf(line, a) => size_of_operand(alloc, st, *line, a.get()),
        Expr::SizeOfType(line, t) => size_of_named(alloc, st, *line, t.get()),
        Expr::Cast(line, t, a) => {
            let t = type_name(alloc, st, t.get())?;
            cast_to(alloc, st, *line, a.get(), t)
        }
        Expr::Binary(line, op, a, b) => {
            let a = expression(alloc, st, false, a.get())?;
            joined(alloc, st, *line, *op, b.get(), a)
        }
        Expr::Conditional(line, a, b, d) => {
            let a = expression(alloc, st, false, a.get())?;
            let b = expression(alloc, st, false, b.get())?;
            chosen(alloc, st, *line, d.get(), a, b)
        }
        Expr::Assign(line, op, a, b) => {
            let a = expression(alloc, st, false, a.get())?;
            assigned(alloc, st, *line, *op, b.get(), a)
        }
        Expr::Comma(line, a, b) => {
            let a = expression(alloc, st, false, a.get())?;
            sequence(alloc, st, *line, b.get(), a)
        }
    }
}

/// `__offsetof(t, n)`.
#[cycle(check)]
fn offset_in(
    alloc: Global,
    st: &mut State,
    line: u32,
    t: &TypeName,
    n: &Name,
) -> Result<Shared<CoreExpr>, CheckFault>
    ensures { GivesWith (spec.of_one (spec.naming t.now) (spec.by_offset_of line n.now) st.old) result st.new }
{
    let named = type_name(alloc, st, t)?;
    Ok(offset_of(alloc, st, line, &named.of, n)?)
}

/// `a[b]`, of an `a` that is typed (ANSI 3.3.2.1).
#[cycle(check)]
fn index_at(
    alloc: Global,
    st: &mut State,
    line: u32,
    b: &Expr,
    a: Shared<CoreExpr>,
) -> Result<Shared<CoreExpr>, CheckFault>
    ensures { GivesWith (spec.of_one (spec.operand (spec.node b.now)) (spec.by_index line a) st.old) result st.new }
{
    let b = expression(alloc, st, false, b)?;
    Ok(index(alloc, st, line, a, b)?)
}

/// A call of an `f` that is typed (ANSI 3.3.2.2).
#[cycle(check)]
fn call_with(
    alloc: Global,
    st: &mut State,
    line: u32,
    args: &Items<Shared<Expr>>,
    f: Shared<CoreExpr>,
) -> Result<Shared<CoreExpr>, CheckFault>
    ensures { GivesWith (spec.of_one (each spec.one_argument (map spec.node args.now) []) (spec.by_call line f) st.old) result st.new }
{
    let args = arguments(alloc, st, args.as_slice())?;
    Ok(call(alloc, st, line, f, args.as_slice())?)
}

/// `a.n` (ANSI 3.3.2.3).
#[cycle(check)]
fn member_of(
    alloc: Global,
    st: &mut State,
    line: u32,
    a: &Expr,
    n: &Name,
) -> Result<Shared<CoreExpr>, CheckFault>
    ensures { GivesWith (spec.of_one (spec.operand (spec.node a.now)) (spec.by_member line n.now) st.old) result st.new }
{
    let a = expression(alloc, st, false, a)?;
    Ok(member(alloc, st, line, a, n)?)
}

/// `a->n` (ANSI 3.3.2.3).
#[cycle(check)]
fn member_behind(
    alloc: Global,
    st: &mut State,
    line: u32,
    a: &Expr,
    n: &Name,
) -> Result<Shared<CoreExpr>, CheckFault>
    ensures { GivesWith (spec.of_one (spec.operand (spec.node a.now)) (spec.by_arrow line n.now) st.old) result st.new }
{
    let a = expression(alloc, st, false, a)?;
    Ok(arrow(alloc, st, line, a, n)?)
}

/// `a++` and `a--` (ANSI 3.3.2.4).
#[cycle(check)]
fn stepped(
    alloc: Global,
    st: &mut State,
    line: u32,
    op: Postfix,
    a: &Expr,
) -> Result<Shared<CoreExpr>, CheckFault>
    ensures { GivesWith (spec.of_one (spec.operand (spec.node a.now)) (spec.by_postfix line op) st.old) result st.new }
{
    let a = expression(alloc, st, false, a)?;
    Ok(postfix(alloc, st, line, op, a)?)
}

/// An operator before its operand (ANSI 3.3.3).
#[cycle(check)]
fn operated(
    alloc: Global,
    st: &mut State,
    line: u32,
    op: Unary,
    a: &Expr,
) -> Result<Shared<CoreExpr>, CheckFault>
    ensures { GivesWith (spec.of_one (spec.operand (spec.node a.now)) (spec.by_unary line op ((spec.node a.now).register st.old)) st.old) result st.new }
{
    let register = in_register(st, a);
    let a = expression(alloc, st, false, a)?;
    Ok(unary(alloc, st, line, op, register, a)?)
}

/// `sizeof a` (ANSI 3.3.3.4).
#[cycle(check)]
fn size_of_operand(
    alloc: Global,
    st: &mut State,
    line: u32,
    a: &Expr,
) -> Result<Shared<CoreExpr>, CheckFault>
    ensures { GivesWith (spec.of_one (spec.unevaluated (spec.node a.now)) (spec.by_size_of_operand line) st.old) result st.new }
{
    let a = unevaluated(alloc, st, a)?;
    Ok(size_of(alloc, st, line, type_of(a.get()))?)
}

/// `sizeof (t)` (ANSI 3.3.3.4).
#[cycle(check)]
fn size_of_named(
    alloc: Global,
    st: &mut State,
    line: u32,
    t: &TypeName,
) -> Result<Shared<CoreExpr>, CheckFault>
    ensures { GivesWith (spec.of_one (spec.naming t.now) (spec.by_size_of_type line) st.old) result st.new }
{
    let named = type_name(alloc, st, t)?;
    Ok(size_of(alloc, st, line, &named.of)?)
}

/// A cast to this type (ANSI 3.3.4).
#[cycle(check)]
fn cast_to(
    alloc: Global,
    st: &mut State,
    line: u32,
    a: &Expr,
    t: DeclaredType,
) -> Result<Shared<CoreExpr>, CheckFault>
    ensures { GivesWith (spec.of_one (spec.operand (spec.node a.now)) (spec.by_cast line t) st.old) result st.new }
{
    let a = expression(alloc, st, false, a)?;
    Ok(cast(alloc, st, line, &t.of, a)?)
}

/// An operator behind an operand that is typed (ANSI 3.3.5 to 3.3.14).
#[cycle(check)]
fn joined(
    alloc: Global,
    st: &mut State,
    line: u32,
    op: Binary,
    b: &Expr,
    a: Shared<CoreExpr>,
) -> Result<Shared<CoreExpr>, CheckFault>
    ensures { GivesWith (spec.of_one (spec.operand (spec.node b.now)) (spec.by_binary line op a) st.old) result st.new }
{
    let b = expression(alloc, st, false, b)?;
    Ok(binary(alloc, st, line, op, a, b)?)
}

/// `a ? b : d`, of which `a` and `b` are typed (ANSI 3.3.15).
#[cycle(check)]
fn chosen(
    alloc: Global,
    st: &mut State,
    line: u32,
    d: &Expr,
    a: Shared<CoreExpr>,
    b: Shared<CoreExpr>,
) -> Result<Shared<CoreExpr>, CheckFault>
    ensures { GivesWith (spec.of_one (spec.operand (spec.node d.now)) (spec.by_conditional line a b) st.old) result st.new }
{
    let d = expression(alloc, st, false, d)?;
    Ok(conditional(alloc, st, line, a, b, d)?)
}

/// An assignment to an `a` that is typed (ANSI 3.3.16).
#[cycle(check)]
fn assigned(
    alloc: Global,
    st: &mut State,
    line: u32,
    op: Option<Binary>,
    b: &Expr,
    a: Shared<CoreExpr>,
) -> Result<Shared<CoreExpr>, CheckFault>
    ensures { GivesWith (spec.of_one (spec.operand (spec.node b.now)) (spec.by_assign line op a) st.old) result st.new }
{
    let b = expression(alloc, st, false, b)?;
    Ok(assign(alloc, st, line, op, a, b)?)
}

/// `a, b`, of an `a` that is typed (ANSI 3.3.17).
#[cycle(check)]
fn sequence(
    alloc: Global,
    st: &mut State,
    line: u32,
    b: &Expr,
    a: Shared<CoreExpr>,
) -> Result<Shared<CoreExpr>, CheckFault>
    ensures { GivesWith (spec.of_one (spec.operand (spec.node b.now)) (spec.by_comma line a) st.old) result st.new }
{
    let b = expression(alloc, st, false, b)?;
    Ok(comma(alloc, line, a, b)?)
}

/// The operand of `sizeof`, which is not evaluated (ANSI 3.3.3.4).
#[cycle(check)]
fn unevaluated(alloc: Global, st: &mut State, a: &Expr) -> Result<Shared<CoreExpr>, CheckFault>
    ensures { GivesWith (spec.unevaluated (spec.node a.now) st.old) result st.new }
{
    let evaluated = st.evaluated;
    st.evaluated = false;
    let core = expression(alloc, st, false, a)?;
    st.evaluated = evaluated;
    Ok(core)
}

/// The arguments of a call, from the left.
#[cycle(check)]
fn arguments(
    alloc: Global,
    st: &mut State,
    args: &[Shared<Expr>],
) -> Result<Items<Shared<CoreExpr>>, CheckFault>
    ensures { GivesWith (each spec.one_argument (map spec.node args.now) [] st.old) result st.new }
{
    let mut done = Items::new(alloc);
    for e in args {
        let value = expression(alloc, st, false, e.get())?;
        done.push(value)?;
    }
    Ok(done)
}

/// The value and the type of an integer constant expression (ANSI 3.4).
///
/// # Errors
///
/// As `expression`, and X8 where it is none.
#[cycle(check)]
pub fn constant(alloc: Global, st: &mut State, e: &Expr) -> Result<(u32, Int), CheckFault>
    ensures { GivesWith (spec.constant (spec.node e.now) st.old) result st.new }
{
    let value = expression(alloc, st, false, e)?;
    Ok(constant_value(line_of(e), value.get())?)
}

/// The type of a type name (ANSI 3.5.5).
#[cycle(check)]
pub fn type_name(alloc: Global, st: &mut State, t: &TypeName) -> Result<DeclaredType, CheckFault>
    ensures { GivesWith (spec.naming t.now st.old) result st.new }
{
    let base = specifiers(alloc, st, &t.specifiers)?;
    match &t.declarator {
        Some(d) => declarator(alloc, st, d, base),
        None => Ok(base),
    }
}

/// The type of a list of specifiers (ANSI 3.5.2, 3.5.3); its storage class is not looked at.
#[cycle(check)]
pub fn specifiers(
    alloc: Global,
    st: &mut State,
    list: &Specifiers,
) -> Result<DeclaredType, CheckFault>
    ensures { GivesWith (spec.specifying list.now st.old) result st.new }
{
    let mut words = Words::new(alloc);
    for w in list.words.as_slice() {
        let specified = word(alloc, st, w)?;
        words.push(specified)?;
    }
    Ok(list_type(alloc, list.line, list.constant, list.words.len(), words)?)
}

/// A type word (ANSI 3.5.2).
#[cycle(check)]
fn word(alloc: Global, st: &mut State, w: &TypeWord) -> Result<Specified, CheckFault>
    ensures { GivesWith (spec.wording w.now st.old) result st.new }
{
    match w {
        TypeWord::Void => Ok(Specified::Basic(Word::Void)),
        TypeWord::Char => Ok(Specified::Basic(Word::Char)),
        TypeWord::Short => Ok(Specified::Basic(Word::Short)),
        TypeWord::Int => Ok(Specified::Basic(Word::Int)),
        TypeWord::Long => Ok(Specified::Basic(Word::Long)),
        TypeWord::Signed => Ok(Specified::Basic(Word::Signed)),
        TypeWord::Unsigned => Ok(Specified::Basic(Word::Unsigned)),
        TypeWord::StructTag(line, is_union, tag) => {
            Ok(Specified::Named(structure_named(alloc, st, *line, *is_union, tag)?))
        }
        TypeWord::Struct(line, is_union, tag, list) => Ok(Specified::Named(structure(
            alloc,
            st,
            *line,
            *is_union,
            tag,
            list.as_slice(),
        )?)),
        TypeWord::EnumTag(line, tag) => Ok(Specified::Named(enumeration_named(st, *line, tag)?)),
        TypeWord::Enum(line, tag, list) => {
            Ok(Specified::Named(enumeration(alloc, st, *line, tag, list.as_slice())?))
        }
        TypeWord::Typedef(line, n) => Ok(Specified::Named(find_typedef(alloc, st, *line, n)?)),
    }
}

/// `struct tag { .. }`, or `union tag { .. }` where it is true, with these members (ANSI 3.5.2.1).
#[cycle(check)]
fn structure(
    alloc: Global,
    st: &mut State,
    line: u32,
    is_union: bool,
    tag: &Option<Name>,
    list: &[Member],
) -> Result<DeclaredType, CheckFault>
    ensures { GivesWith (spec.structure line is_union tag.now (map spec.membering list.now) st.old) result st.new }
{
    let opened = open_structure(alloc, st, is_union, tag)?;
    let held = members(alloc, st, list)?;
    close_structure(st, line, opened, held.into_items())
}

/// `enum tag { .. }`, with these constants (ANSI 3.5.2.2).
#[cycle(check)]
fn enumeration(
    alloc: Global,
    st: &mut State,
    line: u32,
    tag: &Option<Name>,
    list: &[Enumerator],
) -> Result<DeclaredType, CheckFault>
    ensures { GivesWith (spec.enumeration line tag.now (map spec.enumerating list.now) st.old) result st.new }
{
    let again = open_enumeration(alloc, st, tag)?;
    enumerators(alloc, st, list)?;
    Ok(close_enumeration(line, again)?)
}

/// The members of a structure or a union (ANSI 3.5.2.1).
#[cycle(check)]
fn members(alloc: Global, st: &mut State, list: &[Member]) -> Result<MemberList, CheckFault>
    ensures { GivesWith (each spec.one (map spec.membering list.now) [] st.old) result st.new }
{
    let mut done = MemberList::new(alloc);
    for m in list {
        done = declared_members(alloc, st, m, done)?;
    }
    Ok(done)
}

/// The members that one list of specifiers declares, behind others.
#[cycle(check)]
fn declared_members(
    alloc: Global,
    st: &mut State,
    m: &Member,
    done: MemberList,
) -> Result<MemberList, CheckFault>
    ensures { GivesWith (spec.membering m.now done st.old) result st.new }
{
    let base = specifiers(alloc, st, &m.specifiers)?;
    members_of(alloc, st, m.declarators.as_slice(), &base, done)
}

/// The members that these declarators declare, behind others.
#[cycle(check)]
fn members_of(
    alloc: Global,
    st: &mut State,
    list: &[Declarator],
    base: &DeclaredType,
    done: MemberList,
) -> Result<MemberList, CheckFault>
    ensures { GivesWith (each (spec.one_member base.now) (map spec.declaring list.now) done st.old) result st.new }
{
    let mut done = done;
    for d in list {
        done = one_member(alloc, st, d, base, done)?;
    }
    Ok(done)
}

/// A member of this type by its specifiers, behind others.
#[cycle(check)]
fn one_member(
    alloc: Global,
    st: &mut State,
    d: &Declarator,
    base: &DeclaredType,
    done: MemberList,
) -> Result<MemberList, CheckFault>
    ensures { GivesWith (spec.one_member base.now (spec.declaring d.now) done st.old) result st.new }
{
    let own = copy_of(alloc, base)?;
    let t = declarator(alloc, st, d, own)?;
    Ok(with_member(alloc, st, d.line, &d.identifier, t, done)?)
}

/// The constants of an enumeration (ANSI 3.5.2.2); the answer is the last one's 32 bits.
#[cycle(check)]
fn enumerators(
    alloc: Global,
    st: &mut State,
    list: &[Enumerator],
) -> Result<Option<u32>, CheckFault>
    ensures { GivesWith (each spec.one_enumerator (map spec.enumerating list.now) None st.old) result st.new }
{
    let mut before = None;
    for item in list {
        let bits = match &item.value {
            Some(e) => valued(alloc, st, e.get(), item.line, &item.name, before)?,
            None => enumerator(alloc, st, item.line, &item.name, None, before)?,
        };
        before = Some(bits);
    }
    Ok(before)
}

/// An enumeration constant with its value, behind one with the 32 bits `before`; the answer is its own.
#[cycle(check)]
fn valued(
    alloc: Global,
    st: &mut State,
    e: &Expr,
    line: u32,
    name: &Name,
    before: Option<u32>,
) -> Result<u32, CheckFault>
    ensures { GivesWith (spec.valued line name.now before (spec.node e.now) st.old) result st.new }
{
    let value = constant(alloc, st, e)?;
    enumerator(alloc, st, line, name, Some(value), before)
}

/// The type that a declarator gives its name, from the type of the specifiers (ANSI 3.5.4).
#[cycle(check)]
pub fn declarator(
    alloc: Global,
    st: &mut State,
    d: &Declarator,
    base: DeclaredType,
) -> Result<DeclaredType, CheckFault>
    ensures { GivesWith ((spec.declaring d.now).of base st.old) result st.new }
{
    let mut steps = Items::new(alloc);
    for x in d.derivations.as_slice() {
        let step = derivation(alloc, st, d.line, x)?;
        steps.push(step)?;
    }
    Ok(declared_type(alloc, st, d.line, steps, base)?)
}

/// One step of a declarator of this line, with its size or its parameters (ANSI 3.5.4.1 to 3.5.4.3).
#[cycle(check)]
pub(crate) fn derivation(
    alloc: Global,
    st: &mut State,
    line: u32,
    x: &Derivation,
) -> Result<Derived, CheckFault>
    ensures { GivesWith (spec.stepping x.now line st.old) result st.new }
{
    match x {
        Derivation::Pointer(constant) => Ok(Derived::Pointer(*constant)),
        Derivation::Array(None) => Ok(Derived::Array(0)),
        Derivation::Array(Some(e)) => sized(alloc, st, line, e.get()),
        Derivation::Function => Ok(Derived::Function(Parameters::new(alloc))),
        Derivation::Prototype(list) => prototype(alloc, st, list.as_slice()),
    }
}

/// An array with its size (ANSI 3.5.4.2).
#[cycle(check)]
fn sized(alloc: Global, st: &mut State, line: u32, e: &Expr) -> Result<Derived, CheckFault>
    ensures { GivesWith (spec.sized line (spec.node e.now) st.old) result st.new }
{
    let value = constant(alloc, st, e)?;
    Ok(derived_array(line, value)?)
}

/// A function with these parameters, which have a scope of their own (ANSI 3.1.2.1, 3.5.4.3).
#[cycle(check)]
fn prototype(alloc: Global, st: &mut State, list: &[Parameter]) -> Result<Derived, CheckFault>
    ensures { GivesWith (spec.prototype (map spec.parametering list.now) st.old) result st.new }
{
    let outer = enter(st);
    let done = parameters(alloc, st, list)?;
    leave(st, outer);
    Ok(Derived::Function(done))
}

/// The parameters of a function, which are declared in the innermost scope (ANSI 3.5.4.3).
#[cycle(check)]
pub fn parameters(
    alloc: Global,
    st: &mut State,
    list: &[Parameter],
) -> Result<Parameters, CheckFault>
    ensures { GivesWith (each spec.one (map spec.parametering list.now) spec.no_parameters st.old) result st.new }
{
    let mut done = Parameters::new(alloc);
    for p in list {
        done = one_parameter(alloc, st, p, done)?;
    }
    Ok(done)
}

/// A parameter behind others.
#[cycle(check)]
fn one_parameter(
    alloc: Global,
    st: &mut State,
    p: &Parameter,
    done: Parameters,
) -> Result<Parameters, CheckFault>
    ensures { GivesWith (spec.parametering p.now done st.old) result st.new }
{
    let base = specifiers(alloc, st, &p.specifiers)?;
    let storage = p.specifiers.storage;
    match &p.declarator {
        Some(d) => {
            let of = declarator(alloc, st, d, base)?;
            add_parameter(alloc, st, p.line, storage, &d.identifier, of, done)
        }
        None => add_parameter(alloc, st, p.line, storage, &None, base, done),
    }
}
