// Which types are compatible (ANSI 3.1.2.6, 3.5.3, 3.5.4.3).
ghost use Rattle.std.specs.Prelude.{◌≡◌, ◌<◌, ◌+◌, suc, Some, true, false, length};
ghost use Rattle.sc_types.specs.Calls as calls;
ghost use Rattle.sc_types.specs.Compatibility as spec;
ghost use Rattle.sc_types.specs.Outcomes.{Settles, Reaches};

use crate::layout::sized;
use crate::{CType, Member, Signature, StructDef, Structs};
use sc_base::{Int, Name};

/// The place of an integer type in the order of all.
pub fn rank(i: Int) -> u8
    ensures { result ≡ spec.rank i }
{
    match i {
        Int::Char => 0,
        Int::SChar => 1,
        Int::UChar => 2,
        Int::Short => 3,
        Int::UShort => 4,
        Int::Int => 5,
        Int::UInt => 6,
        Int::Long => 7,
        Int::ULong => 8,
    }
}

fn same_const(own: bool, c: bool, d: bool) -> bool
    ensures { result ≡ spec.same_const own c d }
{
    !own || c == d
}

/// Whether two integer types are the same one.
pub fn same_int(i: Int, j: Int) -> bool
    ensures { result ≡ spec.same_int i j }
{
    i == j
}

/// Whether arrays of so many elements go together; 0 says that the number is not known (ANSI 3.5.4.2).
pub fn same_length(n: u32, m: u32) -> bool
    ensures { result ≡ spec.same_length n m }
{
    n == m || n == 0 || m == 0
}

fn same_tag(a: &Option<Name>, b: &Option<Name>) -> bool
    ensures { result ≡ spec.same_tag a.now b.now }
{
    match a {
        Some(a) => match b {
            Some(b) => *a == *b,
            None => false,
        },
        None => b.is_none(),
    }
}

/// Whether a call of a function of this type may have so many arguments (ANSI 3.3.2.2).
pub fn fits(f: &Signature, n: usize) -> bool
    ensures { result ≡ calls.fits f.now n }
{
    f.params.len() == n || (f.variadic && f.params.len() < n)
}

/// Whether two structures or unions go together behind a pointer.
fn behind(s: &Structs, i: u32, t: &Structs, j: u32, one_module: bool) -> bool
    ensures { result ≡ spec.sides one_module s.now t.now i j }
{
    if one_module {
        return i == j;
    }
    match s.as_slice().get(i as usize) {
        Some(d) => match t.as_slice().get(j as usize) {
            Some(e) => d.is_union == e.is_union && same_tag(&d.tag, &e.tag),
            None => false,
        },
        None => false,
    }
}

/// Whether two types are compatible of which no structure is compared by its members. `own` says whether the types'
/// own qualifiers count.
#[cycle(types)]
fn types(a: &CType, s: &Structs, b: &CType, t: &Structs, one_module: bool, own: bool) -> bool
    ensures { result ≡ spec.alike (spec.sides one_module s.now t.now) (spec.sides one_module s.now t.now) own a.now b.now }
{
    match a {
        CType::Void(c) => match b {
            CType::Void(d) => same_const(own, *c, *d),
            _ => false,
        },
        CType::Int(i, c) => match b {
            CType::Int(j, d) => rank(*i) == rank(*j) && same_const(own, *c, *d),
            _ => false,
        },
        CType::Pointer(x, c) => match b {
            CType::Pointer(y, d) => {
                same_const(own, *c, *d) && types(x.get(), s, y.get(), t, one_module, true)
            }
            _ => false,
        },
        CType::Array(x, n) => match b {
            CType::Array(y, m) => {
                same_length(*n, *m) && types(x.get(), s, y.get(), t, one_module, true)
            }
            _ => false,
        },
        CType::Struct(i, c) => match b {
            CType::Struct(j, d) => same_const(own, *c, *d) && behind(s, *i, t, *j, one_module),
            _ => false,
        },
        CType::Function(f) => match b {
            CType::Function(g) => signatures(f.get(), s, g.get(), t, one_module),
            _ => false,
        },
    }
}

/// Whether two functions' types are compatible (ANSI 3.5.4.3).
#[cycle(types)]
fn signatures(f: &Signature, s: &Structs, g: &Signature, t: &Structs, one_module: bool) -> bool
    ensures { result ≡ spec.same_signature (spec.sides one_module s.now t.now) f.now g.now }
{
    f.variadic == g.variadic
        && types(&f.result, s, &g.result, t, one_module, true)
        && parameters(f.params.as_slice(), s, g.params.as_slice(), t, one_module)
}

/// Whether two lists of parameters are, whose own qualifiers do not count.
#[cycle(types)]
fn parameters(ps: &[CType], s: &Structs, qs: &[CType], t: &Structs, one_module: bool) -> bool
    ensures { result ≡ spec.same_parameters (spec.sides one_module s.now t.now) ps.now qs.now }
{
    if ps.len() != qs.len() {
        return false;
    }
    for (i, p) in ps.iter().enumerate() {
        if !types(p, s, &qs[i], t, one_module, false) {
            return false;
        }
    }
    true
}

/// How far a comparison has come: its answer, or the two structures that decide it.
#[derive(Clone, Copy)]
enum Outcome {
    Answer(bool),
    Structures(u32, u32),
}

/// Compares the elements of arrays and structures down to two structures, if it comes to that.
fn settled(a: &CType, s: &Structs, b: &CType, t: &Structs) -> Outcome
    ensures { Settles result (λ here. spec.alike (spec.sides false s.now t.now) here true a.now b.now) }
{
    match a {
        CType::Array(x, n) => match b {
            CType::Array(y, m) => {
                if same_length(*n, *m) {
                    settled(x.get(), s, y.get(), t)
                } else {
                    Outcome::Answer(false)
                }
            }
            _ => Outcome::Answer(false),
        },
        CType::Struct(i, c) => match b {
            CType::Struct(j, d) => {
                if *c == *d {
                    Outcome::Structures(*i, *j)
                } else {
                    Outcome::Answer(false)
                }
            }
            _ => Outcome::Answer(false),
        },
        _ => Outcome::Answer(types(a, s, b, t, false, true)),
    }
}

/// The place of the largest member.
fn largest(members: &[Member], s: &Structs) -> usize
    requires { 0 < length members.now }
    ensures { result < length members.now }
{
    let mut place = 0;
    let mut most = 0;
    for (i, member) in members.iter().enumerate() {
        if let Some(layout) = sized(&member.of, s)
            && layout.size > most
        {
            place = i;
            most = layout.size;
        }
    }
    place
}

/// Whether two structures are compatible, of which at most `levels` are inside one another (ANSI 3.1.2.6). The largest
/// member is followed here and the others by calls, so that calls are no deeper than a size can be halved.
#[cycle(structures)]
fn structures(s: &Structs, i: u32, t: &Structs, j: u32, levels: usize) -> bool
    ensures { result ≡ spec.by_members levels s.now t.now i j }
{
    let (mut i, mut j) = (i, j);
    let mut left = levels;
    'inward: while left > 0 {
        left -= 1;
        match step(s, i, t, j, left) {
            Outcome::Answer(answer) => return answer,
            Outcome::Structures(k, l) => {
                i = k;
                j = l;
            }
        }
    }
    false
}

/// Compares two structures but for what structures decide in the largest member.
#[cycle(structures)]
fn step(s: &Structs, i: u32, t: &Structs, j: u32, left: usize) -> Outcome
    ensures { Reaches result left s.now t.now (spec.by_members (suc left) s.now t.now i j) }
{
    match s.as_slice().get(i as usize) {
        Some(d) => match t.as_slice().get(j as usize) {
            Some(e) => definitions(d, s, e, t, left),
            None => Outcome::Answer(false),
        },
        None => Outcome::Answer(false),
    }
}

#[cycle(structures)]
fn definitions(d: &StructDef, s: &Structs, e: &StructDef, t: &Structs, left: usize) -> Outcome
    ensures { Reaches result left s.now t.now (spec.definitions (spec.by_value left s.now t.now) (Some d.now) (Some e.now)) }
{
    if d.is_union != e.is_union || !same_tag(&d.tag, &e.tag) {
        return Outcome::Answer(false);
    }
    match &d.members {
        Some(ms) => match &e.members {
            Some(ns) => inside(ms.as_slice(), s, ns.as_slice(), t, left),
            None => Outcome::Answer(true),
        },
        None => Outcome::Answer(true),
    }
}

/// Compares two lists of members but for what structures decide in the largest.
#[cycle(structures)]
fn inside(ms: &[Member], s: &Structs, ns: &[Member], t: &Structs, left: usize) -> Outcome
    ensures { Reaches result left s.now t.now (spec.same_members (spec.by_value left s.now t.now) ms.now ns.now) }
{
    if ms.len() != ns.len() {
        return Outcome::Answer(false);
    }
    if ms.is_empty() {
        return Outcome::Answer(true);
    }
    let place = largest(ms, s);
    let m = &ms[place];
    let n = &ns[place];
    if m.name != n.name {
        return Outcome::Answer(false);
    }
    if !members(&ms[..place], s, &ns[..place], t, left) {
        return Outcome::Answer(false);
    }
    if !members(&ms[place + 1..], s, &ns[place + 1..], t, left) {
        return Outcome::Answer(false);
    }
    settled(&m.of, s, &n.of, t)
}

#[cycle(structures)]
fn members(ms: &[Member], s: &Structs, ns: &[Member], t: &Structs, left: usize) -> bool
    ensures { result ≡ spec.same_members (spec.by_value left s.now t.now) ms.now ns.now }
{
    if ms.len() != ns.len() {
        return false;
    }
    for (k, m) in ms.iter().enumerate() {
        if !member(m, s, &ns[k], t, left) {
            return false;
        }
    }
    true
}

#[cycle(structures)]
fn member(m: &Member, s: &Structs, n: &Member, t: &Structs, left: usize) -> bool
    ensures { result ≡ spec.same_member (spec.by_value left s.now t.now) m.now n.now }
{
    if m.name != n.name {
        return false;
    }
    match settled(&m.of, s, &n.of, t) {
        Outcome::Answer(answer) => answer,
        Outcome::Structures(i, j) => structures(s, i, t, j, left),
    }
}

/// Whether two types are compatible, `a` of the table `s` and `b` of the table `t` (ANSI 3.1.2.6). Inside one module a
/// structure or a union is compatible with itself alone; across modules it is with one of the same kind, the same tag
/// and the same members, and the members do not count behind a pointer, in a function's type, and where one of the two
/// is incomplete.
pub fn compatible(a: &CType, s: &Structs, b: &CType, t: &Structs, one_module: bool) -> bool
    ensures { result ≡ spec.compatible a.now s.now b.now t.now one_module }
{
    if one_module {
        return types(a, s, b, t, true, true);
    }
    match settled(a, s, b, t) {
        Outcome::Answer(answer) => answer,
        Outcome::Structures(i, j) => structures(s, i, t, j, s.as_slice().len()),
    }
}
