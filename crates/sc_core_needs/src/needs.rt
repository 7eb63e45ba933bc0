// What a function's frame keeps room for.
ghost use Rattle.std.specs.Prelude.{◌≡◌, ◌≤◌, min, length, map};
ghost use Rattle.sc_core_needs.specs.Needs as spec;

use sc_base::Shared;
use sc_core::{AutoInit, CoreExpr, CoreStmt};

/// The most values that an expression keeps at once, and the most arguments of a call. Numbers above 2^32 - 1 are counted
/// as that one.
#[derive(Clone, Copy, Debug, PartialEq, Eq)]
pub struct Need {
    pub room: u32,
    pub arguments: u32,
}

fn nothing() -> Need
    ensures { result ≡ spec.nothing }
{
    Need {
        room: 0,
        arguments: 0,
    }
}

fn leaf() -> Need
    ensures { result ≡ spec.leaf }
{
    Need {
        room: 1,
        arguments: 0,
    }
}

fn beside(a: Need, b: Need) -> Need
    ensures { result ≡ spec.beside a b }
{
    Need {
        room: a.room.max(b.room),
        arguments: a.arguments.max(b.arguments),
    }
}

/// At most 2^32 - 1.
fn counted(n: usize) -> u32
    ensures { result ≡ min n spec.most }
{
    if n > 4294967295 { 4294967295 } else { n as u32 }
}

fn behind(held: u32, a: Need) -> Need
    ensures { result ≡ spec.behind held a }
{
    Need {
        room: a.room.saturating_add(held),
        arguments: a.arguments,
    }
}

fn two(a: Need, b: Need) -> Need
    ensures { result ≡ spec.two a b }
{
    beside(a, behind(1, b))
}

fn three(a: Need, b: Need, d: Need) -> Need
    ensures { result ≡ spec.three a b d }
{
    beside(two(a, b), behind(2, d))
}

fn call(f: Need, args: Need, count: usize) -> Need
    ensures { result ≡ spec.beside (spec.beside f args) (record { room = 0; arguments = min count spec.most }) }
{
    beside(
        beside(f, args),
        Need {
            room: 0,
            arguments: counted(count),
        },
    )
}

/// What an expression needs: a leaf keeps one value, an operator or a call the greatest sum of an operand's room and the
/// number of operands before it. A conversion is no operator of the text.
#[cycle(needs)]
pub fn need_of(e: &CoreExpr) -> Need
    ensures { result ≡ spec.need e.now }
{
    match e {
        CoreExpr::Number(_, _, _) => leaf(),
        CoreExpr::Literal(_, _, _) => leaf(),
        CoreExpr::Automatic(_, _, _, _) => leaf(),
        CoreExpr::Static(_, _, _) => leaf(),
        CoreExpr::Function(_, _, _) => leaf(),
        CoreExpr::Call(_, _, f, args) => {
            let others = arguments(args.as_slice());
            call(need_of(f.get()), others, args.len())
        }
        CoreExpr::Member(_, _, _, a) => need_of(a.get()),
        CoreExpr::Arrow(_, _, _, a) => need_of(a.get()),
        CoreExpr::Step(_, _, _, _, a) => need_of(a.get()),
        CoreExpr::Address(_, _, a) => need_of(a.get()),
        CoreExpr::Indirection(_, _, a) => need_of(a.get()),
        CoreExpr::Unary(_, _, _, a) => need_of(a.get()),
        CoreExpr::Cast(_, _, a) => need_of(a.get()),
        CoreExpr::Convert(_, _, a) => need_of(a.get()),
        CoreExpr::Conditional(_, _, a, b, d) => three(
            need_of(a.get()),
            need_of(b.get()),
            need_of(d.get()),
        ),
        CoreExpr::Index(_, _, _, a, b) => two(need_of(a.get()), need_of(b.get())),
        CoreExpr::Binary(_, _, _, a, b) => two(need_of(a.get()), need_of(b.get())),
        CoreExpr::Offset(_, _, _, _, a, b) => two(need_of(a.get()), need_of(b.get())),
        CoreExpr::Difference(_, _, _, a, b) => two(need_of(a.get()), need_of(b.get())),
        CoreExpr::Compare(_, _, _, a, b) => two(need_of(a.get()), need_of(b.get())),
        CoreExpr::And(_, _, a, b) => two(need_of(a.get()), need_of(b.get())),
        CoreExpr::Or(_, _, a, b) => two(need_of(a.get()), need_of(b.get())),
        CoreExpr::Assign(_, _, a, b) => two(need_of(a.get()), need_of(b.get())),
        CoreExpr::AssignStructure(_, _, _, a, b) => two(need_of(a.get()), need_of(b.get())),
        CoreExpr::Compound(_, _, _, _, a, b) => two(need_of(a.get()), need_of(b.get())),
        CoreExpr::CompoundOffset(_, _, _, _, a, b) => two(need_of(a.get()), need_of(b.get())),
        CoreExpr::Comma(_, _, a, b) => two(need_of(a.get()), need_of(b.get())),
    }
}

/// The arguments of a call, behind the function.
#[cycle(needs)]
fn arguments(args: &[Shared<CoreExpr>]) -> Need
    ensures { result ≡ spec.in_order 1 (map spec.need args.now) }
{
    let mut most = nothing();
    for (i, arg) in args.iter().enumerate() {
        most = beside(most, behind(counted(i + 1), need_of(arg.get())));
    }
    most
}

fn need_of_option(e: &Option<Shared<CoreExpr>>) -> Need
    ensures { result ≡ spec.need_of_option e.now }
{
    match e {
        Some(e) => need_of(e.get()),
        None => nothing(),
    }
}

fn need_of_piece(piece: &AutoInit) -> Need
    ensures { result ≡ spec.need_of_piece piece.now }
{
    match piece {
        AutoInit::Value(_, _, e) => need_of(e.get()),
        AutoInit::Structure(_, e) => need_of(e.get()),
        AutoInit::Text(_, _) => leaf(),
        AutoInit::Zero(_, _) => nothing(),
    }
}

fn pieces(pieces: &[AutoInit]) -> Need
    ensures { result ≡ spec.all (map spec.need_of_piece pieces.now) }
{
    let mut most = nothing();
    for piece in pieces {
        most = beside(most, need_of_piece(piece));
    }
    most
}

/// The most of all expressions of a statement.
#[cycle(statement)]
pub fn need_of_statement(s: &CoreStmt) -> Need
    ensures { result ≡ spec.need_of_statement s.now }
{
    match s {
        CoreStmt::Block(_, _, _, items) => statements(items.as_slice()),
        CoreStmt::Initialize(_, _, _, items) => pieces(items.as_slice()),
        CoreStmt::Empty(_) => nothing(),
        CoreStmt::Expression(_, e) => need_of(e.get()),
        CoreStmt::If(_, e, s, other) => {
            let first = beside(need_of(e.get()), need_of_statement(s.get()));
            match other {
                Some(other) => beside(first, need_of_statement(other.get())),
                None => beside(first, nothing()),
            }
        }
        CoreStmt::Switch(_, e, _, s) => beside(need_of(e.get()), need_of_statement(s.get())),
        CoreStmt::While(_, e, s) => beside(need_of(e.get()), need_of_statement(s.get())),
        CoreStmt::Do(_, s, _, e) => beside(need_of_statement(s.get()), need_of(e.get())),
        CoreStmt::For(_, first, e, after, s) => {
            let head = beside(need_of_option(first), need_of_option(e));
            beside(
                beside(head, need_of_option(after)),
                need_of_statement(s.get()),
            )
        }
        CoreStmt::Case(_, s) => need_of_statement(s.get()),
        CoreStmt::Default(_, s) => need_of_statement(s.get()),
        CoreStmt::Label(_, s) => need_of_statement(s.get()),
        CoreStmt::Goto(_, _) => nothing(),
        CoreStmt::Continue(_) => nothing(),
        CoreStmt::Break(_) => nothing(),
        CoreStmt::Return(_, e) => need_of_option(e),
    }
}

#[cycle(statement)]
fn statements(items: &[Shared<CoreStmt>]) -> Need
    ensures { result ≡ spec.all (map spec.need_of_statement items.now) }
{
    let mut most = nothing();
    for s in items {
        most = beside(most, need_of_statement(s.get()));
    }
    most
}

/// The most values that an expression of a function's body keeps at once.
pub fn room(body: &CoreStmt) -> u32
    ensures { result ≡ (spec.need_of_statement body.now).room }
{
    need_of_statement(body).room
}

/// The most arguments of a call in a function's body.
pub fn most_arguments(body: &CoreStmt) -> u32
    ensures { result ≡ (spec.need_of_statement body.now).arguments }
{
    need_of_statement(body).arguments
}
