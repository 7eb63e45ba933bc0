// What a copy in a register would save, and what it would cost.
ghost use Rattle.std.specs.Prelude.{◌≡◌, map};
ghost use Rattle.sc_opt.specs.Uses as spec;

use sc_base::Shared;
use sc_core::{AutoInit, CoreExpr, CoreStmt};
use sc_gen_code::is_scalar;
use sc_types::CType;

/// A parameter or automatic object: its block, and its place in it.
#[derive(Clone, Copy)]
pub struct Candidate {
    pub block: u32,
    pub place: u32,
}

/// What an expression is: the object that is asked for, its value, a number, another scalar that has a name, the value of one,
/// or anything else.
#[derive(Clone, Copy)]
pub enum Shape {
    Same,
    Copy,
    Number,
    Place,
    Leaf,
    Other,
}

/// How an expression or statement uses an object: what it is, whether it takes the object's address, and how many words a
/// copy of the object would save and cost, by how often they are run.
#[derive(Clone, Copy)]
pub struct Use {
    pub shape: Shape,
    pub addressed: bool,
    pub saved: u32,
    pub cost: u32,
}

fn plain(shape: Shape) -> Use
    ensures { result ≡ spec.plain shape }
{
    Use {
        shape,
        addressed: false,
        saved: 0,
        cost: 0,
    }
}

fn of_shape(shape: Shape, a: Use) -> Use
    ensures { result ≡ spec.of_shape shape a }
{
    Use {
        shape,
        addressed: a.addressed,
        saved: a.saved,
        cost: a.cost,
    }
}

fn other(a: Use) -> Use
    ensures { result ≡ spec.other a }
{
    of_shape(Shape::Other, a)
}

fn beside(a: Use, b: Use) -> Use
    ensures { result ≡ spec.beside a b }
{
    Use {
        shape: Shape::Other,
        addressed: a.addressed || b.addressed,
        saved: a.saved.saturating_add(b.saved),
        cost: a.cost.saturating_add(b.cost),
    }
}

fn saving(n: u32, a: Use) -> Use
    ensures { result ≡ spec.saving n a }
{
    Use {
        shape: a.shape,
        addressed: a.addressed,
        saved: a.saved.saturating_add(n),
        cost: a.cost,
    }
}

fn costing(n: u32, a: Use) -> Use
    ensures { result ≡ spec.costing n a }
{
    Use {
        shape: a.shape,
        addressed: a.addressed,
        saved: a.saved,
        cost: a.cost.saturating_add(n),
    }
}

fn repeated(a: Use) -> Use
    ensures { result ≡ spec.repeated a }
{
    Use {
        shape: Shape::Other,
        addressed: a.addressed,
        saved: a.saved.saturating_mul(8),
        cost: a.cost.saturating_mul(8),
    }
}

fn is_copy(shape: Shape) -> bool
    ensures { result ≡ spec.is_copy shape }
{
    match shape {
        Shape::Copy => true,
        Shape::Same => false,
        Shape::Number => false,
        Shape::Place => false,
        Shape::Leaf => false,
        Shape::Other => false,
    }
}

fn is_same(shape: Shape) -> bool
    ensures { result ≡ spec.is_same shape }
{
    match shape {
        Shape::Same => true,
        Shape::Copy => false,
        Shape::Number => false,
        Shape::Place => false,
        Shape::Leaf => false,
        Shape::Other => false,
    }
}

fn is_late(shape: Shape) -> bool
    ensures { result ≡ spec.is_late shape }
{
    match shape {
        Shape::Copy => true,
        Shape::Number => true,
        Shape::Leaf => true,
        Shape::Same => false,
        Shape::Place => false,
        Shape::Other => false,
    }
}

fn one_if(b: bool) -> u32
    ensures { result ≡ spec.one_if b }
{
    if b { 1 } else { 0 }
}

fn operands(a: Use, b: Use) -> Use
    ensures { result ≡ spec.operands a b }
{
    let left = one_if(is_copy(a.shape) && is_late(b.shape));
    let right = one_if(is_copy(b.shape));
    saving(left, saving(right, beside(a, b)))
}

fn moved(a: Use, b: Use) -> Use
    ensures { result ≡ spec.moved a b }
{
    saving(one_if(is_copy(b.shape)), beside(a, b))
}

fn tested(a: Use) -> Use
    ensures { result ≡ spec.tested a }
{
    saving(one_if(is_copy(a.shape)), a)
}

fn changed(a: Use, b: Use) -> Use
    ensures { result ≡ spec.changed a b }
{
    costing(one_if(is_same(a.shape)), beside(a, b))
}

fn stepped(a: Use) -> Use
    ensures { result ≡ spec.stepped a }
{
    costing(one_if(is_same(a.shape)), other(a))
}

fn addressed(a: Use) -> Use
    ensures { result ≡ spec.addressed a }
{
    Use {
        shape: Shape::Other,
        addressed: a.addressed || is_same(a.shape),
        saved: a.saved,
        cost: a.cost,
    }
}

fn number_or_other(shape: Shape) -> Shape
    ensures { result ≡ spec.number_or_other shape }
{
    match shape {
        Shape::Number => Shape::Number,
        Shape::Same => Shape::Other,
        Shape::Copy => Shape::Other,
        Shape::Place => Shape::Other,
        Shape::Leaf => Shape::Other,
        Shape::Other => Shape::Other,
    }
}

fn operated(a: Use) -> Use
    ensures { result ≡ spec.operated a }
{
    of_shape(number_or_other(a.shape), a)
}

fn both_shapes(a: Shape, b: Shape) -> Shape
    ensures { result ≡ spec.both_shapes a b }
{
    match a {
        Shape::Number => number_or_other(b),
        Shape::Same => Shape::Other,
        Shape::Copy => Shape::Other,
        Shape::Place => Shape::Other,
        Shape::Leaf => Shape::Other,
        Shape::Other => Shape::Other,
    }
}

fn binary(a: Use, b: Use) -> Use
    ensures { result ≡ spec.binary a b }
{
    of_shape(both_shapes(a.shape, b.shape), operands(a, b))
}

fn read_shape(shape: Shape) -> Shape
    ensures { result ≡ spec.read_shape shape }
{
    match shape {
        Shape::Same => Shape::Copy,
        Shape::Place => Shape::Leaf,
        Shape::Number => Shape::Number,
        Shape::Copy => Shape::Other,
        Shape::Leaf => Shape::Other,
        Shape::Other => Shape::Other,
    }
}

fn converted(a: Use) -> Use
    ensures { result ≡ spec.converted a }
{
    of_shape(read_shape(a.shape), a)
}

fn place(t: &CType) -> Use
    ensures { result ≡ spec.place t.now }
{
    if is_scalar(t) {
        plain(Shape::Place)
    } else {
        plain(Shape::Other)
    }
}

fn name(x: Candidate, t: &CType, block: u32, i: u32) -> Use
    ensures { result ≡ spec.name x t.now block i }
{
    if x.block == block && x.place == i {
        plain(Shape::Same)
    } else {
        place(t)
    }
}

/// How an expression uses an object.
#[cycle(expressions)]
pub fn use_of(x: Candidate, e: &CoreExpr) -> Use
    ensures { result ≡ spec.use_of x e.now }
{
    match e {
        CoreExpr::Number(_, _, _) => plain(Shape::Number),
        CoreExpr::Literal(_, _, _) => plain(Shape::Other),
        CoreExpr::Automatic(_, t, b, i) => name(x, t, *b, *i),
        CoreExpr::Static(_, t, _) => place(t),
        CoreExpr::Function(_, _, _) => plain(Shape::Other),
        CoreExpr::Call(_, _, f, args) => {
            let others = uses_of(x, args.as_slice());
            costing(1, beside(use_of(x, f.get()), others))
        }
        CoreExpr::Member(_, _, _, a) => other(use_of(x, a.get())),
        CoreExpr::Arrow(_, _, _, a) => other(use_of(x, a.get())),
        CoreExpr::Step(_, _, _, _, a) => stepped(use_of(x, a.get())),
        CoreExpr::Address(_, _, a) => addressed(use_of(x, a.get())),
        CoreExpr::Indirection(_, _, a) => other(use_of(x, a.get())),
        CoreExpr::Unary(_, _, _, a) => operated(use_of(x, a.get())),
        CoreExpr::Cast(_, _, a) => operated(use_of(x, a.get())),
        CoreExpr::Convert(_, _, a) => converted(use_of(x, a.get())),
        CoreExpr::Conditional(_, _, a, b, d) => beside(
            beside(tested(use_of(x, a.get())), use_of(x, b.get())),
            use_of(x, d.get()),
        ),
        CoreExpr::Index(_, _, _, a, b) => moved(use_of(x, a.get()), use_of(x, b.get())),
        CoreExpr::Binary(_, _, _, a, b) => binary(use_of(x, a.get()), use_of(x, b.get())),
        CoreExpr::Offset(_, _, _, _, a, b) => moved(use_of(x, a.get()), use_of(x, b.get())),
        CoreExpr::Difference(_, _, _, a, b) => operands(use_of(x, a.get()), use_of(x, b.get())),
        CoreExpr::Compare(_, _, _, a, b) => operands(use_of(x, a.get()), use_of(x, b.get())),
        CoreExpr::And(_, _, a, b) => beside(use_of(x, a.get()), use_of(x, b.get())),
        CoreExpr::Or(_, _, a, b) => beside(use_of(x, a.get()), use_of(x, b.get())),
        CoreExpr::Assign(_, _, a, b) => changed(use_of(x, a.get()), use_of(x, b.get())),
        CoreExpr::AssignStructure(_, _, _, a, b) => beside(use_of(x, a.get()), use_of(x, b.get())),
        CoreExpr::Compound(_, _, _, _, a, b) => changed(use_of(x, a.get()), use_of(x, b.get())),
        CoreExpr::CompoundOffset(_, _, _, _, a, b) => {
            changed(use_of(x, a.get()), use_of(x, b.get()))
        }
        CoreExpr::Comma(_, _, a, b) => beside(use_of(x, a.get()), use_of(x, b.get())),
    }
}

#[cycle(expressions)]
fn uses_of(x: Candidate, es: &[Shared<CoreExpr>]) -> Use
    ensures { result ≡ spec.all (map (spec.use_of x) es.now) }
{
    let mut all = plain(Shape::Other);
    for e in es {
        all = beside(all, use_of(x, e.get()));
    }
    all
}

fn use_of_option(x: Candidate, e: &Option<Shared<CoreExpr>>) -> Use
    ensures { result ≡ spec.use_of_option x e.now }
{
    match e {
        Some(e) => use_of(x, e.get()),
        None => plain(Shape::Other),
    }
}

fn use_of_test(x: Candidate, e: &CoreExpr) -> Use
    ensures { result ≡ spec.use_of_test x e.now }
{
    tested(use_of(x, e))
}

fn use_of_piece(x: Candidate, piece: &AutoInit) -> Use
    ensures { result ≡ spec.use_of_piece x piece.now }
{
    match piece {
        AutoInit::Value(_, _, e) => use_of(x, e.get()),
        AutoInit::Structure(_, e) => use_of(x, e.get()),
        AutoInit::Text(_, _) => plain(Shape::Other),
        AutoInit::Zero(_, _) => plain(Shape::Other),
    }
}

fn use_of_pieces(x: Candidate, pieces: &[AutoInit]) -> Use
    ensures { result ≡ spec.all (map (spec.use_of_piece x) pieces.now) }
{
    let mut all = plain(Shape::Other);
    for piece in pieces {
        all = beside(all, use_of_piece(x, piece));
    }
    all
}

fn initialized(x: Candidate, block: u32, place: u32, a: Use) -> Use
    ensures { result ≡ spec.initialized x block place a }
{
    costing(one_if(x.block == block && x.place == place), a)
}

/// How a statement uses an object; what a loop repeats is counted eight times.
#[cycle(statements)]
pub fn use_of_statement(x: Candidate, s: &CoreStmt) -> Use
    ensures { result ≡ spec.use_of_statement x s.now }
{
    match s {
        CoreStmt::Block(_, _, _, items) => uses_of_statements(x, items.as_slice()),
        CoreStmt::Initialize(_, b, i, items) => {
            initialized(x, *b, *i, use_of_pieces(x, items.as_slice()))
        }
        CoreStmt::Empty(_) => plain(Shape::Other),
        CoreStmt::Expression(_, e) => use_of(x, e.get()),
        CoreStmt::If(_, e, s, more) => {
            let first = beside(use_of_test(x, e.get()), use_of_statement(x, s.get()));
            match more {
                Some(more) => beside(first, use_of_statement(x, more.get())),
                None => beside(first, plain(Shape::Other)),
            }
        }
        CoreStmt::Switch(_, e, _, s) => beside(use_of(x, e.get()), use_of_statement(x, s.get())),
        CoreStmt::While(_, e, s) => {
            repeated(beside(use_of_test(x, e.get()), use_of_statement(x, s.get())))
        }
        CoreStmt::Do(_, s, _, e) => {
            repeated(beside(use_of_statement(x, s.get()), use_of_test(x, e.get())))
        }
        CoreStmt::For(_, first, e, after, s) => {
            let turn = beside(tested(use_of_option(x, e)), use_of_option(x, after));
            let turns = repeated(beside(turn, use_of_statement(x, s.get())));
            beside(use_of_option(x, first), turns)
        }
        CoreStmt::Case(_, s) => use_of_statement(x, s.get()),
        CoreStmt::Default(_, s) => use_of_statement(x, s.get()),
        CoreStmt::Label(_, s) => use_of_statement(x, s.get()),
        CoreStmt::Goto(_, _) => plain(Shape::Other),
        CoreStmt::Continue(_) => plain(Shape::Other),
        CoreStmt::Break(_) => plain(Shape::Other),
        CoreStmt::Return(_, e) => use_of_option(x, e),
    }
}

#[cycle(statements)]
fn uses_of_statements(x: Candidate, items: &[Shared<CoreStmt>]) -> Use
    ensures { result ≡ spec.all (map (spec.use_of_statement x) items.now) }
{
    let mut all = plain(Shape::Other);
    for s in items {
        all = beside(all, use_of_statement(x, s.get()));
    }
    all
}
