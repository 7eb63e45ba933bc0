// A statement, or a turn of a loop, begins (ANSI 3.6).
ghost use Rattle.std.specs.Prelude.{◌≡◌, ◌∷◌, List, IfOk};
ghost use Rattle.sc_core.specs.Types as types;
ghost use Rattle.sc_core.specs.declared.statement.CoreStmt.{out-CoreStmt};
ghost use Rattle.sc_meaning.specs.Expressions as spec;
ghost use Rattle.sc_meaning.specs.Statements as statement;
ghost use Rattle.sc_interp_machine.specs.Bodies as machine;
ghost use Rattle.sc_interp_machine.specs.Rests.{labels_in, pieces_in};
ghost use Rattle.sc_interp_machine.specs.declared.body.Pending.{Pending};
ghost use Rattle.sc_interp_machine.specs.declared.body.Pending.TheVariants as kind;
ghost use Rattle.sc_interp_machine.specs.declared.body.Doing.TheVariants as doing;
ghost use Rattle.sc_interp_machine.specs.declared.body.Use.TheVariants as user;
ghost use Rattle.sc_interp_body.specs.Moves.{Moves};

use crate::blocks::enters;
use crate::moves::{Next, ends, execs, turns, within};
use sc_base::{Duplicate, NoMemory, Shared, Stack};
use sc_core::{CoreExpr, CoreStmt, type_of};
use sc_interp_access::Stop;
use sc_interp_expr::Env;
use sc_interp_machine::{Doing, Labels, Pending, Pieces, Statements, Use};
use sc_interp_parts::{automatic_in, id_of};
use sc_interp_world::World;
use sc_meaning_values::{Answer, Value, Way};
use sc_types::CType;

/// A statement, or an initialised declarator, begins, which is work.
pub fn stmt_begun(s: &CoreStmt, world: &mut World) -> Result<(), NoMemory>
    ensures { IfOk result (λ _. world.new ≡ statement.stmt_begun (out-CoreStmt s.now) world.old) }
{
    match s {
        CoreStmt::Initialize(_, _, _, _) => world.tick(),
        _ => world.begin(),
    }
}

// An expression is evaluated once its line is reached.
fn on_line(l: u32, e: &Shared<CoreExpr>, user: Use, world: &World) -> Result<Next, Stop>
    ensures { (ss : List Pending) (env : spec.Env) → Moves (machine.Lines l (machine.within e.now user) ss env world.now) result ss env world.now }
{
    let doing = within(e, user, world)?;
    Ok(Next::Line(l, doing))
}

// A jump, or an empty statement: its line is reached, and then it ends.
fn jump(
    l: u32,
    way: Way,
    stmts: &mut Stack<Pending>,
    env: &Env,
    world: &World,
) -> Result<Next, Stop>
    ensures { Moves (machine.Lines l (doing.Leave way) (kind.End ∷ stmts.old) env.now world.now) result stmts.new env.now world.now }
{
    stmts.push(Pending::End)?;
    Ok(Next::Line(l, Doing::Leave(way)))
}

// A copy of the type of an expression that is tested.
fn tested_type(e: &Shared<CoreExpr>, world: &World) -> Result<CType, NoMemory>
    ensures { IfOk result (λ t. t ≡ types.type_of e.now) }
{
    type_of(e.get()).copy(world.alloc())
}

// The same statement, where there is one.
fn share_optional(s: &Option<Shared<CoreStmt>>) -> Result<Option<Shared<CoreStmt>>, NoMemory>
    ensures { IfOk result (λ same. same ≡ s.now) }
{
    match s {
        None => Ok(None),
        Some(s) => Ok(Some(s.share()?)),
    }
}

// The same expression, where there is one.
fn share_expression(e: &Option<Shared<CoreExpr>>) -> Result<Option<Shared<CoreExpr>>, NoMemory>
    ensures { IfOk result (λ same. same ≡ e.now) }
{
    match e {
        None => Ok(None),
        Some(e) => Ok(Some(e.share()?)),
    }
}

// The first expression of a `for` is evaluated on its line, or the first turn begins.
fn first_next(
    l: u32,
    e: &Option<Shared<CoreExpr>>,
    s: &Shared<CoreStmt>,
    world: &World,
) -> Result<Next, Stop>
    ensures { (ss : List Pending) (env : spec.Env) → Moves (machine.first_next l e.now s.now ss env world.now) result ss env world.now }
{
    let s = s.share()?;
    match e {
        None => Ok(turns(s)),
        Some(e) => on_line(l, e, Use::Turns(s), world),
    }
}

// `return`.
fn return_next(
    l: u32,
    e: &Option<Shared<CoreExpr>>,
    stmts: &mut Stack<Pending>,
    env: &Env,
    world: &World,
) -> Result<Next, Stop>
    ensures { Moves (machine.return_next l e.now stmts.old env.now world.now) result stmts.new env.now world.now }
{
    match e {
        None => jump(l, Way::returned(Answer::nothing()), stmts, env, world),
        Some(e) => on_line(l, e, Use::Return, world),
    }
}

// An `if`.
fn if_next(
    l: u32,
    e: &Shared<CoreExpr>,
    a: &Shared<CoreStmt>,
    b: &Option<Shared<CoreStmt>>,
    world: &World,
) -> Result<Next, Stop>
    ensures { (ss : List Pending) (env : spec.Env) → Moves (machine.Lines l (machine.within e.now (user.If (types.type_of e.now) a.now b.now)) ss env world.now) result ss env world.now }
{
    let t = tested_type(e, world)?;
    let a = a.share()?;
    let b = share_optional(b)?;
    on_line(l, e, Use::If(t, a, b), world)
}

// A `switch`.
fn switch_next(
    s: &Shared<CoreStmt>,
    l: u32,
    e: &Shared<CoreExpr>,
    a: &Shared<CoreStmt>,
    world: &World,
) -> Result<Next, Stop>
    ensures { (ss : List Pending) (env : spec.Env) → Moves (machine.Lines l (machine.within e.now (user.Switch (labels_in (out-CoreStmt s.now)) a.now)) ss env world.now) result ss env world.now }
{
    let s = s.share()?;
    let a = a.share()?;
    on_line(l, e, Use::Switch(Labels::of(s), a), world)
}

// An initialised declarator: its line is reached, and then its pieces are set.
fn declares_next(
    l: u32,
    p: Value,
    s: Shared<CoreStmt>,
    stmts: &Stack<Pending>,
    env: &Env,
    world: &mut World,
) -> Result<Next, Stop>
    ensures { Moves (machine.declares_next l p (pieces_in (out-CoreStmt s)) stmts.now env.now world.old) result stmts.now env.now world.new }
{
    world.declares(id_of(&p))?;
    Ok(Next::Line(l, Doing::Pieces(p, Pieces::of(s))))
}

/// A statement has begun.
///
/// # Errors
///
/// `BirthLimit`.
pub fn stmt_next(
    s: Shared<CoreStmt>,
    stmts: &mut Stack<Pending>,
    env: &mut Env,
    world: &mut World,
) -> Result<Next, Stop>
    ensures { Moves (machine.stmt_next s (out-CoreStmt s) stmts.old env.old world.old) result stmts.new env.new world.new }
{
    match s.get() {
        CoreStmt::Block(_, b, _, _) => {
            let b = *b;
            let block = s.share()?;
            enters(block, b, Statements::from(s, 0), stmts, env, world)
        }
        CoreStmt::Initialize(l, b, i, _) => {
            let l = *l;
            let p = automatic_in(env.blocks.as_slice(), *b, *i);
            declares_next(l, p, s, stmts, env, world)
        }
        CoreStmt::Empty(l) => jump(*l, Way::normal(), stmts, env, world),
        CoreStmt::Expression(l, e) => on_line(*l, e, Use::Discard, world),
        CoreStmt::If(l, e, a, b) => if_next(*l, e, a, b, world),
        CoreStmt::Switch(l, e, _, a) => switch_next(&s, *l, e, a, world),
        CoreStmt::While(_, _, _) => Ok(turns(s)),
        CoreStmt::Do(_, _, _, _) => Ok(turns(s)),
        CoreStmt::For(l, e, _, _, _) => first_next(*l, e, &s, world),
        CoreStmt::Case(_, a) => execs(a, Pending::End, stmts, env, world),
        CoreStmt::Default(_, a) => execs(a, Pending::End, stmts, env, world),
        CoreStmt::Label(_, a) => execs(a, Pending::End, stmts, env, world),
        CoreStmt::Goto(l, k) => jump(*l, Way::jumped(*k), stmts, env, world),
        CoreStmt::Continue(l) => jump(*l, Way::continued(), stmts, env, world),
        CoreStmt::Break(l) => jump(*l, Way::broke(), stmts, env, world),
        CoreStmt::Return(l, e) => return_next(*l, e, stmts, env, world),
    }
}

// The condition of a `for`, which holds where it is left out.
fn holds_next(
    s: &Shared<CoreStmt>,
    l: u32,
    c: &Option<Shared<CoreExpr>>,
    x: &Option<Shared<CoreExpr>>,
    a: &Shared<CoreStmt>,
    stmts: &mut Stack<Pending>,
    env: &Env,
    world: &World,
) -> Result<Next, Stop>
    ensures { Moves (machine.holds_next l c.now x.now s.now a.now stmts.old env.now world.now) result stmts.new env.now world.now }
{
    let s = s.share()?;
    let x = share_expression(x)?;
    match c {
        None => execs(a, Pending::Third(x, s), stmts, env, world),
        Some(e) => {
            let t = tested_type(e, world)?;
            let a = a.share()?;
            on_line(l, e, Use::For(t, s, x, a), world)
        }
    }
}

// The condition of a `while` is evaluated on its line.
fn while_next(
    s: &Shared<CoreStmt>,
    l: u32,
    e: &Shared<CoreExpr>,
    a: &Shared<CoreStmt>,
    world: &World,
) -> Result<Next, Stop>
    ensures { (ss : List Pending) (env : spec.Env) → Moves (machine.Lines l (machine.within e.now (user.While (types.type_of e.now) s.now a.now)) ss env world.now) result ss env world.now }
{
    let t = tested_type(e, world)?;
    let s = s.share()?;
    let a = a.share()?;
    on_line(l, e, Use::While(t, s, a), world)
}

// The body of a `do` begins.
fn do_next(
    s: &Shared<CoreStmt>,
    a: &Shared<CoreStmt>,
    m: u32,
    e: &Shared<CoreExpr>,
    stmts: &mut Stack<Pending>,
    env: &Env,
    world: &World,
) -> Result<Next, Stop>
    ensures { Moves (machine.execs a.now (kind.Check m e.now s.now ∷ stmts.old) env.now world.now) result stmts.new env.now world.now }
{
    let e = e.share()?;
    let s = s.share()?;
    execs(a, Pending::Check(m, e, s), stmts, env, world)
}

/// A turn of a loop; nothing else has one.
///
/// # Errors
///
/// `NoRoom` alone.
pub fn turn_next(
    s: &Shared<CoreStmt>,
    stmts: &mut Stack<Pending>,
    env: &Env,
    world: &mut World,
) -> Result<Next, Stop>
    ensures { Moves (machine.turn_next s.now (out-CoreStmt s.now) stmts.old env.now world.old) result stmts.new env.now world.new }
{
    match s.get() {
        CoreStmt::While(l, e, a) => while_next(s, *l, e, a, world),
        CoreStmt::Do(_, a, m, e) => do_next(s, a, *m, e, stmts, env, world),
        CoreStmt::For(l, _, c, x, a) => holds_next(s, *l, c, x, a, stmts, env, world),
        _ => ends(Way::normal(), world),
    }
}
