// What a statement does with the answer of its whole expression (ANSI 3.6.3 to 3.6.6).
ghost use Rattle.std.specs.Prelude.{◌∷◌, List};
ghost use Rattle.sc_meaning.specs.Expressions as spec;
ghost use Rattle.sc_interp_machine.specs.Bodies as machine;
ghost use Rattle.sc_interp_machine.specs.declared.body.Pending.{Pending};
ghost use Rattle.sc_interp_machine.specs.declared.body.Pending.TheVariants as pending;
ghost use Rattle.sc_interp_machine.specs.declared.body.Use.TheVariants as user;
ghost use Rattle.sc_interp_body.specs.Moves.{Moves};

use crate::moves::{Next, ends, execs, leaves, turns};
use sc_base::{Shared, Stack};
use sc_core::{CoreExpr, CoreStmt};
use sc_interp_access::{Stop, bits, scalar_size, set_at, tested};
use sc_interp_expr::Env;
use sc_interp_machine::{Doing, Labels, Pending, Pieces, Use};
use sc_interp_parts::{initial_structure, used};
use sc_interp_world::World;
use sc_meaning_values::{Answer, Value, Way};
use sc_types::CType;

// `return` has its value.
fn returns(a: Answer, world: &mut World) -> Result<Next, Stop>
    ensures { (ss : List Pending) (env : spec.Env) → Moves (machine.use_next user.Return a ss env world.old) result ss env world.new }
{
    let v = used(a, world)?;
    ends(Way::returned(Answer::plain(v)), world)
}

// The statement behind `else` begins, where there is one.
fn optional_next(
    s: &Option<Shared<CoreStmt>>,
    stmts: &mut Stack<Pending>,
    env: &Env,
    world: &World,
) -> Result<Next, Stop>
    ensures { Moves (machine.optional_next s.now (pending.End ∷ stmts.old) env.now world.now) result stmts.new env.now world.now }
{
    match s {
        None => {
            stmts.push(Pending::End)?;
            Ok(leaves(Way::normal()))
        }
        Some(s) => execs(s, Pending::End, stmts, env, world),
    }
}

// An `if` has its condition.
fn if_next(
    t: &CType,
    s: &Shared<CoreStmt>,
    other: &Option<Shared<CoreStmt>>,
    a: Answer,
    stmts: &mut Stack<Pending>,
    env: &Env,
    world: &World,
) -> Result<Next, Stop>
    ensures { Moves (machine.use_next (user.If t.now s.now other.now) a stmts.old env.now world.now) result stmts.new env.now world.now }
{
    let v = used(a, world)?;
    if tested(t, &v, world)? {
        execs(s, Pending::End, stmts, env, world)
    } else {
        optional_next(other, stmts, env, world)
    }
}

// A `do` has its condition.
fn repeat_next(t: &CType, s: Shared<CoreStmt>, a: Answer, world: &mut World) -> Result<Next, Stop>
    ensures { (ss : List Pending) (env : spec.Env) → Moves (machine.use_next (user.Repeat t.now s) a ss env world.old) result ss env world.new }
{
    let v = used(a, world)?;
    if tested(t, &v, world)? {
        Ok(turns(s))
    } else {
        ends(Way::normal(), world)
    }
}

// A `while` has its condition.
fn while_next(
    t: &CType,
    s: Shared<CoreStmt>,
    body: &Shared<CoreStmt>,
    a: Answer,
    stmts: &mut Stack<Pending>,
    env: &Env,
    world: &mut World,
) -> Result<Next, Stop>
    ensures { Moves (machine.use_next (user.While t.now s body.now) a stmts.old env.now world.old) result stmts.new env.now world.new }
{
    let v = used(a, world)?;
    if tested(t, &v, world)? {
        execs(body, Pending::Again(s), stmts, env, world)
    } else {
        ends(Way::normal(), world)
    }
}

// A `for` has its condition.
fn for_next(
    t: &CType,
    s: Shared<CoreStmt>,
    x: Option<Shared<CoreExpr>>,
    body: &Shared<CoreStmt>,
    a: Answer,
    stmts: &mut Stack<Pending>,
    env: &Env,
    world: &mut World,
) -> Result<Next, Stop>
    ensures { Moves (machine.use_next (user.For t.now s x body.now) a stmts.old env.now world.old) result stmts.new env.now world.new }
{
    let v = used(a, world)?;
    if tested(t, &v, world)? {
        execs(body, Pending::Third(x, s), stmts, env, world)
    } else {
        ends(Way::normal(), world)
    }
}

// A `switch` has its value.
fn switched(labels: Labels, s: Shared<CoreStmt>, a: Answer, world: &World) -> Result<Next, Stop>
    ensures { (ss : List Pending) (env : spec.Env) → Moves (machine.use_next (user.Switch labels s) a ss env world.now) result ss env world.now }
{
    let v = used(a, world)?;
    Ok(Next::Go(Doing::Labels(labels, bits(&v), None, s)))
}

// A piece has its value, which is set.
fn set_next(
    p: Value,
    at: u32,
    t: &CType,
    rest: Pieces,
    a: Answer,
    world: &mut World,
) -> Result<Next, Stop>
    ensures { (ss : List Pending) (env : spec.Env) → Moves (machine.use_next (user.Set p at t.now rest) a ss env world.old) result ss env world.new }
{
    let v = used(a, world)?;
    let n = scalar_size(t);
    set_at(&p, at, n, &v, world)?;
    world.work(n)?;
    Ok(Next::Go(Doing::Pieces(p, rest)))
}

// A structure is there, which is copied.
fn copy_next(p: Value, n: u32, rest: Pieces, a: Answer, world: &mut World) -> Result<Next, Stop>
    ensures { (ss : List Pending) (env : spec.Env) → Moves (machine.use_next (user.Copy p n rest) a ss env world.old) result ss env world.new }
{
    initial_structure(&p, n, a, world)?;
    Ok(Next::Go(Doing::Pieces(p, rest)))
}

/// What a statement does with the answer of its whole expression.
///
/// # Errors
///
/// The rule that the use breaks.
pub fn use_next(
    user: Use,
    a: Answer,
    stmts: &mut Stack<Pending>,
    env: &Env,
    world: &mut World,
) -> Result<Next, Stop>
    ensures { Moves (machine.use_next user a stmts.old env.now world.old) result stmts.new env.now world.new }
{
    match user {
        Use::Discard => ends(Way::normal(), world),
        Use::Turns(s) => Ok(turns(s)),
        Use::Return => returns(a, world),
        Use::If(t, s, other) => {
            let next = if_next(&t, &s, &other, a, stmts, env, world);
            drop(t);
            next
        }
        Use::While(t, s, q) => {
            let next = while_next(&t, s, &q, a, stmts, env, world);
            drop(t);
            next
        }
        Use::Repeat(t, s) => {
            let next = repeat_next(&t, s, a, world);
            drop(t);
            next
        }
        Use::For(t, s, x, q) => {
            let next = for_next(&t, s, x, &q, a, stmts, env, world);
            drop(t);
            next
        }
        Use::Switch(labels, s) => switched(labels, s, a, world),
        Use::Set(p, at, t, rest) => {
            let next = set_next(p, at, &t, rest, a, world);
            drop(t);
            next
        }
        Use::Copy(p, n, rest) => copy_next(p, n, rest, a, world),
    }
}
