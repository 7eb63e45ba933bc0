// What is done with the way in which a statement was left (ANSI 3.6.2, 3.6.4.2, 3.6.5, 3.6.6).
ghost use Rattle.std.specs.Prelude.{◌≡◌, List};
ghost use Rattle.sc_core.specs.Types as types;
ghost use Rattle.sc_core.specs.declared.statement.CoreStmt.{out-CoreStmt};
ghost use Rattle.sc_meaning.specs.Expressions as spec;
ghost use Rattle.sc_meaning.specs.Statements as statement;
ghost use Rattle.sc_interp_machine.specs.Bodies as machine;
ghost use Rattle.sc_interp_machine.specs.declared.body.Pending.{Pending};
ghost use Rattle.sc_interp_machine.specs.declared.body.Pending.TheVariants as kind;
ghost use Rattle.sc_interp_machine.specs.declared.body.Use.TheVariants as user;
ghost use Rattle.sc_interp_body.specs.Moves.{Moves};

use crate::blocks::block_ends;
use crate::moves::{Next, ends, execs, leaves, turns, within};
use sc_base::{Duplicate, Shared, Stack};
use sc_core::{CoreExpr, CoreStmt, LabelAt, type_of};
use sc_interp_access::Stop;
use sc_interp_expr::Env;
use sc_interp_machine::{Pending, Statements, Use};
use sc_interp_world::World;
use sc_meaning_values::{Exit, Way};

// The next statement of a block.
fn next_of(
    block: Shared<CoreStmt>,
    rest: Statements,
    stmts: &mut Stack<Pending>,
    env: &Env,
    world: &World,
) -> Result<Next, Stop>
    ensures { Moves (machine.rest_next statement.Normal block rest stmts.old env.now world.now) result stmts.new env.now world.now }
{
    let mut rest = rest;
    match rest.next()? {
        None => Ok(leaves(Way::normal())),
        Some(s) => execs(&s, Pending::Rest(block, rest), stmts, env, world),
    }
}

// The place at which a label stands in a list.
fn place_of(k: u32, labels: &[LabelAt]) -> Option<u32>
    ensures { result ≡ statement.place_of k labels.now }
{
    for l in labels {
        if l.label == k {
            return Some(l.at);
        }
    }
    None
}

// The place at which a label stands in a block's list.
fn place_in(k: u32, s: &CoreStmt) -> Option<u32>
    ensures { result ≡ statement.place_in k (out-CoreStmt s.now) }
{
    match s {
        CoreStmt::Block(_, _, labels, _) => place_of(k, labels.as_slice()),
        _ => None,
    }
}

// A block that is open goes on at one of its statements.
fn resumed_next(
    block: Shared<CoreStmt>,
    at: u32,
    stmts: &mut Stack<Pending>,
    env: &Env,
    world: &World,
) -> Result<Next, Stop>
    ensures { Moves (machine.resumed_next block at (out-CoreStmt block) stmts.old env.now world.now) result stmts.new env.now world.now }
{
    match block.get() {
        CoreStmt::Block(_, _, _, _) => {
            let rest = Statements::from(block.share()?, at as usize);
            stmts.push(Pending::Rest(block, rest))?;
            Ok(leaves(Way::normal()))
        }
        _ => Ok(leaves(Way::normal())),
    }
}

// A jump goes on in the block that has its label, or leaves it (3.6.6.1).
fn jumped_next(
    k: u32,
    block: Shared<CoreStmt>,
    stmts: &mut Stack<Pending>,
    env: &Env,
    world: &World,
) -> Result<Next, Stop>
    ensures { Moves (machine.jumped_next block k (statement.place_in k (out-CoreStmt block)) stmts.old env.now world.now) result stmts.new env.now world.now }
{
    match place_in(k, block.get()) {
        None => Ok(leaves(Way::jumped(k))),
        Some(at) => resumed_next(block, at, stmts, env, world),
    }
}

// In a block: `break`, `continue` and `return` pass over what is left of it, and a jump for a label.
fn rest_next(
    way: Way,
    block: Shared<CoreStmt>,
    rest: Statements,
    stmts: &mut Stack<Pending>,
    env: &Env,
    world: &World,
) -> Result<Next, Stop>
    ensures { Moves (machine.rest_next way block rest stmts.old env.now world.now) result stmts.new env.now world.now }
{
    match way.exit {
        Exit::Normal => next_of(block, rest, stmts, env, world),
        Exit::Broke => Ok(leaves(Way::broke())),
        Exit::Continued => Ok(leaves(Way::continued())),
        Exit::Jumped(k) => jumped_next(k, block, stmts, env, world),
        Exit::Returned(a) => Ok(leaves(Way::returned(a))),
    }
}

// `break` leaves a `switch`.
fn switch_next(way: Way, world: &mut World) -> Result<Next, Stop>
    ensures { (ss : List Pending) (env : spec.Env) → Moves (machine.switch_next way ss env world.old) result ss env world.new }
{
    let way = match way.exit {
        Exit::Normal => Way::normal(),
        Exit::Broke => Way::normal(),
        Exit::Continued => Way::continued(),
        Exit::Jumped(k) => Way::jumped(k),
        Exit::Returned(a) => Way::returned(a),
    };
    ends(way, world)
}

// After a turn of a `while`: `continue` goes on as the body's end does, `break` ends the loop.
fn again_next(s: Shared<CoreStmt>, way: Way, world: &mut World) -> Result<Next, Stop>
    ensures { (ss : List Pending) (env : spec.Env) → Moves (machine.item_next (kind.Again s) way ss env world.old) result ss env world.new }
{
    match way.exit {
        Exit::Normal => Ok(turns(s)),
        Exit::Continued => Ok(turns(s)),
        Exit::Broke => ends(Way::normal(), world),
        Exit::Jumped(k) => ends(Way::jumped(k), world),
        Exit::Returned(a) => ends(Way::returned(a), world),
    }
}

// The condition of a `do` is evaluated.
fn checked(l: u32, e: &Shared<CoreExpr>, s: Shared<CoreStmt>, world: &World) -> Result<Next, Stop>
    ensures { (ss : List Pending) (env : spec.Env) → Moves (machine.Lines l (machine.within e.now (user.Repeat (types.type_of e.now) s)) ss env world.now) result ss env world.now }
{
    let t = type_of(e.get()).copy(world.alloc())?;
    let doing = within(e, Use::Repeat(t, s), world)?;
    Ok(Next::Line(l, doing))
}

// After a turn of a `do`.
fn check_next(
    l: u32,
    e: &Shared<CoreExpr>,
    s: Shared<CoreStmt>,
    way: Way,
    world: &mut World,
) -> Result<Next, Stop>
    ensures { (ss : List Pending) (env : spec.Env) → Moves (machine.item_next (kind.Check l e.now s) way ss env world.old) result ss env world.new }
{
    match way.exit {
        Exit::Normal => checked(l, e, s, world),
        Exit::Continued => checked(l, e, s, world),
        Exit::Broke => ends(Way::normal(), world),
        Exit::Jumped(k) => ends(Way::jumped(k), world),
        Exit::Returned(a) => ends(Way::returned(a), world),
    }
}

// The third expression of a `for` is evaluated, and the next turn begins.
fn third(x: &Option<Shared<CoreExpr>>, s: Shared<CoreStmt>, world: &World) -> Result<Next, Stop>
    ensures { (ss : List Pending) (env : spec.Env) → Moves (machine.third_next x.now s ss env world.now) result ss env world.now }
{
    match x {
        None => Ok(turns(s)),
        Some(e) => {
            let doing = within(e, Use::Turns(s), world)?;
            Ok(Next::Go(doing))
        }
    }
}

// After a turn of a `for`.
fn third_next(
    x: &Option<Shared<CoreExpr>>,
    s: Shared<CoreStmt>,
    way: Way,
    world: &mut World,
) -> Result<Next, Stop>
    ensures { (ss : List Pending) (env : spec.Env) → Moves (machine.item_next (kind.Third x.now s) way ss env world.old) result ss env world.new }
{
    match way.exit {
        Exit::Normal => third(x, s, world),
        Exit::Continued => third(x, s, world),
        Exit::Broke => ends(Way::normal(), world),
        Exit::Jumped(k) => ends(Way::jumped(k), world),
        Exit::Returned(a) => ends(Way::returned(a), world),
    }
}

// What is done with a way by the innermost pending statement, which is taken off.
fn item_next(
    item: Pending,
    way: Way,
    stmts: &mut Stack<Pending>,
    env: &mut Env,
    world: &mut World,
) -> Result<Next, Stop>
    ensures { Moves (machine.item_next item way stmts.old env.old world.old) result stmts.new env.new world.new }
{
    match item {
        Pending::End => ends(way, world),
        Pending::Rest(block, rest) => rest_next(way, block, rest, stmts, env, world),
        Pending::EndBlock(k) => block_ends(k, way, stmts, env, world),
        Pending::EndSwitch => switch_next(way, world),
        Pending::Again(s) => again_next(s, way, world),
        Pending::Check(l, e, s) => check_next(l, &e, s, way, world),
        Pending::Third(x, s) => third_next(&x, s, way, world),
    }
}

/// A statement is left.
///
/// # Errors
///
/// `NoRoom` alone.
pub fn way_next(
    way: Way,
    stmts: &mut Stack<Pending>,
    env: &mut Env,
    world: &mut World,
) -> Result<Next, Stop>
    ensures { Moves (machine.way_next stmts.old way env.old world.old) result stmts.new env.new world.new }
{
    match stmts.pop() {
        None => Ok(Next::Leave(way)),
        Some(item) => item_next(item, way, stmts, env, world),
    }
}
