// One step on a body, in place (ANSI 3.6).
ghost use Rattle.sc_interp_machine.specs.Bodies as machine;
ghost use Rattle.sc_interp_machine.specs.Machine as expr;
ghost use Rattle.sc_interp_machine.specs.declared.body.Doing.TheVariants as doing;
ghost use Rattle.sc_interp_body.specs.Moves.{Goes, Moves, Uses};

use crate::moves::{Move, Next, placed};
use crate::pieces::{labels_next, pieces_next};
use crate::statements::{stmt_begun, stmt_next, turn_next};
use crate::uses::use_next;
use crate::ways::way_next;
use sc_base::{Shared, Stack};
use sc_core::CoreStmt;
use sc_interp_access::Stop;
use sc_interp_expr::{Env, Went, ended, step};
use sc_interp_machine::{Doing, Pending, Use};
use sc_interp_world::World;
use sc_meaning_values::Way;
use std::mem;

// A statement begins.
fn exec(
    s: Shared<CoreStmt>,
    stmts: &mut Stack<Pending>,
    env: &mut Env,
    world: &mut World,
) -> Result<Next, Stop>
    ensures { Moves (machine.advance (doing.Exec s) stmts.old env.old world.old) result stmts.new env.new world.new }
{
    stmt_begun(s.get(), world)?;
    stmt_next(s, stmts, env, world)
}

// The initialisers of an object, and the labels of a `switch`, one by one; no expression is evaluated here.
fn listed(
    now: Doing,
    stmts: &mut Stack<Pending>,
    env: &mut Env,
    world: &mut World,
) -> Result<Next, Stop>
    ensures { Moves (machine.advance now stmts.old env.old world.old) result stmts.new env.new world.new }
{
    match now {
        Doing::Within(focus, slots, user) => {
            drop(focus);
            drop(slots);
            drop(user);
            Err(Stop::NoRoom)
        }
        Doing::Exec(s) => exec(s, stmts, env, world),
        Doing::Turn(s) => turn_next(&s, stmts, env, world),
        Doing::Leave(way) => way_next(way, stmts, env, world),
        Doing::Pieces(p, rest) => pieces_next(p, rest, world),
        Doing::Labels(labels, n, default, s) => labels_next(
            labels, n, default, s, stmts, env, world,
        ),
    }
}

#[inline(never)]
fn lists(
    doing: &mut Doing,
    stmts: &mut Stack<Pending>,
    env: &mut Env,
    world: &mut World,
) -> Result<Move, Stop>
    ensures { Goes (machine.advance doing.old stmts.old env.old world.old) result doing.new stmts.new env.new world.new }
{
    let now = mem::replace(doing, Doing::Leave(Way::normal()));
    let next = listed(now, stmts, env, world)?;
    Ok(placed(next, doing))
}

// A step between expressions.
#[inline(never)]
fn step_statement(
    doing: &mut Doing,
    stmts: &mut Stack<Pending>,
    env: &mut Env,
    world: &mut World,
) -> Result<Move, Stop>
    ensures { Goes (machine.advance doing.old stmts.old env.old world.old) result doing.new stmts.new env.new world.new }
{
    match doing {
        Doing::Exec(s) => {
            let s = s.share()?;
            let next = exec(s, stmts, env, world)?;
            Ok(placed(next, doing))
        }
        Doing::Turn(s) => {
            let s = s.share()?;
            let next = turn_next(&s, stmts, env, world)?;
            Ok(placed(next, doing))
        }
        Doing::Leave(way) => {
            let way = mem::replace(way, Way::normal());
            let next = way_next(way, stmts, env, world)?;
            Ok(placed(next, doing))
        }
        _ => lists(doing, stmts, env, world),
    }
}

// The expression has its answer, which the statement uses.
#[inline(never)]
fn uses(
    doing: &mut Doing,
    stmts: &mut Stack<Pending>,
    env: &Env,
    world: &mut World,
) -> Result<Move, Stop>
    ensures { (a : expr.Advanced) → Uses a doing.old stmts.old env.now world.old result doing.new stmts.new env.now world.new }
{
    match doing {
        Doing::Within(focus, _, user) => {
            let a = ended(focus);
            let user = mem::replace(user, Use::Discard);
            let next = use_next(user, a, stmts, env, world)?;
            Ok(placed(next, doing))
        }
        _ => Err(Stop::NoRoom),
    }
}

/// One step on a body, in place: exactly the machine's.
///
/// # Errors
///
/// How the run ends in it.
pub fn step_body(
    doing: &mut Doing,
    stmts: &mut Stack<Pending>,
    env: &mut Env,
    world: &mut World,
) -> Result<Move, Stop>
    ensures { Goes (machine.advance doing.old stmts.old env.old world.old) result doing.new stmts.new env.new world.new }
{
    match doing {
        Doing::Within(focus, slots, _) => match step(env, focus, slots, world) {
            Ok(Went::On) => Ok(Move::On),
            Ok(Went::Calls) => Ok(Move::Call),
            Ok(Went::Ends) => uses(doing, stmts, env, world),
            Err(stop) => Err(stop),
        },
        _ => step_statement(doing, stmts, env, world),
    }
}
