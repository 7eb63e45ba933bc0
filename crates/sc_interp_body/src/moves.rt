// What a step on a body leaves (ANSI 3.6).
ghost use Rattle.std.specs.Prelude.{◌≡◌, ◌∷◌, IfOk, List};
ghost use Rattle.sc_meaning.specs.Expressions as spec;
ghost use Rattle.sc_meaning.specs.World as worlds;
ghost use Rattle.sc_interp_machine.specs.declared.body.Pending.{Pending};
ghost use Rattle.sc_interp_machine.specs.Bodies as machine;
ghost use Rattle.sc_interp_machine.specs.declared.body.Doing.TheVariants as doing;
ghost use Rattle.sc_interp_body.specs.declared.moves.Next.TheVariants as step;
ghost use Rattle.sc_interp_body.specs.Moves.{Left, Moves, next_of};

use sc_base::{NoMemory, Shared, Stack};
use sc_core::{CoreExpr, CoreStmt};
use sc_interp_access::Stop;
use sc_interp_expr::Env;
use sc_interp_machine::{Doing, Focus, Pending, Use};
use sc_interp_world::World;
use sc_meaning_values::Way;
use std::mem;

/// What a step on a statement leaves, beside the pending statements and the names: more of it; a line that is reached before it
/// goes on; or the way in which the body is left.
#[derive(Drop)]
pub enum Next {
    Go(Doing),
    Line(u32, Doing),
    Leave(Way),
}

/// What a step on a body came to.
#[derive(Clone, Copy)]
pub enum Move {
    /// It goes on.
    On,
    /// This line is reached before it goes on.
    Line(u32),
    /// A call goes out of its expression.
    Call,
    /// It is left, in the way that is there.
    Leave,
}

// What a body does next takes the place of the former.
#[inline(always)]
fn becomes(doing: &mut Doing, next: Doing)
    ensures { doing.new ≡ next }
{
    drop(mem::replace(doing, next));
}

/// What a step on a statement left takes its place.
#[inline(always)]
pub fn placed(next: Next, doing: &mut Doing) -> Move
    ensures { (step : machine.Advanced) (ss : List Pending) (env : spec.Env) (w : worlds.World) → step ≡ next_of next ss env w → Left step result doing.new ss env w }
{
    match next {
        Next::Go(next) => {
            becomes(doing, next);
            Move::On
        }
        Next::Line(l, next) => {
            becomes(doing, next);
            Move::Line(l)
        }
        Next::Leave(way) => {
            becomes(doing, Doing::Leave(way));
            Move::Leave
        }
    }
}

/// An expression begins.
pub fn within(e: &Shared<CoreExpr>, user: Use, world: &World) -> Result<Doing, NoMemory>
    ensures { IfOk result (λ d. d ≡ machine.within e.now user) }
{
    let e = e.share()?;
    Ok(Doing::Within(Focus::eval(e), Stack::new(world.alloc()), user))
}

/// A statement ends, in this way.
///
/// # Errors
///
/// `NoRoom` alone.
pub fn ends(way: Way, world: &mut World) -> Result<Next, Stop>
    ensures { (ss : List Pending) (env : spec.Env) → Moves (machine.ends way ss env world.old) result ss env world.new }
{
    world.end()?;
    Ok(Next::Go(Doing::Leave(way)))
}

/// A statement is left, in this way.
pub fn leaves(way: Way) -> Next
    ensures { result ≡ step.Go (doing.Leave way) }
{
    Next::Go(Doing::Leave(way))
}

/// A statement begins, inside one that is pending.
///
/// # Errors
///
/// `NoRoom` alone.
pub fn execs(
    s: &Shared<CoreStmt>,
    pending: Pending,
    stmts: &mut Stack<Pending>,
    env: &Env,
    world: &World,
) -> Result<Next, Stop>
    ensures { Moves (machine.execs s.now (pending ∷ stmts.old) env.now world.now) result stmts.new env.now world.now }
{
    stmts.push(pending)?;
    let s = s.share()?;
    Ok(Next::Go(Doing::Exec(s)))
}

/// A turn of a loop begins.
pub fn turns(s: Shared<CoreStmt>) -> Next
    ensures { result ≡ step.Go (doing.Turn s) }
{
    Next::Go(Doing::Turn(s))
}
