// Initialisers of automatic objects, piece by piece, and the labels of a `switch`, one by one (ANSI 3.5.7, 3.6.4.2).
ghost use Rattle.std.specs.Prelude.{◌∷◌, [], List};
ghost use Rattle.sc_core.specs.declared.statement.AutoInit.TheVariants as piece;
ghost use Rattle.sc_core.specs.declared.statement.CoreStmt.{out-CoreStmt};
ghost use Rattle.sc_meaning.specs.Expressions as spec;
ghost use Rattle.sc_meaning.specs.Values as value;
ghost use Rattle.sc_interp_machine.specs.Bodies as machine;
ghost use Rattle.sc_interp_machine.specs.declared.body.Pending.{Pending};
ghost use Rattle.sc_interp_machine.specs.declared.body.Pending.TheVariants as kind;
ghost use Rattle.sc_interp_body.specs.Moves.{Moves};

use crate::blocks::enters;
use crate::moves::{Next, leaves, within};
use sc_base::{Duplicate, Shared, Stack};
use sc_core::{AutoInit, CoreExpr, CoreStmt, SwitchLabel};
use sc_interp_access::Stop;
use sc_interp_expr::Env;
use sc_interp_machine::{Doing, Labels, Pending, Pieces, Statements, Use};
use sc_interp_parts::{id_of, set_bytes, set_zeros};
use sc_interp_world::World;
use sc_meaning_values::{Value, Way};
use sc_types::CType;

// The value of a scalar piece is evaluated.
fn value_piece(
    p: Value,
    at: u32,
    t: &CType,
    e: &Shared<CoreExpr>,
    rest: Pieces,
    world: &World,
) -> Result<Next, Stop>
    ensures { (ss : List Pending) (env : spec.Env) → Moves (machine.piece_next p (piece.Value at t.now e.now) rest ss env world.now) result ss env world.now }
{
    let t = t.copy(world.alloc())?;
    let doing = within(e, Use::Set(p, at, t, rest), world)?;
    Ok(Next::Go(doing))
}

// The structure that is copied is found.
fn structure_piece(
    p: Value,
    n: u32,
    e: &Shared<CoreExpr>,
    rest: Pieces,
    world: &World,
) -> Result<Next, Stop>
    ensures { (ss : List Pending) (env : spec.Env) → Moves (machine.piece_next p (piece.Structure n e.now) rest ss env world.now) result ss env world.now }
{
    let doing = within(e, Use::Copy(p, n, rest), world)?;
    Ok(Next::Go(doing))
}

// One piece, before the ones that follow.
fn piece_next(p: Value, piece: &AutoInit, rest: Pieces, world: &mut World) -> Result<Next, Stop>
    ensures { (ss : List Pending) (env : spec.Env) → Moves (machine.piece_next p piece.now rest ss env world.old) result ss env world.new }
{
    match piece {
        AutoInit::Value(at, t, e) => value_piece(p, *at, t, e, rest, world),
        AutoInit::Text(at, bytes) => {
            set_bytes(id_of(&p), *at, bytes.as_slice(), world)?;
            Ok(Next::Go(Doing::Pieces(p, rest)))
        }
        AutoInit::Zero(at, n) => {
            set_zeros(id_of(&p), *at, *n, world)?;
            Ok(Next::Go(Doing::Pieces(p, rest)))
        }
        AutoInit::Structure(n, e) => structure_piece(p, *n, e, rest, world),
    }
}

// All pieces are set.
fn pieces_end(world: &mut World) -> Result<Next, Stop>
    ensures { (p : value.Value) (ss : List Pending) (env : spec.Env) → Moves (machine.pieces_next p [] ss env world.old) result ss env world.new }
{
    world.tick()?;
    Ok(leaves(Way::normal()))
}

/// The next piece of an initialiser is set.
///
/// # Errors
///
/// `NoRoom` alone.
pub fn pieces_next(p: Value, pieces: Pieces, world: &mut World) -> Result<Next, Stop>
    ensures { (ss : List Pending) (env : spec.Env) → Moves (machine.pieces_next p pieces ss env world.old) result ss env world.new }
{
    let mut rest = pieces.share()?;
    rest.skip()?;
    match pieces.first() {
        None => pieces_end(world),
        Some(piece) => piece_next(p, piece, rest, world),
    }
}

// The body of a `switch` is executed from one of its statements on.
fn body_next(
    s: Shared<CoreStmt>,
    at: u32,
    stmts: &mut Stack<Pending>,
    env: &mut Env,
    world: &mut World,
) -> Result<Next, Stop>
    ensures { Moves (machine.body_next s at (out-CoreStmt s) stmts.old env.old world.old) result stmts.new env.new world.new }
{
    match s.get() {
        CoreStmt::Block(_, b, _, _) => {
            let b = *b;
            let block = s.share()?;
            let rest = Statements::from(s, at as usize);
            world.begin()?;
            enters(block, b, rest, stmts, env, world)
        }
        _ => Ok(Next::Go(Doing::Exec(s))),
    }
}

// A label is reached, or none.
fn landed_next(
    s: Shared<CoreStmt>,
    at: Option<u32>,
    stmts: &mut Stack<Pending>,
    env: &mut Env,
    world: &mut World,
) -> Result<Next, Stop>
    ensures { Moves (machine.landed_next s at (kind.EndSwitch ∷ stmts.old) env.old world.old) result stmts.new env.new world.new }
{
    stmts.push(Pending::EndSwitch)?;
    match at {
        None => Ok(leaves(Way::normal())),
        Some(at) => body_next(s, at, stmts, env, world),
    }
}

// One label, before the ones that follow: each comparison is work.
fn label_next(
    label: SwitchLabel,
    rest: Labels,
    n: u32,
    default: Option<u32>,
    s: Shared<CoreStmt>,
    stmts: &mut Stack<Pending>,
    env: &mut Env,
    world: &mut World,
) -> Result<Next, Stop>
    ensures { Moves (machine.label_next label.value label.at rest n default s stmts.old env.old world.old) result stmts.new env.new world.new }
{
    let Some(v) = label.value else {
        return Ok(Next::Go(Doing::Labels(rest, n, Some(label.at), s)))
    };
    world.tick()?;
    if v == n {
        landed_next(s, Some(label.at), stmts, env, world)
    } else {
        Ok(Next::Go(Doing::Labels(rest, n, default, s)))
    }
}

/// The next label of a `switch` is compared, or the place found for `default` is taken.
///
/// # Errors
///
/// `BirthLimit`.
pub fn labels_next(
    labels: Labels,
    n: u32,
    default: Option<u32>,
    s: Shared<CoreStmt>,
    stmts: &mut Stack<Pending>,
    env: &mut Env,
    world: &mut World,
) -> Result<Next, Stop>
    ensures { Moves (machine.labels_next labels n default s stmts.old env.old world.old) result stmts.new env.new world.new }
{
    let mut rest = labels;
    match rest.next() {
        None => landed_next(s, default, stmts, env, world),
        Some(label) => label_next(label, rest, n, default, s, stmts, env, world),
    }
}
