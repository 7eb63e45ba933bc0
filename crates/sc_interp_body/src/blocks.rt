// Blocks: their objects are born as they are entered, and die, the last born first, as they are left (ANSI 3.1.2.4, 3.6.2).
ghost use Rattle.std.specs.Prelude.{◌≡◌, ◌++◌, ◌∷◌, [], drop, IfOk};
ghost use Rattle.sc_meaning.specs.Statements as spec;
ghost use Rattle.sc_meaning.specs.World as worlds;
ghost use Rattle.sc_interp_machine.specs.Bodies as machine;
ghost use Rattle.sc_interp_machine.specs.declared.body.Pending.TheVariants as kind;
ghost use Rattle.sc_interp_body.specs.Moves.{Moves};

use crate::moves::{Next, leaves};
use sc_base::{Duplicate, Items, NoMemory, Shared, Stack};
use sc_core::{Auto, CoreStmt};
use sc_interp_access::Stop;
use sc_interp_expr::Env;
use sc_interp_machine::{Pending, Statements};
use sc_interp_parts::{all_dead, born_autos};
use sc_interp_world::{Born, World};
use sc_meaning_values::Way;

// The objects that a block has.
fn block_autos(env: &Env, b: u32) -> &[Auto]
    ensures { result.now ≡ spec.block_autos env.now b }
{
    match env.fun.get().blocks.as_slice().get(b as usize) {
        Some(autos) => autos.as_slice(),
        None => &[],
    }
}

// One more block is entered.
fn with_block(env: &mut Env, born: Born) -> Result<(), NoMemory>
    ensures { IfOk result (λ _. env.new ≡ spec.with_block env.old born) }
{
    env.blocks.push(born)?;
    Ok(())
}

// The objects of a block are born, and it is entered.
fn opened(
    s: Shared<CoreStmt>,
    b: u32,
    rest: Statements,
    stmts: &mut Stack<Pending>,
    env: &mut Env,
    ids: Items<u32>,
    world: &mut World,
) -> Result<Next, Stop>
    ensures { Moves (machine.opened s b rest stmts.old env.old ids world.old) result stmts.new env.new world.new }
{
    let born = Born { block: b, ids };
    stmts.push(Pending::EndBlock(env.blocks.len()))?;
    stmts.push(Pending::Rest(s, rest))?;
    with_block(env, born.copy(world.alloc())?)?;
    world.open_block(born)?;
    Ok(leaves(Way::normal()))
}

/// The block `s`, which has the number `b`, is entered, from one of its statements on.
///
/// # Errors
///
/// `BirthLimit`.
pub fn enters(
    s: Shared<CoreStmt>,
    b: u32,
    rest: Statements,
    stmts: &mut Stack<Pending>,
    env: &mut Env,
    world: &mut World,
) -> Result<Next, Stop>
    ensures { Moves (machine.enters s b rest stmts.old env.old world.old) result stmts.new env.new world.new }
{
    let ids = born_autos(block_autos(env, b), world)?;
    opened(s, b, rest, stmts, env, ids, world)
}

// The objects of the first of some blocks die.
fn first_dead(blocks: &[Born], k: usize, world: &mut World) -> Result<(), NoMemory>
    ensures { IfOk result (λ _. world.new ≡ spec.all_dead (machine.first_ids (drop k blocks.now)) world.old) }
{
    match blocks.get(k) {
        Some(born) => all_dead(born.ids.as_slice(), world),
        None => all_dead(&[], world),
    }
}

// The blocks but for those behind so many.
fn without_blocks(k: usize, env: &mut Env)
    ensures { env.new ≡ machine.without_blocks k env.old }
{
    env.blocks.truncate(k);
}

/// A block is left: its objects die.
///
/// # Errors
///
/// `NoRoom` alone.
pub fn block_ends(
    k: usize,
    way: Way,
    stmts: &Stack<Pending>,
    env: &mut Env,
    world: &mut World,
) -> Result<Next, Stop>
    ensures { Moves (machine.item_next (kind.EndBlock k) way stmts.now env.old world.old) result stmts.now env.new world.new }
{
    first_dead(env.blocks.as_slice(), k, world)?;
    without_blocks(k, env);
    world.close_block()?;
    world.end()?;
    Ok(leaves(way))
}
