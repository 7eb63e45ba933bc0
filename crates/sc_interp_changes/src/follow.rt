// One version follows another: deaths in the old order, then births in the new one, then initial contents
// (ANSI 3.1.2.4, 3.5.7).
ghost use Rattle.std.specs.Prelude.{◌≡◌, IfOk};
ghost use Rattle.sc_meaning.specs.Changes as spec;
ghost use Rattle.sc_meaning.specs.World as worlds;
ghost use Rattle.sc_interp_access.specs.Gives.{Gives};

use crate::kept::is_kept;
use sc_base::{Duplicate, NoMemory};
use sc_core_held::Text;
use sc_interp_access::Stop;
use sc_interp_parts::{births_of, statics_born};
use sc_interp_world::World;
use sc_program::StaticId;

// The object with a name dies, if there is one, and nothing has the name from here on.
fn dead(id: &StaticId, world: &mut World) -> Result<(), NoMemory>
    ensures { IfOk result (λ _. world.new ≡ spec.dead id.now (worlds.named_in world.old.names id.now) world.old) }
{
    match world.named(id) {
        None => Ok(()),
        Some(o) => {
            let id = id.copy(world.alloc())?;
            world.death(o)?;
            world.unname(id)
        }
    }
}

// A literal lives to the run's end.
fn dead_unless_kept(
    old: &[Text],
    new: &[Text],
    id: &StaticId,
    world: &mut World,
) -> Result<(), NoMemory>
    ensures { IfOk result (λ _. world.new ≡ spec.dead_unless_kept old.now new.now id.now world.old) }
{
    match id {
        StaticId::Named(key) => {
            if is_kept(world.alloc(), old, new, key)? {
                Ok(())
            } else {
                dead(id, world)
            }
        }
        StaticId::Literal(_, _) => Ok(()),
    }
}

fn deaths(old: &[Text], new: &[Text], ids: &[StaticId], world: &mut World) -> Result<(), NoMemory>
    ensures { IfOk result (λ _. world.new ≡ spec.deaths old.now new.now ids.now world.old) }
{
    for id in ids {
        dead_unless_kept(old, new, id, world)?;
    }
    Ok(())
}

/// One version follows another. The objects of static storage duration that are not kept die, in the order in which the old
/// version bore them. Then the objects and literals of the new version that are not there yet are born, in its order, and
/// get their initial contents. What is kept has the contents that it had.
///
/// # Errors
///
/// `BirthLimit`.
pub fn change(old: &[Text], new: &[Text], world: &mut World) -> Result<(), Stop>
    ensures { Gives (spec.changed old.now new.now world.old) result world.new }
{
    let ids = births_of(world.alloc(), old)?;
    deaths(old, new, ids.as_slice(), world)?;
    statics_born(new, world)
}
