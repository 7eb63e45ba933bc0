// A run begins: static objects are born, and the entry is called.
ghost use Rattle.sc_meaning.specs.Versions as versions;
ghost use Rattle.sc_mixed.specs.Bridge as bridge;
ghost use Rattle.sc_mixed.specs.Parts as parts;
ghost use Rattle.sc_mixed.specs.Starting as spec;

use crate::bridge::{call_code, is_in_code};
use crate::broken::Break;
use crate::calls::{Calls, Next};
use sc_base::Key;
use sc_core_held::Text;
use sc_interp::{Shown, call_entry, entry};
use sc_interp_parts::statics_born;
use sc_interp_world::World;
use sc_isa_image::Image;

// An entry of compiled code is called.
fn call_entry_code(
    key: &Key,
    image: &Image,
    calls: &mut Calls,
    world: &mut World,
) -> Result<(Next, Shown), Break>
    ensures { parts.EntryInCode image.now key.now calls.old world.old result calls.new world.new }
{
    world.goes_out()?;
    let next = call_code(key, &[], image, calls, world)?;
    Ok((next, Shown::Nothing))
}

// An entry of interpreted code is called.
fn call_entry_source(
    texts: &[Text],
    key: &Key,
    calls: &Calls,
    world: &mut World,
) -> Result<(Next, Shown), Break>
    ensures { parts.EntryInSource texts.now key.now calls.now world.old result world.new }
{
    match call_entry(texts, key, &calls.callers, world) {
        Ok(going) => {
            let shown = entry(&going);
            Ok((Next::Steps(going), shown))
        }
        Err(stop) => Err(Break::Meant(stop)),
    }
}

// The entry is called, behind the births.
fn entry_called(
    texts: &[Text],
    key: &Key,
    image: &Image,
    calls: &mut Calls,
    world: &mut World,
) -> Result<(Next, Shown), Break>
    ensures { parts.EntryCalled (bridge.is_code (versions.callee_of texts.now key.now)) texts.now image.now key.now calls.old world.old result calls.new world.new }
{
    if is_in_code(texts, key) {
        call_entry_code(key, image, calls, world)
    } else {
        call_entry_source(texts, key, calls, world)
    }
}

/// From the births on, to where the call of the entry, the function with this key, went out: what comes next, and what is shown.
#[tactic(auto, using(crate::proofs::Starts::begins_there, crate::proofs::Starts::ends_first))]
pub fn begun(
    texts: &[Text],
    key: &Key,
    image: &Image,
    calls: &mut Calls,
    world: &mut World,
) -> Result<(Next, Shown), Break>
    ensures { spec.Begins texts.now image.now key.now calls.old world.old result calls.new world.new }
{
    match statics_born(texts, world) {
        Ok(()) => entry_called(texts, key, image, calls, world),
        Err(stop) => Err(Break::Meant(stop)),
    }
}
