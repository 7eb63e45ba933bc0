// Service 4: a number gets the tag of what stands there.
ghost use Rattle.sc_services.specs.Tagging as spec;

use crate::arguments::FIRST;
use crate::served::Served;
use sc_base::Word;
use sc_emu::Regs;
use sc_interp_world::World;

/// Service 4: a0 gets the tag of functions at a function's stub, else that of the live object that has the byte there or ends
/// just in front of it. It is refused where there is neither.
pub fn tag(regs: &mut Regs, world: &World) -> Served
    ensures { spec.Tags regs.old world.now result regs.new }
{
    let bits = regs.get(FIRST).bits;
    match world.tag_at(bits) {
        None => Served::Refused,
        Some(tag) => {
            regs.set(FIRST, Word { bits, tag });
            Served::Done
        }
    }
}
