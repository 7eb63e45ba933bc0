// How a run of both forms ended.

use sc_emu::Crash;
use sc_interp_access::Ended;

/// How a run of both forms ended: as a run of interpreted modules does; or compiled code could not go on, at this address and for
/// this cause.
#[derive(Drop)]
pub enum MixedEnd {
    Meant(Ended),
    Crashed(u32, Crash),
}
