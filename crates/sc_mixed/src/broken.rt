// Why a move is not done.
ghost use Rattle.std.specs.Prelude.{◌≡◌};
ghost use Rattle.sc_interp_access.specs.declared.stop.Stop.TheVariants as stops;
ghost use Rattle.sc_mixed.specs.Standing as spec;
ghost use Rattle.sc_mixed.specs.declared.broken.Break.TheVariants as broken;

use crate::ended::MixedEnd;
use sc_base::NoMemory;
use sc_emu::Crash;
use sc_interp_access::{Ended, Stop};

/// Why a move is not done: as an interpreted step ends a run; or compiled code could not go on, at this address and for this cause.
#[derive(Drop)]
pub enum Break {
    Meant(Stop),
    Crashed(u32, Crash),
}

impl From<Stop> for Break {
    ghost from_gives = { λ s b. b ≡ broken.Meant s };

    fn from(stop: Stop) -> Break {
        Break::Meant(stop)
    }
}

impl From<NoMemory> for Break {
    ghost from_gives = { λ _ b. b ≡ broken.Meant stops.NoRoom };

    fn from(_: NoMemory) -> Break {
        Break::Meant(Stop::NoRoom)
    }
}

// How a run ended that stopped so.
fn ended_by(stop: Stop) -> Ended
    ensures { result ≡ spec.stopped_so stop }
{
    match stop {
        Stop::NoRoom => Ended::NoRoom,
        Stop::Undefined(told) => Ended::Undefined(told),
        Stop::Exit(status) => Ended::Exit(status),
        Stop::StackFull(key) => Ended::StackFull(key),
        Stop::BirthLimit => Ended::BirthLimit,
    }
}

/// How a run ended whose move broke off so.
pub fn end_of(broken: Break) -> MixedEnd
    ensures { result ≡ spec.ended_by broken }
{
    match broken {
        Break::Meant(stop) => MixedEnd::Meant(ended_by(stop)),
        Break::Crashed(pc, crash) => MixedEnd::Crashed(pc, crash),
    }
}
