// How much stack a function's frame takes.
ghost use Rattle.std.specs.Prelude.{◌≡◌, ◌≤◌, ◌<◌, ◌^◌};
ghost use Rattle.sc_types.specs.Frames as spec;

/// The greatest frame in bytes.
pub const MAX_FRAME: u32 = 16777216;

/// The bytes of a function's frame, a multiple of 16: `slots` are the bytes of its parameters and automatic objects,
/// `room` the most values that an expression of it keeps at once, `args` the most arguments of a call in it.
pub fn frame_cost(slots: u32, room: u32, args: u32) -> u32
    requires { spec.frame_cost slots room args ≤ MAX_FRAME }
    ensures { result ≡ spec.frame_cost slots room args }
{
    let bytes = 8 + slots + 4 * room + 4 * args.saturating_sub(8);
    (bytes + 15) / 16 * 16
}

/// The bytes that an object of this size takes in a frame: the least multiple of 4 that is greater.
pub fn slot_bytes(size: u32) -> u64
    ensures same { result ≡ spec.slot_bytes size }
    ensures few { result < 2 ^ 33 }
{
    (u64::from(size) / 4 + 1) * 4
}
