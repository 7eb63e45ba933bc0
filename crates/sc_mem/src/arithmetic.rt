// Offsets of pointers in their objects, and sums with them in whole numbers, whatever their size.
ghost use Rattle.std.specs.Prelude.{◌≡◌, ◌≤◌, true, false, pos, IfSome, MatchOption};
ghost use Rattle.sc_mem.specs.Violations.{is_beyond, offset_in, target};

use sc_base::Word;
use sc_objects::Objects;

/// How far behind its object's base a pointer points, modulo 2^32. Without an object, its address.
pub fn offset(objects: &Objects, p: Word) -> u32
    ensures { result ≡ offset_in objects.now p }
{
    match objects.find(p.tag) {
        None => p.bits,
        Some(object) => p.bits.wrapping_sub(object.base),
    }
}

/// The offset that lies `n` elements of `size` bytes from another one: `None` exactly where it is below 0 or past the
/// end of an object of so many bytes.
pub fn moved(offset: u32, n: i64, size: u32, bytes: u32) -> Option<u32>
    ensures inside { IfSome result (λ at. at ≤ bytes) }
    ensures place { MatchOption result (is_beyond bytes (target offset n size) ≡ true) (λ at. (is_beyond bytes (target offset n size) ≡ false) × (pos at ≡ target offset n size)) }
{
    let step = n.checked_mul(i64::from(size))?;
    let place = step.checked_add(i64::from(offset))?;
    if place < 0 || i64::from(bytes) < place {
        return None;
    }
    Some(place as u32)
}
