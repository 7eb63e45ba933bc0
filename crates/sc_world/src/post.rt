// What a program wrote goes out while its run goes on (ANSI 2.1.2.3).
ghost use Rattle.std.specs.Prelude.{◌≡◌, ◌<◌, ◌≤◌, ◌+◌, ℕ, List, Option, drop, length, Err, IfOk};
ghost use Rattle.sc_outside.specs.Causes.{Rose};
ghost use Rattle.sc_world.specs.Posts.{Posted, Posts};
ghost use Rattle.sc_world.specs.declared.post.Unsent.TheVariants as unsent;

use sc_outside::{Sent, Sink};

/// The number of waiting bytes from which on they are written.
pub const MANY: usize = 4096;

/// Why what a program wrote did not go out: the write failed, or found no memory.
#[derive(Clone, Copy, Debug, PartialEq, Eq)]
pub enum Unsent {
    Failed,
    NoMemory,
}

/// What stands behind the first bytes.
pub fn behind(bytes: &[u8], first: usize) -> &[u8]
    ensures { result.now ≡ drop first bytes.now }
{
    if first >= bytes.len() {
        return b"";
    }
    let (_, rest) = bytes.split_at(first);
    rest
}

// Writes all of these bytes, which are those that wait of others.
#[tactic(auto, using(crate::proofs::Posting::writes_done))]
fn write<K: Sink>(bytes: &[u8], out: &mut K) -> Result<(), Unsent>
    ensures writes { (first : Option (List ℕ)) (from to : ℕ) (all : List ℕ) → bytes.now ≡ drop to all → Posted first (K.written out.old) from to all → Posts first (K.written out.new) from (length all) all result }
    ensures later { K.faults out.old ≤ K.faults out.new }
    ensures failed { result ≡ Err unsent.Failed → Rose (K.faults out.old) (K.faults out.new) }
{
    match out.write(bytes) {
        Sent::Done => Ok(()),
        Sent::Failed => Err(Unsent::Failed),
        Sent::NoMemory => Err(Unsent::NoMemory),
    }
}

/// Writes what waits of these bytes behind the first that went out, where it is many.
///
/// # Errors
///
/// `Unsent` where the sink took a part of it, or nothing.
pub fn post<K: Sink>(bytes: &[u8], sent: &mut usize, out: &mut K) -> Result<(), Unsent>
    ensures posts { (first : Option (List ℕ)) (from : ℕ) → Posted first (K.written out.old) from sent.old bytes.now → Posts first (K.written out.new) from sent.new bytes.now result }
    ensures few { IfOk result (λ _. length bytes.now < sent.new + 4096) }
    ensures later { K.faults out.old ≤ K.faults out.new }
    ensures failed { result ≡ Err unsent.Failed → Rose (K.faults out.old) (K.faults out.new) }
{
    let waiting = behind(bytes, *sent);
    if waiting.len() < MANY {
        return Ok(());
    }
    match write(waiting, out) {
        Ok(()) => {
            *sent = bytes.len();
            Ok(())
        }
        Err(unsent) => Err(unsent),
    }
}
