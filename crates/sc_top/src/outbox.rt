// Answers on their way out.
ghost use Rattle.std.specs.Prelude.{◌≡◌, ◌≤◌, ◌++◌, []};
ghost use Rattle.sc_outside.specs.Causes.{Rose};
ghost use Rattle.sc_outside.specs.Streams.{Writes};
ghost use Rattle.sc_top.specs.Waiting.{Posts};

use sc_outside::{Sent, Sink};
use std::alloc::Global;
use std::marker::Model;

/// The number of waiting bytes from which on they are written.
pub const MANY: usize = 65536;

/// Bytes that wait to be written, so that many answers take one write. Seen as the list of them.
#[derive(Drop)]
pub struct Outbox {
    waiting: Vec<u8>,
}

impl Model for Outbox {
    ghost use Rattle.std.specs.Prelude.{ℕ, List};

    ghost Value = { List ℕ };

    ghost view = { λ o. o.waiting.items };
}

impl Outbox {
    /// Nothing waits.
    pub fn new(alloc: Global) -> Self
        ensures { result ≡ [] }
    {
        Outbox {
            waiting: Vec::new(alloc),
        }
    }

    /// Puts bytes behind those that wait, and writes all of them where they are many or no memory is left to keep
    /// them.
    pub fn put<K: Sink>(&mut self, bytes: &[u8], out: &mut K) -> Sent
        ensures posts { Posts (K.written out.old) (K.written out.new) self.new result (self.old ++ bytes.now) }
        ensures later { K.faults out.old ≤ K.faults out.new }
        ensures failed { result ≡ Sent.Failed → Rose (K.faults out.old) (K.faults out.new) }
    {
        if self.waiting.extend_from_slice(bytes).is_err() {
            return self.put_through(bytes, out);
        }
        if self.waiting.len() >= MANY {
            return self.flush(out);
        }
        Sent::Done
    }

    // Writes what waits, and then these bytes.
    fn put_through<K: Sink>(&mut self, bytes: &[u8], out: &mut K) -> Sent
        ensures posts { Posts (K.written out.old) (K.written out.new) self.new result (self.old ++ bytes.now) }
        ensures later { K.faults out.old ≤ K.faults out.new }
        ensures failed { result ≡ Sent.Failed → Rose (K.faults out.old) (K.faults out.new) }
    {
        match self.flush(out) {
            Sent::Done => out.write(bytes),
            Sent::Failed => Sent::Failed,
            Sent::NoMemory => Sent::NoMemory,
        }
    }

    /// Writes what waits. Nothing waits then; what could not be written is lost.
    pub fn flush<K: Sink>(&mut self, out: &mut K) -> Sent
        ensures bytes { Writes (K.written out.old) (K.written out.new) result self.old }
        ensures emptied { self.new ≡ [] }
        ensures later { K.faults out.old ≤ K.faults out.new }
        ensures failed { result ≡ Sent.Failed → Rose (K.faults out.old) (K.faults out.new) }
    {
        if self.waiting.is_empty() {
            return Sent::Done;
        }
        let sent = out.write(self.waiting.as_slice());
        self.waiting.clear();
        sent
    }
}
