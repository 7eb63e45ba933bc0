// What a run shows, and the versions that it has (ANSI 2.1.2.3).

use sc_base::{Form, Items, Key, Name};

/// An event at which a run may be stopped: a function is entered, and the module that defines it; a function is left; a
/// line of a module is reached, in a frame of this form.
#[derive(Drop)]
pub enum Event {
    Enter(Key, Name),
    Leave,
    At(Name, u32, Form),
}

/// One version of a run: how many events had passed as it came, and the positions of its modules in their order.
#[derive(Drop)]
pub struct Past {
    pub events: u64,
    pub present: Items<u32>,
}
