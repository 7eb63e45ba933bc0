// How far a run is.

use sc_interp::{Going, Shown};
use sc_interp_access::Ended;

/// A run goes on, where what was shown is still to be looked at; or it is over.
#[derive(Drop)]
pub enum Course {
    On(Going, Shown),
    Over(Ended),
}
