// How far a run of both forms is.

use crate::calls::Next;
use crate::ended::MixedEnd;
use sc_interp::Shown;

/// How a run stands: it goes on, where what was shown is still to be looked at; or it is over.
#[derive(Drop)]
pub enum Course {
    On(Next, Shown),
    Over(MixedEnd),
}
