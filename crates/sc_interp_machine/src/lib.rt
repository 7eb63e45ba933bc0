//! The checking interpreter as a machine of small steps over the meaning of C: what is pending, one step, and the law that
//! a step keeps what the meaning gives.
#![tactic(auto)]

mod body;
mod laws;
mod pending;
mod rest;
mod slot;

pub use body::{Doing, Pending, Use};
pub use laws::{
    bodies_give_their_meaning, body_steps_keep_the_meaning, expression_steps_keep_the_meaning,
    expressions_give_their_meaning, run_steps_keep_the_meaning, runs_give_their_meaning,
};
pub use pending::{Item, Mode, Pair, Single, Store};
pub use rest::{Arguments, Labels, Pieces, Statements};
pub use slot::{Focus, Slot, Stage};
