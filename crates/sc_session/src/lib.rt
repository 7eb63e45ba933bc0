//! A session of the workspace: modules that are loaded, edited and unloaded, stops, and a run that stops and goes on.
#![tactic(auto)]

mod asking;
mod changing;
mod choice;
mod compiling;
mod disassembling;
mod evaluating;
mod going;
mod hearing;
mod input;
mod joining;
mod limits;
mod linking;
mod listing;
mod mixing;
mod placing;
mod present;
mod referring;
mod refusal;
mod relinking;
mod running;
mod session;
mod single;
mod sources;
mod state;
mod stops;
mod swapping;
mod versions;

pub use sc_world::Unsent;
pub use session::{Session, is_go, is_silent};
