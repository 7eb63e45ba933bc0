//! A run of a program whose modules have both forms: interpreted calls go by the meaning's steps, calls of compiled modules by
//! instructions over the same world, and the bridge leads from each to the other.
#![tactic(auto)]

mod begin;
mod bridge;
mod broken;
mod calls;
mod change;
mod course;
mod ended;
mod execute;
mod going;
mod laws;
mod layout;
mod moves;
mod rest;
mod run;
mod serve;
mod service;
mod single;
mod turn;

pub use change::{kept_keys, place_run, take_over};
pub use ended::MixedEnd;
pub use laws::{interpreted_programs_go_as_before, moves_add_to_what_happened};
pub use layout::{layout_of, layout_placed};
pub use run::MixedRun;
