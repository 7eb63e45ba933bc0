//! The world of a run of the plain program that computes the meaning of C: values, bytes, objects, active calls, and
//! the single changes, which a trail keeps. It may be slow.
#![tactic(auto)]

mod account;
mod addresses;
mod cells;
mod event;
mod held;
mod names;
mod object;
mod past;
mod places;
mod recorder;
mod recording;
mod telling;
mod world;

pub use account::{Account, Taken};
pub use cells::unwritten;
pub use event::{Change, Event, Item, Showing};
pub use names::{Named, Names, Roll, same_id};
pub use object::{Born, Frame, copy_numbers};
pub use past::{Past, Trail};
pub use recorder::{Entry, Machine, Recorder};
pub use sc_mem_store::{Cell, Content, Facts, Few, Place, Store};
pub use world::{Layout, World};
