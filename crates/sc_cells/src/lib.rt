//! The cells of a memory: a list of cells of which runs are read, written, copied and cleared.
#![tactic(auto)]

mod cells;
mod page;
mod pages;

pub use cells::Cells;
