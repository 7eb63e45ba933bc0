//! One memory: cells by address, objects by number and the heap, with checked and raw accesses.
#![tactic(auto)]

mod access;
mod areas;
mod arithmetic;
mod comparison;
mod fault;
mod memory;
mod words;

pub use fault::StoreFault;
pub use memory::Memory;
