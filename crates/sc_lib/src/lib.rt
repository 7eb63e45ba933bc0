//! The library of C as the plain program runs it: each function gives exactly what its definition gives. It may be slow.
#![tactic(auto)]

mod call;
mod characters;
mod ends;
mod numbers;
mod printf;

pub use call::library_call;
