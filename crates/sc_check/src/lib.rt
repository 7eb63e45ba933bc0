//! From the tree of a unit to its typed tree: functions and declarations at file scope (ANSI 3.7), over the declarations and statements
//! of bodies.
#![tactic(auto)]

mod file;
mod function;
mod outcome;
mod unit;

pub use unit::check;
