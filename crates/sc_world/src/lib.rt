//! A run of a program that stops at functions and lines, and goes on: step by step, to the next line, or to a stop.
#![tactic(auto)]

mod begin;
mod change;
mod cost;
mod count;
mod course;
mod declaring;
mod halt;
mod look;
mod marks;
mod post;
mod rest;
mod run;
mod turn;

pub use cost::{Before, noted, touched_last, touched_on};
pub use count::Count;
pub use course::Course;
pub use halt::{Halt, Halted};
pub use look::{Want, halt_if, wanted};
pub use marks::Marks;
pub use post::{MANY, Unsent, behind};
pub use run::{Parts, Run};
