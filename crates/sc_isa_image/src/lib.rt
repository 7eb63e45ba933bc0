//! The image of a program: the placed texts, the stubs of functions, and the places of keys and literals.
#![tactic(auto)]

mod area;
mod decoded;
mod image;
mod literals;
mod stub;
mod text;
mod texts;

pub use image::Image;
pub use stub::{call_stub, jump_stub, lower, upper};
pub use text::{Text, TextAt};
