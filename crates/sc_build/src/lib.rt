//! From the files of a folder to a checked module with its object: preprocessing, the grammar, the rules of types, and the generator.
#![tactic(auto)]

mod building;
mod compiling;
mod laws;

pub use building::{BuildFault, Built, build};
pub use laws::objects_are_alike;
