//! The image of the modules that are present, from nothing: each module is placed behind those before it, and all of them
//! are linked; and where the modules of a run are placed that change while it goes on.
#![tactic(auto)]

mod adding;
mod checking;
mod distinct;
mod keeping;
mod linking;
mod module;
mod one_place;
mod ordered;
mod placing;
mod room;
mod running;

pub use linking::image_of;
pub use module::Linking;
pub use placing::place_modules;
pub use room::full_area;
pub use running::Placements;

#[cfg(test)]
mod tests;
