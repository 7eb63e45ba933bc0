//! Where a unit has its names: the places of the functions and objects that it declares at file scope.
#![tactic(auto)]

mod declarations;
mod expressions;
mod statements;
mod units;
mod walk;

pub use units::places_of;
pub use walk::{Place, PlaceKind};
