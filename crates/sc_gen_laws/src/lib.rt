//! Laws of the code of functions, and of the object of a formed module.
#![tactic(auto)]

mod laws;

pub use laws::{
    bodies_are_paid, expressions_are_paid, frames_are_sound, objects_have_files,
    objects_refer_inside, texts_are_short,
};
