//! What the plain program does at each step of C's meaning: answers and operators, names and callees, births and deaths,
//! parameters, static objects. Each gives exactly what the definition gives. It may be slow.
#![tactic(auto)]

mod answers;
mod births;
mod callees;
mod layout;
mod names;
mod operations;
mod statics;

pub use answers::{address, at_place, cast, conversion, finished, part_of, plain, truth, used};
pub use births::{
    all_dead, born, born_autos, id_of, initial_structure, parameters, set_bytes, set_zeros,
};
pub use callees::value_rule;
pub use layout::layout_of;
pub use names::{automatic_in, call_breach, literal_of, static_place, undefined_name};
pub use operations::{
    assigned_structure, compounded, difference, moved_by, offset_by, stepped, unary,
};
pub use statics::{births_of, statics_born};
