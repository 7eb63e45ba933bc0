//! The modules of a program as they are held: a module with its functions and objects by hashes, a text with its number
//! and form, what a key names in them or in the library, and the numbers of functions (ANSI 3.1.2.2, 3.7, 4.1.6).
#![tactic(auto)]

mod library;
mod module;
mod numbers;
mod text;

pub use library::{NAMES, TypeForm, library_fun, takes};
pub use module::Module;
pub use numbers::{Numbers, insert_key};
pub use text::{Callee, Definition, Text, callee_of, object_in};
