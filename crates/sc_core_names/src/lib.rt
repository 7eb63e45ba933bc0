//! Which names each block of a function and the file declare, in their order (ANSI 3.1.2.1).
#![tactic(auto)]

mod blocks;
mod file;
mod names;
mod search;
mod table;

pub use file::scopes_of;
pub use search::{entity_in, entity_until, function_named, scopes_of_module, statics_named};
pub use table::{DeclaredName, Entity, FunctionScopes, ModuleScopes, Scopes};
