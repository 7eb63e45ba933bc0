//! What a session shows of its modules and of a run that stopped: active calls, values of objects, modules, functions, places and types of
//! names.
#![tactic(auto)]

mod contents;
mod frames;
mod layouts;
mod listing;
mod names;
mod places;
mod references;
mod tasks;
mod types;

pub use frames::{put_line, where_line, where_lines};
pub use listing::{defined_key, fun_lines, put_module};
pub use names::{Seen, print_line, print_line_in, visible};
pub use references::{Found, is_declared_in, places_text, put_found, put_type_line};
