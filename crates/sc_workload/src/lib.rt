//! A program that is made in place of read, the commands that run it in both forms, and the line that tells of it.
#![tactic(auto)]

mod commands;
mod file;
mod folder;
mod report;
mod text;

pub use commands::made_commands;
pub use file::made_file;
pub use folder::made_folder;
pub use report::made_line;
