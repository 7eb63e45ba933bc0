//! The words of the workspace: of its command line, of its commands and of its answers.
#![tactic(auto)]

mod answer;
mod command;
mod command_line;
mod denied;
mod line;
mod listed;
mod options;
mod part;
mod range;
mod stop;
mod verb;

pub use answer::{Answer, answer_text, stop_line};
pub use command::{Command, read_command};
pub use command_line::help_text;
pub use denied::{Area, Denied};
pub use options::{Options, WordsFault, read_words};
pub use stop::{Event, StopAt, Walk, matched};
