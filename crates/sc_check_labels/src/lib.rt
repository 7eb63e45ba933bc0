//! The labels of a function's body (ANSI 3.6.1): those of `switch` statements, and those to which `goto` goes.
#![tactic(auto)]

mod fault;
mod jumps;
mod labels;
mod switches;
mod tables;

pub use fault::{LabelFault, LabelRefused, LabelRule};
pub use jumps::{check_gotos, close_list, end_label, goto, number_label, open_list};
pub use labels::{Labels, OpenList, OpenSwitch, Waiting};
pub use switches::{add_label, close_switch, note_label, open_switch};
pub use tables::{LabelBlocks, LabelNames, Values};
