//! What a session shows of modules in object form, and of runs of both forms.
#![tactic(auto)]

mod calls;
mod differing;
mod disassembly;
mod forms;
mod halts;
mod machine;
mod stepped;

pub use calls::{Compiled, call_lines, innermost_source};
pub use differing::difference;
pub use disassembly::code_lines;
pub use forms::{are_sources, functions_by, is_source};
pub use halts::{MixedTold, mixed_gone};
pub use machine::machine_lines;
pub use stepped::{StepTold, step_gone};
