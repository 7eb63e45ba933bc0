//! What holds of a session from its start on: what is told of its runs is what the meaning of C gives their programs.
#![tactic(auto)]

mod laws;

pub use laws::answers_tell_the_meaning;
