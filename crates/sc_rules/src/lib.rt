//! The tests of undefined steps and their order, which memory and the meaning of C both cite.
#![tactic(auto)]
