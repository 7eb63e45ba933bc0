//! Tests of whole sessions over memory.
#![tactic(auto)]

#[cfg(test)]
mod faults;
#[cfg(test)]
mod probes;
#[cfg(test)]
mod sessions;
