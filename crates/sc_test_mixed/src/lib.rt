//! Tests of runs of both forms: over objects that are made by hand, and of what is told of a run.
#![tactic(auto)]

#[cfg(test)]
mod crashes;
#[cfg(test)]
mod folding;
