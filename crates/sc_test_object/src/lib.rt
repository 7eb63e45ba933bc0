//! Tests of objects as files.
#![tactic(auto)]

#[cfg(test)]
mod files;
