//! Tests that cross crates: they stand above what they run, so that nothing below is proved again for them.
#![tactic(auto)]

#[cfg(test)]
mod tests;
