//! Tests of the second compiler on short modules. They stand above what they run, so that nothing below is proved again for them.
#![tactic(auto)]

#[cfg(test)]
mod answers;
#[cfg(test)]
mod tests;
