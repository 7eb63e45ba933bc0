//! Tests of the checker on short units: each rule of types, declarations and statements met and failed, and the limits. They stand
//! above what they run, so that nothing below is proved again for them.
#![tactic(auto)]

#[cfg(test)]
mod answers;
#[cfg(test)]
mod constants;
#[cfg(test)]
mod declarations;
#[cfg(test)]
mod initials;
#[cfg(test)]
mod jumps;
#[cfg(test)]
mod limits;
#[cfg(test)]
mod modules;
#[cfg(test)]
mod names;
#[cfg(test)]
mod operands;
#[cfg(test)]
mod operators;
#[cfg(test)]
mod sizes;
#[cfg(test)]
mod statements;
#[cfg(test)]
mod tests;
#[cfg(test)]
mod unions;
