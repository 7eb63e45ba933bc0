//! Tests of what is done with text: tokens, macros, conditions, preprocessing and parsing. They stand above what
//! they run, so that nothing below is proved again for them.
#![tactic(auto)]

#[cfg(test)]
mod conditions;
#[cfg(test)]
mod lexing;
#[cfg(test)]
mod macros;
#[cfg(test)]
mod parsing;
#[cfg(test)]
mod preprocessing;
