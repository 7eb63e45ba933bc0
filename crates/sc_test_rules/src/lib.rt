//! Tests of the rules of declarations, linkage, initialisers, expressions and scopes. They stand above what
//! they run, so that nothing below is proved again for them.
#![tactic(auto)]

#[cfg(test)]
mod declarations;
#[cfg(test)]
mod initializers;
#[cfg(test)]
mod linkage;
#[cfg(test)]
mod scopes;
#[cfg(test)]
mod typing;
