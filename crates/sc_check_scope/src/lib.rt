//! What is in scope at a place of a unit, what its text has given so far, and what each construct makes of it whose parts are
//! typed already (ANSI 3.1.2, 3.3, 3.5).
#![tactic(auto)]

mod declare;
mod fault;
mod produce;
mod scopes;
mod state;
mod tags;
mod words;

pub use declare::{
    add_member, add_parameter, constant_value, declared_type, derived_array, enumerator,
    find_typedef,
};
pub use fault::{CheckFault, Problem, rule};
pub use produce::{
    arrow, assign, binary, call, cast, comma, conditional, constant, index, is_register, member,
    name, offset_of, postfix, size_of, string, unary,
};
pub use scopes::{enter, leave, put_scope, take_scope};
pub use state::{Literals, Marks, Meaning, Scope, State};
pub use tags::{
    close_enumeration, close_structure, enumeration_named, open_enumeration, open_structure,
    structure_named,
};
pub use words::{Specified, Words, list_type};
