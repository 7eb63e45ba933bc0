//! The types that declarations give (ANSI 3.5): type words, qualifiers, declarators, structures and enumerations, each
//! as a plain function of parts that are typed already; and the name spaces that declarations fill.
#![tactic(auto)]

mod content;
mod count;
mod derivation;
mod failure;
mod join;
mod qualify;
mod space;
mod storage;
mod words;

pub use content::{
    MemberList, StructureTag, Tag, complete, enumeration_tag, enumerator, next_enumerator,
    structure_tag,
};
pub use count::MAX_TYPES;
pub use derivation::{
    DeclaredType, Derived, MAX_DEPTH, Parameters, array_size, declarator, defined_parameter,
    derive, parameter,
};
pub use failure::{Failure, Reason, Refused, refusal, told};
pub use join::composite;
pub use qualify::{is_constant, qualified, unqualified, with_const};
pub use space::NameSpace;
pub use storage::{Place, may_stand};
pub use words::{BasicType, Word, named_type, type_words, words_type};
