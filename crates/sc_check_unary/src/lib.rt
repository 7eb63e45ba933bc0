//! The productions of expressions with one operand at most, and calls: names, constants, strings, `sizeof`, elements, members,
//! steps, addresses, and casts.
#![tactic(auto)]

mod calls;
mod leaf;
mod part;
mod prefix;

pub use calls::call;
pub use leaf::{
    automatic, constant, function, literal, member_of, number, offset_of_member, size_of_type,
    static_object,
};
pub use part::{arrow, index, is_modifiable, member, step};
pub use prefix::{Casting, address, cast, indirection, unary};
