//! What the rules of expressions ask of an operand: what its type is good for, its value by the one conversion, what takes it, and
//! whether it is a constant.
#![tactic(auto)]

mod addresses;
mod agreement;
mod combined;
mod fault;
mod folding;
mod operand;
mod shape;

pub use addresses::{Base, Located, Passage, address_constant};
pub use agreement::{assigned, joins, taken, targets_alike, targets_join};
pub use combined::composite;
pub use fault::{Cause, Diagnostic, TypeFault, kind_of, left_out, limit, mismatch, refusal};
pub use folding::{Folded, evaluated, integer_constant, is_null, is_zero_constant};
pub use operand::{converted, is_lvalue, is_place, to_int, to_type, valued};
pub use shape::{
    Shape, holds_const, is_array, is_const, is_function, is_pointer, is_scalar, is_void,
    member_type, members_hold_const, object_size, plain, requalified, shape_of, target,
};
