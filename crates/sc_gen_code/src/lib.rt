//! The words of a text: short sequences of instructions that are not placed yet, for operators and for calls; and the ways to
//! write code.
#![tactic(auto)]

mod calls;
mod code;
mod operators;
mod style;
mod symbolic;

pub use calls::{Base, awaited, base_of, call_direct, call_through, count_of, direct, marshalled};
pub use code::{
    A0, A1, A2, RA, SP, T0, T1, T2, X0, accessed, addi, at_target, block_service, close,
    close_behind, copied, hole, jump, li, near, open, over, pop, push, put, put_one, reopen,
    service, shift_of, skip_if, skip_unless, tagged,
};
pub use operators::{
    advanced, branch, by_bytes, bytes_of, changed, convert, difference, further, immediate,
    is_comparison, is_free, is_pointer, is_scalar, is_short, is_unsigned, load, load_of,
    machine_type, moved, next_register, next_value, operate, reconvert, stepped, store, store_of,
    unary,
};
pub use style::{
    Kept, Spot, Style, behind, deeper, entered, first_spot, framed, kept_at, plain_style, reloaded,
};
pub use symbolic::{Access, Symbolic, Target};
