//! The leaves of the meaning of C, computed: loads, stores, copies and operators, and the rules that they break.
#![tactic(auto)]

mod accesses;
mod breaches;
mod ended;
mod operators;
mod stop;
mod violations;

pub use accesses::{
    as_type, converted_value, copied, copy_at, int_of, is_pointer_type, loaded, number_of_cells,
    pieces, scalar_size, set_at, stored,
};
pub use breaches::{access_breach, breach, line_of, moved, operand_breach, sum};
pub use ended::Ended;
pub use operators::{
    compared, computed, member_address, number_of, promoted, shifted, tested, truth_number,
};
pub use stop::{Breach, Stop};
pub use violations::{
    bits, cells_read, difference_rule, distance, free_rule, is_null, is_number, is_pointer,
    load_rule, object_of, offset_of, reach_rule, store_rule, whole, write_rule,
};
