//! Operands and what is done with them: places that are reached without code of their own, how two operands are computed, and
//! the words that stand behind them.
#![tactic(auto)]

mod places;
mod plans;
mod templates;

pub use places::{Scope, away, fetch, is_passed, reach, slot_of};
pub use plans::{
    Operands, Pair, Plan, Want, assign_operands, binary_operands, compound_operands, fetched_as,
    is_fetched, late, moving_operands, offset_operands, read_wants, standing, step_wants,
    structure_operands, value_operands,
};
pub use templates::{
    Compared, assign_end, compared_end, comparison, compound_end, computed, difference_end,
    end_logical, is_joined, member_end, moving_end, offset_end, operated, read_end, step_end,
    structure_end, transfer,
};
