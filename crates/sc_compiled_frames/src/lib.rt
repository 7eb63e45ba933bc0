//! The frame of a compiled call in the memory of a world: words and the values that they mean, loads, stores, copies and conversions of them; the
//! objects of open blocks in their slots; and what each part of the meaning leaves of calls, blocks and their objects as it was.
#![tactic(auto)]

mod calls;
mod frames;
mod slots;
mod words;

pub use calls::{calls_leave_frames, open_blocks_stand};
pub use frames::{
    births_and_deaths_leave_the_rest, blocks_stand_in_their_slots, words_wait_in_the_frame,
};
pub use slots::formed_slots_fit_their_frame;
pub use words::{
    conversions_give_values_of_the_type, loads_read_what_is_meant, memory_goes_on_to_hold_words,
    stores_write_what_is_meant, words_mean_one_value,
};
