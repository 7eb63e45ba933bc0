//! What the library of C does with bytes, texts and blocks of the heap, as the plain program runs it: each function gives
//! exactly what its definition gives. It may be slow.
#![tactic(auto)]

mod bytes;
mod copies;
mod heap;
mod searches;

pub use bytes::{
    argument_breach, bits_at, byte_read, length_of, past, shown, text_at, text_upto, value_at,
};
pub use copies::{memcpy, memmove, memset, strcat, strcpy, strlen, strncpy};
pub use heap::{calloc, free, malloc, realloc};
pub use searches::{bytes_compared, strchr, strcmp, strrchr};
