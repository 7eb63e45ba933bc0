//! The pieces of a `printf` format, numbers as its conversions write them, and the classes of characters.
#![tactic(auto)]

mod classes;
mod conversion;
mod numbers;
mod pieces;

pub use classes::{
    ALNUM, ALPHA, CNTRL, DIGIT, GRAPH, LOWER, PRINT, PUNCT, SPACE, UPPER, XDIGIT, class,
};
pub use conversion::{Conv, Count, Piece};
pub use numbers::number;
pub use pieces::piece;
