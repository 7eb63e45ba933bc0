/// A byte of a text after the first two phases, and the line of the text, from 1, where it stands.
#[derive(Clone, Copy, Debug, PartialEq, Eq)]
pub(crate) struct Mark {
    pub byte: u8,
    pub line: u32,
}
