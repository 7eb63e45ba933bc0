// The forms of answers.

/// An answer by its form, which is known where a list is written: the value in a register; the place to which the pointer in a register
/// points, or so many bytes further in a structure there; an automatic object by its block and its place in it, or so many bytes further in
/// it; or nothing.
#[derive(Clone, Copy, Debug, PartialEq, Eq)]
pub enum Held {
    In(u32),
    At(u32),
    Beyond(u32, u32),
    Named(u32, u32),
    NamedBeyond(u32, u32, u32),
    Void,
}
