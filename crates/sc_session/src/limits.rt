// What a session gives its runs.

/// The bytes that the stack and the heap may have, and the turns of each go.
#[derive(Clone, Copy)]
pub struct Limits {
    pub stack: u32,
    pub heap: u32,
    pub turns: u64,
}
