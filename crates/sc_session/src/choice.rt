// Which of its objects a module runs.

/// Which of its objects a module runs or writes: that of the plain compiler, or the faster one. A module that is interpreted has no
/// other choice than the first.
#[derive(Clone, Copy)]
pub enum Choice {
    Plain,
    Fast,
}
