// Which probes are given no further notes.
ghost use Rattle.std.specs.Prelude.{◌≡◌, ◌<◌, ◌∷◌, ◌++◌, [], Bool, List, false, true, replicate, slice_get, slice_set, remove, Some};

use std::marker::Model;

/// The most probes.
pub const MAX_PROBES: usize = 16;

/// Sixteen marks, one for each place in the list of probes: whether the probe there did not keep a note. Seen as the
/// list of them.
#[derive(Clone, Copy)]
pub struct Deaf {
    marks: [bool; 16],
}

impl Model for Deaf {
    ghost Value = { List Bool };

    ghost view = { λ d. d.marks };

    ghost inverse = { λ m. record { marks = m } };
}

impl Deaf {
    /// No probe is marked.
    pub fn new() -> Self
        ensures { result ≡ replicate 16 false }
    {
        Deaf {
            marks: [false; MAX_PROBES],
        }
    }

    /// Whether probe `k` is marked.
    pub fn marked(&self, k: usize) -> bool
        requires { k < 16 }
        ensures { slice_get self.now k ≡ Some result }
    {
        self.marks[k]
    }

    /// Marks probe `k`.
    pub fn mark(&mut self, k: usize)
        requires { k < 16 }
        ensures { self.new ≡ slice_set self.old k true }
    {
        self.marks[k] = true;
    }

    /// Takes the mark of probe `k` out. Each later mark moves down, and the last is not set.
    pub fn dropped(&mut self, k: usize)
        requires { k < 16 }
        ensures { self.new ≡ remove self.old k ++ false ∷ [] }
    {
        self.marks.copy_within(k + 1.., k);
        self.marks[MAX_PROBES - 1] = false;
    }
}
