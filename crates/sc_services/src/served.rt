// What a service comes to.

/// What a service comes to: it is done; or its test failed, and nothing was done.
#[derive(Clone, Copy, Debug, PartialEq, Eq)]
pub enum Served {
    Done,
    Refused,
}
