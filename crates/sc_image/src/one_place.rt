// Whether no two literals have one place, unless they are the same literal: former entries of a run hold some once more.
ghost use Rattle.std.specs.Prelude.{◌≡◌};
ghost use Rattle.sc_image.specs.OnePlace as spec;

use sc_link::LiteralAt;

// Whether two literals are the same, where they have one place.
fn agree(x: &LiteralAt, y: &LiteralAt) -> bool
    ensures { result ≡ spec.agree x.now y.now }
{
    if x.at != y.at {
        return true;
    }
    x.module.as_slice() == y.module.as_slice() && x.bytes.as_slice() == y.bytes.as_slice()
}

// The same of a literal and all of these.
fn agrees_with(literals: &[LiteralAt], x: &LiteralAt) -> bool
    ensures { result ≡ spec.agrees_with literals.now x.now }
{
    let mut left = literals;
    'comparing: while let [y, rest @ ..] = left {
        if !agree(x, y) {
            return false;
        }
        left = rest;
    }
    true
}

/// Whether no two of these literals have one place, unless they are the same.
pub(crate) fn all_agree(literals: &[LiteralAt]) -> bool
    ensures { result ≡ spec.all_agree literals.now }
{
    let mut left = literals;
    'comparing: while let [x, rest @ ..] = left {
        if !agrees_with(literals, x) {
            return false;
        }
        left = rest;
    }
    true
}
