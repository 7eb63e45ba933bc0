// The blocks that enclose a place in a function.
ghost use Rattle.std.specs.Prelude.{◌≡◌, [], ◌∷◌};
ghost use Rattle.sc_core_formed.specs.Open as spec;

/// The blocks that enclose a place (ANSI 3.1.2.1, 3.6.2), by their numbers, the innermost first.
#[derive(Drop)]
pub(crate) enum Open<'a> {
    Outside,
    Inside(u32, &'a Open<'a>),
}

/// No block.
pub(crate) fn outside<'a>() -> Open<'a>
    ensures { spec.numbers result ≡ [] }
{
    Open::Outside
}

/// One block more, inside the others.
pub(crate) fn inside<'a>(n: u32, outer: &'a Open<'a>) -> Open<'a>
    ensures { spec.numbers result ≡ n ∷ spec.numbers outer.now }
{
    Open::Inside(n, outer)
}

/// Whether this block encloses the place.
pub(crate) fn is_open(around: &Open, block: u32) -> bool
    ensures { result ≡ spec.is_open (spec.numbers around.now) block }
{
    match around {
        Open::Outside => false,
        Open::Inside(n, outer) => *n == block || is_open(outer, block),
    }
}
