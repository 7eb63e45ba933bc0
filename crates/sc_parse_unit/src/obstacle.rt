// Why a token is not taken.
ghost use Rattle.std.specs.Prelude.{◌≡◌};

use sc_base::NoMemory;
use sc_parse_grammar::Trouble;

/// Why a token is not taken: as in an expression, or since blocks or statements would stand too deep inside each other.
#[derive(Clone, Copy, Debug, PartialEq, Eq)]
pub enum Obstacle {
    Inner(Trouble),
    Nesting,
}

impl From<NoMemory> for Obstacle {
    ghost use Rattle.sc_parse_unit.specs.declared.obstacle.Obstacle.TheVariants as obstacle;
    ghost use Rattle.sc_parse_grammar.specs.declared.trouble.Trouble.TheVariants as trouble;

    ghost from_gives = { λ _ e. e ≡ obstacle.Inner trouble.NoMemory };

    fn from(_: NoMemory) -> Obstacle {
        Obstacle::Inner(Trouble::NoMemory)
    }
}
