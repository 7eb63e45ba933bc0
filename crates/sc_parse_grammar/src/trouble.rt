// Why a step is not taken.
ghost use Rattle.std.specs.Prelude.{◌≡◌};

use sc_base::NoMemory;
use sc_parse_names::Mark;

/// A number of the text that is limited.
#[derive(Clone, Copy, Debug, PartialEq, Eq)]
pub enum Limit {
    /// The height of an expression.
    Height,
    /// The arguments or parameters of one list.
    Arguments,
}

/// Why a step is not taken: nothing of the grammar goes on with the token, a construct is left out, a number is beyond
/// its limit, or no memory was left.
#[derive(Clone, Copy, Debug, PartialEq, Eq)]
pub enum Trouble {
    Syntax,
    LeftOut(Mark),
    Limit(Limit),
    NoMemory,
}

impl From<NoMemory> for Trouble {
    ghost use Rattle.sc_parse_grammar.specs.declared.trouble.Trouble.TheVariants as trouble;

    ghost from_gives = { λ _ e. e ≡ trouble.NoMemory };

    fn from(_: NoMemory) -> Trouble {
        Trouble::NoMemory
    }
}
