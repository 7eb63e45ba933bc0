// The frame of a function, from its low end.

use sc_core::Fun;
use sc_gen_code::{Spot, Style};
use sc_gen_operand::Scope;

/// How a function's code is written and where its objects stand, by block; where its temporaries begin; and how many bytes
/// its frame has.
#[derive(Drop)]
pub struct FunctionFrame<'a> {
    pub scope: Scope<'a>,
    pub temporaries: Spot,
    pub cost: u32,
}
