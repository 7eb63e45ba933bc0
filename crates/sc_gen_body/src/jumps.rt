// Jumps to places of a function's text, and the blocks that are left on the way (ANSI 3.6.6).
ghost use Rattle.std.specs.Prelude.{◌≡◌, ◌+◌, ◌*◌, ◌≤◌, ◌<◌, [], ◌∷◌, ◌++◌, length, map, slice_get, take, None, Some, OnOk, OnErr, pos};
ghost use Rattle.sc_gen_body.specs.Jumps as spec;
ghost use Rattle.sc_gen_code.specs.declared.symbolic.Symbolic.TheVariants.{Plain};

use sc_base::{Items, NoMemory};
use sc_core::LabelAt;
use sc_gen_code::{A0, Symbolic, T1, block_service, jump, put_one};
use sc_isa::{BranchOp, Instr};

/// A place of a function's text to which jumps go: its words from the text's beginning, and how many blocks are open there.
#[derive(Clone, Copy)]
pub struct Place {
    pub word: usize,
    pub depth: usize,
}

/// The place of a label.
#[derive(Clone, Copy)]
pub struct LabelPlace {
    pub label: u32,
    pub place: Place,
}

/// Where `break` and `continue` go.
#[derive(Clone, Copy)]
pub struct Exits {
    pub on_break: Place,
    pub on_continue: Place,
}

/// A function's text so far; the blocks that are open at its end, outermost first; the places of their labels.
#[derive(Drop)]
pub struct Text {
    pub code: Items<Symbolic>,
    pub blocks: Items<u32>,
    pub labels: Items<LabelPlace>,
}

/// A block's objects are born.
pub fn entering(code: &mut Items<Symbolic>, block: Option<u32>) -> Result<(), NoMemory>
    ensures { OnOk result (code.new ≡ code.old ++ spec.entering block) }
{
    match block {
        Some(number) => block_service(code, 2, number),
        None => Ok(()),
    }
}

/// The block's objects die, and those of all blocks open inside it.
pub fn leaving(code: &mut Items<Symbolic>, block: Option<u32>) -> Result<(), NoMemory>
    ensures { OnOk result (code.new ≡ code.old ++ spec.leaving block) }
{
    match block {
        Some(number) => block_service(code, 3, number),
        None => Ok(()),
    }
}

/// A block is open, where it is entered.
pub fn open_block(blocks: &mut Items<u32>, block: Option<u32>) -> Result<(), NoMemory>
    ensures { OnOk result (blocks.new ≡ spec.opened blocks.old block) }
{
    match block {
        Some(number) => blocks.push(number),
        None => Ok(()),
    }
}

fn block_at(blocks: &[u32], depth: usize) -> Option<u32>
    ensures { result ≡ slice_get blocks.now depth }
{
    match blocks.get(depth) {
        Some(number) => Some(*number),
        None => None,
    }
}

/// Out of the blocks that are not open there to a place.
pub fn go(code: &mut Items<Symbolic>, blocks: &[u32], place: Place) -> Result<(), NoMemory>
    ensures { OnOk result (code.new ≡ code.old ++ spec.go blocks.now (length code.old) place) }
{
    leaving(code, block_at(blocks, place.depth))?;
    let here = code.len();
    put_one(code, jump(here, place.word))
}

/// Into a block, where there is one, and to a place in it.
pub fn go_in(code: &mut Items<Symbolic>, block: Option<u32>, to: usize) -> Result<(), NoMemory>
    ensures { OnOk result (code.new ≡ code.old ++ spec.go_in block (length code.old) to) }
{
    entering(code, block)?;
    let here = code.len();
    put_one(code, jump(here, to))
}

fn entry_words(block: Option<u32>) -> usize
    ensures value { result ≡ length (spec.entering block) }
    ensures few { result ≤ 4 }
{
    match block {
        Some(number) => {
            if number < 2048 || 4_294_965_248 <= number {
                3
            } else {
                4
            }
        }
        None => 0,
    }
}

/// The entry of a block and the jump behind it are left out where the value of a `switch` is another than that of `t1`.
pub fn unless_equal(block: Option<u32>) -> Instr
    ensures { Plain result ≡ spec.unless_equal (length (spec.entering block) + 1) }
{
    Instr::Branch(BranchOp::Bne, A0, T1, (4 * entry_words(block) + 8) as i32)
}

/// Where a statement of a list begins; what has no list begins at a place.
pub fn start_of(at: usize, starts: &[usize], n: u32) -> usize
    ensures { result ≡ spec.start_of at starts.now n }
{
    match starts.get(n as usize) {
        Some(start) => *start,
        None => at,
    }
}

/// The place of a label, of the innermost block that has it.
pub fn labelled(labels: &[LabelPlace], label: u32) -> Option<Place>
    ensures { result ≡ spec.labelled label labels.now }
{
    let mut found = None;
    for l in labels {
        if l.label == label {
            found = Some(l.place);
        }
    }
    found
}
