// The labels of a function up to a place of its body.
ghost use Rattle.std.specs.Prelude.{◌≡◌};
ghost use Rattle.sc_check_labels.specs.Jumps as spec;

use crate::tables::{LabelBlocks, LabelNames, Values};
use sc_base::{Int, Items, Stack};
use sc_core::{LabelAt, SwitchLabel};
use std::alloc::Global;

/// A `switch` whose body is being checked: the type of its controlling expression, the values of its labels, whether `default` is
/// among them, and the labels.
#[derive(Drop)]
pub struct OpenSwitch {
    pub of: Int,
    pub values: Values,
    pub has_default: bool,
    pub labels: Items<SwitchLabel>,
}

/// A block whose statements are being checked: its number, and the labels that stand in its list so far.
#[derive(Drop)]
pub struct OpenList {
    pub block: u32,
    pub labels: Items<LabelAt>,
}

/// A `goto`, which waits for the end of its function: its line, its label, and the blocks that are open there, the outermost first.
#[derive(Drop)]
pub struct Waiting {
    pub line: u32,
    pub label: u32,
    pub blocks: Items<u32>,
}

/// The labels of a function up to a place: the `switch` statements and the blocks that are open there, the innermost first; the names
/// of labels, and the block of each that labels a statement; and the `goto` statements in the order of the text.
#[derive(Drop)]
pub struct Labels {
    pub switches: Stack<OpenSwitch>,
    pub lists: Stack<OpenList>,
    pub names: LabelNames,
    pub blocks: LabelBlocks,
    pub waiting: Items<Waiting>,
}

impl Labels {
    /// No labels, at the beginning of a body, which takes no memory.
    pub fn new(alloc: Global) -> Labels
        ensures { result ≡ spec.no_labels }
    {
        Labels {
            switches: Stack::new(alloc),
            lists: Stack::new(alloc),
            names: LabelNames::new(alloc),
            blocks: LabelBlocks::new(alloc),
            waiting: Items::new(alloc),
        }
    }
}
