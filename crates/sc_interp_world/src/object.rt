// Active calls, and the objects of their blocks (ANSI 3.1.2.4).
ghost use Rattle.std.specs.Prelude.{◌≡◌, IfOk};

use sc_base::{Duplicate, Form, Items, Key, Name, NoMemory};
use std::alloc::Global;
use std::marker::Model;

/// An entered block, and its objects by their numbers.
#[derive(Drop)]
pub struct Born {
    pub block: u32,
    pub ids: Items<u32>,
}

impl Model for Born {
    ghost use Rattle.sc_meaning.specs.World as world;

    ghost Value = { world.Born };

    ghost view = { λ b. record { block = b.block; ids = b.ids } };
}

impl Duplicate for Born {
    fn copy(&self, alloc: Global) -> Result<Born, NoMemory> {
        Ok(Born {
            block: self.block,
            ids: copy_numbers(alloc, &self.ids)?,
        })
    }
}

/// A second list of the same numbers.
pub fn copy_numbers(alloc: Global, numbers: &Items<u32>) -> Result<Items<u32>, NoMemory>
    ensures { IfOk result (λ copy. copy ≡ numbers.now) }
{
    let items = Vec::from_slice(alloc, numbers.as_slice())?;
    Ok(Items::from_vec(items))
}

/// An active call: its function; the number of the text that it runs, the text's module, and the form; how many calls
/// were entered up to it; the line of its last line event, or 0; and its entered blocks, outermost first. Of a call of compiled code
/// also the bytes of the stack that it took, and the address at which its text begins; of another 0 each.
#[derive(Drop)]
pub struct Frame {
    pub key: Key,
    pub text: u32,
    pub home: Name,
    pub form: Form,
    pub enter: u64,
    pub line: u32,
    pub blocks: Items<Born>,
    pub cost: u32,
    pub start: u32,
}

impl Model for Frame {
    ghost use Rattle.sc_meaning.specs.World as world;

    ghost Value = { world.Frame };

    ghost view = { λ f. record { key = f.key; text = f.text; home = f.home; form = f.form; enter = f.enter; line = f.line; blocks = f.blocks; cost = f.cost; start = f.start } };
}

impl Duplicate for Frame {
    fn copy(&self, alloc: Global) -> Result<Frame, NoMemory> {
        Ok(Frame {
            key: self.key.copy(alloc)?,
            text: self.text,
            home: self.home.copy(alloc)?,
            form: self.form,
            enter: self.enter,
            line: self.line,
            blocks: self.blocks.copy(alloc)?,
            cost: self.cost,
            start: self.start,
        })
    }
}
