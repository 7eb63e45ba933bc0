// The blocks of a function's labels.
ghost use Rattle.std.specs.Prelude.{◌≡◌, nat_eq, IfOk};
ghost use Rattle.std.specs.Map.{lookup};
ghost use Rattle.sc_core_labels.specs.Targets as spec;

use crate::labels::put_statement;
use indexmap::IndexMap;
use sc_base::NoMemory;
use sc_core::CoreStmt;
use std::alloc::Global;
use std::marker::Model;

/// The labels of a function, each with the block in whose list it stands; seen as the list of them.
#[derive(Drop)]
pub struct Targets {
    blocks: IndexMap<u32, u32>,
}

impl Model for Targets {
    ghost use Rattle.std.specs.Prelude.{ℕ, List};

    ghost Value = { List (ℕ × ℕ) };

    ghost view = { λ s. s.blocks.entries };
}

impl Targets {
    /// The block in whose list a label stands.
    pub fn block(&self, label: u32) -> Option<u32>
        ensures { result ≡ lookup (nat_eq label) self.now }
    {
        match self.blocks.get(&label) {
            Some(block) => Some(*block),
            None => None,
        }
    }
}

/// Adds a label with its block; the answer says whether it is new.
#[tactic(auto, using(crate::proofs::Added::added))]
fn add(blocks: &mut IndexMap<u32, u32>, target: &(u32, u32)) -> Result<bool, NoMemory>
    ensures { IfOk result (λ new. spec.Adds target.now blocks.old.entries blocks.new.entries new) }
{
    match blocks.insert(target.0, target.1) {
        Ok(Some(_)) => Ok(false),
        Ok(None) => Ok(true),
        Err(_) => Err(NoMemory),
    }
}

fn indexed(alloc: Global, found: &[(u32, u32)]) -> Result<Option<Targets>, NoMemory>
    ensures { IfOk result (λ r. spec.Indexed found.now r) }
{
    let mut blocks = IndexMap::new(alloc);
    for target in found {
        if !add(&mut blocks, target)? {
            return Ok(None);
        }
    }
    Ok(Some(Targets { blocks }))
}

/// The labels of a function's body; none where two of them are equal.
pub fn targets_of(alloc: Global, body: &CoreStmt) -> Result<Option<Targets>, NoMemory>
    ensures { IfOk result (λ r. spec.Indexed (spec.labels_of body.now) r) }
{
    let mut found = Vec::new(alloc);
    put_statement(&mut found, body)?;
    indexed(alloc, found.as_slice())
}
