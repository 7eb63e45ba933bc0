// A list of instructions as it is written.
ghost use Rattle.std.specs.Prelude.{◌≡◌, ◌≤◌, [], List, IfOk};
ghost use Rattle.sc_meaning.specs.Versions.{Text as Program};
ghost use Rattle.sc_flat.specs.Drafts.{labelled, passed, slid};
ghost use Rattle.sc_flat.specs.Written.{Labelled, Marked, Pushed, Slid};

use crate::instruction::{Instruction, Operation};
use sc_base::NoMemory;
use std::alloc::Global;
use std::marker::Model;

/// How many steps of the machine an instruction is at most.
const MOST: u32 = 8;

/// A list of instructions as it is written, with the places of its labels, where they have one, and the steps and the work that wait for
/// the next instruction.
#[derive(Drop)]
pub struct Draft {
    code: Vec<Instruction>,
    places: Vec<Option<u32>>,
    steps: u32,
    work: u32,
}

impl Model for Draft {
    ghost use Rattle.std.specs.Coded.{codes};
    ghost use Rattle.std.specs.Prelude.{◌≤◌, ◌*◌};
    ghost use Rattle.sc_types.specs.contracts.ctype.CType as types;
    ghost use Rattle.sc_types.specs.contracts.ctype.Signature as signatures;
    ghost use Rattle.sc_flat.specs.Lists as spec;

    ghost Value = { spec.Draft };

    ghost coded = { Prim.hlevel (codes, types.the_row.coded, signatures.the_row.coded) };

    ghost view = { λ d. record { code = d.code.items; places = d.places.items; steps = d.steps; work = d.work } };

    ghost invariant = { λ d. (d.steps ≤ 7) × (d.work ≤ 2 * d.steps) };
}

impl Draft {
    /// Nothing yet.
    pub fn new(alloc: Global) -> Draft
        ensures { result ≡ record { code = []; places = []; steps = 0; work = 0 } }
    {
        Draft {
            code: Vec::new(alloc),
            places: Vec::new(alloc),
            steps: 0,
            work: 0,
        }
    }

    // What waits is made by an instruction that does nothing else.
    fn pass(&mut self) -> Result<(), NoMemory>
        ensures { IfOk result (λ _. self.new ≡ passed self.old) }
    {
        let work = self.work;
        self.code.push(Instruction::next(work, Operation::Pass))?;
        self.steps = 0;
        self.work = 0;
        Ok(())
    }

    // One more step waits.
    fn wait(&mut self, work: u32)
        requires { (self.old.steps ≤ 6) × (work ≤ 2) }
        ensures { self.new ≡ slid self.old work }
    {
        self.steps += 1;
        self.work += work;
    }

    // The same behind what waited, which is as much as can wait.
    fn pass_and_wait(&mut self, work: u32) -> Result<(), NoMemory>
        requires { (self.old.steps ≡ 7) × (work ≤ 2) }
        ensures { IfOk result (λ _. (texts : List Program) → Slid texts self.old self.new work) }
    {
        self.pass()?;
        self.wait(work);
        Ok(())
    }

    /// A step that no instruction makes waits for the next one, with so much work.
    #[tactic(auto, using(crate::proofs::Drafts::slid_leads))]
    pub fn slide(&mut self, work: u32) -> Result<(), NoMemory>
        requires { work ≤ 2 }
        ensures { IfOk result (λ _. (texts : List Program) → Slid texts self.old self.new work) }
    {
        if self.steps + 1 >= MOST {
            self.pass_and_wait(work)?;
            return Ok(());
        }
        self.wait(work);
        Ok(())
    }

    /// One more instruction, of one step.
    #[tactic(auto, using(crate::proofs::Drafts::push_leads))]
    pub fn push(&mut self, instruction: Instruction) -> Result<(), NoMemory>
        requires { instruction.work ≤ 2 }
        ensures { IfOk result (λ _. (texts : List Program) → Pushed texts self.old self.new instruction) }
    {
        let work = instruction.work + self.work;
        self.code.push(Instruction {
            work,
            ..instruction
        })?;
        self.steps = 0;
        self.work = 0;
        Ok(())
    }

    fn add_label(&mut self) -> Result<(), NoMemory>
        ensures { IfOk result (λ _. self.new ≡ labelled self.old) }
    {
        self.places.push(None)?;
        Ok(())
    }

    /// One more label, which has no place yet; its number.
    pub fn label(&mut self) -> Result<u32, NoMemory>
        ensures { IfOk result (λ l. (texts : List Program) → Labelled texts self.old self.new l) }
    {
        let Ok(number) = u32::try_from(self.places.len()) else {
            return Err(NoMemory);
        };
        self.add_label()?;
        Ok(number)
    }

    // A label has its place here, where nothing waits. One that there is not stays so.
    #[tactic(auto, using(crate::proofs::Drafts::mark_leads, crate::proofs::Drafts::mark_none))]
    fn mark_here(&mut self, label: u32) -> Result<(), NoMemory>
        requires { self.old.steps ≡ 0 }
        ensures { IfOk result (λ _. (texts : List Program) → Marked texts self.old self.new label) }
    {
        let Ok(place) = u32::try_from(self.code.len()) else {
            return Err(NoMemory);
        };
        if (label as usize) < self.places.len() {
            self.places[label as usize] = Some(place);
        }
        Ok(())
    }

    // The same behind what waited.
    fn pass_and_mark(&mut self, label: u32) -> Result<(), NoMemory>
        requires { (1 ≤ self.old.steps) × (self.old.steps ≤ 7) }
        ensures { IfOk result (λ _. (texts : List Program) → Marked texts self.old self.new label) }
    {
        self.pass()?;
        self.mark_here(label)?;
        Ok(())
    }

    /// A label has its place here.
    pub fn mark(&mut self, label: u32) -> Result<(), NoMemory>
        ensures { IfOk result (λ _. (texts : List Program) → Marked texts self.old self.new label) }
    {
        if self.steps > 0 {
            self.pass_and_mark(label)
        } else {
            self.mark_here(label)
        }
    }
}
