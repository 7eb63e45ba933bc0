// A run that is kept between goes (ANSI 2.1.2.2, 2.1.2.3).
ghost use Rattle.std.specs.Prelude.{◌≡◌, ◌<◌, ◌≤◌, ℕ, [], Err, IfOk, MatchOption, MatchResult, None, OnErr, Some, false, true, replicate, reverse};
ghost use Rattle.sc_meaning.specs.Behaviour as behaviour;
ghost use Rattle.sc_meaning.specs.Beside.{nothing_beside};
ghost use Rattle.sc_meaning.specs.World as worlds;
ghost use Rattle.sc_interp.specs.Ends.{end_of, start_of};
ghost use Rattle.sc_interp_world.specs.Outputs.{output};
ghost use Rattle.sc_interp_world.specs.Told.{TellsBehind};
ghost use Rattle.sc_world.specs.Changing.{changed_run};
ghost use Rattle.sc_world.specs.Declaring.{declaring_at};
ghost use Rattle.sc_world.specs.Goes.{Goes, started, want_of};
ghost use Rattle.sc_world.specs.Meant.{IsRunOf};
ghost use Rattle.sc_world.specs.Pauses.{IsPause};
ghost use Rattle.sc_world.specs.Standing as standing;
ghost use Rattle.sc_world.specs.declared.halt.Halt.TheVariants.{Paused};
ghost use Rattle.sc_world.specs.Sends.{LeavesFew, Sends, SendsSome};
ghost use Rattle.sc_world.specs.declared.post.Unsent.TheVariants as unsent;
ghost use Rattle.sc_outside.specs.Causes.{Rose};

use crate::begin::{begun, course_of};
use crate::change::changed;
use crate::count::Count;
use crate::course::Course;
use crate::declaring::declaring_of;
use crate::halt::{Halt, Halted};
use crate::look::Want;
use crate::marks::Marks;
use crate::post::Unsent;
use crate::rest::goes_from;
use sc_base::{Items, Key, NoMemory, Shared, Stack};
use sc_core_held::Text;
use sc_interp::Caller;
use sc_interp_access::Ended;
use sc_interp_world::{Frame, Layout, Machine, Names, Taken, World};
use sc_outside::Sink;
use sc_words::{StopAt, Walk};
use std::alloc::Global;
use std::marker::Model;
use std::mem;

/// A run of a program that does not change: how it goes on, or how it ended; the callers that wait; the world, with all that
/// happened; and how many steps were done since the call of the entry went out, with the turns that they took.
#[derive(Drop)]
pub struct Run {
    course: Course,
    callers: Stack<Caller>,
    world: World,
    count: Count,
}

/// What a run is made of.
#[derive(Drop)]
pub struct Parts {
    pub course: Course,
    pub callers: Stack<Caller>,
    pub world: World,
    pub count: Count,
}

impl Model for Run {
    ghost use Rattle.std.specs.Prelude.{Option};
    ghost use Rattle.std.specs.Coded.{codes};
    ghost use Rattle.sc_types.specs.contracts.ctype.CType as types;
    ghost use Rattle.sc_types.specs.contracts.ctype.Signature as signatures;
    ghost use Rattle.sc_core.specs.contracts.expression.CoreExpr as expressions;
    ghost use Rattle.sc_core.specs.contracts.statement.CoreStmt as statements;
    ghost use Rattle.sc_world.specs.Standing as spec;

    ghost Value = { Option spec.Standing };

    ghost coded = { Prim.hlevel (codes, types.the_row.coded, signatures.the_row.coded, expressions.the_row.coded, statements.the_row.coded) };

    ghost view = { λ r. spec.standing r.course r.callers r.world r.count };
}

// A world in which nothing is there yet. Its objects will stand at addresses. Where it is heard the entry has a number.
fn world_of(
    alloc: Global,
    key: &Key,
    stack: u64,
    heap: u64,
    input: Items<u8>,
    layout: Layout,
    heard: bool,
) -> Result<World, NoMemory>
    ensures { IfOk result (λ w. w ≡ record { stack = stack; heap = heap; objects = []; used = 0; free = replicate 29 0; made = 0; input = input; seed = 1; frames = []; names = []; enters = 0; count = 0; begun = 0; trail = []; beside = nothing_beside }) }
{
    let mut world = World::aside(alloc, stack, heap, input, layout, heard)?;
    if !heard {
        return Ok(world);
    }
    world.name_entry(key)?;
    Ok(world)
}

impl Run {
    /// A run of these texts from its start on: the static objects are born, and the call of the entry, the function with this key, goes
    /// out. Its input and the bytes that stack and heap may have are given, and the addresses at which static objects stand. Where somebody
    /// listens to it, it is `heard`, and all that happens is recorded. A run that is over at once says so at its first go.
    ///
    /// # Errors
    ///
    /// `NoMemory` alone.
    pub fn start(
        alloc: Global,
        texts: &[Text],
        key: &Key,
        stack: u64,
        heap: u64,
        input: Items<u8>,
        layout: Layout,
        heard: bool,
    ) -> Result<Run, NoMemory>
        ensures starts { IfOk result (λ r. r ≡ Some (started texts.now key.now stack heap input)) }
        ensures meant { IfOk result (λ r. IsRunOf (start_of texts.now key.now stack heap input) texts.now r) }
    {
        let mut world = world_of(alloc, key, stack, heap, input, layout, heard)?;
        let callers = Stack::new(alloc);
        let first = begun(texts, key, &callers, &mut world);
        let course = course_of(first)?;
        Ok(Run {
            course,
            callers,
            world,
            count: Count { steps: 0, turns: 0 },
        })
    }

    /// The run goes on, up to the first place that halts it: a function at which a stop is set is entered; a line is reached at
    /// which one is set, or at which the walk halts; or the run is over. Before such a place it is paused, where it has taken the turns that
    /// are given. Each step takes one turn, and one more for each byte that a call of the library, a copy of a structure or a birth touches
    /// in it. A run that is over stays as it is. What the program writes goes out while the run goes on, whenever 4,096 bytes wait; what
    /// still waits where it halts is left to the caller.
    ///
    /// # Errors
    ///
    /// `Unsent` where it could not be written. The run is over then, and nothing is known of it.
    #[tactic(auto, using(crate::proofs::Kept::keeps, crate::proofs::Pauses::pauses))]
    pub fn go<K: Sink>(
        &mut self,
        texts: &[Text],
        stops: &[StopAt],
        walk: Walk,
        turns: u64,
        out: &mut K,
    ) -> Result<Halted, Unsent>
        ensures goes { IfOk result (λ h. Goes texts.now stops.now walk turns self.old h.halt self.new) }
        ensures sends { MatchResult result (λ h. Sends (K.written out.old) (K.written out.new) texts.now stops.now walk turns self.old h.sent self.new) (λ _. SendsSome (K.written out.old) (K.written out.new) texts.now stops.now walk turns self.old) }
        ensures few { IfOk result (λ h. LeavesFew h.halt h.sent self.new) }
        ensures lost { OnErr result (self.new ≡ None) }
        ensures meant { (s : behaviour.Start) → IsRunOf s texts.now self.old → IsRunOf s texts.now self.new }
        ensures pauses { IfOk result (λ h. (first last : standing.Standing) (n : ℕ) → self.old ≡ Some first → self.new ≡ Some last → h.halt ≡ Paused n → 0 < turns → IsPause texts.now (want_of stops.now walk turns first) last n) }
        ensures later { K.faults out.old ≤ K.faults out.new }
        ensures failed { result ≡ Err unsent.Failed → Rose (K.faults out.old) (K.faults out.new) }
    {
        let want = Want {
            stops: Marks::new(self.world.alloc(), stops),
            walk,
            since: self.world.enters(),
            turns,
            before: self.count.turns,
        };
        let mut sent = self.world.output().len();
        let course = mem::replace(&mut self.course, Course::Over(Ended::NoRoom));
        match goes_from(
            course,
            texts,
            &want,
            &mut self.callers,
            &mut self.count,
            &mut self.world,
            &mut sent,
            out,
        ) {
            Ok(rested) => {
                drop(mem::replace(&mut self.course, rested.course));
                Ok(Halted {
                    halt: rested.halt,
                    sent,
                })
            }
            Err(unsent) => Err(unsent),
        }
    }

    /// The texts of the run become others, while it stands between two goes. Of the static objects those that are not kept die, and new
    /// ones are born. The run goes on from the same place, or is over as one object too many would be born. Active calls go on in the
    /// functions that they entered. A run that is over stays as it is.
    ///
    /// # Errors
    ///
    /// `NoMemory` alone. The run is over then, and nothing is known of it.
    pub fn change(&mut self, old: &[Text], new: &[Text]) -> Result<(), NoMemory>
        ensures changes { IfOk result (λ _. self.new ≡ changed_run old.now new.now self.old) }
        ensures lost { OnErr result (self.new ≡ None) }
    {
        let course = mem::replace(&mut self.course, Course::Over(Ended::NoRoom));
        let next = changed(course, old, new, &mut self.world)?;
        drop(mem::replace(&mut self.course, next));
        Ok(())
    }

    /// More functions get the next numbers, and static objects that are born from here on stand at these places. Nothing else
    /// changes.
    ///
    /// # Errors
    ///
    /// `NoMemory` as for `World::number`.
    pub fn place(&mut self, more_functions: &[Shared<Key>], places: Names) -> Result<(), NoMemory>
        ensures { self.new ≡ self.old }
    {
        // No compiled code has come into this run.
        if self.world.shows_memory() {
            drop(places);
            return Err(NoMemory);
        }
        self.world.number(more_functions)?;
        self.world.set_places(places);
        Ok(())
    }

    /// What was recorded of the run since its start or the last call of this, in order. Nothing is kept where nobody listens. Where it is
    /// whole, the entries that tell of calls and lines are the notes by which all that happened in the run is told, but for those that
    /// were taken before.
    pub fn take_record(&mut self) -> Taken
        ensures same { self.new ≡ self.old }
        ensures rest { (w : worlds.World) → standing.world_in self.old ≡ Some w → result.whole ≡ true → TellsBehind result.before result.entries w.trail }
    {
        self.world.take_record()
    }

    /// The registers as a run begins, since no compiled code runs, and how many instructions were carried out, which are none.
    pub fn machine(&self) -> Machine {
        *self.world.machine()
    }

    /// The parts of the run.
    pub fn apart(self) -> Parts
        ensures { standing.standing result.course result.callers result.world result.count ≡ self }
    {
        let Run {
            course,
            callers,
            world,
            count,
        } = self;
        Parts {
            course,
            callers,
            world,
            count,
        }
    }

    /// How the run ended, where it is over.
    pub fn end(&self) -> Option<&Ended>
        ensures { MatchOption result (standing.is_ended self.now ≡ false) (λ ended. standing.EndedSo self.now ended.now) }
    {
        match &self.course {
            Course::On(_, _) => None,
            Course::Over(ended) => Some(ended),
        }
    }

    /// The object whose initialiser comes next, where one does: at the line of an initialised declarator that is the object that it
    /// declares.
    pub fn declaring(&self) -> Option<u32>
        ensures { (m : standing.Standing) → self.now ≡ Some m → result ≡ declaring_at m.state }
    {
        declaring_of(&self.course)
    }

    /// The world of the run, with all that happened in it.
    pub fn world(&self) -> &World
        ensures { (w : worlds.World) → standing.world_in self.now ≡ Some w → result.now ≡ w }
    {
        &self.world
    }

    /// The bytes that the program wrote since its start.
    pub fn output(&self) -> &[u8]
        ensures { (w : worlds.World) → standing.world_in self.now ≡ Some w → result.now ≡ output w.trail }
    {
        self.world.output()
    }

    /// The active calls, the innermost last.
    pub fn frames(&self) -> &[Frame]
        ensures { (w : worlds.World) → standing.world_in self.now ≡ Some w → reverse result.now ≡ w.frames }
    {
        self.world.frames()
    }

    /// How many steps were done since the call of the entry went out.
    pub fn steps(&self) -> u64
        ensures { (m : standing.Standing) → self.now ≡ Some m → result ≡ m.steps }
    {
        self.count.steps
    }

    /// How many turns they took.
    pub fn turns(&self) -> u64
        ensures { (m : standing.Standing) → self.now ≡ Some m → result ≡ m.turns }
    {
        self.count.turns
    }
}
