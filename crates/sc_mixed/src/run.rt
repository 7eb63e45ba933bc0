// A run of both forms that is kept between goes.
ghost use Rattle.std.specs.Prelude.{◌≡◌, ◌⊎◌, [], true, IfOk, MatchOption, None, Some, replicate, reverse};
ghost use Rattle.sc_interp_world.specs.Outputs.{output};
ghost use Rattle.sc_interp_world.specs.Told.{TellsBehind};
ghost use Rattle.sc_mixed.specs.Adding.{Adds};
ghost use Rattle.sc_mixed.specs.Goes.{GoesTo};
ghost use Rattle.sc_mixed.specs.declared.ended.MixedEnd as ends;
ghost use Rattle.sc_mixed.specs.Standing as spec;
ghost use Rattle.sc_mixed.specs.Starting as starting;
ghost use Rattle.sc_world.specs.Declaring as objects;

use crate::begin::begun;
use crate::broken::{Break, end_of};
use crate::calls::{Calls, Lower, Next};
use crate::course::Course;
use crate::ended::MixedEnd;
use crate::going::goes_from;
use crate::layout::layout_of;
use sc_base::{Items, Key, NoMemory, Stack};
use sc_core_held::Text;
use sc_emu::Regs;
use sc_interp::{Going, Shown};
use sc_interp_access::{Ended, Stop};
use sc_interp_machine::Doing;
use sc_interp_parts::id_of;
use sc_interp_world::{Frame, Layout, Machine, Taken, World};
use sc_isa_image::Image;
use sc_words::{StopAt, Walk};
use sc_world::{Halt, Marks, Want};
use std::alloc::Global;
use std::marker::Model;
use std::mem;

/// A run of a program of both forms: its world, seen as the meaning's; its image; its calls; and how it goes on, or how it ended.
#[derive(Drop)]
pub struct MixedRun {
    pub(crate) world: World,
    pub(crate) image: Image,
    pub(crate) calls: Calls,
    pub(crate) course: Course,
}

impl Model for MixedRun {
    ghost use Rattle.std.specs.Coded.{codes};
    ghost use Rattle.sc_isa_image.specs.contracts.image.Image as images;
    ghost use Rattle.sc_types.specs.contracts.ctype.CType as types;
    ghost use Rattle.sc_types.specs.contracts.ctype.Signature as signatures;
    ghost use Rattle.sc_core.specs.contracts.expression.CoreExpr as expressions;
    ghost use Rattle.sc_core.specs.contracts.statement.CoreStmt as statements;
    ghost use Rattle.sc_mixed.specs.Standing as spec;

    ghost Value = { spec.Standing };

    ghost coded = { Prim.hlevel (codes, images.the_row.coded, types.the_row.coded, signatures.the_row.coded, expressions.the_row.coded, statements.the_row.coded) };

    ghost view = { λ r. record { world = r.world; image = r.image; calls = r.calls; course = r.course } };
}

// How a run that began so goes on, or that it is over at once.
fn course_of(first: Result<(Next, Shown), Break>) -> Result<Course, NoMemory>
    ensures { IfOk result (λ course. course ≡ starting.first_course first) }
{
    match first {
        Ok((next, shown)) => Ok(Course::On(next, shown)),
        Err(Break::Meant(Stop::NoRoom)) => Err(NoMemory),
        Err(broken) => Ok(Course::Over(end_of(broken))),
    }
}

// No call is there yet.
pub(crate) fn no_calls(alloc: Global) -> Calls
    ensures { result ≡ starting.no_calls }
{
    Calls {
        callers: Stack::new(alloc),
        lower: Stack::new(alloc),
        given: None,
        regs: Regs::new(),
    }
}

// The object that a body initialises next.
fn declaring_by(doing: &Doing) -> Option<u32>
    ensures { result ≡ objects.declaring_by doing.now }
{
    match doing {
        Doing::Pieces(p, _) => Some(id_of(p)),
        _ => None,
    }
}

fn declaring_in(going: &Going) -> Option<u32>
    ensures { result ≡ spec.declaring_in going.now }
{
    match going {
        Going::Runs(doing, _, _, _) => declaring_by(doing),
        Going::Makes(_, _, _, _) => None,
        Going::Answers(_) => None,
    }
}

fn declaring_next(next: &Next) -> Option<u32>
    ensures { result ≡ spec.declaring_next next.now }
{
    match next {
        Next::Steps(going) => declaring_in(going),
        Next::Executes => None,
        Next::Serves(_) => None,
    }
}

fn declaring_at(course: &Course) -> Option<u32>
    ensures { result ≡ spec.declaring_at course.now }
{
    match course {
        Course::On(next, _) => declaring_next(next),
        Course::Over(_) => None,
    }
}

// Whether compiled code is innermost: interpreted calls wait right below.
fn is_in_code(calls: &Calls) -> bool {
    match calls.lower.top() {
        None => false,
        Some(Lower::InBodies { .. }) => true,
        Some(Lower::InCode { .. }) => false,
    }
}

impl MixedRun {
    /// A run of these texts from its start on, in this image of them: the static objects are born, and the call of the entry, the function
    /// with this key, goes out. Its input and the bytes that stack and heap may have are given. Where it is `heard` all that happens is recorded. A run that is over at
    /// once says so at its first go.
    ///
    /// # Errors
    ///
    /// `NoMemory` alone.
    #[tactic(auto, using(crate::proofs::Starts::starts_there))]
    pub fn start(
        alloc: Global,
        texts: &[Text],
        image: Image,
        key: &Key,
        stack: u64,
        heap: u64,
        input: Items<u8>,
        heard: bool,
    ) -> Result<MixedRun, NoMemory>
        ensures { IfOk result (λ r. starting.Starts texts.now image key.now stack heap input r) }
    {
        let layout = layout_of(alloc, texts, &image)?;
        let mut world = World::new(alloc, stack, heap, input, layout, heard)?;
        world.name_entry(key)?;
        let mut calls = no_calls(alloc);
        let first = begun(texts, key, &image, &mut calls, &mut world);
        let course = course_of(first)?;
        Ok(MixedRun {
            world,
            image,
            calls,
            course,
        })
    }

    /// The run goes on, up to the first place that halts it, or where it has taken the turns that are given: `Halt` says which. Each move
    /// is one turn, and one more for each byte that it touches. A run that is over stays as it is. What the program writes is kept, and
    /// left to the caller.
    #[tactic(auto, using(crate::proofs::Growing::goes_lead))]
    pub fn go(&mut self, texts: &[Text], stops: &[StopAt], walk: Walk, turns: u64) -> Halt
        ensures goes { GoesTo texts.now stops.now walk turns self.old result self.new }
        ensures adds { spec.IsLost self.new ⊎ Adds self.old.world self.new.world }
        ensures over { (end : ends.MixedEnd) → spec.end_of self.old ≡ Some end → self.new ≡ self.old }
    {
        let want = Want {
            stops: Marks::new(self.world.alloc(), stops),
            walk,
            since: self.world.enters(),
            turns,
            before: 0,
        };
        let over = Course::Over(MixedEnd::Meant(Ended::NoRoom));
        let course = mem::replace(&mut self.course, over);
        let rested = goes_from(
            course,
            texts,
            &self.image,
            &want,
            &mut self.calls,
            &mut self.world,
        );
        drop(mem::replace(&mut self.course, rested.course));
        rested.halt
    }

    // The run is over.
    pub(crate) fn over(&mut self, end: MixedEnd)
        ensures { self.new ≡ spec.standing_over self.old.image self.old.calls self.old.world end }
    {
        drop(mem::replace(&mut self.course, Course::Over(end)));
    }

    /// How the run ended, where it is over.
    pub fn end(&self) -> Option<&MixedEnd>
        ensures { MatchOption result (spec.end_of self.now ≡ None) (λ end. spec.end_of self.now ≡ Some end.now) }
    {
        match &self.course {
            Course::On(_, _) => None,
            Course::Over(end) => Some(end),
        }
    }

    /// The world of the run, with all that happened in it.
    pub fn world(&self) -> &World
        ensures { result.now ≡ self.now.world }
    {
        &self.world
    }

    /// The object whose initialiser comes next, where one does.
    pub fn declaring(&self) -> Option<u32>
        ensures { result ≡ spec.declaring_at self.now.course }
    {
        declaring_at(&self.course)
    }

    /// What was recorded of the run since its start or the last call of this, in order. Nothing is kept where nobody listens. Where it is
    /// whole, the entries that tell of calls and lines are the notes by which all that happened in the run is told, but for those that
    /// were taken before.
    pub fn take_record(&mut self) -> Taken
        ensures same { self.new ≡ self.old }
        ensures rest { result.whole ≡ true → TellsBehind result.before result.entries self.old.world.trail }
    {
        self.world.take_record()
    }

    /// The registers as compiled code has them, or last left them where it is not innermost; and how many instructions were carried out
    /// since the start.
    pub fn machine(&self) -> Machine {
        let left = *self.world.machine();
        if !is_in_code(&self.calls) {
            return left;
        }
        Machine {
            pc: self.calls.regs.pc(),
            words: *self.calls.regs.words(),
            executed: left.executed,
        }
    }

    /// The bytes that the program wrote since its start.
    pub fn output(&self) -> &[u8]
        ensures { result.now ≡ output self.now.world.trail }
    {
        self.world.output()
    }

    /// The active calls, the innermost last.
    pub fn frames(&self) -> &[Frame]
        ensures { reverse result.now ≡ self.now.world.frames }
    {
        self.world.frames()
    }
}
