// One instruction of compiled code.
ghost use Rattle.std.specs.Prelude.{◌≡◌, ◌⊎◌, MatchOption, false, true};
ghost use Rattle.sc_mixed.specs.Adding.{Adds};
ghost use Rattle.sc_mixed.specs.Parts as parts;
ghost use Rattle.sc_mixed.specs.Standing as spec;
ghost use Rattle.sc_mixed.specs.Single as single;
ghost use Rattle.sc_mixed.specs.declared.course.Course.TheVariants.{On};

use crate::bridge::RETURN;
use crate::broken::{Break, end_of};
use crate::calls::{Calls, Next};
use crate::course::Course;
use crate::ended::MixedEnd;
use crate::rest::{closed, halts};
use crate::run::MixedRun;
use crate::turn::moved;
use sc_base::Form;
use sc_core_held::Text;
use sc_interp::Shown;
use sc_interp_access::{Ended, Stop};
use sc_interp_world::World;
use sc_isa_image::Image;
use sc_words::{StopAt, Walk};
use sc_world::{Halt, Marks, Want};
use std::mem;

// Whether the innermost call runs as compiled code.
fn in_object(world: &World) -> bool
    ensures { result ≡ single.in_object world.now.frames }
{
    match world.innermost() {
        None => false,
        Some(frame) => match frame.form {
            Form::Source => false,
            Form::Object => true,
        },
    }
}

// Whether an instruction is next.
fn instruction_next(next: &Next, calls: &Calls) -> bool
    ensures { result ≡ single.instruction_next next.now calls.now }
{
    match next {
        Next::Executes => !(calls.regs.pc() == RETURN),
        Next::Steps(_) => false,
        Next::Serves(_) => false,
    }
}

// Whether what is next is no instruction, and no step of an interpreted call.
fn between_next(next: &Next, calls: &Calls, world: &World) -> bool
    ensures { result ≡ single.between_next next.now calls.now world.now }
{
    match next {
        Next::Executes => calls.regs.pc() == RETURN,
        Next::Steps(_) => in_object(world),
        Next::Serves(_) => true,
    }
}

// Whether nothing halts the run where it stands.
fn is_free(want: &Want, shown: Shown, next: &Next, calls: &Calls, world: &World) -> bool
    ensures { result ≡ single.is_free want.now calls.now world.now (On next.now shown) }
{
    match halts(want, next, shown, calls, world) {
        Some(_) => false,
        None => true,
    }
}

fn takes_instruction(want: &Want, shown: Shown, next: &Next, calls: &Calls, world: &World) -> bool
    ensures { result ≡ single.takes_instruction_in want.now calls.now world.now (On next.now shown) }
{
    is_free(want, shown, next, calls, world) && instruction_next(next, calls)
}

fn takes_between(want: &Want, shown: Shown, next: &Next, calls: &Calls, world: &World) -> bool
    ensures { result ≡ single.takes_between_in want.now calls.now world.now (On next.now shown) }
{
    is_free(want, shown, next, calls, world) && between_next(next, calls, world)
}

// One move alone.
fn moved_once(
    texts: &[Text],
    image: &Image,
    next: &mut Next,
    calls: &mut Calls,
    world: &mut World,
) -> Result<Shown, Break>
    ensures { parts.LeadsOnce texts.now image.now next.old calls.old world.old result next.new calls.new world.new }
{
    let mut took: u64 = 0;
    moved(texts, image, 1, next, calls, world, &mut took)
}

// Moves that are no instructions, up to where something else is next, or where the run halts.
fn settle(
    texts: &[Text],
    image: &Image,
    want: &Want,
    first: Shown,
    next: &mut Next,
    calls: &mut Calls,
    world: &mut World,
) -> Result<Shown, Break>
    ensures { single.Settles texts.now want.now (spec.standing_on image.now calls.old world.old next.old first) (parts.came_to image.now result next.new calls.new world.new) }
{
    let mut shown = first;
    for _ in 0..u64::MAX {
        if !takes_between(want, shown, next, calls, world) {
            return Ok(shown);
        }
        match moved_once(texts, image, next, calls, world) {
            Ok(now) => shown = now,
            Err(broken) => return Err(broken),
        }
    }
    if takes_between(want, shown, next, calls, world) {
        Err(Break::Meant(Stop::NoRoom))
    } else {
        Ok(shown)
    }
}

// An instruction, and the moves that directly follow it.
fn instruct(
    texts: &[Text],
    image: &Image,
    want: &Want,
    next: &mut Next,
    calls: &mut Calls,
    world: &mut World,
) -> Result<Shown, Break>
    ensures { (first m : spec.Standing) (now : Shown) → single.Settles texts.now want.now first m → m ≡ spec.standing_on image.now calls.old world.old next.old now → single.takes_instruction want.now m ≡ true → single.Passes texts.now want.now first (parts.came_to image.now result next.new calls.new world.new) }
{
    match moved_once(texts, image, next, calls, world) {
        Ok(now) => settle(texts, image, want, now, next, calls, world),
        Err(broken) => Err(broken),
    }
}

// What a pause left pending; and then an instruction, where one is next, and the moves that directly follow it.
fn passed(
    texts: &[Text],
    image: &Image,
    want: &Want,
    first: Shown,
    next: &mut Next,
    calls: &mut Calls,
    world: &mut World,
) -> Result<Shown, Break>
    ensures { single.Passes texts.now want.now (spec.standing_on image.now calls.old world.old next.old first) (parts.came_to image.now result next.new calls.new world.new) }
{
    match settle(texts, image, want, first, next, calls, world) {
        Ok(shown) => {
            if takes_instruction(want, shown, next, calls, world) {
                instruct(texts, image, want, next, calls, world)
            } else {
                Ok(shown)
            }
        }
        Err(broken) => Err(broken),
    }
}

/// What halts a run behind a step, if anything does, and how the run goes on from there, or ended.
#[derive(Drop)]
pub struct Stepped {
    pub halt: Option<Halt>,
    pub course: Course,
}

// What the moves of a step came to.
fn left_by(
    texts: &[Text],
    image: &Image,
    want: &Want,
    came: Result<Shown, Break>,
    next: Next,
    calls: &Calls,
    world: &mut World,
) -> Stepped
    ensures { (first : spec.Standing) → single.Passes texts.now want.now first (parts.came_to image.now came next calls.now world.old) → single.StepsOne texts.now want.now first result.halt (parts.standing_at image.now calls.now world.new result.course) }
{
    match came {
        Ok(shown) => Stepped {
            halt: halts(want, &next, shown, calls, world),
            course: closed(next, calls, world),
        },
        Err(broken) => {
            drop(next);
            Stepped {
                halt: Some(Halt::Ended),
                course: Course::Over(end_of(broken)),
            }
        }
    }
}

// A step of a run that goes on.
fn steps_on(
    texts: &[Text],
    image: &Image,
    want: &Want,
    shown: Shown,
    mut next: Next,
    calls: &mut Calls,
    world: &mut World,
) -> Stepped
    ensures { single.StepsOne texts.now want.now (spec.standing_on image.now calls.old world.old next shown) result.halt (parts.standing_at image.now calls.new world.new result.course) }
{
    let came = passed(texts, image, want, shown, &mut next, calls, world);
    left_by(texts, image, want, came, next, calls, world)
}

// A step of a run. One that is over stays so.
fn steps_from(
    course: Course,
    texts: &[Text],
    image: &Image,
    want: &Want,
    calls: &mut Calls,
    world: &mut World,
) -> Stepped
    ensures { single.StepsOne texts.now want.now (parts.standing_at image.now calls.old world.old course) result.halt (parts.standing_at image.now calls.new world.new result.course) }
{
    match course {
        Course::Over(end) => Stepped {
            halt: Some(Halt::Ended),
            course: Course::Over(end),
        },
        Course::On(next, shown) => steps_on(texts, image, want, shown, next, calls, world),
    }
}

// The address of the instruction that is next, if one is.
fn pc_next(next: &Next, calls: &Calls) -> Option<u32>
    ensures { MatchOption result (single.instruction_next next.now calls.now ≡ false) (λ pc. pc ≡ calls.now.regs.pc) }
{
    if instruction_next(next, calls) {
        Some(calls.regs.pc())
    } else {
        None
    }
}

fn pc_in(course: &Course, calls: &Calls) -> Option<u32>
    ensures { MatchOption result (single.instruction_in course.now calls.now ≡ false) (λ pc. pc ≡ calls.now.regs.pc) }
{
    match course {
        Course::On(next, _) => pc_next(next, calls),
        Course::Over(_) => None,
    }
}

impl MixedRun {
    /// Whether the innermost active call runs as compiled code.
    pub fn in_object(&self) -> bool
        ensures { result ≡ single.in_object self.now.world.frames }
    {
        in_object(&self.world)
    }

    /// The address of the instruction that is next; or where none is, that of the one behind the last, as `machine` has it.
    pub fn pc(&self) -> u32
        ensures { single.IsPcOf self.now result }
    {
        match pc_in(&self.course, &self.calls) {
            Some(pc) => pc,
            None => self.machine().pc,
        }
    }

    /// The run goes on by one instruction of compiled code: first by what a pause left pending, a service, a call of the library or a crossing
    /// between the forms; then, where these did not lead into an interpreted call, by one instruction; then by the services, calls of the
    /// library and crossings that directly follow it. It halts before that where a stop is reached, or where the run is over: `Halt`
    /// says which. With none it rests where an instruction or a step of an interpreted call is next. No turns are counted.
    pub fn step_one(&mut self, texts: &[Text], stops: &[StopAt]) -> Option<Halt>
        ensures steps { single.StepsOneTo texts.now stops.now self.old result self.new }
        ensures adds { spec.IsLost self.new ⊎ Adds self.old.world self.new.world }
        ensures one { single.IsOne texts.now self.old result self.new }
    {
        let want = Want {
            stops: Marks::new(self.world.alloc(), stops),
            walk: Walk::Cont,
            since: self.world.enters(),
            turns: 0,
            before: 0,
        };
        let over = Course::Over(MixedEnd::Meant(Ended::NoRoom));
        let course = mem::replace(&mut self.course, over);
        let stepped = steps_from(
            course,
            texts,
            &self.image,
            &want,
            &mut self.calls,
            &mut self.world,
        );
        drop(mem::replace(&mut self.course, stepped.course));
        stepped.halt
    }
}
