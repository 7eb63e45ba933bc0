// A run of both forms goes over to other texts and another image; and a run of interpreted modules alone becomes one of both forms.
ghost use Rattle.std.specs.Prelude.{◌≡◌, ◌++◌, false, IfOk, OnErr};
ghost use Rattle.sc_meaning.specs.Changes.{changed};
ghost use Rattle.sc_mixed.specs.Changing as spec;
ghost use Rattle.sc_mixed.specs.Standing.{IsLost, ended_by, standing_over};
ghost use Rattle.sc_mixed.specs.declared.broken.Break.TheVariants as broken;

use crate::broken::{Break, end_of};
use crate::calls::{Calls, Next};
use crate::course::Course;
use crate::ended::MixedEnd;
use crate::layout::{names_of, placed_ids, shared_behind};
use crate::run::{MixedRun, no_calls};
use sc_base::{Duplicate, Items, Key, NoMemory, Stack};
use sc_core_held::Text;
use sc_interp::Caller;
use sc_interp_access::{Ended, Stop};
use sc_interp_changes::{change, is_kept};
use sc_interp_parts::births_of;
use sc_interp_world::World;
use sc_isa_image::Image;
use sc_link::Placed;
use sc_program::StaticId;
use sc_world::{Course as Went, Parts, Run};
use std::alloc::Global;
use std::mem;

// A key of an object that stays is added.
fn add_kept(
    alloc: Global,
    old: &[Text],
    new: &[Text],
    id: &StaticId,
    kept: &mut Items<Key>,
) -> Result<(), NoMemory>
    ensures { IfOk result (λ _. kept.new ≡ kept.old ++ spec.kept_of old.now new.now id.now) }
{
    match id {
        StaticId::Literal(_, _) => Ok(()),
        StaticId::Named(key) => {
            if is_kept(alloc, old, new, key)? {
                kept.push(key.copy(alloc)?)?;
            }
            Ok(())
        }
    }
}

/// The keys of the objects of static storage duration that stay as one version follows another.
pub fn kept_keys(alloc: Global, old: &[Text], new: &[Text]) -> Result<Items<Key>, NoMemory>
    ensures { IfOk result (λ keys. keys ≡ spec.kept_keys old.now new.now) }
{
    let ids = births_of(alloc, old)?;
    let mut kept = Items::new(alloc);
    for id in ids.as_slice() {
        add_kept(alloc, old, new, id, &mut kept)?;
    }
    Ok(kept)
}

// What is born from here on stands where it is placed, and the functions have these numbers.
#[tactic(auto, using(crate::proofs::Changing::placed_anew))]
fn place_anew(placed: &[Placed], functions: &[Key], world: &mut World) -> Result<(), NoMemory>
    ensures { IfOk result (λ _. spec.IsPlaced world.old world.new) }
{
    let alloc = world.alloc();
    let ids = placed_ids(alloc, placed)?;
    let places = names_of(alloc, ids.as_slice())?;
    let more = shared_behind(alloc, world.functions(), functions)?;
    world.number(more.as_slice())?;
    world.set_places(places);
    Ok(())
}

// Whether a run goes on.
fn goes_on(course: &Course) -> bool
    ensures { result ≡ spec.goes_on course.now }
{
    match course {
        Course::On(_, _) => true,
        Course::Over(_) => false,
    }
}

// Whether no memory was left.
fn is_short(stop: &Stop) -> bool
    ensures { result ≡ spec.is_short stop.now }
{
    match stop {
        Stop::NoRoom => true,
        Stop::Undefined(_) => false,
        Stop::Exit(_) => false,
        Stop::StackFull(_) => false,
        Stop::BirthLimit => false,
    }
}

impl MixedRun {
    /// The image of the run is another one from here on. Nothing else changes.
    pub fn relink(&mut self, image: Image)
        ensures { self.new ≡ record self.old { image = image } }
    {
        drop(mem::replace(&mut self.image, image));
    }

    /// The texts of the run become others, while it stands between two goes. Of the static objects those that are not kept die, and new
    /// ones are born where the new texts' entries have them. The run goes on from the same place, or is over as one object too many would
    /// be born. A run that is over stays as it is.
    ///
    /// # Errors
    ///
    /// `NoMemory` alone. The run is over then, and nothing is known of it.
    #[tactic(auto, using(crate::proofs::Changing::changed_where))]
    pub fn change(
        &mut self,
        old: &[Text],
        new: &[Text],
        placed: &[Placed],
        functions: &[Key],
    ) -> Result<(), NoMemory>
        ensures changes { IfOk result (λ _. spec.Changes old.now new.now self.old self.new) }
        ensures lost { OnErr result (IsLost self.new) }
    {
        if !goes_on(&self.course) {
            return Ok(());
        }
        match place_anew(placed, functions, &mut self.world) {
            Ok(()) => self.follow(old, new),
            Err(_) => {
                self.over(MixedEnd::Meant(Ended::NoRoom));
                Err(NoMemory)
            }
        }
    }

    // The deaths and births of a change.
    #[tactic(auto, using(crate::proofs::Changing::done_so))]
    fn follow(&mut self, old: &[Text], new: &[Text]) -> Result<(), NoMemory>
        ensures changes { IfOk result (λ _. spec.ChangesTo (changed old.now new.now self.old.world) self.old self.new) }
        ensures lost { OnErr result (IsLost self.new) }
    {
        match change(old, new, &mut self.world) {
            Ok(()) => Ok(()),
            Err(stop) => self.stopped(stop),
        }
    }

    // The run is over, as its change ended it.
    fn stopped(&mut self, stop: Stop) -> Result<(), NoMemory>
        ensures short { IfOk result (λ _. spec.is_short stop ≡ false) }
        ensures ends { IfOk result (λ _. self.new ≡ standing_over self.old.image self.old.calls self.old.world (ended_by (broken.Meant stop))) }
        ensures lost { OnErr result (IsLost self.new) }
    {
        if is_short(&stop) {
            drop(stop);
            self.over(MixedEnd::Meant(Ended::NoRoom));
            return Err(NoMemory);
        }
        self.over(end_of(Break::Meant(stop)));
        Ok(())
    }
}

/// What is born from here on in a run of interpreted modules stands where it is placed, and the functions have these numbers. Nothing else
/// changes.
///
/// # Errors
///
/// `NoMemory` alone.
pub fn place_run(run: &mut Run, placed: &[Placed], functions: &[Key]) -> Result<(), NoMemory>
    ensures { run.new ≡ run.old }
{
    let alloc = run.world().alloc();
    let ids = placed_ids(alloc, placed)?;
    let places = names_of(alloc, ids.as_slice())?;
    let more = shared_behind(alloc, run.world().functions(), functions)?;
    run.place(more.as_slice(), places)
}

// How a run goes on that has become one of both forms.
fn taken_course(course: Went) -> Course
    ensures { result ≡ spec.taken_course course }
{
    match course {
        Went::On(going, shown) => Course::On(Next::Steps(going), shown),
        Went::Over(ended) => Course::Over(MixedEnd::Meant(ended)),
    }
}

// The same where the objects have places in memory now; else the run is over.
#[tactic(auto, using(crate::proofs::Changing::seen_course, crate::proofs::Changing::unseen_course))]
fn course_of(course: Went, world: &World) -> Course
    ensures { result ≡ spec.course_by world.now.beside.memory course }
{
    if world.shows_memory() {
        taken_course(course)
    } else {
        drop(course);
        Course::Over(MixedEnd::Meant(Ended::NoRoom))
    }
}

// The callers of a run, and no compiled call.
fn taken_calls(alloc: Global, callers: Stack<Caller>) -> Calls
    ensures { result ≡ spec.taken_calls callers }
{
    let mut calls = no_calls(alloc);
    drop(mem::replace(&mut calls.callers, callers));
    calls
}

// The parts of a run as one of both forms.
#[tactic(auto, using(crate::proofs::Changing::is_taken))]
fn taken(alloc: Global, run: Run, image: Image) -> MixedRun
    ensures { spec.IsTakenFrom run image result }
{
    let Parts {
        course,
        callers,
        mut world,
        count,
    } = run.apart();
    let _ = count;
    world.reveal();
    let course = course_of(course, &world);
    MixedRun {
        world,
        image,
        calls: taken_calls(alloc, callers),
        course,
    }
}

/// A run of interpreted modules alone becomes one of both forms, in this image. Its objects stay at their addresses, which are seen from here
/// on, and its record goes on.
pub fn take_over(alloc: Global, run: Run, image: Image) -> MixedRun
    ensures { spec.IsTakenFrom run image result }
{
    taken(alloc, run, image)
}
