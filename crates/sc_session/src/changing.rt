// Modules are loaded, edited, given another form and taken away.
ghost use Rattle.std.specs.Prelude.{◌≡◌, ◌≤◌, true, None, MatchResult};
ghost use Rattle.sc_words.specs.Commands.{IsFile};
ghost use Rattle.sc_words.specs.Parts.{is_module_name};
ghost use Rattle.sc_session.specs.Changing as changing;
ghost use Rattle.sc_session.specs.Loading as loading;
ghost use Rattle.sc_session.specs.Mixing as mixing;
ghost use Rattle.sc_session.specs.Modules.{texts};
ghost use Rattle.sc_session.specs.States.{if_absent};
ghost use Rattle.sc_session.specs.Swapping as swapping;
ghost use Rattle.sc_session.specs.Transcript as spec;
ghost use Rattle.sc_session.specs.Transcript.{moment};

use crate::choice::Choice;
use crate::input::file_text;
use crate::joining::{Taken, take_anew, take_away, take_new};
use crate::linking::{ImageFault, full_with, put_form};
use crate::present::{Present, modules_copied, object_named, present_of};
use crate::session::Session;
use crate::sources::{file_of, unbuilt};
use crate::swapping::{Compared, compare_file};
use crate::versions::{kept_count, put_version, stays};
use sc_base::{Form, Items, Name, NoMemory};
use sc_build::{Built, build};
use sc_outside::Files;
use sc_words::{Answer, Denied};
use std::alloc::Global;
use std::mem;

impl Session {
    // Before the modules change: what they are is kept for a run that stays, and given too, so that it can be put back.
    fn keep(&mut self, alloc: Global, stayed: bool) -> Result<Items<Present>, NoMemory>
        ensures { MatchResult result (λ back. (stayed ≡ true → back ≡ self.old.modules) × (self.new ≡ changing.kept stayed self.old)) (λ _. self.new ≡ self.old) }
    {
        if !stayed {
            return Ok(Items::new(alloc));
        }
        let back = modules_copied(alloc, self.modules.as_slice())?;
        let modules = modules_copied(alloc, self.modules.as_slice())?;
        match put_version(&mut self.past, modules) {
            Ok(()) => Ok(back),
            Err(e) => Err(e),
        }
    }

    // Behind a change of the modules: where no run stays there is none any more, and one that needs an image has another one.
    fn settle(&mut self, alloc: Global, stayed: bool) -> Result<(), ImageFault>
        ensures { MatchResult result (λ _. mixing.Settles stayed self.old self.new) (λ f. mixing.Unsettled stayed self.old f × (self.new ≡ self.old)) }
    {
        if stayed {
            self.relink(alloc)
        } else {
            self.rest();
            Ok(())
        }
    }

    // The modules are those that were kept, and so are the numbers.
    fn put_back(&mut self, back: Items<Present>, before: usize, numbers: usize)
        ensures { self.new ≡ mixing.returned back before numbers self.old }
    {
        drop(mem::replace(&mut self.modules, back.into_vec()));
        self.past.truncate(before);
        self.numbers.truncate(numbers);
    }

    // Behind a change of the modules; or all is as it was kept.
    fn finish(
        &mut self,
        alloc: Global,
        back: Items<Present>,
        before: usize,
        numbers: usize,
        stayed: bool,
    ) -> Result<(), ImageFault>
        ensures { spec.Finishes self.old back before numbers stayed result self.new }
    {
        match self.settle(alloc, stayed) {
            Ok(()) => {
                drop(back);
                Ok(())
            }
            Err(fault) => {
                self.put_back(back, before, numbers);
                Err(fault)
            }
        }
    }

    pub(crate) fn unload(&mut self, alloc: Global, name: Name) -> Answer
        ensures { spec.Unloads self.old name result self.new }
    {
        let stayed = stays(&self.state);
        let before = kept_count(&self.past);
        let numbers = self.numbers.len();
        match self.keep(alloc, stayed) {
            Ok(back) => {
                take_away(&mut self.modules, &name);
                match self.finish(alloc, back, before, numbers, stayed) {
                    Ok(()) => Answer::Unloaded(name),
                    Err(_) => {
                        drop(name);
                        Answer::NoMemory
                    }
                }
            }
            Err(_) => {
                drop(name);
                Answer::NoMemory
            }
        }
    }

    pub(crate) fn load<F: Files>(&mut self, alloc: Global, name: Name, files: &mut F) -> Answer
        requires { is_module_name name ≡ true }
        ensures answer { spec.Loads (moment self.old (F.held files.old) (F.faults files.old)) name (loading.file_of name) result (moment self.new (F.held files.new) (F.faults files.new)) }
        ensures later { F.faults files.old ≤ F.faults files.new }
        ensures held { F.held files.new ≡ F.held files.old }
    {
        match file_of(alloc, &name) {
            Ok(file) => self.load_from(alloc, name, file.as_str(), files),
            Err(_) => Answer::NoMemory,
        }
    }

    // Loads a module from its file.
    fn load_from<F: Files>(
        &mut self,
        alloc: Global,
        name: Name,
        file: &str,
        files: &mut F,
    ) -> Answer
        ensures answer { spec.Loads (moment self.old (F.held files.old) (F.faults files.old)) name file.now result (moment self.new (F.held files.new) (F.faults files.new)) }
        ensures later { F.faults files.old ≤ F.faults files.new }
        ensures held { F.held files.new ≡ F.held files.old }
    {
        match build(alloc, &name, file, files) {
            Ok(built) => match self.take(alloc, built) {
                Taken::Joined => Answer::Loaded(name),
                Taken::Denied(denied) => Answer::Refused(denied),
                Taken::NoMemory => Answer::NoMemory,
            },
            Err(fault) => match unbuilt(alloc, file, fault) {
                Some(denied) => Answer::Refused(denied),
                None => Answer::NoMemory,
            },
        }
    }

    // A module that was translated is put behind the others, where it goes with them.
    fn take(&mut self, alloc: Global, built: Built) -> Taken
        ensures { spec.Joins self.old built result self.new }
    {
        let Some(loaded) = self.loaded.checked_add(1) else {
            drop(built);
            return Taken::NoMemory;
        };
        let Ok(new) = present_of(alloc, self.loaded, built) else {
            return Taken::NoMemory;
        };
        self.add(alloc, loaded, new)
    }

    fn add(&mut self, alloc: Global, loaded: u32, new: Present) -> Taken
        ensures { spec.Changes self.old loaded new (loading.with_module self.old.modules new) result self.new }
    {
        let Ok(versions) = self.versions(alloc) else {
            drop(new);
            return Taken::NoMemory;
        };
        let stayed = stays(&self.state);
        let before = kept_count(&self.past);
        let numbers = self.numbers.len();
        match self.keep(alloc, stayed) {
            Ok(back) => {
                let versions = versions.as_slice();
                let modules = &mut self.modules;
                let taken = take_new(alloc, versions, modules, &mut self.numbers, new);
                self.conclude(alloc, back, before, numbers, stayed, loaded, taken)
            }
            Err(_) => {
                drop(new);
                Taken::NoMemory
            }
        }
    }

    // The session behind a change that was made or not.
    fn conclude(
        &mut self,
        alloc: Global,
        back: Items<Present>,
        before: usize,
        numbers: usize,
        stayed: bool,
        loaded: u32,
        taken: Taken,
    ) -> Taken
        ensures { spec.Closes self.old back before numbers stayed loaded taken result self.new }
    {
        match taken {
            Taken::Joined => match self.finish(alloc, back, before, numbers, stayed) {
                Ok(()) => {
                    self.loaded = loaded;
                    Taken::Joined
                }
                Err(ImageFault::Space(area)) => Taken::Denied(Denied::Space(area)),
                Err(ImageFault::NoMemory) => Taken::NoMemory,
            },
            Taken::Denied(denied) => {
                drop(back);
                self.past.truncate(before);
                Taken::Denied(denied)
            }
            Taken::NoMemory => {
                drop(back);
                self.past.truncate(before);
                Taken::NoMemory
            }
        }
    }

    pub(crate) fn edit<F: Files>(
        &mut self,
        alloc: Global,
        name: Name,
        file: Option<Name>,
        files: &mut F,
    ) -> Answer
        requires named { is_module_name name ≡ true }
        requires file { IsFile file }
        ensures answer { spec.Edits (moment self.old (F.held files.old) (F.faults files.old)) name (loading.file_or name file) result (moment self.new (F.held files.new) (F.faults files.new)) }
        ensures later { F.faults files.old ≤ F.faults files.new }
        ensures held { F.held files.new ≡ F.held files.old }
    {
        match file {
            Some(file) => self.edit_from(alloc, name, file_text(&file), files),
            None => match file_of(alloc, &name) {
                Ok(file) => self.edit_from(alloc, name, file.as_str(), files),
                Err(_) => Answer::NoMemory,
            },
        }
    }

    // Translates a module anew from a file.
    fn edit_from<F: Files>(
        &mut self,
        alloc: Global,
        name: Name,
        file: &str,
        files: &mut F,
    ) -> Answer
        ensures answer { spec.Edits (moment self.old (F.held files.old) (F.faults files.old)) name file.now result (moment self.new (F.held files.new) (F.faults files.new)) }
        ensures later { F.faults files.old ≤ F.faults files.new }
        ensures held { F.held files.new ≡ F.held files.old }
    {
        match build(alloc, &name, file, files) {
            Ok(built) => match self.replace(alloc, built) {
                Taken::Joined => Answer::Edited(name),
                Taken::Denied(denied) => Answer::Refused(denied),
                Taken::NoMemory => Answer::NoMemory,
            },
            Err(fault) => match unbuilt(alloc, file, fault) {
                Some(denied) => Answer::Refused(denied),
                None => Answer::NoMemory,
            },
        }
    }

    // A module that was translated takes the place of the one that has its name, where it goes with the others.
    fn replace(&mut self, alloc: Global, built: Built) -> Taken
        ensures { spec.TakesPlace self.old built result self.new }
    {
        let Some(loaded) = self.loaded.checked_add(1) else {
            drop(built);
            return Taken::NoMemory;
        };
        let Ok(new) = present_of(alloc, self.loaded, built) else {
            return Taken::NoMemory;
        };
        self.put(alloc, loaded, new)
    }

    fn put(&mut self, alloc: Global, loaded: u32, new: Present) -> Taken
        ensures { spec.Changes self.old loaded new (loading.in_place self.old.modules new) result self.new }
    {
        let Ok(versions) = self.versions(alloc) else {
            drop(new);
            return Taken::NoMemory;
        };
        let stayed = stays(&self.state);
        let before = kept_count(&self.past);
        let numbers = self.numbers.len();
        match self.keep(alloc, stayed) {
            Ok(back) => {
                let versions = versions.as_slice();
                let modules = &mut self.modules;
                let taken = take_anew(alloc, versions, modules, &mut self.numbers, new);
                self.conclude(alloc, back, before, numbers, stayed, loaded, taken)
            }
            Err(_) => {
                drop(new);
                Taken::NoMemory
            }
        }
    }

    // The module with a name gets a form; in object form it runs the plain object.
    pub(crate) fn swap<F: Files>(
        &mut self,
        alloc: Global,
        name: Name,
        form: Form,
        files: &mut F,
    ) -> Answer
        requires named { is_module_name name ≡ true }
        requires present { if_absent name (texts self.old.modules) ≡ None }
        ensures answer { spec.Swaps (moment self.old (F.held files.old) (F.faults files.old)) name form Choice.Plain result (moment self.new (F.held files.new) (F.faults files.new)) }
        ensures later { F.faults files.old ≤ F.faults files.new }
        ensures held { F.held files.new ≡ F.held files.old }
    {
        match form {
            Form::Source => self.reform(alloc, name, form, Choice::Plain),
            Form::Object => self.swap_to_object(alloc, name, Choice::Plain, files),
        }
    }

    fn reform(&mut self, alloc: Global, name: Name, form: Form, choice: Choice) -> Answer
        ensures { spec.Forms self.old name form choice result self.new }
    {
        let stayed = stays(&self.state);
        let before = kept_count(&self.past);
        let numbers = self.numbers.len();
        match self.keep(alloc, stayed) {
            Ok(back) => {
                put_form(&mut self.modules, &name, form, choice);
                match self.finish(alloc, back, before, numbers, stayed) {
                    Ok(()) => swapped(name, form, choice),
                    Err(fault) => {
                        drop(name);
                        unformed(form, fault)
                    }
                }
            }
            Err(_) => {
                drop(name);
                Answer::NoMemory
            }
        }
    }

    // That object of a module is to be run, where its file is the object.
    pub(crate) fn swap_to_object<F: Files>(
        &mut self,
        alloc: Global,
        name: Name,
        choice: Choice,
        files: &mut F,
    ) -> Answer
        requires named { is_module_name name ≡ true }
        requires present { if_absent name (texts self.old.modules) ≡ None }
        ensures answer { spec.Swaps (moment self.old (F.held files.old) (F.faults files.old)) name Form.Object choice result (moment self.new (F.held files.new) (F.faults files.new)) }
        ensures later { F.faults files.old ≤ F.faults files.new }
        ensures held { F.held files.new ≡ F.held files.old }
    {
        match self.compare(alloc, &name, choice, files) {
            Compared::Same => self.swap_kept(alloc, name, choice),
            Compared::Denied(denied) => {
                drop(name);
                Answer::Refused(denied)
            }
            Compared::NoMemory => {
                drop(name);
                Answer::NoMemory
            }
        }
    }

    // The file of that object of a module beside the object.
    fn compare<F: Files>(
        &self,
        alloc: Global,
        name: &Name,
        choice: Choice,
        files: &mut F,
    ) -> Compared
        requires named { is_module_name name.now ≡ true }
        requires present { if_absent name.now (texts self.now.modules) ≡ None }
        ensures compares { swapping.ComparesKept self.now (F.held files.old) name.now choice (F.faults files.old) (F.faults files.new) result }
        ensures later { F.faults files.old ≤ F.faults files.new }
        ensures held { F.held files.new ≡ F.held files.old }
    {
        match object_named(self.modules.as_slice(), name, choice) {
            Some(object) => compare_file(alloc, name, choice, object, files),
            None => unreachable!(),
        }
    }

    // That object of a module is to be run, where the image has room for it.
    fn swap_kept(&mut self, alloc: Global, name: Name, choice: Choice) -> Answer
        ensures { spec.Reforms self.old name choice result self.new }
    {
        if stays(&self.state) {
            return self.reform(alloc, name, Form::Object, choice);
        }
        let modules = self.modules.as_slice();
        let Ok(full) = full_with(alloc, &name, choice, modules, &self.numbers) else {
            drop(name);
            return Answer::NoMemory;
        };
        match full {
            None => self.reform(alloc, name, Form::Object, choice),
            Some(area) => {
                drop(name);
                Answer::Refused(Denied::Space(area))
            }
        }
    }
}

// The answer where a module got a form.
fn swapped(name: Name, form: Form, choice: Choice) -> Answer
    ensures { result ≡ spec.swapped_said name form choice }
{
    match choice {
        Choice::Plain => Answer::Swapped(name, form),
        Choice::Fast => Answer::SwappedFast(name),
    }
}

// Why a module does not get a form. One that is interpreted takes no room.
fn unformed(form: Form, fault: ImageFault) -> Answer
    ensures { result ≡ spec.unformed form fault }
{
    match form {
        Form::Source => Answer::NoMemory,
        Form::Object => match fault {
            ImageFault::Space(area) => Answer::Refused(Denied::Space(area)),
            ImageFault::NoMemory => Answer::NoMemory,
        },
    }
}
