// The list of entries and the functions by their numbers, with the one image of them.
ghost use Rattle.std.specs.Prelude.{◌≡◌, ◌++◌, ◌∷◌, [], map, IfErr, IfOk, OnErr, OnOk, Some};
ghost use Rattle.sc_link.specs.declared.placed.Placed.{Placed as Listed};
ghost use Rattle.sc_link.specs.Areas.{IsRefused};
ghost use Rattle.sc_link.specs.Entries.{literals_in};
ghost use Rattle.sc_link.specs.Linked.{AreDistinct, IsLinked};
ghost use Rattle.sc_incr.specs.Modules.{IsFull, added, chosen, in_form, new_functions, placed_behind, present, replaced, with_form};
ghost use Rattle.sc_incr.specs.Program.{forgotten, left, no_entries, removed};
ghost use Rattle.sc_incr.specs.Settled.{Agrees, IsPatched, KeepsLiterals};
ghost use Rattle.sc_incr.specs.Sound.{IsSound};
ghost use Rattle.sc_incr.specs.Uses.{users_in as users_of};

use crate::changing::{exchange, remove_at};
use crate::entry::Entry;
use crate::forgetting::forget_all;
use crate::forming::form_at;
use crate::leaving::position;
use crate::module::Module;
use crate::planning::{Plan, make_plan};
use crate::users::users_in;
use crate::uses::Use;
use sc_base::{Form, Key, Name, NoMemory};
use sc_isa_image::Image;
use sc_link::{LinkFault, copies, link};
use std::alloc::Global;
use std::marker::Model;

/// The entries, the functions by their numbers, and the one image of them, which each change patches. It is seen as the
/// entries and the functions.
#[derive(Drop)]
pub struct Linked {
    entries: Vec<Entry>,
    funs: Vec<Key>,
    image: Image,
}

impl Model for Linked {
    ghost use Rattle.sc_incr.specs.Settled.{IsPatched};
    ghost use Rattle.sc_incr.specs.Program.{Program};

    ghost Value = { Program };

    ghost view = { λ l. record { placed = l.entries.items; funs = l.funs.items } };

    ghost invariant = { λ l. IsPatched l.entries.items l.funs.items l.image };
}

impl Linked {
    /// No entry, with the library's functions, which have the first numbers.
    ///
    /// # Errors
    ///
    /// `Space` where there are more than 65,536 functions.
    pub fn new(alloc: Global, library: &[Key]) -> Result<Linked, LinkFault>
        requires { AreDistinct library.now }
        ensures list { IfOk result (λ l. l ≡ no_entries library.now) }
        ensures refused { IfErr result (IsRefused [] library.now) }
    {
        let image = match link(alloc, &[], library) {
            Ok(image) => image,
            Err(fault) => return Err(fault),
        };
        match copies(alloc, library) {
            Ok(funs) => Ok(with_image(alloc, funs, image)),
            Err(_) => Err(LinkFault::NoMemory),
        }
    }

    /// The image of the entries and functions.
    pub fn image(&self) -> &Image
        ensures { IsLinked self.now.placed self.now.funs result.now }
    {
        &self.image
    }

    /// The entries, in their order.
    pub fn placed(&self) -> &[Entry]
        ensures { result.now ≡ self.now.placed }
    {
        self.entries.as_slice()
    }

    /// The functions, by their numbers.
    pub fn funs(&self) -> &[Key]
        ensures { result.now ≡ self.now.funs }
    {
        self.funs.as_slice()
    }

    /// The relocations that name a key, in the order of the entries and then of their objects.
    pub fn users(&self, alloc: Global, key: &Key) -> Result<Vec<Use>, NoMemory>
        ensures { IfOk result (λ users. users.items ≡ users_of self.now.placed key.now) }
    {
        users_in(alloc, self.entries.as_slice(), key)
    }

    /// A module more. Its texts and objects are placed behind all others, its relocations made, and those of other entries
    /// that name a key which gets a value are made again; no other word is written. A section that keeps a place has that
    /// one. All memory is taken before the first word is written.
    ///
    /// # Errors
    ///
    /// `Space` names an area that has no room for it. All stays as it was then, and where memory runs out.
    pub fn add(
        &mut self,
        alloc: Global,
        module: &Module,
        kept: &[Option<u32>],
    ) -> Result<(), LinkFault>
        requires sound { IsSound (chosen «module».now) }
        requires agrees { Agrees self.old.placed self.old.funs (placed_behind self.old.placed «module».now kept.now) (new_functions self.old.funs «module».now.functions) }
        requires kept { KeepsLiterals (literals_in self.old.placed) (placed_behind self.old.placed «module».now kept.now) kept.now }
        ensures ok { OnOk result (self.new ≡ added «module».now kept.now self.old) }
        ensures err { OnErr result (self.new ≡ self.old) }
        ensures full { IfErr result (IsFull self.old.placed self.old.funs «module».now.form (chosen «module».now) kept.now (new_functions self.old.funs «module».now.functions)) }
    {
        put_module(
            alloc,
            &mut self.entries,
            &mut self.funs,
            &mut self.image,
            module,
            kept,
            false,
        )
    }

    /// A module in place of the present entry of its name, which goes, or stays in its place as a former text if a run goes
    /// on. The new entry is placed behind all others, the old one too. A section that keeps a place has that one.
    ///
    /// # Errors
    ///
    /// `Space` names an area that has no room for it. All stays as it was then, and where memory runs out.
    pub fn replace(
        &mut self,
        alloc: Global,
        module: &Module,
        kept: &[Option<u32>],
        keep_old: bool,
    ) -> Result<(), LinkFault>
        requires sound { IsSound (chosen «module».now) }
        requires agrees { Agrees (left keep_old «module».now.name self.old.placed) self.old.funs (placed_behind self.old.placed «module».now kept.now) (new_functions self.old.funs «module».now.functions) }
        requires kept { KeepsLiterals (literals_in self.old.placed) (placed_behind self.old.placed «module».now kept.now) kept.now }
        ensures ok { OnOk result (self.new ≡ replaced keep_old «module».now kept.now self.old) }
        ensures err { OnErr result (self.new ≡ self.old) }
        ensures full { IfErr result (IsFull self.old.placed self.old.funs «module».now.form (chosen «module».now) kept.now (new_functions self.old.funs «module».now.functions)) }
    {
        put_module(
            alloc,
            &mut self.entries,
            &mut self.funs,
            &mut self.image,
            module,
            kept,
            keep_old,
        )
    }

    /// The present entry of a module in another form. Its texts are placed behind all others, its objects and literals keep
    /// their places. The old entry goes, or stays in its place as a former text if a run goes on.
    ///
    /// # Errors
    ///
    /// `Space` names an area that has no room for it. All stays as it was then, and where memory runs out.
    pub fn set_form(
        &mut self,
        alloc: Global,
        name: &Name,
        form: Form,
        keep_old: bool,
    ) -> Result<(), LinkFault>
        requires sound { (e : Listed) → present name.now self.old.placed ≡ Some e → IsSound e.object }
        requires agrees { (e : Listed) → present name.now self.old.placed ≡ Some e → Agrees (left keep_old name.now self.old.placed) self.old.funs (in_form self.old.placed form e) [] }
        ensures ok { OnOk result (self.new ≡ with_form keep_old name.now form self.old) }
        ensures err { OnErr result (self.new ≡ self.old) }
        ensures full { (e : Listed) → present name.now self.old.placed ≡ Some e → IfErr result (IsFull self.old.placed self.old.funs form e.object (map Some e.places) []) }
    {
        match position(self.entries.as_slice(), name) {
            Some(at) => form_at(
                alloc,
                &mut self.entries,
                &mut self.funs,
                &mut self.image,
                at,
                form,
                keep_old,
            ),
            None => Ok(()),
        }
    }

    /// Takes the former texts away. It takes no memory.
    pub fn forget(&mut self, alloc: Global)
        ensures { self.new ≡ forgotten self.old }
    {
        forget_all(
            alloc,
            &mut self.entries,
            self.funs.as_slice(),
            &mut self.image,
        );
    }

    /// The present entry of a module goes. If a run goes on, it stays in its place as a former text. The stubs of its
    /// functions ask for the service, and the relocations that name its objects are made again; no other word is written.
    /// All memory is taken before the first word is.
    ///
    /// # Errors
    ///
    /// Where memory runs out, all stays as it was.
    pub fn remove(&mut self, alloc: Global, name: &Name, keep_old: bool) -> Result<(), NoMemory>
        ensures ok { OnOk result (self.new ≡ removed keep_old name.now self.old) }
        ensures err { OnErr result (self.new ≡ self.old) }
    {
        match position(self.entries.as_slice(), name) {
            Some(at) => remove_at(
                alloc,
                &mut self.entries,
                self.funs.as_slice(),
                &mut self.image,
                at,
                keep_old,
            ),
            None => Ok(()),
        }
    }
}

// No entry, with functions and their image.
fn with_image(alloc: Global, funs: Vec<Key>, image: Image) -> Linked
    requires { IsPatched [] funs.items image }
    ensures { result ≡ no_entries funs.items }
{
    Linked {
        entries: Vec::new(alloc),
        funs,
        image,
    }
}

// A module in place of the present entry of its name, if there is one.
fn put_module(
    alloc: Global,
    entries: &mut Vec<Entry>,
    funs: &mut Vec<Key>,
    image: &mut Image,
    module: &Module,
    kept: &[Option<u32>],
    keep_old: bool,
) -> Result<(), LinkFault>
    requires patched { IsPatched entries.old.items funs.old.items image.old }
    requires sound { IsSound (chosen «module».now) }
    requires agrees { Agrees (left keep_old «module».now.name entries.old.items) funs.old.items (placed_behind entries.old.items «module».now kept.now) (new_functions funs.old.items «module».now.functions) }
    requires kept { KeepsLiterals (literals_in entries.old.items) (placed_behind entries.old.items «module».now kept.now) kept.now }
    ensures patched { IsPatched entries.new.items funs.new.items image.new }
    ensures entries { OnOk result (entries.new.items ≡ left keep_old «module».now.name entries.old.items ++ placed_behind entries.old.items «module».now kept.now ∷ []) }
    ensures funs { OnOk result (funs.new.items ≡ funs.old.items ++ new_functions funs.old.items «module».now.functions) }
    ensures old_entries { OnErr result (entries.new.items ≡ entries.old.items) }
    ensures old_funs { OnErr result (funs.new.items ≡ funs.old.items) }
    ensures full { IfErr result (IsFull entries.old.items funs.old.items «module».now.form (chosen «module».now) kept.now (new_functions funs.old.items «module».now.functions)) }
{
    let plan = match make_plan(
        alloc,
        entries.as_slice(),
        funs.as_slice(),
        image,
        module,
        kept,
    ) {
        Ok(plan) => plan,
        Err(fault) => return Err(fault),
    };
    let Plan { placed, functions } = plan;
    match exchange(
        alloc,
        entries,
        funs,
        image,
        &module.name,
        keep_old,
        placed,
        functions,
    ) {
        Ok(()) => Ok(()),
        Err(_) => Err(LinkFault::NoMemory),
    }
}
