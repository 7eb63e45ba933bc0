// Structures, unions and enumerations (ANSI 3.5.2.1 to 3.5.2.3).
ghost use Rattle.std.specs.Prelude.{◌≡◌, [], ◌++◌, ◌∷◌, OnOk, false};
ghost use Rattle.sc_check_declare.specs.Contents as spec;
ghost use Rattle.sc_check_declare.specs.Outcomes.{Meets, Gives};

use crate::derivation::is_signed;
use crate::failure::{Failure, Reason, refusal};
use indexmap::IndexSet;
use sc_base::{Duplicate, Int, Items, Name, NoMemory};
use sc_types::{CType, Member, Structs, is_complete};
use std::alloc::Global;
use std::marker::Model;

/// What a tag names: a structure, or a union where it is true, by its number; or an enumeration.
#[derive(Clone, Copy, Debug, PartialEq, Eq)]
pub enum Tag {
    Structure(u32, bool),
    Enumeration,
}

/// What `struct` or `union` with a tag names: a type that is new, one that is there, or a tag of another kind.
#[derive(Clone, Copy, Debug, PartialEq, Eq)]
pub enum StructureTag {
    New,
    Known(u32),
    Other,
}

/// What `struct` with a tag names, or `union`, from the tag's meaning: of the whole scope, or of the innermost block alone
/// where members follow and in a declaration of the tag alone (ANSI 3.5.2.3).
pub fn structure_tag(is_union: bool, found: Option<Tag>) -> StructureTag
    ensures { result ≡ spec.structure_tag is_union found }
{
    match found {
        None => StructureTag::New,
        Some(Tag::Structure(id, of_union)) => {
            if is_union == of_union {
                StructureTag::Known(id)
            } else {
                StructureTag::Other
            }
        }
        Some(Tag::Enumeration) => StructureTag::Other,
    }
}

/// `enum` with a tag alone: X7 where the tag names no enumeration.
pub fn enumeration_tag(line: u32, found: Option<Tag>) -> Result<(), Failure>
    ensures { Meets (spec.enumeration_tag line found) result }
{
    match found {
        Some(Tag::Enumeration) => Ok(()),
        Some(Tag::Structure(_, _)) | None => Err(refusal(Reason::Rule, line)),
    }
}

/// The members of a structure or a union, which have different names, seen as the list of them.
#[derive(Drop)]
pub struct MemberList {
    members: Items<Member>,
    names: IndexSet<Name>,
}

impl Model for MemberList {
    ghost use Rattle.std.specs.Prelude.{◌≡◌, List, map};
    ghost use Rattle.sc_types.specs.declared.ctype.Member.{Member};
    ghost use Rattle.sc_types.specs.contracts.ctype.CType as types;
    ghost use Rattle.std.specs.Coded.{codes};

    ghost Value = { List Member };

    ghost coded = { Prim.hlevel (codes, types.the_row.coded) };

    ghost view = { λ s. s.members };

    ghost invariant = { λ s. s.names.keys ≡ map (λ m. m.name) s.members };
}

impl MemberList {
    /// No members, which takes no memory.
    pub fn new(alloc: Global) -> MemberList
        ensures { result ≡ [] }
    {
        MemberList {
            members: Items::new(alloc),
            names: IndexSet::new(alloc),
        }
    }

    fn has(&self, name: &Name) -> bool
        ensures { result ≡ spec.has_member name.now self.now }
    {
        self.names.contains(name)
    }

    fn add(&mut self, alloc: Global, member: Member) -> Result<(), NoMemory>
        requires { spec.has_member member.name self.old ≡ false }
        ensures { OnOk result (self.new ≡ self.old ++ member ∷ []) }
    {
        let key = member.name.copy(alloc)?;
        self.members.push(member)?;
        match self.names.insert(key) {
            Ok(_) => Ok(()),
            Err(_) => {
                self.members.pop();
                Err(NoMemory)
            }
        }
    }

    /// One more member (ANSI 3.5.2.1): X7 where its type is no complete object type, or its name is there.
    pub fn push(
        &mut self,
        alloc: Global,
        structs: &Structs,
        line: u32,
        member: Member,
    ) -> Result<(), Failure>
        ensures { Gives (spec.with_member structs.now line member.name member.of self.old) result self.new }
    {
        if !is_complete(&member.of, structs) || self.has(&member.name) {
            return Err(refusal(Reason::Rule, line));
        }
        self.add(alloc, member)?;
        Ok(())
    }

    /// The members in order. It takes no memory.
    pub fn into_items(self) -> Items<Member>
        ensures { result ≡ self }
    {
        let MemberList { members, names } = self;
        drop(names);
        members
    }
}

/// Gives a structure or a union its members (ANSI 3.5.2.1): X7 where it has members already, or is not there, X10 `size` where it is
/// too large. The members are of complete object types.
pub fn complete(
    structs: &mut Structs,
    line: u32,
    id: u32,
    members: Items<Member>,
) -> Result<(), Failure>
    ensures { Gives (spec.complete line id members structs.old) result structs.new }
{
    match structs.as_slice().get(id as usize) {
        Some(def) => {
            if def.members.is_some() {
                return Err(refusal(Reason::Rule, line));
            }
        }
        None => return Err(refusal(Reason::Rule, line)),
    }
    if structs.complete(id, members) {
        Ok(())
    } else {
        Err(refusal(Reason::Size, line))
    }
}

/// The 32 bits of an enumeration constant, from the value that is written for it (ANSI 3.5.2.2): X7 outside the range of `int`.
pub fn enumerator(line: u32, kind: Int, bits: u32) -> Result<u32, Failure>
    ensures { Meets (spec.written line kind bits) result }
{
    if is_signed(kind) || bits < 0x8000_0000 {
        Ok(bits)
    } else {
        Err(refusal(Reason::Rule, line))
    }
}

/// The 32 bits of an enumeration constant for which no value is written, from those of the one before it (ANSI 3.5.2.2): X7
/// outside the range of `int`.
pub fn next_enumerator(line: u32, before: Option<u32>) -> Result<u32, Failure>
    ensures { Meets (spec.next line before) result }
{
    match before {
        None => Ok(0),
        Some(0x7fff_ffff) => Err(refusal(Reason::Rule, line)),
        Some(0xffff_ffff) => Ok(0),
        Some(bits) => Ok(bits + 1),
    }
}
