// The structures and unions of a translation unit, with their layouts.
ghost use Rattle.std.specs.Prelude.{◌≡◌, ◌++◌, ◌∷◌, [], None, List, length, slice_get, slice_index_or, slice_set, is_some, Some, OnOk, OnErr, IfSome, IfOk};
ghost use Rattle.std.specs.Bool.{OnTrue, OnFalse};
ghost use Rattle.sc_types.specs.declared.ctype.StructDef.{StructDef};
ghost use Rattle.sc_types.specs.Layouts.{structure_layout, members_in, is_union_in};
ghost use Rattle.sc_types.specs.Tables as spec;

use crate::layout::ended;
use crate::{Layout, Member, StructDef};
use sc_base::{Duplicate, Items, Name, NoMemory};
use std::alloc::Global;
use std::marker::Model;

/// The structures and unions of a translation unit, seen as the list of them; the place of each is its number.
#[derive(Drop)]
pub struct Structs {
    defs: Vec<StructDef>,
    layouts: Vec<Option<Layout>>,
}

impl Model for Structs {
    ghost use Rattle.std.specs.Prelude.{List};
    ghost use Rattle.sc_types.specs.declared.ctype.StructDef.{StructDef};
    ghost use Rattle.sc_types.specs.contracts.ctype.CType as types;
    ghost use Rattle.std.specs.Coded.{codes};

    ghost Value = { List StructDef };

    ghost coded = { Prim.hlevel (codes, types.the_row.coded) };

    ghost use Rattle.sc_types.specs.Tables.{IsTable};

    ghost view = { λ s. s.defs.items };

    ghost invariant = { λ s. IsTable s.defs.items s.layouts.items };
}

fn entry(layouts: &[Option<Layout>], id: u32) -> Option<Layout>
    ensures { result ≡ slice_index_or layouts.now id None }
{
    match layouts.get(id as usize) {
        Some(layout) => *layout,
        None => None,
    }
}

impl Structs {
    /// An empty table, which takes no memory.
    pub fn new(alloc: Global) -> Structs
        ensures { result ≡ [] }
    {
        Structs {
            defs: Vec::new(alloc),
            layouts: Vec::new(alloc),
        }
    }

    /// The structures by their numbers.
    pub fn as_slice(&self) -> &[StructDef]
        ensures { result.now ≡ self.now }
    {
        self.defs.as_slice()
    }

    /// Adds a structure or a union that is still incomplete (ANSI 3.5.2.3); its number is the length before.
    pub fn declare(&mut self, tag: Option<Name>, is_union: bool) -> Result<(), NoMemory>
        ensures ok { OnOk result (self.new ≡ self.old ++ record { tag = tag; members = None; is_union = is_union } ∷ []) }
        ensures err { OnErr result (self.new ≡ self.old) }
    {
        self.layouts.push(None)?;
        self.defs.push(StructDef {
            tag,
            members: None,
            is_union,
        })?;
        Ok(())
    }
}

impl Structs {
    /// The layout of a structure, where it is complete.
    pub(crate) fn layout(&self, id: u32) -> Option<Layout>
        ensures same { result ≡ structure_layout (length self.now) self.now id }
        ensures small { IfSome result (λ l. spec.IsSmall l) }
    {
        entry(self.layouts.as_slice(), id)
    }

    /// The members of a structure in their order, none while it is incomplete or where there is no such structure.
    pub fn members(&self, id: u32) -> &[Member]
        ensures { result.now ≡ members_in self.now id }
    {
        match self.defs.get(id as usize) {
            Some(def) => match &def.members {
                Some(members) => members.as_slice(),
                None => &[],
            },
            None => &[],
        }
    }

    /// Whether number `id` is a union; false where there is no such number.
    pub fn is_union(&self, id: u32) -> bool
        ensures { result ≡ is_union_in self.now id }
    {
        match self.defs.get(id as usize) {
            Some(def) => def.is_union,
            None => false,
        }
    }

    /// Gives an incomplete structure or union its members (ANSI 3.5.2.1). Where one of them has no complete object type,
    /// or the whole would be larger than `MAX_OBJECT` bytes, the answer is false and the table stays.
    pub fn complete(&mut self, id: u32, members: Items<Member>) -> bool
        requires { spec.IsIncomplete (slice_get self.old id) }
        ensures fits { result ≡ is_some (spec.layout_of_members (is_union_in self.old id) self.old members) }
        ensures done { OnTrue result ((d : StructDef) → slice_get self.old id ≡ Some d → self.new ≡ slice_set self.old id (record d { members = Some members })) }
        ensures kept { OnFalse result (self.new ≡ self.old) }
    {
        let Some(layout) = ended(self.is_union(id), members.as_slice(), self) else {
            return false;
        };
        self.layouts[id as usize] = Some(layout);
        let def = &mut self.defs[id as usize];
        def.members = Some(members);
        true
    }
}

fn copied(alloc: Global, defs: &[StructDef]) -> Result<Vec<StructDef>, NoMemory>
    ensures { IfOk result (λ copy. copy.items ≡ defs.now) }
{
    let mut copies = Vec::new(alloc);
    for def in defs {
        let copy = def.copy(alloc)?;
        copies.push(copy)?;
    }
    Ok(copies)
}

impl Duplicate for Structs {
    fn copy(&self, alloc: Global) -> Result<Structs, NoMemory> {
        let defs = copied(alloc, self.defs.as_slice())?;
        let layouts = Vec::from_slice(alloc, self.layouts.as_slice())?;
        Ok(Structs { defs, layouts })
    }
}
