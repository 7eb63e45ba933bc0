// The types of C (ANSI 3.1.2.5) and the structures and unions of a translation unit.
ghost use Rattle.std.specs.Prelude.{◌≡◌, IfOk};

use sc_base::{Duplicate, Int, Items, Name, NoMemory, Shared};
use std::alloc::Global;

/// A type. The truth value says whether it is `const`; the length 0 of an array says that its size is unknown; the
/// number of a structure or a union is its place in the unit's `Structs`.
#[cycle(types)]
#[derive(Drop)]
pub enum CType {
    Void(bool),
    Int(Int, bool),
    Pointer(Shared<CType>, bool),
    Array(Shared<CType>, u32),
    Struct(u32, bool),
    Function(Shared<Signature>),
}

/// What a function takes and gives (ANSI 3.5.4.3).
#[cycle(types)]
#[derive(Drop)]
pub struct Signature {
    pub result: CType,
    pub params: Items<CType>,
    pub variadic: bool,
}

/// A member of a structure or a union.
#[derive(Drop)]
pub struct Member {
    pub name: Name,
    pub of: CType,
}

/// A structure or a union: its tag, where it has one, and its members, where it is complete (ANSI 3.5.2.1).
#[derive(Drop)]
pub struct StructDef {
    pub tag: Option<Name>,
    pub members: Option<Items<Member>>,
    pub is_union: bool,
}

impl Duplicate for CType {
    fn copy(&self, _: Global) -> Result<CType, NoMemory> {
        match self {
            CType::Void(constant) => Ok(CType::Void(*constant)),
            CType::Int(kind, constant) => Ok(CType::Int(*kind, *constant)),
            CType::Pointer(target, constant) => Ok(CType::Pointer(target.share()?, *constant)),
            CType::Array(element, length) => Ok(CType::Array(element.share()?, *length)),
            CType::Struct(id, constant) => Ok(CType::Struct(*id, *constant)),
            CType::Function(signature) => Ok(CType::Function(signature.share()?)),
        }
    }
}

impl Duplicate for Signature {
    fn copy(&self, alloc: Global) -> Result<Signature, NoMemory> {
        let result = self.result.copy(alloc)?;
        let params = self.params.copy(alloc)?;
        Ok(Signature {
            result,
            params,
            variadic: self.variadic,
        })
    }
}

impl Duplicate for Member {
    fn copy(&self, alloc: Global) -> Result<Member, NoMemory> {
        let name = self.name.copy(alloc)?;
        let of = self.of.copy(alloc)?;
        Ok(Member { name, of })
    }
}

impl Duplicate for StructDef {
    fn copy(&self, alloc: Global) -> Result<StructDef, NoMemory> {
        let tag = match &self.tag {
            Some(tag) => Some(tag.copy(alloc)?),
            None => None,
        };
        let members = match &self.members {
            Some(members) => Some(members.copy(alloc)?),
            None => None,
        };
        let is_union = self.is_union;
        Ok(StructDef {
            tag,
            members,
            is_union,
        })
    }
}
