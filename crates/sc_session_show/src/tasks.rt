// What is still to be shown of an object, the next part on top.
use sc_interp_world::World;
use sc_types::{CType, Layout, Member, Structs};

/// An object of a world, and the structures of its type.
#[derive(Clone, Copy)]
pub struct Scene<'a> {
    pub world: &'a World,
    pub structs: &'a Structs,
    pub object: u32,
}

/// The elements of an array that are left: their size, how many are to be shown and how many are only counted, and where
/// the first of them stands.
#[derive(Clone, Copy)]
pub struct Run {
    pub size: u32,
    pub left: u32,
    pub more: u32,
    pub at: u32,
}

/// A part of an object. Each has the number of structures that may still be inside one another.
#[derive(Clone, Copy)]
pub enum Task<'a> {
    /// A part of this type, from an offset on.
    Part(&'a CType, u32, usize),
    /// The elements behind the first one.
    Elements(&'a CType, Run, usize),
    /// Whether they are those of a union, the members behind those that have this layout, and where the whole stands.
    Members(bool, &'a [Member], Layout, u32, usize),
}
