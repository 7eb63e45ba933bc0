// The size and alignment of objects (ANSI 3.3.3.4, 3.5.2.1; ILP32).
ghost use Rattle.std.specs.Prelude.{◌≡◌, ◌≤◌, ◌<◌, ◌+◌, ◌%◌, ◌*◌, Some, IsTrue, IfSome, is_some, length, false};
ghost use Rattle.sc_types.specs.Layouts as spec;
ghost use Rattle.sc_types.specs.Tables as table;

use crate::{CType, Member, Structs};
use sc_base::Int;

/// The greatest object in bytes.
pub const MAX_OBJECT: u32 = 1048576;

/// The size of an object in bytes, and the number of which its address is a multiple.
#[derive(Clone, Copy, Debug, PartialEq, Eq)]
pub struct Layout {
    pub size: u32,
    pub align: u32,
}

/// `char` has 1 byte, `short` 2, `int` and `long` 4.
pub fn int_size(i: Int) -> u32
    ensures { result ≡ spec.int_size i }
{
    match i {
        Int::Char | Int::SChar | Int::UChar => 1,
        Int::Short | Int::UShort => 2,
        Int::Int | Int::UInt | Int::Long | Int::ULong => 4,
    }
}

/// The least multiple of `align` that is not below `place`.
pub(crate) fn rounded(place: u32, align: u32) -> u32
    requires low { 1 ≤ align }
    requires high { align ≤ 4 }
    requires place { place ≤ 2 * table.largest }
    ensures same { result ≡ spec.rounded place align }
    ensures multiple { result % align ≡ 0 }
    ensures above { place ≤ result }
    ensures least { result < place + align }
{
    (place + (align - 1)) / align * align
}

fn scalar(size: u32) -> Layout
    ensures { result ≡ spec.scalar size }
{
    Layout { size, align: size }
}

/// The layout, where the object is not too large.
pub(crate) fn within(layout: Layout) -> Option<Layout>
    ensures { result ≡ table.within (Some layout) }
{
    if layout.size <= MAX_OBJECT {
        Some(layout)
    } else {
        None
    }
}

fn repeated(element: Layout, length: u32) -> Option<Layout>
    requires { table.IsSmall element }
    ensures same { result ≡ table.within (spec.repeated length (Some element)) }
    ensures small { IfSome result (λ l. table.IsSmall l) }
{
    if length == 0 {
        return None;
    }
    let size = element.size.checked_mul(length)?;
    within(Layout {
        size,
        align: element.align,
    })
}

/// The layout of an object of type `t`, where the type is complete and its objects are not too large.
pub(crate) fn sized(t: &CType, s: &Structs) -> Option<Layout>
    ensures same { result ≡ table.within (spec.layout_in s.now t.now) }
    ensures small { IfSome result (λ l. table.IsSmall l) }
{
    match t {
        CType::Void(_) | CType::Function(_) => None,
        CType::Int(kind, _) => Some(scalar(int_size(*kind))),
        CType::Pointer(_, _) => Some(scalar(4)),
        CType::Array(element, length) => match sized(element.get(), s) {
            Some(layout) => repeated(layout, *length),
            None => None,
        },
        CType::Struct(id, _) => s.layout(*id),
    }
}

/// Whether `t` is a complete object type (ANSI 3.1.2.5) whose objects have at most `MAX_OBJECT` bytes.
pub fn is_object(t: &CType, s: &Structs) -> bool
    ensures { result ≡ table.is_object s.now t.now }
{
    sized(t, s).is_some()
}

/// The layout of a complete object type.
fn layout_of(t: &CType, s: &Structs) -> Layout
    requires { IsTrue (table.is_object s.now t.now) }
    ensures same { spec.layout_in s.now t.now ≡ Some result }
    ensures small { table.IsSmall result }
{
    match sized(t, s) {
        Some(layout) => layout,
        None => unreachable!(),
    }
}

/// The bytes of an object of type `t` (ANSI 3.3.3.4).
pub fn size_of(t: &CType, s: &Structs) -> u32
    requires { IsTrue (table.is_object s.now t.now) }
    ensures same { result ≡ spec.size_in s.now t.now }
    ensures few { result ≤ MAX_OBJECT }
{
    layout_of(t, s).size
}

/// The number of which the address of an object of type `t` is a multiple: 1, 2 or 4.
pub fn align_of(t: &CType, s: &Structs) -> u32
    requires { IsTrue (table.is_object s.now t.now) }
    ensures { result ≡ spec.align_in s.now t.now }
{
    layout_of(t, s).align
}

/// Whether `t` is complete (ANSI 3.1.2.5), so that an object of it has a size.
pub fn is_complete(t: &CType, s: &Structs) -> bool
    ensures { result ≡ is_some (spec.layout_in s.now t.now) }
{
    match t {
        CType::Void(_) | CType::Function(_) => false,
        CType::Int(_, _) | CType::Pointer(_, _) => true,
        CType::Array(element, length) => *length != 0 && is_complete(element.get(), s),
        CType::Struct(id, _) => s.layout(*id).is_some(),
    }
}

/// The bytes of some members and one more: behind them in a structure, from 0 on in a union.
fn size_with(is_union: bool, size: u32, own: Layout) -> u32
    requires size { size ≤ table.largest }
    requires own { table.IsSmall own }
    ensures { result ≡ spec.size_with is_union size own }
{
    if is_union {
        size.max(own.size)
    } else {
        rounded(size, own.align) + own.size
    }
}

/// One more member beside those that have the layout `before`.
fn joined(is_union: bool, before: Layout, own: Layout) -> Layout
    requires before { table.IsSmall before }
    requires own { table.IsSmall own }
    ensures { result ≡ spec.joined is_union before own }
{
    Layout {
        size: size_with(is_union, before.size, own),
        align: before.align.max(own.align),
    }
}

/// Where these members end, if they are the first of a structure or a union, and their greatest alignment; `None` where
/// one of them is no object, or above `MAX_OBJECT` bytes.
fn end_of(is_union: bool, members: &[Member], s: &Structs) -> Option<Layout>
    ensures same { result ≡ table.within (spec.members_from is_union (spec.layout_in s.now) members.now spec.beginning) }
    ensures small { IfSome result (λ l. table.IsSmall l) }
{
    let mut end = Layout { size: 0, align: 1 };
    for member in members {
        let own = match sized(&member.of, s) {
            Some(own) => own,
            None => return None,
        };
        end = joined(is_union, end, own);
        if end.size > MAX_OBJECT {
            return None;
        }
    }
    Some(end)
}

/// The layout of a structure or a union with these members, where they are objects and it is not too large.
pub(crate) fn ended(is_union: bool, members: &[Member], s: &Structs) -> Option<Layout>
    ensures same { result ≡ table.layout_of_members is_union s.now members.now }
    ensures small { IfSome result (λ l. table.IsSmall l) }
{
    match end_of(is_union, members, s) {
        Some(end) => within(Layout {
            size: rounded(end.size, end.align),
            align: end.align,
        }),
        None => None,
    }
}

/// The bytes of a structure that stand before a member, counted from 0; none in a union (ANSI 3.5.2.1).
pub fn offset_of(s: &Structs, id: u32, member: u32) -> u32
    requires object { IsTrue (table.is_object s.now (CType.Struct id false)) }
    requires there { member < length (spec.members_in s.now id) }
    ensures { result ≡ spec.offset_in s.now id member }
{
    if s.is_union(id) {
        return 0;
    }
    let members = s.members(id);
    let own = layout_of(&members[member as usize].of, s);
    match end_of(false, &members[..member as usize], s) {
        Some(end) => rounded(end.size, own.align),
        None => unreachable!(),
    }
}
