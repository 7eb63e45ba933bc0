// What declarators, parameters, members and enumeration constants make of parts that are typed (ANSI 3.5.2, 3.5.4).
ghost use Rattle.std.specs.Prelude.{◌≡◌};
ghost use Rattle.sc_check_operand.specs.Constants.{integer_constant as constant_of};
ghost use Rattle.sc_check_declare.specs.Contents.{with_member};
ghost use Rattle.sc_check_declare.specs.Declarators as declarators;
ghost use Rattle.sc_check_scope.specs.Steps.{Says, GivesWith, typing, declaring};
ghost use Rattle.sc_check_scope.specs.Declarations as spec;

use crate::fault::{CheckFault, rule};
use crate::state::{Meaning, State};
use sc_base::{Duplicate, Int, Items, Name};
use sc_check_declare::{
    DeclaredType, Derived, MemberList, Parameters, array_size, declarator, enumerator as written,
    next_enumerator, parameter,
};
use sc_check_operand::integer_constant;
use sc_core::CoreExpr;
use sc_tree::{Identifier, Storage};
use sc_types::Member;
use std::alloc::Global;

fn copied(alloc: Global, t: &DeclaredType) -> Result<DeclaredType, CheckFault>
    ensures { Says (spec.given t.now) result }
{
    let of = t.of.copy(alloc)?;
    Ok(DeclaredType { of, depth: t.depth })
}

/// The type that a name stands for (ANSI 3.5.6).
///
/// # Errors
///
/// `Rule` (X7): the name is that of no type.
pub fn find_typedef(
    alloc: Global,
    st: &State,
    line: u32,
    name: &Name,
) -> Result<DeclaredType, CheckFault>
    ensures { Says (spec.typedef_named line name.now st.now) result }
{
    match st.names.find(name) {
        Some(Meaning::Typedef(t)) => copied(alloc, t),
        _ => Err(rule(line)),
    }
}

/// The value and the type of an integer constant expression (ANSI 3.4).
///
/// # Errors
///
/// `NotConstant` (X8): the expression is none.
pub fn constant_value(line: u32, e: &CoreExpr) -> Result<(u32, Int), CheckFault>
    ensures { Says (typing (constant_of line e.now)) result }
{
    Ok(integer_constant(line, e)?)
}

/// An array of so many elements as a constant says (ANSI 3.5.4.2).
///
/// # Errors
///
/// `Rule` (X7): it is not above 0.
pub fn derived_array(line: u32, value: (u32, Int)) -> Result<Derived, CheckFault>
    ensures { Says (spec.derived_array line value) result }
{
    Ok(Derived::Array(array_size(line, value.1, value.0)?))
}

/// The type that a declarator with these steps gives its name (ANSI 3.5.4).
///
/// # Errors
///
/// As `sc_check_declare::declarator`.
pub fn declared_type(
    alloc: Global,
    st: &State,
    line: u32,
    steps: Items<Derived>,
    base: DeclaredType,
) -> Result<DeclaredType, CheckFault>
    ensures { Says (declaring (declarators.declarator st.now.structs line steps base)) result }
{
    Ok(declarator(alloc, &st.structs, line, steps, base)?)
}

/// One more member (ANSI 3.5.2.1).
///
/// # Errors
///
/// `Rule` (X7): it has no name, a name that is there, or no complete object type.
pub fn add_member(
    alloc: Global,
    st: &State,
    line: u32,
    identifier: &Option<Identifier>,
    of: DeclaredType,
    members: &mut MemberList,
) -> Result<(), CheckFault>
    ensures { GivesWith (spec.add_member st.now line identifier.now of members.old) result members.new }
{
    let Some(id) = identifier else {
        return Err(rule(line));
    };
    let name = id.name.copy(alloc)?;
    let member = Member { name, of: of.of };
    members.push(alloc, &st.structs, line, member)?;
    Ok(())
}

fn is_register(storage: Option<Storage>) -> bool
    ensures { result ≡ spec.is_register storage }
{
    match storage {
        Some(Storage::Register) => true,
        _ => false,
    }
}

/// Declares a parameter where it has a name.
fn declare_parameter(
    alloc: Global,
    st: &mut State,
    line: u32,
    storage: Option<Storage>,
    identifier: &Option<Identifier>,
    p: &DeclaredType,
    at: usize,
) -> Result<(), CheckFault>
    ensures { GivesWith (spec.declare_parameter line storage identifier.now p.now at st.old) result st.new }
{
    let Some(id) = identifier else {
        return Ok(());
    };
    let Ok(at) = u32::try_from(at) else {
        return Err(CheckFault::NoMemory);
    };
    let name = id.name.copy(alloc)?;
    let of = p.of.copy(alloc)?;
    st.declare(
        alloc,
        line,
        name,
        Meaning::Automatic(of, 0, at, is_register(storage)),
    )
}

/// One more parameter, which is declared in the innermost scope where it has a name (ANSI 3.5.4.3).
///
/// # Errors
///
/// - `Rule` (X7): a storage class other than `register`, or a name that is there.
/// - `StructureValue` (X9 `structvalue`): a structure.
pub fn add_parameter(
    alloc: Global,
    st: &mut State,
    line: u32,
    storage: Option<Storage>,
    identifier: &Option<Identifier>,
    of: DeclaredType,
    done: Parameters,
) -> Result<Parameters, CheckFault>
    ensures { GivesWith (spec.add_parameter line storage identifier.now of done st.old) result st.new }
{
    let mut done = done;
    let p = parameter(alloc, line, storage, of)?;
    declare_parameter(alloc, st, line, storage, identifier, &p, done.types.len())?;
    done.push(p)?;
    Ok(done)
}

fn value_of(line: u32, value: Option<(u32, Int)>, before: Option<u32>) -> Result<u32, CheckFault>
    ensures { Says (spec.enumerator_value line value before) result }
{
    match value {
        Some((bits, kind)) => Ok(written(line, kind, bits)?),
        None => Ok(next_enumerator(line, before)?),
    }
}

/// An enumeration constant (ANSI 3.5.2.2) with its value, where one is written, behind one with the 32 bits `before`; the
/// answer is its own 32 bits.
///
/// # Errors
///
/// `Rule` (X7): the value is outside the range of `int`, or the innermost scope has the name.
pub fn enumerator(
    alloc: Global,
    st: &mut State,
    line: u32,
    name: &Name,
    value: Option<(u32, Int)>,
    before: Option<u32>,
) -> Result<u32, CheckFault>
    ensures { GivesWith (spec.enumerator line name.now value before st.old) result st.new }
{
    let bits = value_of(line, value, before)?;
    let own = name.copy(alloc)?;
    st.declare(alloc, line, own, Meaning::Constant(bits))?;
    Ok(bits)
}
