// The types that declarators give (ANSI 3.5.4).
ghost use Rattle.std.specs.Prelude.{◌≡◌, [], IfOk, OnOk};
ghost use Rattle.sc_types.specs.declared.ctype.CType.{out-CType};
ghost use Rattle.sc_ops.specs.Numbers.{is_signed as has_sign};
ghost use Rattle.sc_check_declare.specs.Declarators as spec;
ghost use Rattle.sc_check_declare.specs.Outcomes.{Meets};

use crate::count::is_small;
use crate::failure::{Failure, Reason, refusal};
use crate::qualify::unqualified;
use crate::storage::{Place, may_stand};
use sc_base::{Int, Items, NoMemory, Shared};
use sc_tree::Storage;
use sc_types::{CType, Signature, Structs, is_complete, is_object};
use std::alloc::Global;

/// The most derivations inside one another in a type.
pub const MAX_DEPTH: u32 = 32;

/// A type that a declaration gives, and how many derivations are inside one another in it: pointers, arrays and
/// functions, those of typedef names too.
#[derive(Drop)]
pub struct DeclaredType {
    pub of: CType,
    pub depth: u32,
}

/// The types of a function's parameters, without their own qualifiers, and the most derivations of one of them.
#[derive(Drop)]
pub struct Parameters {
    pub types: Items<CType>,
    pub depth: u32,
}

/// One step of a declarator, with its size or its parameters (ANSI 3.5.4.1 to 3.5.4.3).
#[derive(Drop)]
pub enum Derived {
    /// A pointer, and whether it is `const`.
    Pointer(bool),
    /// An array, with its size, 0 where none is written.
    Array(u32),
    Function(Parameters),
}

/// One derivation more.
fn deeper(line: u32, depth: u32) -> Result<u32, Failure>
    ensures { Meets (spec.deeper line depth) result }
{
    if depth < MAX_DEPTH {
        Ok(depth + 1)
    } else {
        Err(refusal(Reason::Height, line))
    }
}

/// Refuses a type that is made of too many types.
fn counted(line: u32, made: DeclaredType) -> Result<DeclaredType, Failure>
    ensures { Meets (spec.counted line made) result }
{
    if is_small(&made.of) {
        Ok(made)
    } else {
        Err(refusal(Reason::Height, line))
    }
}

fn pointer_type(alloc: Global, target: CType, constant: bool) -> Result<CType, NoMemory>
    ensures { IfOk result (λ t. t ≡ CType.Pointer target constant) }
{
    Ok(CType::Pointer(Shared::new(alloc, target)?, constant))
}

fn array_type(alloc: Global, element: CType, length: u32) -> Result<CType, NoMemory>
    ensures { IfOk result (λ t. t ≡ CType.Array element length) }
{
    Ok(CType::Array(Shared::new(alloc, element)?, length))
}

fn function_type(alloc: Global, gives: CType, params: Parameters) -> Result<CType, NoMemory>
    ensures { IfOk result (λ t. t ≡ spec.function_type gives params) }
{
    let signature = Signature {
        result: gives,
        params: params.types,
        variadic: false,
    };
    Ok(CType::Function(Shared::new(alloc, signature)?))
}

fn pointer(
    alloc: Global,
    line: u32,
    constant: bool,
    base: DeclaredType,
) -> Result<DeclaredType, Failure>
    ensures { Meets (spec.pointer line constant base) result }
{
    let depth = deeper(line, base.depth)?;
    let of = pointer_type(alloc, base.of, constant)?;
    counted(line, DeclaredType { of, depth })
}

/// Refuses an array that is too large.
fn fitting(
    structs: &Structs,
    line: u32,
    length: u32,
    made: DeclaredType,
) -> Result<DeclaredType, Failure>
    ensures { Meets (spec.fits structs.now line length made) result }
{
    if length == 0 || is_object(&made.of, structs) {
        Ok(made)
    } else {
        Err(refusal(Reason::Size, line))
    }
}

fn array(
    alloc: Global,
    structs: &Structs,
    line: u32,
    length: u32,
    base: DeclaredType,
) -> Result<DeclaredType, Failure>
    ensures { Meets (spec.array structs.now line length base) result }
{
    if !is_complete(&base.of, structs) {
        return Err(refusal(Reason::Rule, line));
    }
    let depth = deeper(line, base.depth)?;
    let of = array_type(alloc, base.of, length)?;
    let made = counted(line, DeclaredType { of, depth })?;
    fitting(structs, line, length, made)
}

/// Why a function may not give this type.
fn result_fault(of: &CType) -> Option<Reason>
    ensures { result ≡ spec.result_fault (out-CType of.now) }
{
    match of {
        CType::Void(_) | CType::Int(_, _) | CType::Pointer(_, _) => None,
        CType::Array(_, _) | CType::Function(_) => Some(Reason::Rule),
        CType::Struct(_, _) => Some(Reason::StructureValue),
    }
}

fn function(
    alloc: Global,
    line: u32,
    params: Parameters,
    base: DeclaredType,
) -> Result<DeclaredType, Failure>
    ensures { Meets (spec.function line params base) result }
{
    if let Some(reason) = result_fault(&base.of) {
        return Err(refusal(reason, line));
    }
    let depth = deeper(line, base.depth.max(params.depth))?;
    let of = function_type(alloc, base.of, params)?;
    counted(line, DeclaredType { of, depth })
}

/// The type that one step of a declarator makes of a type, or its refusal: X7 for an element that is no complete object
/// type and for a function that gives an array or a function, X9 `structvalue` for one that gives a structure, X10 `height` and
/// `size`.
pub fn derive(
    alloc: Global,
    structs: &Structs,
    line: u32,
    step: Derived,
    base: DeclaredType,
) -> Result<DeclaredType, Failure>
    ensures { Meets (spec.derive structs.now line step base) result }
{
    match step {
        Derived::Pointer(constant) => pointer(alloc, line, constant, base),
        Derived::Array(length) => array(alloc, structs, line, length, base),
        Derived::Function(params) => function(alloc, line, params, base),
    }
}

/// The type that a declarator gives its name, from the type of the specifiers: its steps stand from the name outwards.
pub fn declarator(
    alloc: Global,
    structs: &Structs,
    line: u32,
    steps: Items<Derived>,
    base: DeclaredType,
) -> Result<DeclaredType, Failure>
    ensures { Meets (spec.declarator structs.now line steps base) result }
{
    let mut steps = steps;
    let mut made = base;
    while let Some(step) = steps.pop() {
        made = derive(alloc, structs, line, step, made)?;
    }
    Ok(made)
}

fn adjusted(alloc: Global, line: u32, p: DeclaredType) -> Result<DeclaredType, Failure>
    ensures { Meets (spec.adjust line p (out-CType p.of)) result }
{
    let DeclaredType { of, depth } = p;
    match of {
        CType::Array(element, _) => Ok(DeclaredType {
            of: CType::Pointer(element, false),
            depth,
        }),
        CType::Function(signature) => {
            let of = CType::Function(signature);
            pointer(alloc, line, false, DeclaredType { of, depth })
        }
        CType::Struct(_, _) => Err(refusal(Reason::StructureValue, line)),
        CType::Void(constant) => Ok(DeclaredType {
            of: CType::Void(constant),
            depth,
        }),
        CType::Int(kind, constant) => Ok(DeclaredType {
            of: CType::Int(kind, constant),
            depth,
        }),
        CType::Pointer(target, constant) => Ok(DeclaredType {
            of: CType::Pointer(target, constant),
            depth,
        }),
    }
}

/// The type of a parameter (ANSI 3.5.4.3): an array or a function becomes a pointer. X7 for a storage class other than
/// `register`, X9 `structvalue` for a structure.
pub fn parameter(
    alloc: Global,
    line: u32,
    storage: Option<Storage>,
    p: DeclaredType,
) -> Result<DeclaredType, Failure>
    ensures { Meets (spec.parameter line storage p) result }
{
    if may_stand(Place::Parameter, storage) {
        adjusted(alloc, line, p)
    } else {
        Err(refusal(Reason::Rule, line))
    }
}

impl Parameters {
    /// No parameters, which takes no memory.
    pub fn new(alloc: Global) -> Parameters
        ensures { result ≡ record { types = []; depth = 0 } }
    {
        Parameters {
            types: Items::new(alloc),
            depth: 0,
        }
    }

    /// One more parameter.
    pub fn push(&mut self, p: DeclaredType) -> Result<(), NoMemory>
        ensures { OnOk result (self.new ≡ spec.with_parameter self.old p) }
    {
        self.depth = self.depth.max(p.depth);
        self.types.push(unqualified(p.of))
    }
}

/// X7 where a parameter of a definition has no name or no complete object type (ANSI 3.7.1).
pub fn defined_parameter(
    structs: &Structs,
    line: u32,
    named: bool,
    of: &CType,
) -> Result<(), Failure>
    ensures { Meets (spec.defined_parameter structs.now line named of.now) result }
{
    if named && is_complete(of, structs) {
        Ok(())
    } else {
        Err(refusal(Reason::Rule, line))
    }
}

pub(crate) fn is_signed(kind: Int) -> bool
    ensures { result ≡ has_sign kind }
{
    match kind {
        Int::SChar | Int::Short | Int::Int | Int::Long => true,
        Int::Char | Int::UChar | Int::UShort | Int::UInt | Int::ULong => false,
    }
}

/// The size of an array, from the value of its constant expression (ANSI 3.5.4.2). X7 where it is not above 0.
pub fn array_size(line: u32, kind: Int, bits: u32) -> Result<u32, Failure>
    ensures { Meets (spec.array_size line kind bits) result }
{
    if bits == 0 || is_signed(kind) && bits >= 0x8000_0000 {
        Err(refusal(Reason::Rule, line))
    } else {
        Ok(bits)
    }
}
