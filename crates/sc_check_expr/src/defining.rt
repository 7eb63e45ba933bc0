// The type of a function that is defined, whose parameters stand in the scope of its body (ANSI 3.1.2.1, 3.7.1).
ghost use Rattle.std.specs.Prelude.{◌≡◌, map, drop};
ghost use Rattle.sc_check_scope.specs.Steps.{GivesWith};
ghost use Rattle.sc_check_expr.specs.Typed as spec;

use crate::check::{derivation, parameters};
use sc_base::Items;
use sc_check_declare::{DeclaredType, Derived, Parameters};
use sc_check_scope::{CheckFault, Scope, State, declared_type, enter, take_scope};
use sc_tree::{Declarator, Derivation, Parameter};
use std::alloc::Global;

/// The parameters of a function, and the scope in which they stand.
fn own_parameters(
    alloc: Global,
    st: &mut State,
    list: &[Parameter],
) -> Result<(Parameters, Scope), CheckFault>
    ensures { GivesWith (spec.own_parameters (map spec.parametering list.now) st.old) result st.new }
{
    let outer = enter(st);
    let own = parameters(alloc, st, list)?;
    let scope = take_scope(alloc, st, outer)?;
    Ok((own, scope))
}

fn behind_first(steps: &[Derivation]) -> &[Derivation]
    ensures { result.now ≡ drop 1 steps.now }
{
    match steps {
        [] => &[],
        [_, rest @ ..] => rest,
    }
}

/// The type that a declarator of this line gives whose first step is a function with these parameters, from its other steps.
fn type_behind(
    alloc: Global,
    st: &mut State,
    line: u32,
    own: Parameters,
    rest: &[Derivation],
    base: DeclaredType,
) -> Result<DeclaredType, CheckFault>
    ensures { GivesWith (spec.type_behind line own (map spec.stepping rest.now) base st.old) result st.new }
{
    let mut steps = Items::new(alloc);
    steps.push(Derived::Function(own))?;
    for x in rest {
        let step = derivation(alloc, st, line, x)?;
        steps.push(step)?;
    }
    Ok(declared_type(alloc, st, line, steps, base)?)
}

/// The type that the declarator of a function's definition gives its name, from the type of the specifiers, and the scope of the
/// parameters; `list` are the parameters, which are the declarator's first step.
///
/// # Errors
///
/// As `declarator`.
pub fn definition(
    alloc: Global,
    st: &mut State,
    d: &Declarator,
    list: &[Parameter],
    base: DeclaredType,
) -> Result<(DeclaredType, Scope), CheckFault>
    ensures { GivesWith (spec.definition d.now.line (map spec.parametering list.now) (map spec.stepping (drop 1 d.now.derivations)) base st.old) result st.new }
{
    let (own, scope) = own_parameters(alloc, st, list)?;
    let rest = behind_first(d.derivations.as_slice());
    let of = type_behind(alloc, st, d.line, own, rest, base)?;
    Ok((of, scope))
}
