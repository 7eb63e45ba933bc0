// What the recursion makes of parts that are typed.
ghost use Rattle.std.specs.Prelude.{◌≡◌, IfOk};
ghost use Rattle.sc_check_scope.specs.Steps.{Says};
ghost use Rattle.sc_check_expr.specs.Typed as spec;

use sc_base::{Duplicate, NoMemory};
use sc_check_declare::{DeclaredType, MemberList};
use sc_check_scope::{CheckFault, State, add_member};
use sc_tree::Identifier;
use std::alloc::Global;

/// The same type once more.
pub(crate) fn copy_of(alloc: Global, t: &DeclaredType) -> Result<DeclaredType, NoMemory>
    ensures { IfOk result (λ r. r ≡ t.now) }
{
    Ok(DeclaredType {
        of: t.of.copy(alloc)?,
        depth: t.depth,
    })
}

/// One more member of this type, behind others.
pub(crate) fn with_member(
    alloc: Global,
    st: &State,
    line: u32,
    identifier: &Option<Identifier>,
    of: DeclaredType,
    done: MemberList,
) -> Result<MemberList, CheckFault>
    ensures { Says (spec.with_member line identifier.now of done st.now) result }
{
    let mut done = done;
    add_member(alloc, st, line, identifier, of, &mut done)?;
    Ok(done)
}
