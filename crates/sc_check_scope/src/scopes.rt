// Scopes (ANSI 3.1.2.1).
ghost use Rattle.std.specs.Prelude.{◌≡◌, IfOk, OnOk};
ghost use Rattle.sc_check_scope.specs.Scopes as spec;

use crate::state::{Marks, Scope, State};
use sc_base::NoMemory;
use std::alloc::Global;

/// Begins a scope; the answer is where the scope around it began.
pub fn enter(st: &mut State) -> Marks
    ensures outer { result ≡ st.old.began }
    ensures inner { st.new ≡ spec.enter st.old }
{
    let outer = st.began;
    st.began = Marks {
        names: st.names.len(),
        tags: st.tags.len(),
    };
    outer
}

/// Ends the innermost scope, as `leave`; the answer is its names and tags.
pub fn take_scope(alloc: Global, st: &mut State, outer: Marks) -> Result<Scope, NoMemory>
    ensures { IfOk result (λ scope. (scope, st.new) ≡ spec.taken outer st.old) }
{
    let began = st.began;
    let names = st.names.take_scope(alloc, began.names)?;
    let tags = st.tags.take_scope(alloc, began.tags)?;
    st.began = outer;
    Ok(Scope { names, tags })
}

/// The names and tags of a scope that ended, in the innermost scope.
pub fn put_scope(alloc: Global, st: &mut State, scope: Scope) -> Result<(), NoMemory>
    ensures { OnOk result (st.new ≡ spec.with_scope scope st.old) }
{
    let Scope { names, tags } = scope;
    st.names.put_scope(alloc, names)?;
    st.tags.put_scope(alloc, tags)?;
    Ok(())
}

/// Ends the innermost scope; the one around it began there.
pub fn leave(st: &mut State, outer: Marks)
    ensures { st.new ≡ spec.leave outer st.old }
{
    let began = st.began;
    st.names.leave(began.names);
    st.tags.leave(began.tags);
    st.began = outer;
}
