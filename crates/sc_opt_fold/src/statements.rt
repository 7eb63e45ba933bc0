// Constants are folded in statements.
ghost use Rattle.std.specs.Prelude.{◌≡◌, IfOk, map, option_map};
ghost use Rattle.sc_opt_fold.specs.Folded as spec;

use crate::expressions::fold_expr;
use sc_base::{Duplicate, Items, NoMemory, Shared};
use sc_core::{AutoInit, CoreExpr, CoreStmt, LabelAt, SwitchLabel};
use std::alloc::Global;

fn folded_shared(alloc: Global, e: &CoreExpr) -> Result<Shared<CoreExpr>, NoMemory>
    ensures { IfOk result (λ f. f ≡ spec.folded e.now) }
{
    let e = fold_expr(alloc, e)?;
    let e = Shared::new(alloc, e)?;
    Ok(e)
}

fn folded_option(
    alloc: Global,
    e: &Option<Shared<CoreExpr>>,
) -> Result<Option<Shared<CoreExpr>>, NoMemory>
    ensures { IfOk result (λ f. f ≡ option_map spec.folded e.now) }
{
    match e {
        Some(e) => {
            let e = folded_shared(alloc, e.get())?;
            Ok(Some(e))
        }
        None => Ok(None),
    }
}

fn folded_piece(alloc: Global, p: &AutoInit) -> Result<AutoInit, NoMemory>
    ensures { IfOk result (λ q. q ≡ spec.folded_piece p.now) }
{
    match p {
        AutoInit::Value(n, t, e) => {
            let e = folded_shared(alloc, e.get())?;
            Ok(AutoInit::Value(*n, t.copy(alloc)?, e))
        }
        AutoInit::Text(n, bytes) => Ok(AutoInit::Text(*n, bytes.copy(alloc)?)),
        AutoInit::Zero(n, count) => Ok(AutoInit::Zero(*n, *count)),
        AutoInit::Structure(size, e) => {
            let e = folded_shared(alloc, e.get())?;
            Ok(AutoInit::Structure(*size, e))
        }
    }
}

fn folded_pieces(alloc: Global, ps: &[AutoInit]) -> Result<Items<AutoInit>, NoMemory>
    ensures { IfOk result (λ qs. qs ≡ map spec.folded_piece ps.now) }
{
    let mut all = Items::new(alloc);
    for p in ps {
        all.push(folded_piece(alloc, p)?)?;
    }
    Ok(all)
}

fn labels_copied(alloc: Global, labels: &[LabelAt]) -> Result<Items<LabelAt>, NoMemory>
    ensures { IfOk result (λ copy. copy ≡ labels.now) }
{
    Ok(Items::from_vec(Vec::from_slice(alloc, labels)?))
}

fn cases_copied(alloc: Global, labels: &[SwitchLabel]) -> Result<Items<SwitchLabel>, NoMemory>
    ensures { IfOk result (λ copy. copy ≡ labels.now) }
{
    Ok(Items::from_vec(Vec::from_slice(alloc, labels)?))
}

#[cycle(statements)]
fn folded_part(alloc: Global, s: &CoreStmt) -> Result<Shared<CoreStmt>, NoMemory>
    ensures { IfOk result (λ r. r ≡ spec.folded_statement s.now) }
{
    let s = fold_statement(alloc, s)?;
    let s = Shared::new(alloc, s)?;
    Ok(s)
}

#[cycle(statements)]
fn folded_parts(alloc: Global, ss: &[Shared<CoreStmt>]) -> Result<Items<Shared<CoreStmt>>, NoMemory>
    ensures { IfOk result (λ rs. rs ≡ map spec.folded_statement ss.now) }
{
    let mut parts = Items::new(alloc);
    for s in ss {
        parts.push(folded_part(alloc, s.get())?)?;
    }
    Ok(parts)
}

/// A statement whose expressions are folded.
///
/// # Errors
///
/// `NoMemory` alone.
#[cycle(statements)]
pub fn fold_statement(alloc: Global, s: &CoreStmt) -> Result<CoreStmt, NoMemory>
    ensures { IfOk result (λ r. r ≡ spec.folded_statement s.now) }
{
    match s {
        CoreStmt::Block(l, b, labels, ss) => {
            let labels = labels_copied(alloc, labels.as_slice())?;
            let ss = folded_parts(alloc, ss.as_slice())?;
            Ok(CoreStmt::Block(*l, *b, labels, ss))
        }
        CoreStmt::Initialize(l, b, i, ps) => {
            let ps = folded_pieces(alloc, ps.as_slice())?;
            Ok(CoreStmt::Initialize(*l, *b, *i, ps))
        }
        CoreStmt::Empty(l) => Ok(CoreStmt::Empty(*l)),
        CoreStmt::Expression(l, e) => {
            let e = folded_shared(alloc, e.get())?;
            Ok(CoreStmt::Expression(*l, e))
        }
        CoreStmt::If(l, e, first, other) => {
            let e = folded_shared(alloc, e.get())?;
            let first = folded_part(alloc, first.get())?;
            match other {
                Some(other) => {
                    let other = folded_part(alloc, other.get())?;
                    Ok(CoreStmt::If(*l, e, first, Some(other)))
                }
                None => Ok(CoreStmt::If(*l, e, first, None)),
            }
        }
        CoreStmt::Switch(l, e, labels, body) => {
            let e = folded_shared(alloc, e.get())?;
            let labels = cases_copied(alloc, labels.as_slice())?;
            let body = folded_part(alloc, body.get())?;
            Ok(CoreStmt::Switch(*l, e, labels, body))
        }
        CoreStmt::While(l, e, body) => {
            let e = folded_shared(alloc, e.get())?;
            let body = folded_part(alloc, body.get())?;
            Ok(CoreStmt::While(*l, e, body))
        }
        CoreStmt::Do(l, body, line, e) => {
            let body = folded_part(alloc, body.get())?;
            let e = folded_shared(alloc, e.get())?;
            Ok(CoreStmt::Do(*l, body, *line, e))
        }
        CoreStmt::For(l, first, e, after, body) => {
            let first = folded_option(alloc, first)?;
            let e = folded_option(alloc, e)?;
            let after = folded_option(alloc, after)?;
            let body = folded_part(alloc, body.get())?;
            Ok(CoreStmt::For(*l, first, e, after, body))
        }
        CoreStmt::Case(l, s) => {
            let s = folded_part(alloc, s.get())?;
            Ok(CoreStmt::Case(*l, s))
        }
        CoreStmt::Default(l, s) => {
            let s = folded_part(alloc, s.get())?;
            Ok(CoreStmt::Default(*l, s))
        }
        CoreStmt::Label(l, s) => {
            let s = folded_part(alloc, s.get())?;
            Ok(CoreStmt::Label(*l, s))
        }
        CoreStmt::Goto(l, label) => Ok(CoreStmt::Goto(*l, *label)),
        CoreStmt::Continue(l) => Ok(CoreStmt::Continue(*l)),
        CoreStmt::Break(l) => Ok(CoreStmt::Break(*l)),
        CoreStmt::Return(l, e) => {
            let e = folded_option(alloc, e)?;
            Ok(CoreStmt::Return(*l, e))
        }
    }
}
