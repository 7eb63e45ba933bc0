// Where a name is to be replaced, and the arguments of its call.
ghost use Rattle.std.specs.Prelude.{◌≡◌, [], ◌∷◌, ◌++◌, MatchOption, IfOk, OnOk};
ghost use Rattle.std.specs.Option.{option_map};
ghost use Rattle.sc_macro.specs.Calls as spec;
ghost use Rattle.sc_macro.specs.Table.{table};
ghost use Rattle.sc_macro.specs.Define as define;

use crate::hide::Hide;
use crate::macros::{Macro, MacroKind, Macros};
use crate::marked::{Marked, is_mark, is_name};
use crate::reading::Reading;
use crate::redefine::is_function;
use crate::waiting::{Argument, Waiting};
use sc_base::{Items, NoMemory};
use std::alloc::Global;
use std::mem;

/// The arguments of a call, with the hide set of its closing parenthesis.
#[derive(Drop)]
pub struct Call<'a> {
    pub arguments: Items<Argument<'a>>,
    pub hide: Hide,
}

/// Whether a macro is replaced before this list: a function-like one wants `(`.
fn applies(kind: MacroKind, rest: &Waiting<'_>) -> bool
    ensures { result ≡ spec.applies (define.is_function kind) rest.now }
{
    if !is_function(kind) {
        return true;
    }
    match rest.top() {
        Some(next) => is_mark(&next.token, b'('),
        None => false,
    }
}

impl Macros {
    /// The macro that replaces a token before this list, with its number.
    pub(crate) fn use_at(&self, token: &Marked, rest: &Waiting<'_>) -> Option<(usize, &Macro)>
        ensures { option_map (λ p. (p.0, p.1.now)) result ≡ spec.use_at (table self.now) token.now rest.now }
    {
        if !is_name(&token.token) {
            return None;
        }
        let (number, definition) = self.find(&token.token.text)?;
        if token.hide.holds(number) {
            return None;
        }
        if applies(definition.kind, rest) {
            Some((number, definition))
        } else {
            None
        }
    }

    /// Moves the tokens that stay, up to the first that is replaced, which it gives.
    pub(crate) fn skip(
        &self,
        alloc: Global,
        rest: &mut Waiting<'_>,
        out: &mut Items<Marked>,
    ) -> Result<Option<Marked>, NoMemory>
        ensures moved { IfOk result (λ next. out.new ≡ out.old ++ spec.front (table self.now) rest.old) }
        ensures next { IfOk result (λ next. MatchOption next (spec.behind (table self.now) rest.old ≡ []) (λ t. spec.behind (table self.now) rest.old ≡ t ∷ rest.new)) }
    {
        'skipping: while let Some(token) = rest.pop(alloc)? {
            if self.use_at(&token, rest).is_some() {
                return Ok(Some(token));
            }
            out.push(token)?;
        }
        Ok(None)
    }
}

/// The call whose opening parenthesis was taken, or None where it is not closed.
pub fn collect<'a>(alloc: Global, rest: &mut Waiting<'a>) -> Result<Option<Call<'a>>, NoMemory>
    ensures { IfOk result (λ call. option_map (λ c. (c.arguments, c.hide, rest.new)) call ≡ spec.collect 0 [] [] rest.old) }
{
    let mut reading = Reading::new(alloc, mem::replace(rest, Waiting::empty(alloc)));
    let mut depth: usize = 0;
    let mut arguments = Items::new(alloc);
    'collecting: while let Some(token) = reading.next() {
        if is_mark(&token.token, b')') {
            if depth == 0 {
                let hide = token.hide.share()?;
                arguments.push(reading.finish(alloc))?;
                *rest = reading.rest(alloc)?;
                return Ok(Some(Call { arguments, hide }));
            }
            depth -= 1;
            reading.shift()?;
        } else if is_mark(&token.token, b'(') {
            if depth == usize::MAX {
                return Err(NoMemory);
            }
            depth += 1;
            reading.shift()?;
        } else if is_mark(&token.token, b',') && depth == 0 {
            arguments.push(reading.finish(alloc))?;
        } else {
            reading.shift()?;
        }
    }
    Ok(None)
}

/// Whether a macro with so many parameters takes these arguments.
pub fn fits(parameters: usize, arguments: &Items<Argument<'_>>) -> bool
    ensures { result ≡ spec.fits parameters arguments.now }
{
    if parameters == 0 {
        match arguments.as_slice() {
            [argument] => argument.is_empty(),
            _ => false,
        }
    } else {
        parameters == arguments.as_slice().len()
    }
}
