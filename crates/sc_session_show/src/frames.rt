// The active calls.
ghost use Rattle.std.specs.Prelude.{◌≡◌, ◌++◌, IfOk, OnOk, MatchOption, None, Some};
ghost use Rattle.sc_session_show.specs.Frames as spec;
ghost use Rattle.sc_session_show.specs.Lines.{answer_line};

use sc_base::{Bytes, NoMemory};
use sc_core::Fun;
use sc_core_held::Text;
use sc_interp_world::{Frame, World};
use sc_session_texts::{put, put_decimal, put_key};
use std::alloc::Global;

/// The text with a number.
pub(crate) fn text_numbered<'a>(texts: &'a [Text], n: u32) -> Option<&'a Text>
    ensures { MatchOption result (spec.text_numbered texts.now n ≡ None) (λ t. spec.text_numbered texts.now n ≡ Some t.now) }
{
    for t in texts {
        if t.number == n {
            return Some(t);
        }
    }
    None
}

fn function_in<'a>(held: &'a [Text], f: &Frame) -> Option<&'a Fun>
    ensures { MatchOption result (spec.function_in f.now (spec.text_numbered held.now f.now.text) ≡ None) (λ g. spec.function_in f.now (spec.text_numbered held.now f.now.text) ≡ Some g.now) }
{
    match text_numbered(held, f.text) {
        None => None,
        Some(t) => t.core.get().fun(&f.key.name),
    }
}

// The line at which a call stands.
pub(crate) fn line_at(held: &[Text], f: &Frame) -> u32
    ensures { result ≡ spec.line_at held.now f.now }
{
    if f.line == 0 {
        match function_in(held, f) {
            None => 0,
            Some(g) => g.line,
        }
    } else {
        f.line
    }
}

/// Puts an answer's line behind a text.
pub fn put_line(text: &mut Vec<u8>, said: &[u8]) -> Result<(), NoMemory>
    ensures { OnOk result (text.new.items ≡ text.old.items ++ answer_line said.now) }
{
    put(text, b"> ")?;
    put(text, said)?;
    put(text, b"\n")?;
    Ok(())
}

/// A line for an interpreted call: its function, its module, and the line at which it stands.
pub fn where_line(alloc: Global, held: &[Text], f: &Frame) -> Result<Vec<u8>, NoMemory>
    ensures { IfOk result (λ text. text.items ≡ spec.where_line held.now f.now) }
{
    let mut said = Vec::new(alloc);
    put_key(&mut said, alloc, &f.key)?;
    put(&mut said, b" at ")?;
    put(&mut said, f.home.as_slice())?;
    put(&mut said, b":")?;
    put_decimal(&mut said, alloc, line_at(held, f))?;
    let mut text = Vec::new(alloc);
    put_line(&mut text, said.as_slice())?;
    Ok(text)
}

/// A line for each active call from the innermost out: its function, its module, and the line at which it stands. The
/// texts are those of the run by their numbers.
pub fn where_lines(alloc: Global, held: &[Text], world: &World) -> Result<Bytes, NoMemory>
    ensures { IfOk result (λ text. text ≡ spec.where_lines held.now world.now.frames) }
{
    let mut text = Vec::new(alloc);
    let mut outer = world.frames();
    while let Some((f, rest)) = outer.split_last() {
        let line = where_line(alloc, held, f)?;
        put(&mut text, line.as_slice())?;
        outer = rest;
    }
    Ok(Bytes::from_vec(text))
}
