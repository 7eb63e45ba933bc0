// The first two phases of translation (ANSI 2.1.1.2), in one pass.
ghost use Rattle.std.specs.Prelude.{◌≡◌, ◌+◌, ◌≤◌, ◌<◌, IfOk, MatchOption, [], ◌∷◌, length};
ghost use Rattle.sc_lex.specs.Phases as spec;

use crate::mark::Mark;
use sc_base::{Items, NoMemory};
use std::alloc::Global;

/// The first byte where no carriage return stands before a line feed, and the bytes behind it.
fn kept(text: &[u8]) -> Option<(u8, &[u8])>
    ensures { MatchOption result (text.now ≡ []) (λ f. (spec.without_returns text.now ≡ f.0 ∷ spec.without_returns f.1.now) × (length f.1.now < length text.now)) }
{
    match text {
        [] => None,
        [b'\r', b'\n', rest @ ..] => Some((b'\n', rest)),
        [b, rest @ ..] => Some((*b, rest)),
    }
}

fn third_of(c: u8) -> Option<u8>
    ensures { result ≡ spec.third_of c }
{
    match c {
        b'=' => Some(b'#'),
        b'(' => Some(b'['),
        b'/' => Some(b'\\'),
        b')' => Some(b']'),
        b'\'' => Some(b'^'),
        b'<' => Some(b'{'),
        b'!' => Some(b'|'),
        b'>' => Some(b'}'),
        b'-' => Some(b'~'),
        _ => None,
    }
}

/// The byte of the trigraph that the text begins with, and the bytes behind it.
fn trigraph(text: &[u8]) -> Option<(u8, &[u8])>
    ensures { MatchOption result (spec.trigraph_at (spec.without_returns text.now) ≡ None) (λ f. (spec.trigraphs (spec.without_returns text.now) ≡ f.0 ∷ spec.trigraphs (spec.without_returns f.1.now)) × (length f.1.now < length text.now)) }
{
    if let Some((b'?', second)) = kept(text)
        && let Some((b'?', third)) = kept(second)
        && let Some((c, rest)) = kept(third)
        && let Some(byte) = third_of(c)
    {
        return Some((byte, rest));
    }
    None
}

/// The first byte, where a trigraph is one, and the bytes behind it.
fn first(text: &[u8]) -> Option<(u8, &[u8])>
    ensures { MatchOption result (text.now ≡ []) (λ f. (spec.trigraphs (spec.without_returns text.now) ≡ f.0 ∷ spec.trigraphs (spec.without_returns f.1.now)) × (length f.1.now < length text.now)) }
{
    match trigraph(text) {
        Some(found) => Some(found),
        None => kept(text),
    }
}

/// The bytes of a text after trigraphs and joined lines, with their lines.
pub(crate) fn logical(alloc: Global, text: &[u8]) -> Result<Items<Mark>, NoMemory>
    requires { length text.now ≤ 1048576 }
    ensures { IfOk result (λ marks. marks ≡ spec.logical text.now) }
{
    let mut out = Items::new(alloc);
    let mut left = text;
    let mut line = 1;
    'bytes: while let Some((byte, rest)) = first(left) {
        if byte == b'\\'
            && let Some((b'\n', after)) = first(rest)
        {
            line += 1;
            left = after;
        } else {
            out.push(Mark { byte, line })?;
            if byte == b'\n' {
                line += 1;
            }
            left = rest;
        }
    }
    Ok(out)
}
