// Whether texts stand one behind another.
ghost use Rattle.std.specs.Prelude.{◌≡◌, ◌≤◌, IsTrue};
ghost use Rattle.sc_isa_image.specs.Texts.{end_of};
ghost use Rattle.sc_image.specs.Ordered as spec;

use sc_isa_image::Text;
use sc_link::TEXTS_END;

/// Whether each text ends before the next one begins, and inside the area of texts.
pub(crate) fn are_ordered(texts: &[Text]) -> bool
    ensures { result ≡ spec.are_ordered 0 texts.now }
{
    let mut end = 0;
    for text in texts {
        if !is_behind(end, text) {
            return false;
        }
        end = end_of(text);
    }
    true
}

// Whether a text begins at or behind an address and ends inside the area of texts.
fn is_behind(end: u32, text: &Text) -> bool
    ensures same { result ≡ spec.is_behind end text.now }
    ensures inside { IsTrue result → end_of text.now ≤ TEXTS_END }
{
    let len = text.words.as_slice().len();
    text.at.start >= end
        && len <= (TEXTS_END / 4) as usize
        && text.at.start as usize + 4 * len <= TEXTS_END as usize
}

// The address behind a text.
fn end_of(text: &Text) -> u32
    requires { end_of text.now ≤ TEXTS_END }
    ensures { result ≡ end_of text.now }
{
    text.at.start + 4 * text.words.as_slice().len() as u32
}
