// Texts that are no longer placed.
ghost use Rattle.std.specs.Prelude.{◌≡◌, List, option_to_list};
ghost use Rattle.sc_isa_image.specs.declared.text.Text.{Text as Words};
ghost use Rattle.sc_isa_image.specs.Texts.{starts_at};
ghost use Rattle.sc_isa_image.specs.Lookups.{text_at};
ghost use Rattle.sc_link.specs.Entries.{text_of, texts_if, texts_of};
ghost use Rattle.sc_link.specs.Symbols as symbols;
ghost use Rattle.sc_unlink.specs.Taking.{HasTexts, Lists, Takes, TakesTexts, starts_with_words};

use sc_base::Form;
use sc_isa_image::Image;
use sc_link::{Placed, is_text, place_of, section_of};
use sc_object::FrameTable;

/// Takes the texts of an entry in object form out of an image, all of whose texts are apart. It takes no memory.
pub fn take_texts(image: &mut Image, entry: &Placed)
    ensures { (ts : List Words) → HasTexts ts image.old → Lists ts (texts_if entry.now) → TakesTexts (texts_if entry.now) image.old image.new }
{
    match entry.form {
        Form::Source => {}
        Form::Object => take_all(image, entry),
    }
}

// Takes the texts of an entry out.
fn take_all(image: &mut Image, entry: &Placed)
    ensures { (ts : List Words) → HasTexts ts image.old → Lists ts (texts_of entry.now) → TakesTexts (texts_of entry.now) image.old image.new }
{
    for frame in entry.object.get().frames.as_slice() {
        take_text(image, entry, frame);
    }
}

// Takes the text of the function that a frame is of out, if it is there.
fn take_text(image: &mut Image, entry: &Placed, frame: &FrameTable)
    ensures { (ts : List Words) → HasTexts ts image.old → Lists ts (option_to_list (text_of entry.now frame.now)) → TakesTexts (option_to_list (text_of entry.now frame.now)) image.old image.new }
{
    match start_of(entry, frame) {
        Some(start) => take_start(image, start),
        None => {}
    }
}

// Takes the text that begins at an address out, if there is one.
fn take_start(image: &mut Image, start: u32)
    ensures { (ts : List Words) → HasTexts ts image.old → Takes start image.old image.new }
{
    if begins(image, start) {
        image.take_text(start);
    }
}

// Whether a text begins at an address.
fn begins(image: &Image, start: u32) -> bool
    ensures { result ≡ starts_at start (text_at image.now start) }
{
    match image.text_at(start) {
        Some(text) => text.start == start,
        None => false,
    }
}

// The address of the text of the function that a frame is of, where the text has words.
fn start_of(entry: &Placed, frame: &FrameTable) -> Option<u32>
    ensures { result ≡ starts_with_words (text_of entry.now frame.now) }
{
    let object = entry.object.get();
    let Some(symbol) = object.symbols.as_slice().get(frame.symbol as usize) else {
        return None;
    };
    let Some(section) = section_of(object, symbol) else {
        return None;
    };
    let Some(start) = place_of(entry, symbol) else {
        return None;
    };
    if is_name(symbol.name.as_slice())
        && is_text(section.kind)
        && section.bytes.as_slice().len() >= 4
    {
        Some(start)
    } else {
        None
    }
}

// Whether the name of a symbol is one of a key.
fn is_name(name: &[u8]) -> bool
    ensures { result ≡ symbols.is_name name.now }
{
    !name.is_empty() && name.len() <= 255
}
