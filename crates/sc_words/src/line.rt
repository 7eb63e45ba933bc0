// The words of a line, one at a time from the front.
ghost use Rattle.std.specs.Prelude.{◌≡◌, ℕ, [], ◌∷◌, length, IfSome, IfNone};
ghost use Rattle.std.specs.List.{take_while};
ghost use Rattle.sc_words.specs.Lines.{words_of, behind_word, is_space, is_word_byte};

fn is_space(b: u8) -> bool
    ensures { result ≡ is_space b }
{
    b == b' ' || b == b'\t' || b == b'\r'
}

// How many bytes stand before the next word.
fn skipped(text: &[u8]) -> usize
    ensures { result ≡ length (take_while is_space text.now) }
{
    text.iter().take_while(|b| is_space(**b)).count()
}

// How many bytes at the front are of a word.
fn joined(text: &[u8]) -> usize
    ensures { result ≡ length (take_while is_word_byte text.now) }
{
    text.iter().take_while(|b| !is_space(**b)).count()
}

/// The first word, and what stands behind it.
pub fn next_word<'a>(text: &'a [u8]) -> Option<(&'a [u8], &'a [u8])>
    ensures none { IfNone result (words_of text.now ≡ []) }
    ensures some { IfSome result (λ found. words_of text.now ≡ found.0.now ∷ words_of found.1.now) }
    ensures behind { IfSome result (λ found. found.1.now ≡ behind_word text.now) }
{
    let start = skipped(text);
    let (_, rest) = text.split_at(start);
    if rest.is_empty() {
        return None;
    }
    let count = joined(rest);
    Some(rest.split_at(count))
}
