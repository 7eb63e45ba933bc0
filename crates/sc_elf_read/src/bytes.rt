// Parts of bytes, and the numbers that they make.
ghost use Rattle.std.specs.Prelude.{◌≡◌, ◌≤◌, length, take, drop, slice_index};
ghost use Rattle.sc_object.specs.Reading.{half_at, word_at};
ghost use Rattle.sc_elf_read.specs.Pieces.{text_len, text, behind_text};

/// The first n bytes, or all.
#[tactic(auto, using(std::proofs::lemmas::List::take_all))]
pub fn front(bytes: &[u8], n: usize) -> &[u8]
    ensures { result.now ≡ take n bytes.now }
{
    if n < bytes.len() { &bytes[..n] } else { bytes }
}

/// What stands behind the first n bytes.
#[tactic(auto, using(std::proofs::lemmas::List::drop_all))]
pub fn behind(bytes: &[u8], n: usize) -> &[u8]
    ensures { result.now ≡ drop n bytes.now }
{
    if n < bytes.len() { &bytes[n..] } else { &[] }
}

/// The byte at a place, or 0.
pub fn byte_at(bytes: &[u8], at: usize) -> u8
    ensures { result ≡ slice_index bytes.now at }
{
    if at < bytes.len() { bytes[at] } else { 0 }
}

/// The number of 16 bits at a place, the lowest byte first. Bytes that are not there are 0.
#[tactic(auto, using(crate::proofs::Numbers::first_two))]
pub fn half_at(bytes: &[u8], at: usize) -> u32
    ensures { result ≡ half_at bytes.now at }
{
    let rest = behind(bytes, at);
    u32::from(byte_at(rest, 0)) + 256 * u32::from(byte_at(rest, 1))
}

/// The number of 32 bits at a place, the lowest byte first. Bytes that are not there are 0.
#[tactic(auto, using(crate::proofs::Numbers::first_four))]
pub fn word_at(bytes: &[u8], at: usize) -> u32
    ensures { result ≡ word_at bytes.now at }
{
    let rest = behind(bytes, at);
    let low = u32::from(byte_at(rest, 0)) + 256 * u32::from(byte_at(rest, 1));
    let high = u32::from(byte_at(rest, 2)) + 256 * u32::from(byte_at(rest, 3));
    low + 65536 * high
}

fn text_len(bytes: &[u8]) -> usize
    ensures len { result ≡ text_len bytes.now }
    ensures bound { result ≤ length bytes.now }
{
    bytes.iter().take_while(|b| **b != 0).count()
}

/// The bytes before the first zero byte.
pub fn text(bytes: &[u8]) -> &[u8]
    ensures { result.now ≡ text bytes.now }
{
    front(bytes, text_len(bytes))
}

/// The bytes behind the first zero byte.
pub fn behind_text(bytes: &[u8]) -> &[u8]
    ensures { result.now ≡ behind_text bytes.now }
{
    behind(bytes, text_len(bytes) + 1)
}
