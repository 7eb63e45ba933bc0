// Where two files differ.
ghost use Rattle.std.specs.Prelude.{◌≡◌};
ghost use Rattle.sc_session_forms.specs.Differences as spec;

/// The first offset at which bytes differ or the shorter ones end; none where they are the same.
pub fn difference(left: &[u8], right: &[u8]) -> Option<usize>
    ensures { result ≡ spec.difference left.now right.now }
{
    let mut rest = right;
    for i in 0..left.len() {
        let Some((first, behind)) = rest.split_first() else {
            return Some(i);
        };
        if *first != left[i] {
            return Some(i);
        }
        rest = behind;
    }
    if rest.is_empty() {
        None
    } else {
        Some(left.len())
    }
}
