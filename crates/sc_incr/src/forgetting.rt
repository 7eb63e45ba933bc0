// Former texts that no call in progress uses any more.
ghost use Rattle.std.specs.Prelude.{◌≡◌, ◌++◌, filter, MatchOption};
ghost use Rattle.sc_incr.specs.Leaving.{AreAllPresent, IsAt, IsFormerAt};
ghost use Rattle.sc_incr.specs.Program as program;
ghost use Rattle.sc_incr.specs.Settled.{IsPatched};

use crate::entry::Entry;
use crate::leaving::drop_at;
use sc_base::Key;
use sc_isa_image::Image;
use std::alloc::Global;

/// Takes all former texts out of a list and out of its image. It takes no memory.
pub fn forget_all(alloc: Global, entries: &mut Vec<Entry>, funs: &[Key], image: &mut Image)
    requires { IsPatched entries.old.items funs.now image.old }
    ensures patched { IsPatched entries.new.items funs.now image.new }
    ensures entries { entries.new.items ≡ filter program.is_kept entries.old.items }
{
    'forgetting: while let Some(at) = former(entries.as_slice()) {
        forget_at(alloc, entries, funs, image, at);
    }
}

// The position of the first former text.
fn former(entries: &[Entry]) -> Option<usize>
    ensures { MatchOption result (AreAllPresent entries.now) (IsFormerAt entries.now) }
{
    for (at, entry) in entries.iter().enumerate() {
        if is_former(entry) {
            return Some(at);
        }
    }
    None
}

// Whether an entry is a former text.
fn is_former(entry: &Entry) -> bool
    ensures { result ≡ entry.now.retired }
{
    entry.placed().retired
}

// Takes the first former text out.
fn forget_at(alloc: Global, entries: &mut Vec<Entry>, funs: &[Key], image: &mut Image, at: usize)
    requires patched { IsPatched entries.old.items funs.now image.old }
    requires at { IsFormerAt entries.old.items at }
    ensures patched { IsPatched entries.new.items funs.now image.new }
    ensures entries { (e : IsAt entries.old.items at) → entries.new.items ≡ e.front ++ e.back }
{
    drop_at(entries, image, at, Vec::new(alloc));
}
