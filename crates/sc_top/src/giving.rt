// What is given to all probes.
ghost use Rattle.std.specs.Prelude.{◌≡◌, None, false};
ghost use Rattle.sc_top.specs.Given.{AreUnheard, EachIsGiven, IsGiven, IsUnheard};
ghost use Rattle.sc_top.specs.Spread.{notes_of};

use crate::one::give_entries;
use sc_interp_world::Entry;
use sc_outside::{Deaf, Probe};

/// The most probes that have marks.
pub const MARKS: usize = 16;

// Whether a probe wants to be told at all.
fn listens(probe: &Box<dyn Probe>) -> bool
    ensures { result ≡ false → notes probe.now ≡ None }
{
    probe.listens()
}

// Whether a probe is to be given notes.
fn is_open(probe: &Box<dyn Probe>, marked: bool) -> bool
    ensures { result ≡ false → IsUnheard (notes probe.now) marked }
{
    !marked && listens(probe)
}

/// Whether some probe that is not marked listens.
pub fn is_heard(probes: &Vec<Box<dyn Probe>>, deaf: &Deaf) -> bool
    ensures { result ≡ false → AreUnheard 16 (λ p. notes p) probes.now.items deaf.now }
{
    for k in 0..probes.len().min(MARKS) {
        if is_open(&probes[k], deaf.marked(k)) {
            return true;
        }
    }
    false
}

// Gives the notes of all entries to a probe, if it listens and is not marked. It gives back the probe's mark.
fn give_to(probe: &mut Box<dyn Probe>, marked: bool, entries: &[Entry]) -> bool
    ensures { IsGiven (λ p. notes p) (λ p. faults p) (notes_of entries.now) probe.old probe.new marked result }
{
    if marked {
        return true;
    }
    if !listens(probe) {
        return false;
    }
    let kept = give_entries(probe, entries);
    !kept
}

/// Gives each note of these entries to each probe that listens and is not marked, once and in order. One that does not
/// keep a note is marked, and gets no further one. Probes behind the sixteenth have no marks, and are given nothing.
pub fn give(probes: &mut Vec<Box<dyn Probe>>, deaf: &mut Deaf, entries: &[Entry])
    ensures { EachIsGiven 16 (λ p. notes p) (λ p. faults p) (notes_of entries.now) probes.old.items probes.new.items deaf.old deaf.new }
{
    for k in 0..probes.len().min(MARKS) {
        let marked = deaf.marked(k);
        if give_to(&mut probes[k], marked, entries) {
            deaf.mark(k);
        }
    }
}
