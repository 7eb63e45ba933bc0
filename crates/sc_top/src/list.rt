// The reports of probes, and probes that go.
ghost use Rattle.std.specs.Prelude.{◌≡◌, length, map, remove, if◌then◌else◌, option_map, IfOk};
ghost use Rattle.sc_outside.specs.Told.{IsTextTold};
ghost use Rattle.sc_top.specs.Listed.{TellsAt, marks_without, may_go};

use crate::giving::MARKS;
use sc_base::NoMemory;
use sc_outside::{Deaf, Probe};

// The text of a probe.
fn text_of(probe: &mut Box<dyn Probe>) -> Result<Vec<u8>, NoMemory>
    ensures text { IfOk result (λ text. IsTextTold (report probe.old) text.items) }
    ensures notes { notes probe.new ≡ notes probe.old }
    ensures faults { faults probe.new ≡ faults probe.old }
{
    probe.text()
}

/// The text of probe `k`, the places counted from 0. None where there is no such probe.
pub fn report(probes: &mut Vec<Box<dyn Probe>>, k: u32) -> Result<Option<Vec<u8>>, NoMemory>
    ensures text { IfOk result (λ text. TellsAt (λ p. report p) probes.old.items k (option_map (λ t. t.items) text)) }
    ensures notes { map (λ p. notes p) probes.new.items ≡ map (λ p. notes p) probes.old.items }
    ensures faults { map (λ p. faults p) probes.new.items ≡ map (λ p. faults p) probes.old.items }
{
    match probes.get_mut(k as usize) {
        Some(probe) => Ok(Some(text_of(probe)?)),
        None => Ok(None),
    }
}

/// Takes probe `k` out, the places counted from 0. The later ones move down, and so do their marks. False where there is
/// no probe `k`, and for the first, which stays: then nothing is done.
pub fn drop_probe(probes: &mut Vec<Box<dyn Probe>>, deaf: &mut Deaf, k: u32) -> bool
    ensures found { result ≡ may_go k (length probes.old.items) }
    ensures probes { probes.new.items ≡ (if result then remove probes.old.items k else probes.old.items) }
    ensures marks { deaf.new ≡ (if result then marks_without k deaf.old else deaf.old) }
{
    let place = k as usize;
    if place == 0 || probes.len() <= place {
        return false;
    }
    if place < MARKS {
        deaf.dropped(place);
    }
    drop(probes.remove(place));
    true
}
