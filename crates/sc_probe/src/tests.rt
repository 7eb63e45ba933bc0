use super::*;
use sc_base::{Form, Kind, Note, Word};
use sc_outside::{Noted, Probe};
use std::test::Fail;

// One note of each kind but `Copy`, and a line that is reached twice.
fn told() -> [Note; 15] {
    let word = Word { bits: 7, tag: 0 };
    [
        Note::Start { stack: 64, heap: 0 },
        Note::Call { fun: 40 },
        Note::Enter {
            fun: 40,
            form: Form::Object,
        },
        Note::At { fun: 39, line: 2 },
        Note::At { fun: 40, line: 9 },
        Note::At { fun: 39, line: 2 },
        Note::Exec {
            pc: 1048576,
            word: 115,
        },
        Note::Birth {
            id: 1,
            size: 4,
            kind: Kind::Auto,
            base: 536870848,
        },
        Note::Put {
            at: 536870848,
            size: 4,
            word,
        },
        Note::Tag { word },
        Note::Death { id: 1 },
        Note::Leave { fun: 40 },
        Note::Lib { fun: 3 },
        Note::Back { fun: 3 },
        Note::SetReg { r: 10, word },
    ]
}

// Tells a probe of all these notes; whether it kept each.
fn keeps_all<P: Probe>(probe: &mut P) -> bool {
    let mut all = true;
    for note in &told() {
        all = all && probe.note(note) == Noted::Kept;
    }
    all
}

#[test]
fn a_quiet_probe_has_nothing_to_report(rt: HostRuntime) -> Result<(), Fail> {
    let mut probe = Quiet::new(rt.alloc());
    assert!(rt; keeps_all(&mut probe));
    assert!(rt; probe.text()?.is_empty());
    Ok(())
}

#[test]
fn kinds_are_counted(rt: HostRuntime) -> Result<(), Fail> {
    let mut probe = Count::new(rt.alloc());
    assert!(rt; keeps_all(&mut probe));
    assert_eq!(rt;
        probe.text()?.as_slice(),
        b"start 1 call 1 back 1 enter 1 leave 1 at 3 exec 1 put 1 birth 1 death 1 copy 0 setreg 1 tag 1 lib 1\n".as_slice()
    );
    Ok(())
}

#[test]
fn lines_are_counted(rt: HostRuntime) -> Result<(), Fail> {
    let mut probe = Coverage::new(rt.alloc())?;
    assert!(rt; keeps_all(&mut probe));
    assert_eq!(rt; probe.text()?.as_slice(), b"39 2 2\n40 9 1\n".as_slice());
    Ok(())
}

#[test]
fn a_full_trace_keeps_no_more(rt: HostRuntime) -> Result<(), Fail> {
    let mut probe = Trace::new(rt.alloc(), 3);
    let notes = told();
    assert_eq!(rt; probe.note(&notes[0]), Noted::Kept);
    assert_eq!(rt; probe.note(&notes[1]), Noted::Kept);
    assert_eq!(rt; probe.note(&notes[2]), Noted::Kept);
    assert_eq!(rt; probe.note(&notes[3]), Noted::Failed);
    assert!(rt; probe.notes() == &notes[..3]);
    assert_eq!(rt; probe.text()?.as_slice(), b"notes 3\n".as_slice());
    Ok(())
}
