// Sessions with probes that keep what they are told.
use crate::faults::{ended_with, made_outside};
use sc_outside::Probe;
use sc_probe::{Count, Trace};
use sc_top::Status;
use std::alloc::{AllocError, Global};
use std::test::Fail;

// A trace that has room for all notes, one that has room for three, and a count.
fn three_probes(alloc: Global) -> Result<Vec<Box<dyn Probe>>, AllocError> {
    let mut probes: Vec<Box<dyn Probe>> = Vec::new(alloc);
    probes.push(Box::new(alloc, Trace::new(alloc, 1_048_576))?)?;
    probes.push(Box::new(alloc, Trace::new(alloc, 3))?)?;
    probes.push(Box::new(alloc, Count::new(alloc))?)?;
    Ok(probes)
}

#[test]
fn a_full_trace_changes_no_other_answer(rt: HostRuntime) -> Result<(), Fail> {
    let alloc = rt.alloc();
    let mut probes = three_probes(alloc)?;
    let mut outside = made_outside(alloc, b"load m\nrun\nreport 0\nreport 1\nquit\n")?;
    let status = ended_with(alloc, &mut outside, &mut probes);
    assert_eq!(rt; status, Status::Done);
    assert_eq!(rt;
        outside.sink.bytes(),
        b"> loaded m\n> exit 7\n> report 0\nnotes 4\n> report 1\nnotes 3\n> bye\n".as_slice()
    );
    Ok(())
}

#[test]
fn a_dropped_probe_takes_none_with_it(rt: HostRuntime) -> Result<(), Fail> {
    let alloc = rt.alloc();
    let mut probes = three_probes(alloc)?;
    let mut outside = made_outside(
        alloc,
        b"load m\ndrop 1\nrun\nreport 1\nreport 2\ndrop 0\nquit\n",
    )?;
    let status = ended_with(alloc, &mut outside, &mut probes);
    assert_eq!(rt; status, Status::Done);
    assert_eq!(rt;
        outside.sink.bytes(),
        b"> loaded m\n> dropped 1\n> exit 7\n> report 1\nstart 1 call 0 back 0 enter 1 leave 1 at 1 exec 0 put 0 birth 0 death 0 copy 0 setreg 0 tag 0 lib 0\n> refused C17 2\n> refused C17 0\n> bye\n".as_slice()
    );
    assert_eq!(rt; probes.len(), 2);
    Ok(())
}
