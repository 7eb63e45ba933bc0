// Each call of the outside fails in turn.
use crate::sessions::{SEVEN, folder};
use sc_outside::{MemFiles, MemSink, MemSource, Probe};
use sc_top::{Status, saber};
use std::alloc::{AllocError, Global};
use std::test::Fail;

// The objects in memory of one session.
#[derive(Drop)]
pub struct Outside {
    pub source: MemSource,
    pub sink: MemSink,
    pub files: MemFiles,
}

const SCRIPT: &[u8] = b"load m\ncompile m\nswap m object\nrun\nquit\n";

const WHOLE: &[u8] = b"> loaded m\n> compiled m\n> m object\n> exit 7\n> bye\n";

pub fn made_outside(alloc: Global, commands: &[u8]) -> Result<Outside, AllocError> {
    Ok(Outside {
        source: MemSource::new(commands.to_vec(alloc)?, Vec::new(alloc)),
        sink: MemSink::new(alloc, Vec::new(alloc)),
        files: MemFiles::new(alloc, folder(alloc, "m.c", SEVEN)?, Vec::new(alloc)),
    })
}

fn ended(alloc: Global, words: &[String], outside: &mut Outside) -> Status {
    let mut probes: Vec<Box<dyn Probe>> = Vec::new(alloc);
    saber(
        alloc,
        words,
        &mut outside.source,
        &mut outside.sink,
        &mut outside.files,
        &mut probes,
    )
}

// The status of a session without words, beside these probes.
pub fn ended_with(
    alloc: Global,
    outside: &mut Outside,
    probes: &mut Vec<Box<dyn Probe>>,
) -> Status {
    let words: Vec<String> = Vec::new(alloc);
    saber(
        alloc,
        words.as_slice(),
        &mut outside.source,
        &mut outside.sink,
        &mut outside.files,
        probes,
    )
}

// The same with no words.
fn ended_plainly(alloc: Global, outside: &mut Outside) -> Status {
    let words: Vec<String> = Vec::new(alloc);
    ended(alloc, words.as_slice(), outside)
}

// Which call of the files fails, and what is written then.
const FILE_FAULTS: [(u64, &[u8]); 4] = [
    (
        0,
        b"> refused C15 m.c\n> refused C3\n> refused C3\n> refused C13\n> bye\n",
    ),
    (
        1,
        b"> loaded m\n> refused C15 m.o\n> refused C8 m.o\n> exit 7\n> bye\n",
    ),
    (
        2,
        b"> loaded m\n> compiled m\n> refused C15 m.o\n> exit 7\n> bye\n",
    ),
    (3, WHOLE),
];

#[test]
fn each_call_of_the_files_fails_in_turn(rt: HostRuntime) -> Result<(), Fail> {
    let alloc = rt.alloc();
    for (call, text) in &FILE_FAULTS {
        let mut outside = made_outside(alloc, SCRIPT)?;
        outside.files.fails.push(*call)?;
        let status = ended_plainly(alloc, &mut outside);
        assert_eq!(rt; status, Status::Done);
        assert_eq!(rt; outside.sink.bytes(), *text);
    }
    Ok(())
}

#[test]
fn each_write_fails_in_turn(rt: HostRuntime) -> Result<(), Fail> {
    let alloc = rt.alloc();
    let mut right = made_outside(alloc, SCRIPT)?;
    let status = ended_plainly(alloc, &mut right);
    assert_eq!(rt; status, Status::Done);
    assert_eq!(rt; right.sink.bytes(), WHOLE);
    for call in 0..right.sink.calls {
        let mut outside = made_outside(alloc, SCRIPT)?;
        outside.sink.fails.push(call)?;
        let status = ended_plainly(alloc, &mut outside);
        assert_eq!(rt; status, Status::WriteFault);
        assert!(rt; WHOLE.starts_with(outside.sink.bytes()));
    }
    Ok(())
}

#[test]
fn each_read_fails_in_turn(rt: HostRuntime) -> Result<(), Fail> {
    let alloc = rt.alloc();
    for call in 0..4 {
        let mut outside = made_outside(alloc, SCRIPT)?;
        outside.source.fails.push(call)?;
        let status = ended_plainly(alloc, &mut outside);
        if outside.source.faults == 0 {
            assert_eq!(rt; status, Status::Done);
            assert_eq!(rt; outside.sink.bytes(), WHOLE);
        } else {
            assert_eq!(rt; status, Status::ReadFault);
            assert!(rt; WHOLE.starts_with(outside.sink.bytes()));
        }
    }
    Ok(())
}

fn made_words(alloc: Global, count: &str) -> Result<Vec<String>, AllocError> {
    let mut words = Vec::new(alloc);
    words.push(String::from_str(alloc, "--make")?)?;
    words.push(String::from_str(alloc, count)?)?;
    Ok(words)
}

const MADE: &[u8] = b"> made 1 modules 3 runs 11 lines 98 bytes\n";

#[test]
fn made_modules_are_told_in_one_line(rt: HostRuntime) -> Result<(), Fail> {
    let alloc = rt.alloc();
    let words = made_words(alloc, "1")?;
    let mut outside = made_outside(alloc, SCRIPT)?;
    let status = ended(alloc, words.as_slice(), &mut outside);
    assert_eq!(rt; status, Status::Done);
    assert_eq!(rt; outside.sink.bytes(), MADE);
    assert_eq!(rt; outside.sink.calls, 1);
    assert_eq!(rt; outside.source.calls, 0);
    assert_eq!(rt; outside.files.calls, 0);
    Ok(())
}

#[test]
fn a_fault_of_the_line_on_made_modules_is_a_write_fault(rt: HostRuntime) -> Result<(), Fail> {
    let alloc = rt.alloc();
    let words = made_words(alloc, "1")?;
    let mut outside = made_outside(alloc, SCRIPT)?;
    outside.sink.fails.push(0)?;
    let status = ended(alloc, words.as_slice(), &mut outside);
    assert_eq!(rt; status, Status::WriteFault);
    assert_eq!(rt; outside.sink.bytes(), b"".as_slice());
    Ok(())
}

#[test]
fn sixty_five_modules_are_bad_words(rt: HostRuntime) -> Result<(), Fail> {
    let alloc = rt.alloc();
    let words = made_words(alloc, "65")?;
    let mut outside = made_outside(alloc, SCRIPT)?;
    let status = ended(alloc, words.as_slice(), &mut outside);
    assert_eq!(rt; status, Status::BadWords);
    assert_eq!(rt; outside.sink.calls, 0);
    Ok(())
}
