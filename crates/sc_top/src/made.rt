// A session over a made program, which one line tells of.
ghost use Rattle.std.specs.Prelude.{◌≡◌, ◌≢◌, ◌≤◌, ℕ, [], length};
ghost use Rattle.sc_top.specs.Hearing.{AreTold};
ghost use Rattle.sc_outside.specs.Causes.{Rose};
ghost use Rattle.sc_outside.specs.Memory.{bytes_written};
ghost use Rattle.sc_session.specs.declared.limits.Limits.{Limits};
ghost use Rattle.sc_session.specs.Transcript.{limits_of};
ghost use Rattle.sc_top.specs.Making.{IsMade, IsAnsweredWith};

use crate::{Status, serve};
use sc_outside::{MemFiles, MemSink, MemSource, Probe, Sent, Sink};
use sc_words::Options;
use sc_workload::{made_commands, made_folder, made_line};
use std::alloc::Global;

// The answers to the made commands, with the made files.
fn answer_made(
    alloc: Global,
    options: &Options,
    count: u32,
    answers: &mut MemSink,
    probes: &mut Vec<Box<dyn Probe>>,
) -> Status
    requires { bytes_written answers.old ≡ [] }
    ensures answered { result ≡ Status.Done → IsAnsweredWith (limits_of options.now) (length probes.old.items) count (bytes_written answers.new) }
    ensures probes { AreTold (λ p. notes p) (λ p. faults p) probes.old.items probes.new.items }
{
    let Ok(commands) = made_commands(alloc, count) else {
        return Status::NoMemory;
    };
    let Ok(folder) = made_folder(alloc, count) else {
        return Status::NoMemory;
    };
    let mut commands = MemSource::new(commands.into_vec(), Vec::new(alloc));
    let mut files = MemFiles::new(alloc, folder, Vec::new(alloc));
    serve(alloc, options, &mut commands, answers, &mut files, probes)
}

/// Makes a program of so many modules, runs it as these options ask for, and writes one line on its answers.
pub fn tell_made<K: Sink>(
    alloc: Global,
    options: &Options,
    count: u32,
    out: &mut K,
    probes: &mut Vec<Box<dyn Probe>>,
) -> Status
    ensures told { IsMade (limits_of options.now) (length probes.old.items) count (K.written out.old) (K.written out.new) result }
    ensures write_fault { result ≡ Status.WriteFault → Rose (K.faults out.old) (K.faults out.new) }
    ensures write_later { K.faults out.old ≤ K.faults out.new }
    ensures words { (result ≢ Status.BadWords) × (result ≢ Status.ReadFault) }
    ensures probes { AreTold (λ p. notes p) (λ p. (⟦<dyn Probe as Probe>⟧ p.vtable).faults p.value) probes.old.items probes.new.items }
{
    let mut answers = MemSink::new(alloc, Vec::new(alloc));
    match answer_made(alloc, options, count, &mut answers, probes) {
        Status::Done => tell_answers(alloc, count, answers.bytes(), out),
        _ => Status::NoMemory,
    }
}

// Writes the line on these answers.
fn tell_answers<K: Sink>(alloc: Global, count: u32, answers: &[u8], out: &mut K) -> Status
    ensures told { (limits : Limits) (probes : ℕ) → IsAnsweredWith limits probes count answers.now → IsMade limits probes count (K.written out.old) (K.written out.new) result }
    ensures write_fault { result ≡ Status.WriteFault → Rose (K.faults out.old) (K.faults out.new) }
    ensures write_later { K.faults out.old ≤ K.faults out.new }
    ensures words { (result ≢ Status.BadWords) × (result ≢ Status.ReadFault) }
{
    match made_line(alloc, count, answers) {
        Ok(line) => match out.write(line.as_slice()) {
            Sent::Done => Status::Done,
            Sent::Failed => Status::WriteFault,
            Sent::NoMemory => Status::NoMemory,
        },
        Err(_) => Status::NoMemory,
    }
}
