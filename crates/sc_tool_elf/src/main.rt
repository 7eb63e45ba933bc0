//! Writes a sample object as a file, or reads many files and prints what each holds: `sc_tool_elf write FILE`, or
//! `sc_tool_elf read FILE`, where the file has, for each, its length in four bytes, the lowest first, and its bytes.
#![tactic(auto)]

mod sample;
mod shown;

use sample::sample;
use sc_base::NoMemory;
use sc_elf_read::{read_object, version};
use sc_elf_write::write_object;
use shown::{put_fault, put_number, put_object};
use std::alloc::Global;
use std::io::Write;
use std::process::ExitCode;
use std::{fs, io};

fn main(rt: HostRuntime) -> ExitCode {
    let alloc = rt.alloc();
    let Ok(args) = std::env::args(&rt) else {
        return ExitCode::from(2);
    };
    let Ok(words) = args.skip(1).collect::<Vec<String>>(alloc) else {
        return ExitCode::from(2);
    };
    match words.as_slice() {
        [word, name] if word.as_str() == "write" => write_sample(&rt, alloc, name.as_str()),
        [word, name] if word.as_str() == "read" => read_all(&rt, alloc, name.as_str()),
        _ => ExitCode::from(2),
    }
}

fn write_sample(rt: &HostRuntime, alloc: Global, name: &str) -> ExitCode {
    let Ok(file) = sample_file(alloc) else {
        return ExitCode::from(6);
    };
    match fs::write(rt, name, file.as_slice()) {
        Ok(()) => ExitCode::SUCCESS,
        Err(_) => ExitCode::from(4),
    }
}

fn sample_file(alloc: Global) -> Result<Vec<u8>, NoMemory> {
    let object = sample(alloc)?;
    write_object(alloc, &object)
}

fn read_all(rt: &HostRuntime, alloc: Global, name: &str) -> ExitCode {
    let Ok(all) = fs::read(rt, name) else {
        return ExitCode::from(3);
    };
    let mut rest = all.as_slice();
    for _ in 0..all.len() {
        let Some((length, behind)) = rest.split_first_chunk::<4>() else {
            break;
        };
        let length = u32::from_le_bytes(*length) as usize;
        if behind.len() < length {
            return ExitCode::from(3);
        }
        let (file, next) = behind.split_at(length);
        let Ok(line) = line_of(alloc, file) else {
            return ExitCode::from(6);
        };
        if io::writer(rt).write_all(line.as_slice()).is_err() {
            return ExitCode::from(4);
        }
        rest = next;
    }
    ExitCode::SUCCESS
}

/// The version, a space, and the object or the fault.
fn line_of(alloc: Global, file: &[u8]) -> Result<Vec<u8>, NoMemory> {
    let mut line = Vec::new(alloc);
    put_number(alloc, &mut line, version(alloc, file)?.unwrap_or(0))?;
    // No file is longer: its length stood in four bytes.
    if file.len() < 4294967296 {
        match read_object(alloc, file) {
            Ok(object) => put_object(alloc, &mut line, &object)?,
            Err(fault) => put_fault(alloc, &mut line, fault)?,
        }
    }
    line.push(b'\n')?;
    Ok(line)
}
