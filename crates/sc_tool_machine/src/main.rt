//! Runs the machine on what the input says, for tests and for measuring. With no argument each line of the input is a
//! word in hexadecimal digits, and the program prints the instruction that it is read as. With `rows` each line has a word
//! and what a1 and a2 hold, and the program prints what one step of the word comes to. With a number of steps the words
//! are one text, and the program runs it for at most so many steps. With WHAT COUNT STEPS it reads no input, does so many steps
//! of memory or of the image, and prints a sum (`steps`).
#![tactic(auto)]

ghost use Rattle.std.specs.Prelude.{◌≡◌};

mod run;
mod steps;

use run::{row, run};
use sc_base::{Bytes, NoMemory};
use sc_disas::{assemble, comes_back, text};
use std::alloc::Global;
use std::io;
use std::io::{BufRead, BufReader, Write};
use std::process::ExitCode;
use steps::measure;

fn main(rt: HostRuntime) -> ExitCode {
    match answer(&rt) {
        Ok(text) => match io::writer(&rt).write_all(text.as_slice()) {
            Ok(()) => ExitCode::SUCCESS,
            Err(_) => ExitCode::from(4),
        },
        Err(_) => ExitCode::from(2),
    }
}

fn answer(rt: &HostRuntime) -> io::Result<Vec<u8>> {
    let alloc = rt.alloc();
    let args: Vec<String> = std::env::args(rt)?.skip(1).collect(alloc)?;
    if let [what, count, steps] = args.as_slice() {
        return measured(alloc, what.as_str(), count.as_str(), steps.as_str());
    }
    let words = words(rt, alloc)?;
    match args.as_slice() {
        [how] if how.as_str() == "rows" => rows(alloc, words.as_slice()),
        [steps] => run(alloc, words, steps.as_str().parse().unwrap_or(0)),
        _ => instructions(alloc, words.as_slice()),
    }
}

// The sum of so many steps.
fn measured(alloc: Global, what: &str, count: &str, steps: &str) -> io::Result<Vec<u8>> {
    let count = count.parse().unwrap_or(0);
    let steps = steps.parse().unwrap_or(0);
    let line = match measure(alloc, what.as_bytes(), count, steps) {
        Some(sum) => format!(in alloc; "{sum}\n")?,
        None => format!(in alloc;
            "load, store, at, births, value or word; how many; how many steps\n"
        )?,
    };
    Vec::from_slice(alloc, line.as_bytes()).map_err(io::Error::from)
}

// The numbers of the input, in hexadecimal digits. What is no number of 32 bits is left out.
fn words(rt: &HostRuntime, alloc: Global) -> io::Result<Vec<u32>> {
    let mut words = Vec::new(alloc);
    for line in BufReader::new(alloc, rt.reader())?.lines(alloc) {
        for part in line?.as_str().split(' ') {
            if let Ok(word) = u32::from_str_radix(part, 16) {
                words.push(word)?;
            }
        }
    }
    Ok(words)
}

// The text of each word's instruction, one a line.
fn instructions(alloc: Global, words: &[u32]) -> io::Result<Vec<u8>> {
    let mut lines = Vec::new(alloc);
    for word in words {
        if let Ok(line) = shown(alloc, *word) {
            lines.extend_from_slice(line.as_slice())?;
        }
        lines.push(b'\n')?;
    }
    Ok(lines)
}

// The text of a word's instruction, once it was assembled to it again. A word that is none has none.
fn shown(alloc: Global, word: u32) -> Result<Bytes, NoMemory> {
    let Some(read) = comes_back(word) else {
        return Bytes::from_slice(alloc, b"none");
    };
    let line = text(alloc, read)?;
    if assemble(line.as_slice()) == Some(read) {
        Ok(line)
    } else {
        Bytes::from_slice(alloc, b"assembled otherwise")
    }
}

// What one step comes to for each three numbers, one a line.
fn rows(alloc: Global, words: &[u32]) -> io::Result<Vec<u8>> {
    let mut text = Vec::new(alloc);
    for three in words.chunks_exact(3) {
        if let [word, first, second] = three {
            row(alloc, &mut text, *word, *first, *second)?;
        }
    }
    Ok(text)
}
