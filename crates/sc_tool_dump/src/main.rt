//! Prints what stages of the product make of units, for comparing and measuring. The words come in pairs, a stage and a file: `tokens` (the
//! tokens after preprocessing, one a line), `tree` (how many functions and declarations the unit has), `core` (the checked
//! module) or `work` (how the unit runs as a program, and how many units of work it takes).
#![tactic(auto)]

mod checked;
mod output;
mod tokens;
mod work;

use checked::{put_core, put_tree};
use output::put_line;
use sc_base::NoMemory;
use std::alloc::Global;
use std::io;
use std::io::Write;
use std::process::ExitCode;
use tokens::put_tokens;
use work::put_work;

fn main(rt: HostRuntime) -> ExitCode {
    let alloc = rt.alloc();
    let Ok(args) = std::env::args(&rt) else {
        return ExitCode::from(2);
    };
    let Ok(words) = args.skip(1).collect::<Vec<String>>(alloc) else {
        return ExitCode::from(2);
    };
    match told(&rt, alloc, words.as_slice()) {
        Ok(text) => match io::writer(&rt).write_all(text.as_slice()) {
            Ok(()) => ExitCode::SUCCESS,
            Err(_) => ExitCode::from(4),
        },
        Err(NoMemory) => ExitCode::from(6),
    }
}

// What each stage makes of its file.
fn told(rt: &HostRuntime, alloc: Global, words: &[String]) -> Result<Vec<u8>, NoMemory> {
    let mut text = Vec::new(alloc);
    for pair in words.chunks_exact(2) {
        if let [stage, name] = pair {
            put_stage(rt, alloc, &mut text, stage.as_str(), name.as_str())?;
        }
    }
    Ok(text)
}

fn put_stage(
    rt: &HostRuntime,
    alloc: Global,
    text: &mut Vec<u8>,
    stage: &str,
    name: &str,
) -> Result<(), NoMemory> {
    if stage == "tokens" {
        return put_tokens(rt, alloc, text, name);
    }
    if stage == "tree" {
        return put_tree(rt, alloc, text, name);
    }
    if stage == "core" {
        return put_core(rt, alloc, text, name);
    }
    if stage == "work" {
        return put_work(rt, alloc, text, name);
    }
    put_line(text, b"tokens, tree, core or work")
}
