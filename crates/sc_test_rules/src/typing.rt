// What productions make of operands, as the standard has it; the table writes operands and trees in short.
mod build;
mod show;
mod table;

use build::{Types, run};
use sc_base::{NoMemory, X};
use sc_check_operand::{TypeFault, kind_of};
use show::show;
use std::alloc::Global;
use std::test::Fail;
use table::TABLE;

fn refusal(out: &mut Vec<u8>, kind: &X) -> Result<(), NoMemory> {
    let (name, word) = match kind {
        X::X7 => ("X7", b"".as_slice()),
        X::X8 => ("X8", b"".as_slice()),
        X::X9(word) => ("X9 ", word.as_slice()),
        X::X10(word) => ("X10 ", word.as_slice()),
        _ => ("X", b"".as_slice()),
    };
    out.extend_from_slice(name.as_bytes())?;
    out.extend_from_slice(word)?;
    Ok(())
}

// The tree that the words make, or the refusal, which stands on line 7.
fn answer(alloc: Global, types: &Types, words: &str) -> Result<Vec<u8>, NoMemory> {
    let mut out = Vec::new(alloc);
    match run(alloc, types, words) {
        Ok(e) => show(&mut out, e.get(), 20)?,
        Err(TypeFault::Diagnosed(d)) if d.line == 7 => refusal(
            &mut out,
            &kind_of(alloc, d.cause)?,
        )?,
        Err(_) => out.extend_from_slice(b"no answer")?,
    }
    Ok(out)
}

#[test]
fn productions_answer_as_the_table(rt: HostRuntime) -> Result<(), Fail> {
    let alloc = rt.alloc();
    let types = Types::new(alloc, &rt)?;
    for line in TABLE.lines() {
        if let Some((words, wanted)) = line.split_once(" => ") {
            let got = answer(alloc, &types, words)?;
            assert!(rt; got.as_slice() == wanted.as_bytes(), "{line}");
        }
    }
    Ok(())
}
