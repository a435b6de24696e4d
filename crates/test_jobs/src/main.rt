//! Runs test rows on command lines: reads one per line, and prints each followed by its answer.
#![tactic(auto)]

mod jobs;

use std::alloc::AllocError;
use std::io;
use test_rows::row_fault::RowFault;
use test_rows::words::unrolled;

fn main(rt: HostRuntime) -> io::Result<()> {
    for line in rt.lines(rt.alloc()) {
        let line = line?;
        // Blank lines and comments are copied.
        if line.is_empty() || line.starts_with('#') {
            println!(rt; "{line}")?;
        } else {
            let answer = answer(&rt, line.as_str())?;
            println!(rt; "{line} -> {answer}")?;
        }
    }
    Ok(())
}

// The answer to a row, or why there is none.
fn answer(rt: &HostRuntime, row: &str) -> Result<String, AllocError> {
    match asked(rt, row) {
        Ok(answer) => Ok(answer),
        Err(fault) => format!(in rt.alloc(); "{fault}"),
    }
}

// A row consists of words separated by tabs. The first is the request.
fn asked(rt: &HostRuntime, row: &str) -> Result<String, RowFault> {
    let row = unrolled(rt.alloc(), row)?;
    let words: Vec<&str> = row.split('\t').collect(rt.alloc())?;
    match words.as_slice() {
        [question, words @ ..] => jobs::answer(rt, question, words),
        _ => Err(RowFault::NotUnderstood),
    }
}
