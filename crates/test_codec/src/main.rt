//! Runs test rows: reads one per line, and prints each followed by its answer.
#![tactic(auto)]

mod changes;
mod encodings;
mod fault_numbers;
mod likeness;
mod numbers;
mod pairs;
mod parts;
mod question;
mod registries;
mod repeating;
mod rows;
mod setting;
mod sources;
mod streams;
mod texts;
mod tokens;
mod value_words;
mod values;
mod verdicts;

use crate::setting::Setting;
use std::io;

fn main(rt: HostRuntime) -> io::Result<()> {
    let mut setting = Setting::empty(rt.alloc())?;
    for line in rt.lines(rt.alloc()) {
        let line = line?;
        // Blank lines and comments are copied.
        if line.is_empty() || line.starts_with('#') {
            println!(rt; "{line}")?;
        } else {
            let answer = rows::answer(rt.alloc(), &mut setting, line.as_str())?;
            println!(rt; "{line} -> {answer}")?;
        }
    }
    Ok(())
}
