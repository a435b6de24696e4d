//! Rows on command lines: how they are parsed, and how jobs end if sources or sinks fail.
ghost use Rattle.std.specs.Prelude.{◌≤◌};

use bcs_decode::{DecodeFault, Reason, Stop};
use bcs_encode::{EncodeFault, WriteFault};
use bcs_io::pieces::{PieceSink, PieceSource, RepeatSource};
use bcs_tool::{
    ByteSource, Command, FileCause, FileFault, LineFault, SystemFile, TakeFault, UnreadFile, Work,
    line, read_named, respond, run, take_all,
};
use std::alloc::{AllocError, Global};
use std::fmt::Display;
use std::str;
use test_rows::row_fault::RowFault;
use test_rows::words::{bytes, call, limits_of, number, word_of};

pub(crate) fn answer(rt: &HostRuntime, question: &str, words: &[&str]) -> Result<String, RowFault> {
    match (question, words) {
        ("line", words) => job(rt.alloc(), words),
        ("run", [input, words @ ..]) => ran(rt.alloc(), [input, "-", "-"], words),
        ("failing_run", [input, reads, puts, words @ ..]) => {
            ran(rt.alloc(), [input, reads, puts], words)
        }
        ("ends", [input, piece, reads, puts, reports, words @ ..]) => {
            ended(rt, [input, piece, reads], [puts, reports], words)
        }
        ("named", [name]) => named(rt, name),
        ("endless_job", words) => ended_endless(rt, words),
        ("take_all", [text, piece, limit, reads]) => {
            taken(rt.alloc(), [text, piece], number(limit)?, reads)
        }
        ("messages", []) => messages(rt.alloc()),
        _ => Err(RowFault::NotUnderstood),
    }
}

// The contents of a named file in hexadecimal, or the fault and its note.
fn named(rt: &HostRuntime, name: &str) -> Result<String, RowFault> {
    match read_named(rt, name) {
        Ok(text) => Ok(hex::encode(rt.alloc(), &text)?),
        Err(FileFault::OutOfMemory) => Err(RowFault::from(AllocError)),
        Err(fault) => Ok(format!(in rt.alloc(); "{fault}, {}", fault.note())?),
    }
}

// A command line: the program's name, followed by the arguments.
fn args_of(alloc: Global, arguments: &[&str]) -> Result<Vec<String>, AllocError> {
    let mut words = Vec::new(alloc);
    words.push(String::from_str(alloc, "bcs")?)?;
    for argument in arguments {
        words.push(String::from_str(alloc, argument)?)?;
    }
    Ok(words)
}

// The work of a command, from its arguments without options, followed by its limits.
fn work_of(alloc: Global, words: &[&str]) -> Result<Work, RowFault> {
    match words {
        ["check", registry] => work(alloc, Command::Check, registry, ["", "", ""], &[]),
        ["grows", older, newer] => work(alloc, Command::Grows, older, ["", newer, ""], &[]),
        ["same", registry, format, text, limits @ ..] => {
            work(alloc, Command::Same, registry, [format, text, ""], limits)
        }
        ["part", registry, format, path, limits @ ..] => {
            work(alloc, Command::Part, registry, [format, "", path], limits)
        }
        [name, registry, format, limits @ ..] => {
            work(alloc, command_of(name)?, registry, [format, "", ""], limits)
        }
        _ => Err(RowFault::NotUnderstood),
    }
}

fn work(
    alloc: Global,
    command: Command,
    registry: &str,
    [format, second, path]: [&str; 3],
    limits: &[&str],
) -> Result<Work, RowFault> {
    let Some(limits) = limits_of(limits) else {
        return Err(RowFault::NotUnderstood);
    };
    let mut work = Work::new(
        command,
        Vec::from_slice(alloc, registry.as_bytes())?,
        Vec::from_slice(alloc, second.as_bytes())?,
        String::from_str(alloc, format)?,
        String::from_str(alloc, path)?,
        false,
        limits,
    );
    work.options.quiet = true;
    Ok(work)
}

fn command_of(name: &str) -> Result<Command, RowFault> {
    match name {
        "encode" => Ok(Command::Encode),
        "decode" => Ok(Command::Decode),
        "normalise" => Ok(Command::Normalise),
        _ => Err(RowFault::NotUnderstood),
    }
}

// The `Debug` output of the parsed job.
fn job(alloc: Global, words: &[&str]) -> Result<String, RowFault> {
    match line(alloc, &args_of(alloc, words)?) {
        Ok(job) => Ok(format!(in alloc; "{job:?}")?),
        Err(fault) => Ok(format!(in alloc; "{fault}")?),
    }
}

// The status, output and note of a job, and whether reading the input failed. Each call reads or writes one byte; calls
// fail from `reads` and `puts` on.
fn ran(alloc: Global, [input, reads, puts]: [&str; 3], words: &[&str]) -> Result<String, RowFault> {
    let fails = [call(reads)?, call(puts)?];
    let work = work_of(alloc, words)?;
    outcome_of(alloc, &work, &bytes(alloc, input)?, fails)
}

fn outcome_of(
    alloc: Global,
    work: &Work,
    input: &[u8],
    [reads, puts]: [Option<u64>; 2],
) -> Result<String, RowFault> {
    let mut source = PieceSource::new(input, 1, reads);
    let mut out = PieceSink::<1000>::new(1, puts);
    let outcome = run(alloc, work, &mut source, &mut out);
    let put = put_text(alloc, out.taken())?;
    let failed = if source.failed() { ", read" } else { "" };
    Ok(format!(in alloc; "{} {put}{}{failed}", outcome.status, outcome.note)?)
}

fn put_text(alloc: Global, put: &[u8]) -> Result<String, RowFault> {
    match str::from_utf8(put) {
        Ok(text) => Ok(format!(in alloc; "{text:?}")?),
        Err(_) => word_of(alloc, put),
    }
}

// The status, output and standard error (for a usage error, only its first word) of a command line. Writes fail from
// calls `puts` and `reports` on.
fn responded<S: ByteSource>(
    rt: &HostRuntime,
    input: &mut S,
    [puts, reports]: [&str; 2],
    words: &[&str],
) -> Result<String, RowFault> {
    let alloc = rt.alloc();
    let mut out = PieceSink::<100>::new(100, call(puts)?);
    let mut errors = PieceSink::<4000>::new(4000, call(reports)?);
    let args = args_of(alloc, words)?;
    let mut file = SystemFile::new(rt);
    let status = respond(rt, Ok(args), input, &mut out, &mut file, &mut errors);
    let told = if status == 3 {
        errors.taken().get(..7).unwrap_or_default()
    } else {
        errors.taken()
    };
    let put = put_text(alloc, out.taken())?;
    let told = put_text(alloc, told)?;
    Ok(format!(in alloc; "{status} {put} {told}")?)
}

// Like `responded`, with an input that provides `piece` bytes per call. Adds whether reading failed.
fn ended(
    rt: &HostRuntime,
    [input, piece, reads]: [&str; 3],
    fails: [&str; 2],
    words: &[&str],
) -> Result<String, RowFault> {
    let piece = (number(piece)? as usize).max(1);
    let reads = call(reads)?;
    let bytes = bytes(rt.alloc(), input)?;
    let mut source = PieceSource::new(&bytes, piece, reads);
    let told = responded(rt, &mut source, fails, words)?;
    let failed = if source.failed() { ", read" } else { "" };
    Ok(format!(in rt.alloc(); "{told}{failed}")?)
}

// Like `responded`, with an endless input of spaces. Adds how many were read.
fn ended_endless(rt: &HostRuntime, words: &[&str]) -> Result<String, RowFault> {
    let mut source = RepeatSource::new(b' ');
    let told = responded(rt, &mut source, ["-", "-"], words)?;
    Ok(format!(in rt.alloc(); "{told}, {} given", source.given())?)
}

// Reads a whole source of at most `limit` bytes. Returns how many bytes the source provided.
fn taken(
    alloc: Global,
    [text, piece]: [&str; 2],
    limit: u32,
    reads: &str,
) -> Result<String, RowFault> {
    let piece = (number(piece)? as usize).max(1);
    let reads = call(reads)?;
    let bytes = bytes(alloc, text)?;
    let mut source = PieceSource::new(&bytes, piece, reads);
    match take_all(alloc, &mut source, u64::from(limit)) {
        Ok(whole) if whole == bytes => Ok(format!(in alloc; "whole, {} given", source.given())?),
        Ok(_) => Err(RowFault::Disagreement("take_all")),
        Err(fault) => Ok(format!(in alloc; "{fault}, {} given", source.given())?),
    }
}

// The numbers, names and notes of file faults, and the messages of other faults.
fn messages(alloc: Global) -> Result<String, RowFault> {
    let files = file_messages(alloc)?;
    let lines = line_messages(alloc)?;
    let coders = coder_messages(alloc)?;
    Ok(format!(in alloc; "{files}{lines}{coders}")?)
}

fn file_messages(alloc: Global) -> Result<String, AllocError> {
    let mut told = String::new(alloc);
    for fault in [
        FileFault::Open,
        FileFault::Read,
        FileFault::TooLarge,
        FileFault::OutOfMemory,
    ] {
        push_message(alloc, &mut told, fault as u8, &fault, fault.note())?;
    }
    for fault in [TakeFault::Read, TakeFault::TooLarge, TakeFault::OutOfMemory] {
        push_message(alloc, &mut told, fault as u8, &fault, fault.note())?;
    }
    Ok(told)
}

fn push_message<F: Display>(
    alloc: Global,
    told: &mut String,
    number: u8,
    fault: &F,
    note: &str,
) -> Result<(), AllocError> {
    told.push_str(format!(in alloc; "{number} {fault} {note}; ")?.as_str())
}

fn line_messages(alloc: Global) -> Result<String, AllocError> {
    let unopened = UnreadFile::OpenFailed(FileCause::Missing);
    let untaken = UnreadFile::ReadFailed(TakeFault::Read);
    let usage = LineFault::Usage(String::new(alloc));
    let help = LineFault::Help(String::new(alloc));
    format!(in alloc;
        "{unopened}, {untaken}; {usage}, {help}, {}; ",
        LineFault::OutOfMemory
    )
}

fn coder_messages(alloc: Global) -> Result<String, AllocError> {
    let encode = WriteFault::Encode(EncodeFault::TooDeep);
    let write = WriteFault::Write { written: 7 };
    let stop = DecodeFault::Stop(Stop {
        reason: Reason::BadBool,
        place: 1,
    });
    format!(in alloc;
        "{}, {encode}, {write}; {stop}, {}",
        EncodeFault::TooLong,
        DecodeFault::Read
    )
}
