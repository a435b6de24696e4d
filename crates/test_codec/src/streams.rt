//! Rows on sources, sinks, and lines read from sources.
ghost use Rattle.std.specs.Prelude.{◌≤◌, IfOk};

use bcs_io::pieces::{PieceSink, PieceSource, RepeatSource};
use bcs_io::{
    ByteSink, ByteSource, LineBuffer, ReadSource, SliceSource, SourceFailed, WriteSink, put_all,
};
use std::alloc::{AllocError, Global};
use std::io;
use std::io::{ErrorKind, Read, Write};
use test_rows::row_fault::RowFault;
use test_rows::words::{bytes, call, number, word_of};

pub(crate) fn answer(alloc: Global, question: &str, words: &[&str]) -> Result<String, RowFault> {
    match (question, words) {
        ("piece_source", [text, piece, fails, rooms @ ..]) => {
            of_pieces(alloc, text, [piece, fails], rooms)
        }
        ("slice_source", [text, rooms @ ..]) => of_slice(alloc, text, rooms),
        ("repeat_source", rooms) => of_repeat(alloc, rooms),
        ("reader", [text, rooms @ ..]) => read(alloc, text, rooms),
        ("read_source", counts) => of_reader(alloc, counts),
        ("piece_sink", [piece, fails, pieces @ ..]) => puts(alloc, [piece, fails], pieces),
        ("put_all", [text, fails]) => put_whole(alloc, text, fails),
        ("writer", pieces) => write(alloc, pieces),
        ("write_sink", counts) => of_writer(alloc, counts),
        ("lines_of", [text, piece, fails, limits @ ..]) => lines(
            alloc,
            text,
            [piece, fails],
            limits,
        ),
        ("endless_line", [limit]) => endless_line(alloc, number(limit)?),
        _ => Err(RowFault::NotUnderstood),
    }
}

// The result of one call of a source with a buffer of `room` bytes. After a failure, `failed` must be true.
fn next<S: ByteSource>(alloc: Global, source: &mut S, room: usize) -> Result<String, RowFault> {
    let mut buffer = [0u8; 300];
    let Some(room) = buffer.get_mut(..room) else {
        return Err(RowFault::NotUnderstood);
    };
    let given = source.next(room);
    if given.is_err() != source.failed() {
        return Err(RowFault::Disagreement("failed"));
    }
    match given {
        Ok(len) => word_of(alloc, &buffer[..len]),
        Err(SourceFailed) => Ok(String::from_str(alloc, "fails")?),
    }
}

fn nexts<S: ByteSource>(alloc: Global, source: &mut S, rooms: &[&str]) -> Result<String, RowFault> {
    let mut told = String::new(alloc);
    for room in rooms {
        push_next(alloc, source, number(room)? as usize, &mut told)?;
    }
    Ok(told)
}

fn push_next<S: ByteSource>(
    alloc: Global,
    source: &mut S,
    room: usize,
    told: &mut String,
) -> Result<(), RowFault> {
    Ok(push_word(told, next(alloc, source, room)?.as_str())?)
}

fn push_word(told: &mut String, word: &str) -> Result<(), AllocError> {
    if !told.is_empty() {
        told.push(' ')?;
    }
    told.push_str(word)
}

fn of_pieces(
    alloc: Global,
    text: &str,
    [piece, fails]: [&str; 2],
    rooms: &[&str],
) -> Result<String, RowFault> {
    let piece = (number(piece)? as usize).max(1);
    let fails = call(fails)?;
    let bytes = bytes(alloc, text)?;
    let mut source = PieceSource::new(&bytes, piece, fails);
    let told = nexts(alloc, &mut source, rooms)?;
    Ok(format!(in alloc; "{told} given {}", source.given())?)
}

fn of_slice(alloc: Global, text: &str, rooms: &[&str]) -> Result<String, RowFault> {
    let bytes = bytes(alloc, text)?;
    let mut source = SliceSource::new(&bytes);
    let told = nexts(alloc, &mut source, rooms)?;
    let rest = word_of(alloc, source.rest())?;
    Ok(format!(in alloc; "{told} rest {rest}")?)
}

fn of_repeat(alloc: Global, rooms: &[&str]) -> Result<String, RowFault> {
    let mut source = RepeatSource::new(0xa5);
    let told = nexts(alloc, &mut source, rooms)?;
    Ok(format!(in alloc; "{told} given {}", source.given())?)
}

fn read(alloc: Global, text: &str, rooms: &[&str]) -> Result<String, RowFault> {
    let bytes = bytes(alloc, text)?;
    let mut source = ReadSource::new(bytes.as_slice());
    nexts(alloc, &mut source, rooms)
}

/// A stream that reads or writes the given number of bytes in each call, and fails if none is given.
#[derive(Drop)]
struct Told {
    counts: [Option<usize>; 4],
    calls: usize,
}

impl Told {
    fn of(words: &[&str]) -> Told {
        let mut counts = [None; 4];
        for (count, word) in counts.iter_mut().zip(words) {
            *count = word.parse::<usize>().ok();
        }
        Told { counts, calls: 0 }
    }

    fn count(&mut self, len: usize) -> io::Result<usize>
        ensures { IfOk result (λ n. n ≤ len) }
    {
        let count = self.counts.get(self.calls).copied().flatten();
        self.calls = self.calls.saturating_add(1);
        match count {
            Some(count) => Ok(count.min(len)),
            None => Err(io::Error::from(ErrorKind::Interrupted)),
        }
    }
}

impl Read for Told {
    fn read(&mut self, buf: &mut [u8]) -> io::Result<usize> {
        self.count(buf.len())
    }
}

impl Write for Told {
    fn write(&mut self, buf: &[u8]) -> io::Result<usize> {
        self.count(buf.len())
    }

    fn flush(&mut self) -> io::Result<()> {
        Ok(())
    }
}

// Calls the source once more than counts are given, and then with an empty buffer.
fn of_reader(alloc: Global, counts: &[&str]) -> Result<String, RowFault> {
    let mut reader = Told::of(counts);
    let mut source = ReadSource::new(&mut reader);
    let mut told = String::new(alloc);
    for _ in 0..=counts.len() {
        push_next(alloc, &mut source, 4, &mut told)?;
    }
    push_next(alloc, &mut source, 0, &mut told)?;
    Ok(format!(in alloc; "{told} by {}", reader.calls)?)
}

// Appends how many bytes of a piece the sink accepts, or that it fails. After a failure, `failed` must be true.
fn push_put<K: ByteSink>(
    alloc: Global,
    sink: &mut K,
    piece: &str,
    told: &mut String,
) -> Result<(), RowFault> {
    let taken = sink.put(piece.as_bytes());
    if taken.is_err() != sink.failed() {
        return Err(RowFault::Disagreement("failed"));
    }
    match taken {
        Ok(len) => Ok(told.push_str(format!(in alloc; "{len} ")?.as_str())?),
        Err(_) => Ok(told.push_str("fails ")?),
    }
}

// Writes pieces to a sink with room for four bytes.
fn puts(alloc: Global, [piece, fails]: [&str; 2], pieces: &[&str]) -> Result<String, RowFault> {
    let piece = (number(piece)? as usize).max(1);
    let mut sink = PieceSink::<4>::new(piece, call(fails)?);
    let mut told = String::new(alloc);
    for piece in pieces {
        push_put(alloc, &mut sink, piece, &mut told)?;
    }
    let taken = word_of(alloc, sink.taken())?;
    Ok(format!(in alloc; "{told}{taken}")?)
}

// Writes a whole text to a sink that accepts one byte per call.
fn put_whole(alloc: Global, text: &str, fails: &str) -> Result<String, RowFault> {
    let mut sink = PieceSink::<8>::new(1, call(fails)?);
    let whole = put_all(text.as_bytes(), &mut sink);
    let taken = word_of(alloc, sink.taken())?;
    match whole {
        Ok(()) => Ok(format!(in alloc; "whole {taken}")?),
        Err(len) => Ok(format!(in alloc; "{len} {taken}")?),
    }
}

fn write(alloc: Global, pieces: &[&str]) -> Result<String, RowFault> {
    let mut bytes = Vec::new(alloc);
    let mut sink = WriteSink::new(&mut bytes);
    let mut told = String::new(alloc);
    for piece in pieces {
        push_put(alloc, &mut sink, piece, &mut told)?;
    }
    let taken = word_of(alloc, &bytes)?;
    Ok(format!(in alloc; "{told}{taken}")?)
}

// Calls the sink once more than counts are given, and then with an empty piece.
fn of_writer(alloc: Global, counts: &[&str]) -> Result<String, RowFault> {
    let mut writer = Told::of(counts);
    let mut sink = WriteSink::new(&mut writer);
    let mut told = String::new(alloc);
    for _ in 0..=counts.len() {
        push_put(alloc, &mut sink, "abc", &mut told)?;
    }
    push_put(alloc, &mut sink, "", &mut told)?;
    Ok(format!(in alloc; "{told}by {}", writer.calls)?)
}

// Reads lines, each with its own limit in bytes.
fn lines(
    alloc: Global,
    text: &str,
    [piece, fails]: [&str; 2],
    limits: &[&str],
) -> Result<String, RowFault> {
    let piece = (number(piece)? as usize).max(1);
    let fails = call(fails)?;
    let bytes = bytes(alloc, text)?;
    let mut source = PieceSource::new(&bytes, piece, fails);
    let mut told = String::new(alloc);
    push_lines(alloc, &mut source, limits, &mut told)?;
    Ok(told)
}

fn push_lines<S: ByteSource>(
    alloc: Global,
    source: &mut S,
    limits: &[&str],
    told: &mut String,
) -> Result<(), RowFault> {
    let mut buffer = LineBuffer::new(alloc);
    for limit in limits {
        let limit = u64::from(number(limit)?);
        push_word(told, line(alloc, &mut buffer, source, limit)?.as_str())?;
    }
    Ok(())
}

// The next line, the end, or the fault. A line of more than 100 letters x is replaced by its length.
fn line<S: ByteSource>(
    alloc: Global,
    buffer: &mut LineBuffer,
    source: &mut S,
    limit: u64,
) -> Result<String, RowFault> {
    match buffer.advance(source, limit) {
        Ok(true) if buffer.line().len() > 100 && buffer.line().iter().all(|byte| *byte == b'x') => {
            Ok(format!(in alloc; "{} x", buffer.line().len())?)
        }
        Ok(true) => word_of(alloc, buffer.line()),
        Ok(false) if buffer.line().is_empty() => Ok(String::from_str(alloc, "end")?),
        Ok(false) => Err(RowFault::Disagreement("line")),
        Err(fault) => Ok(format!(in alloc; "{fault}")?),
    }
}

fn endless_line(alloc: Global, limit: u32) -> Result<String, RowFault> {
    let mut source = RepeatSource::new(b'x');
    let mut buffer = LineBuffer::new(alloc);
    line(alloc, &mut buffer, &mut source, u64::from(limit))
}
