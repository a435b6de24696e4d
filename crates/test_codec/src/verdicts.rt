//! Rows on bytes, on which all decoding calls must give the same verdict.
ghost use Rattle.std.specs.Prelude.{◌≤◌};

use crate::changes::agreeing_changes;
use crate::question::Question;
use crate::setting::Setting;
use crate::sources::{Validated, fault_of, of_front, of_whole, told};
use bcs_decode::{DecodeFault, Part, Reason, Stop, decode_slice, part, scan};
use bcs_encode::{EncodeFault, encode};
use bcs_io::pieces::PieceSource;
use bcs_value::same;
use std::alloc::Global;
use test_rows::row_fault::{RowFault, agree, granted};
use test_rows::words;

/// `quiet` makes calls that shouldn't allocate, `quiet_slice` only those on a slice. `stand` and `stand_slice` do the
/// same work without these calls, for comparison.
pub(crate) fn answer(
    alloc: Global,
    setting: &Setting,
    question: &str,
    words: &[&str],
) -> Result<String, RowFault> {
    let [format, bytes, limits @ ..] = words else {
        return Err(RowFault::NotUnderstood);
    };
    let asked = Question::read(alloc, &setting.registry, format, limits)?;
    answered(alloc, question, &asked, &words::bytes(alloc, bytes)?)
}

fn answered(
    alloc: Global,
    question: &str,
    asked: &Question,
    bytes: &[u8],
) -> Result<String, RowFault> {
    match question {
        "verdict" => return Ok(told(alloc, &encoded_again(alloc, asked, bytes)?)?),
        "scan" => return Ok(told(alloc, &scanned(asked, bytes))?),
        "changes" => {
            let count = agreeing_changes(alloc, asked, bytes)?;
            return Ok(format!(in alloc; "{count} agree")?);
        }
        "quiet" => {
            let _ = verdict(alloc, asked, bytes)?;
        }
        "quiet_slice" => {
            let _ = of_slice(alloc, asked, bytes)?;
        }
        _ => {}
    }
    Ok(String::from_str(alloc, "quiet")?)
}

/// The verdict of all calls. `encode` must return the bytes of the value again.
pub(crate) fn encoded_again(
    alloc: Global,
    question: &Question,
    bytes: &[u8],
) -> Result<Result<u64, DecodeFault>, RowFault> {
    let Question {
        registry,
        format,
        limits,
    } = question;
    match verdict(alloc, question, bytes)? {
        Ok((value, length)) => {
            let again = encode(alloc, registry, format, limits, &value);
            let is_front = matches!(
                granted(again, EncodeFault::OutOfMemory)?,
                Ok(again) if bytes.starts_with(&again) && length == again.len() as u64
            );
            agree(is_front, "encode")?;
            Ok(Ok(length))
        }
        Err(fault) => Ok(Err(fault)),
    }
}

// The value that the bytes start with and its length, or where and why they stop being one. All calls must agree: on a
// slice, and on sources that provide 1, 2 or 3 bytes per call, or everything.
fn verdict(alloc: Global, question: &Question, bytes: &[u8]) -> Result<Validated, RowFault> {
    let verdict = of_slice(alloc, question, bytes)?;
    agree_on_sources(alloc, question, bytes, &verdict)?;
    Ok(verdict)
}

fn agree_on_sources(
    alloc: Global,
    question: &Question,
    bytes: &[u8],
    verdict: &Validated,
) -> Result<(), RowFault> {
    agree_in_pieces(alloc, question, bytes, 1, verdict)?;
    agree_in_pieces(alloc, question, bytes, 2, verdict)?;
    agree_in_pieces(alloc, question, bytes, 3, verdict)?;
    agree_in_pieces(alloc, question, bytes, 65536, verdict)
}

fn scanned(question: &Question, bytes: &[u8]) -> Result<u64, DecodeFault> {
    let Question {
        registry,
        format,
        limits,
    } = question;
    match scan(registry, format, limits, bytes) {
        Ok(length) => Ok(length as u64),
        Err(stop) => Err(DecodeFault::Stop(stop)),
    }
}

// Decodes a slice. `part` without steps must return the whole value.
fn of_slice(alloc: Global, question: &Question, bytes: &[u8]) -> Result<Validated, RowFault> {
    let Question {
        registry,
        format,
        limits,
    } = question;
    let decoded = decode_slice(alloc, registry, format, limits, bytes);
    let verdict = match granted(decoded, DecodeFault::OutOfMemory)? {
        Ok((value, length)) => Ok((value, length as u64)),
        Err(fault) => Err(fault),
    };
    agree_without_memory(question, bytes, &verdict)?;
    Ok(verdict)
}

fn agree_without_memory(
    question: &Question,
    bytes: &[u8],
    verdict: &Validated,
) -> Result<(), RowFault> {
    let Question {
        registry,
        format,
        limits,
    } = question;
    let whole = part(registry, format, limits, bytes, &[]);
    agree(is_whole(whole, bytes, verdict), "part")?;
    agree(is_length(scanned(question, bytes), verdict), "scan")
}

fn is_whole(part: Result<Option<Part<'_>>, Stop>, bytes: &[u8], verdict: &Validated) -> bool {
    match (part, verdict) {
        (Ok(Some(whole)), Ok((_, length))) => {
            whole.place == 0
                && whole.bytes.len() as u64 == *length
                && bytes.starts_with(whole.bytes)
        }
        (Err(stop), Err(fault)) => DecodeFault::Stop(stop) == *fault,
        _ => false,
    }
}

fn is_length(scanned: Result<u64, DecodeFault>, verdict: &Validated) -> bool {
    match (scanned, verdict) {
        (Ok(found), Ok((_, length))) => found == *length,
        (Err(one), Err(other)) => one == *other,
        _ => false,
    }
}

// Checks that a source gives the same verdict, both for its prefix and for the whole. After a value, reading a prefix
// consumes no further byte, and reading the whole consumes one if there is one.
fn agree_in_pieces(
    alloc: Global,
    question: &Question,
    bytes: &[u8],
    piece: usize,
    verdict: &Validated,
) -> Result<(), RowFault>
    requires { 1 ≤ piece }
{
    let mut source = PieceSource::new(bytes, piece, None);
    let mut other = PieceSource::new(bytes, piece, None);
    agree_on_front(alloc, question, &mut source, &mut other, verdict)?;
    let mut source = PieceSource::new(bytes, piece, None);
    let mut other = PieceSource::new(bytes, piece, None);
    agree_on_whole(
        alloc,
        question,
        &mut source,
        &mut other,
        bytes.len(),
        verdict,
    )
}

fn agree_on_front<'a>(
    alloc: Global,
    question: &Question,
    source: &mut PieceSource<'a>,
    other: &mut PieceSource<'a>,
    verdict: &Validated,
) -> Result<(), RowFault> {
    let is_front = is_same(&of_front(alloc, question, source, other)?, verdict);
    agree(is_front, "decode_from")?;
    agree(gave(source, verdict, 0) && gave(other, verdict, 0), "given")
}

fn agree_on_whole<'a>(
    alloc: Global,
    question: &Question,
    source: &mut PieceSource<'a>,
    other: &mut PieceSource<'a>,
    len: usize,
    verdict: &Validated,
) -> Result<(), RowFault> {
    let whole = of_whole(alloc, question, source, other)?;
    let is_whole = is_same_whole(&whole, verdict, len);
    let behind = u64::from(fault_of(&whole) != fault_of(verdict));
    agree(is_whole, "decode_all")?;
    agree(
        gave(source, verdict, behind) && gave(other, verdict, behind),
        "given",
    )
}

fn is_same(one: &Validated, other: &Validated) -> bool {
    match (one, other) {
        (Ok((value, length)), Ok((same_value, same_length))) => {
            length == same_length && same(value, same_value)
        }
        (Err(one), Err(other)) => one == other,
        _ => false,
    }
}

// Whether `whole` follows from the verdict on the prefix: the whole is a value exactly if no byte follows.
fn is_same_whole(whole: &Validated, verdict: &Validated, len: usize) -> bool {
    match verdict {
        Ok((_, length)) if *length != len as u64 => {
            fault_of(whole)
                == Some(DecodeFault::Stop(Stop {
                    reason: Reason::TrailingBytes,
                    place: *length,
                }))
        }
        _ => is_same(whole, verdict),
    }
}

// Whether the source has provided the bytes of the value and `behind` more.
fn gave(source: &PieceSource<'_>, verdict: &Validated, behind: u64) -> bool {
    match verdict {
        Ok((_, length)) => source.given() == length.saturating_add(behind),
        Err(_) => true,
    }
}
