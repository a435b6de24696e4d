//! Refusals of lines as JSON objects, for `--refusals json`.
ghost use Rattle.std.specs.Prelude.{◌≡◌, ◌++◌, IfOk, OnOk, drop, take};
ghost use Rattle.std.specs.List.{All, prefix_len};
ghost use Rattle.bcs_tool_answers.specs.JsonRefusals.{HasForm, IsJsonRefusal, is_digit, is_of_name, place_digits, place_member, refusal_name};
ghost use Rattle.bcs_tool_answers.specs.Places.{IsPrintable};

use crate::answer::{Answer, unplaced};
use crate::places::place_of_line;
use std::alloc::{AllocError, Global};

/// The answer to a line. If refusals are requested as JSON, a refusal is an object, and has no place besides.
pub fn formed(alloc: Global, json_refusals: bool, answer: Answer) -> Result<Answer, AllocError>
    ensures status { IfOk result (λ a. a.status ≡ answer.status) }
    ensures form { IfOk result (λ a. HasForm json_refusals answer.status answer.output.items a.output.items) }
{
    if !json_refusals || answer.status != 2 {
        return Ok(answer);
    }
    let line = object_line(alloc, &answer)?;
    Ok(unplaced(alloc, 2, line))
}

// The object begins with the name of the refusal, and its place. Other members follow unless an allocation fails.
fn object_line(alloc: Global, answer: &Answer) -> Result<Vec<u8>, AllocError>
    ensures { IfOk result (λ line. IsJsonRefusal answer.now.output.items line.items) }
{
    let name = name_in(answer.output.as_slice());
    let members = members_of(alloc, answer.place.as_slice());
    let mut line = Vec::from_slice(alloc, b"{\"refused\":\"")?;
    line.extend_from_slice(name)?;
    line.extend_from_slice(b"\"")?;
    put_place(digits_in(answer.output.as_slice()), &mut line)?;
    line.extend_from_slice(members.as_slice())?;
    line.extend_from_slice(b"}\n")?;
    Ok(line)
}

// The members in a place, each after a comma.
fn members_of(alloc: Global, place: &[u8]) -> Vec<u8>
    ensures { All IsPrintable result.items }
{
    place_of_line(alloc, Vec::from_slice(alloc, place).ok())
}

fn put_place(digits: &[u8], line: &mut Vec<u8>) -> Result<(), AllocError>
    ensures { OnOk result (line.new.items ≡ line.old.items ++ place_member digits.now) }
{
    if digits.is_empty() {
        return Ok(());
    }
    line.extend_from_slice(b",\"place\":")?;
    line.extend_from_slice(digits)
}

// The name in the line of a refusal.
fn name_in(line: &[u8]) -> &[u8]
    ensures { result.now ≡ refusal_name line.now }
{
    front_of_name(behind(line, 9))
}

// The digits of the place in the line of a refusal, if it has one.
fn digits_in(line: &[u8]) -> &[u8]
    ensures { result.now ≡ place_digits line.now }
{
    let name = name_in(line);
    leading_digits(behind(behind(behind(line, 9), name.len()), 4))
}

// What follows the first `count` bytes.
fn behind(line: &[u8], count: usize) -> &[u8]
    ensures { result.now ≡ drop count line.now }
{
    if line.len() > count {
        &line[count..]
    } else {
        b""
    }
}

fn front_of_name(text: &[u8]) -> &[u8]
    ensures { result.now ≡ take (prefix_len is_of_name text.now) text.now }
{
    let mut end = 0;
    while end < text.len() && is_of_name(text[end]) {
        end += 1;
    }
    &text[..end]
}

fn is_of_name(byte: u8) -> bool
    ensures { result ≡ is_of_name byte }
{
    !matches!(byte, b' ' | b'\n')
}

fn leading_digits(text: &[u8]) -> &[u8]
    ensures { result.now ≡ take (prefix_len is_digit text.now) text.now }
{
    let mut end = 0;
    while end < text.len() && is_digit(text[end]) {
        end += 1;
    }
    &text[..end]
}

fn is_digit(byte: u8) -> bool
    ensures { result ≡ is_digit byte }
{
    byte >= b'0' && byte <= b'9'
}
