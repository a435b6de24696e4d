//! A refusal as members of a JSON object.

use crate::location::Location;
use crate::refusal::Refusal;
use bcs_display_text::columns::put_decimal;
use bcs_display_text::escaping::put_escaped;
use std::alloc::{AllocError, Global};
use std::str::from_utf8;

impl Refusal {
    /// The members of an object for the refusal, each after a comma, in ASCII: where the input is refused (`at`, `line` and
    /// `column`, or `byte`), and the `message`.
    pub fn members(&self, alloc: Global) -> Result<Vec<u8>, AllocError> {
        let mut out = Vec::new(alloc);
        put_location(&self.location, &mut out)?;
        if !self.message.is_empty() {
            put_text("message", &self.message, &mut out)?;
        }
        Ok(out)
    }
}

fn put_location(location: &Location, out: &mut Vec<u8>) -> Result<(), AllocError> {
    match location {
        Location::WholeText => put_text("at", b"", out),
        Location::Pointer(pointer) => put_text("at", pointer, out),
        Location::Part(path) => put_text("at", path, out),
        Location::Line(line, column) => {
            put_number("line", *line, out)?;
            put_number("column", *column, out)
        }
        Location::Byte(place) => put_number("byte", *place, out),
        Location::Whole
        | Location::WholeInput
        | Location::Definition(_)
        | Location::Step(_, _)
        | Location::Name(_) => Ok(()),
    }
}

fn put_text(member: &str, text: &[u8], out: &mut Vec<u8>) -> Result<(), AllocError> {
    put_member(member, out)?;
    out.push(b'"')?;
    put_escaped(from_utf8(text).unwrap_or(""), out)?;
    Ok(out.push(b'"')?)
}

fn put_number(member: &str, number: u64, out: &mut Vec<u8>) -> Result<(), AllocError> {
    put_member(member, out)?;
    put_decimal(u128::from(number), out)
}

fn put_member(member: &str, out: &mut Vec<u8>) -> Result<(), AllocError> {
    out.extend_from_slice(b",\"")?;
    out.extend_from_slice(member.as_bytes())?;
    out.extend_from_slice(b"\":")
}
