//! What is printed about a stop: the expected item and the field path.

use crate::above::Above;
use crate::meaning::{counted_word, put_bits, put_octets, put_quantity};
use crate::steps::{container_name, put_field_path, put_path};
use bcs_display_text::escaping::put_escaped;
use bcs_explain::{Expected, Trail};
use std::alloc::{AllocError, Global};

/// The texts that describe a stop.
#[derive(Drop)]
pub(crate) struct Halt {
    /// What was expected there.
    pub expected: Vec<u8>,
    /// How a message about it starts.
    pub opening: &'static str,
    /// The field path, by names.
    pub way: Vec<u8>,
    /// The PATH argument for the same position, or `-` if there is none.
    pub path: Vec<u8>,
    /// The container that was opened last there, or an empty name.
    pub container: String,
}

impl Halt {
    /// The stop directly after a whole value. It applies unless the listener receives another one.
    pub(crate) fn at_end(alloc: Global, above: &Above) -> Result<Halt, AllocError> {
        let expected = Vec::from_slice(alloc, b"the end")?;
        Halt::with(alloc, above, &Trail::Top, expected)
    }

    /// The stop at the position that `trail` leads to.
    pub(crate) fn at(
        alloc: Global,
        above: &Above,
        trail: &Trail<'_, '_, '_>,
        expected: Expected<'_>,
    ) -> Result<Halt, AllocError> {
        let mut text = Vec::new(alloc);
        put_expected(expected, &mut text)?;
        let mut halt = Halt::with(alloc, above, trail, text)?;
        halt.opening = opening_of(expected);
        Ok(halt)
    }

    /// The stop there, with a text for what was expected.
    pub(crate) fn with(
        alloc: Global,
        above: &Above,
        trail: &Trail<'_, '_, '_>,
        expected: Vec<u8>,
    ) -> Result<Halt, AllocError> {
        let mut halt = Halt {
            expected,
            opening: "expected ",
            way: Vec::new(alloc),
            path: Vec::new(alloc),
            container: String::from_str(alloc, container_name(trail))?,
        };
        put_field_path(above, trail, &mut halt.way)?;
        put_path(above, trail, &mut halt.path)?;
        Ok(halt)
    }

    pub(crate) fn copy(&self, alloc: Global) -> Result<Halt, AllocError> {
        Ok(Halt {
            expected: Vec::from_slice(alloc, &self.expected)?,
            opening: self.opening,
            way: Vec::from_slice(alloc, &self.way)?,
            path: Vec::from_slice(alloc, &self.path)?,
            container: String::from_str(alloc, self.container.as_str())?,
        })
    }
}

fn opening_of(expected: Expected<'_>) -> &'static str {
    match expected {
        Expected::Number | Expected::Length(_) => "expected the ",
        _ => "expected ",
    }
}

fn put_expected(expected: Expected<'_>, out: &mut Vec<u8>) -> Result<(), AllocError> {
    match expected {
        Expected::Truth => out.extend_from_slice(b"BOOL"),
        Expected::Unsigned(width) => put_bits(b'U', width.byte_len(), out),
        Expected::Signed(width) => put_bits(b'I', width.byte_len(), out),
        Expected::Length(counted) => {
            out.extend_from_slice(b"length of ")?;
            out.extend_from_slice(counted_word(counted).as_bytes())
        }
        Expected::Text(count) => put_quantity(count as u64, " byte of STR", " bytes of STR", out),
        Expected::Bytes(count) => put_quantity(
            count as u64,
            " byte of BYTES",
            " bytes of BYTES",
            out,
        ),
        Expected::Octets(count) => put_octets(count, out),
        Expected::Option => out.extend_from_slice(b"OPTION"),
        Expected::Number => out.extend_from_slice(b"number of a variant"),
        Expected::LaterKey => out.extend_from_slice(b"a later key"),
        Expected::Container(name) => {
            out.extend_from_slice(b"room for ")?;
            put_escaped(name, out)
        }
        Expected::Node => out.extend_from_slice(b"room for a value"),
        Expected::Nothing => out.extend_from_slice(b"no value of the format"),
    }
}
