//! Names, as lines show them.

use std::alloc::AllocError;
use std::fmt;
use std::fmt::InlineText;

// The number of ASCII characters that a line shows of a name.
const LONGEST: usize = 200;

// The length of the escapes for a character of two UTF-16 units.
const PAIR: usize = 12;

/// A name, as a line shows it: in ASCII with JSON escapes, so that none of its bytes reaches a terminal unescaped. Of a
/// long name, the line shows the whole characters that fit, followed by `...(cut)`.
#[derive(Clone, Copy)]
pub struct Name<'a> {
    text: &'a str,
}

impl<'a> Name<'a> {
    pub fn of(text: &'a str) -> Name<'a> {
        Name { text }
    }

    /// The name as it is.
    pub fn text(self) -> &'a str {
        self.text
    }
}

impl fmt::Display for Name<'_> {
    fn fmt<W: fmt::Write>(&self, f: &mut fmt::Formatter<W>) -> fmt::Result {
        let mut room = LONGEST;
        for unit in self.text.encode_utf16() {
            let escape = escaped(unit);
            let signs = escape.as_str();
            let needed = match unit {
                0xd800..=0xdbff => PAIR,
                _ => signs.len(),
            };
            if needed > room {
                return f.write_str("...(cut)");
            }
            room = room.saturating_sub(signs.len());
            f.write_str(signs)?;
        }
        Ok(())
    }
}

// How a JSON string spells a UTF-16 unit.
fn escaped(unit: u16) -> InlineText<6> {
    match u8::try_from(unit) {
        Ok(byte @ (b'"' | b'\\')) => InlineText::of(format_args!("\\{}", char::from(byte))),
        Ok(byte @ b' '..=b'~') => InlineText::of(char::from(byte)),
        _ => InlineText::of(format_args!("\\u{unit:04x}")),
    }
}

/// Appends a name as a line shows it.
pub fn put_name(text: &str, out: &mut Vec<u8>) -> Result<(), AllocError> {
    let name = Name::of(text);
    let shown = format!(in *out.allocator(); "{name}")?;
    out.extend_from_slice(shown.as_bytes())
}

/// How a text spells the names in it.
#[derive(Clone, Copy)]
pub(crate) enum Spelling {
    /// As they are.
    Exact,
    /// As a line shows them.
    Shown,
}

impl Spelling {
    /// Appends a name.
    pub(crate) fn put(self, name: &str, out: &mut Vec<u8>) -> Result<(), AllocError> {
        match self {
            Spelling::Exact => out.extend_from_slice(name.as_bytes()),
            Spelling::Shown => put_name(name, out),
        }
    }
}
