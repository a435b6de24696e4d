//! The names of a struct's fields, in a line.

use bcs_display_refusal::Name;
use bcs_registry::{Format, Named};
use std::fmt;

/// The number of fields that are listed.
const LISTED: usize = 8;

/// The first fields of a struct, and how many more there are.
#[derive(Clone, Copy)]
pub(crate) struct FieldList<'a>(pub(crate) &'a [Named<Format>]);

impl fmt::Display for FieldList<'_> {
    fn fmt<W: fmt::Write>(&self, f: &mut fmt::Formatter<W>) -> fmt::Result {
        let fields = self.0;
        if fields.is_empty() {
            return f.write_str("; the struct has no fields");
        }
        f.write_str("; fields: ")?;
        for (place, field) in fields.iter().take(LISTED).enumerate() {
            if place > 0 {
                f.write_str(", ")?;
            }
            write!(f, "{}", Name::of(field.name.as_str()))?;
        }
        match fields.len().saturating_sub(LISTED) {
            0 => Ok(()),
            more => write!(f, ", ...({more} more)"),
        }
    }
}
