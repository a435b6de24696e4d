//! The names of an enum's variants, in a line.

use bcs_display_refusal::Name;
use bcs_registry::{Named, VariantFormat};
use std::collections::BTreeMap;
use std::fmt;

/// The number of variants that are listed.
const LISTED: usize = 8;

/// The first variants of an enum by number, and how many more there are.
#[derive(Clone, Copy)]
pub(crate) struct VariantList<'a>(pub(crate) &'a BTreeMap<u32, Named<VariantFormat>>);

impl fmt::Display for VariantList<'_> {
    fn fmt<W: fmt::Write>(&self, f: &mut fmt::Formatter<W>) -> fmt::Result {
        let variants = self.0;
        if variants.is_empty() {
            return f.write_str("; the enum has no variants");
        }
        f.write_str("; variants: ")?;
        for (place, variant) in variants.values().take(LISTED).enumerate() {
            if place > 0 {
                f.write_str(", ")?;
            }
            write!(f, "{}", Name::of(variant.name.as_str()))?;
        }
        match variants.len().saturating_sub(LISTED) {
            0 => Ok(()),
            more => write!(f, ", ...({more} more)"),
        }
    }
}
