//! The nesting depth of formats.
ghost use Rattle.std.specs.Prelude.{◌≡◌, nat_le};
ghost use Rattle.bcs_registry_model.specs.View.{shape_of, formats_shapes};
ghost use Rattle.bcs_registry_model.specs.WellFormed as spec;

use crate::format::Format;

/// The greatest number of levels that a format of a registry may have.
const LEVEL_LIMIT: u32 = 32;

pub fn has_few_levels(format: &Format) -> bool
    ensures { result ≡ spec.has_few_levels (shape_of format.now) }
{
    has_levels_within(format, LEVEL_LIMIT)
}

// Recurses at most `limit` levels, so no format can overflow the stack.
#[cycle(levels)]
fn has_levels_within(format: &Format, limit: u32) -> bool
    ensures { result ≡ nat_le (spec.levels (shape_of format.now)) limit }
{
    match format {
        Format::Opt(inner) | Format::Seq(inner) | Format::TupleArray(inner, _) => {
            limit > 0 && has_levels_within(inner, limit - 1)
        }
        Format::Map(key, value) => {
            limit > 0 && has_levels_within(key, limit - 1) && has_levels_within(value, limit - 1)
        }
        Format::Tuple(formats) => limit > 0 && have_levels_within(formats.as_slice(), limit - 1),
        _ => true,
    }
}

#[cycle(levels)]
fn have_levels_within(formats: &[Format], limit: u32) -> bool
    ensures { result ≡ nat_le (spec.shapes_levels (formats_shapes formats.now)) limit }
{
    for format in formats {
        if !has_levels_within(format, limit) {
            return false;
        }
    }
    true
}
