//! Whether the names in formats are known.
ghost use Rattle.std.specs.Prelude.{◌≡◌, is_none};
ghost use Rattle.bcs_registry_model.specs.View.{shape_of, formats_shapes, entries_of};
ghost use Rattle.bcs_registry_model.specs.WellFormed as spec;

use crate::containers::Containers;
use crate::format::Format;

/// Whether each `TypeName` in the format is the name of a container.
pub fn is_known(format: &Format, containers: &Containers) -> bool
    ensures { result ≡ spec.is_known (entries_of containers.now.entries.items) (shape_of format.now) }
{
    first_unknown(format, containers).is_none()
}

/// The first name in the format, from left to right, that isn't the name of a container.
#[cycle(known)]
pub fn first_unknown<'a>(format: &'a Format, containers: &Containers) -> Option<&'a str>
    ensures { is_none result
        ≡ spec.is_known (entries_of containers.now.entries.items) (shape_of format.now) }
{
    match format {
        Format::TypeName(name) => if containers.contains_key(name.as_str()) {
            None
        } else {
            Some(name.as_str())
        },
        Format::Opt(inner) | Format::Seq(inner) | Format::TupleArray(inner, _) => {
            first_unknown(inner, containers)
        }
        Format::Map(key, value) => match first_unknown(key, containers) {
            Some(name) => Some(name),
            None => first_unknown(value, containers),
        },
        Format::Tuple(formats) => first_unknown_among(formats.as_slice(), containers),
        _ => None,
    }
}

#[cycle(known)]
fn first_unknown_among<'a>(formats: &'a [Format], containers: &Containers) -> Option<&'a str>
    ensures { is_none result
        ≡ spec.are_known (entries_of containers.now.entries.items) (formats_shapes formats.now) }
{
    for format in formats {
        if let Some(name) = first_unknown(format, containers) {
            return Some(name);
        }
    }
    None
}
