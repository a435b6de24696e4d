//! The parts of an example.
ghost use Rattle.std.specs.Prelude.{◌<◌};

use bcs_registry::{Format, Named, VariantFormat};

/// The contents of a container, the payload of a variant, or a single format.
#[derive(Clone, Copy)]
pub(crate) enum Part<'r> {
    Nothing,
    Format(&'r Format),
    Row(&'r [Format]),
    Fields(&'r [Named<Format>]),
}

/// The contents of a container's example.
#[derive(Clone, Copy)]
pub(crate) struct Content<'r> {
    /// The number of the variant, if the container is an enum.
    pub(crate) variant: Option<u32>,
    /// The contents of the container or of the variant.
    pub(crate) part: Part<'r>,
}

impl Content<'_> {
    /// The number of nodes around the part: the container, and the variant of an enum.
    pub(crate) fn nodes_around(self) -> u32
        ensures { 0 < result }
    {
        match self.variant {
            Some(_) => 2,
            None => 1,
        }
    }
}

/// The payload of a variant, as a part.
pub(crate) fn payload_part(payload: &VariantFormat) -> Part<'_> {
    match payload {
        VariantFormat::Unit => Part::Nothing,
        VariantFormat::NewType(format) => Part::Format(format),
        VariantFormat::Tuple(formats) => Part::Row(formats),
        VariantFormat::Struct(fields) => Part::Fields(fields),
    }
}
