//! A common view of the content of structs and variants, and of the formats of tuples and fields.
ghost use Rattle.std.specs.Prelude.{◌≡◌, ◌<◌, length, get_or};
ghost use Rattle.bcs_registry_model.specs.Container.{content, payload_shape};
ghost use Rattle.bcs_registry_model.specs.Layout.{content_seen, layout_shape, row_formats};
ghost use Rattle.bcs_registry_model.specs.View.{container_of, payload_of};

use crate::container::Container;
use crate::format::Format;
use crate::named::Named;
use crate::variant_format::VariantFormat;
use std::collections::BTreeMap;

/// The formats of a tuple, or of the fields of a struct.
#[derive(Clone, Copy)]
pub enum Row<'a> {
    Formats(&'a [Format]),
    /// The fields, in the order of their encoding.
    Fields(&'a [Named<Format>]),
}

/// What a struct or a variant contains.
#[derive(Clone, Copy)]
pub enum Layout<'a> {
    Unit,
    NewType(&'a Format),
    Tuple(&'a [Format]),
    /// The fields, in the order of their encoding.
    Struct(&'a [Named<Format>]),
}

/// What a container contains: the layout of a struct, or the variants of an enum.
#[derive(Clone, Copy)]
pub enum Content<'a> {
    Of(Layout<'a>),
    OneOf(&'a BTreeMap<u32, Named<VariantFormat>>),
}

impl<'a> Row<'a> {
    /// The number of formats.
    #[inline(always)]
    pub fn len(self) -> usize
        ensures { result ≡ length (row_formats self.entry) }
    {
        match self {
            Row::Formats(formats) => formats.len(),
            Row::Fields(fields) => fields.len(),
        }
    }

    /// The format at index `place`.
    #[inline(always)]
    pub fn at(self, place: usize) -> &'a Format
        requires { place < length (row_formats self) }
        ensures { result.now ≡ get_or (row_formats self.entry) place result.now }
    {
        match self {
            Row::Formats(formats) => &formats[place],
            Row::Fields(fields) => &fields[place].value,
        }
    }
}

impl VariantFormat {
    /// What the variant contains.
    #[inline(always)]
    pub fn layout(&self) -> Layout<'_>
        ensures { layout_shape result ≡ payload_shape (payload_of self.now) }
    {
        match self {
            VariantFormat::Unit => Layout::Unit,
            VariantFormat::NewType(format) => Layout::NewType(format),
            VariantFormat::Tuple(formats) => Layout::Tuple(formats.as_slice()),
            VariantFormat::Struct(fields) => Layout::Struct(fields.as_slice()),
        }
    }
}

impl Container {
    /// What the container contains.
    #[inline(always)]
    pub fn content(&self) -> Content<'_>
        ensures { content_seen result ≡ content (container_of self.now) }
    {
        match self {
            Container::UnitStruct => Content::Of(Layout::Unit),
            Container::NewTypeStruct(format) => Content::Of(Layout::NewType(format)),
            Container::TupleStruct(formats) => Content::Of(Layout::Tuple(formats.as_slice())),
            Container::Struct(fields) => Content::Of(Layout::Struct(fields.as_slice())),
            Container::Enum(variants) => Content::OneOf(variants),
        }
    }
}
