//! Formats by kind. Only this file distinguishes all formats without parts.
ghost use Rattle.std.specs.Prelude.{◌≡◌};
ghost use Rattle.bcs_registry_model.specs.Kind.{kind_shape};
ghost use Rattle.bcs_registry_model.specs.View.{shape_of};

use crate::format::Format;
use crate::integer_kind::IntegerKind;
use crate::scalar::{Scalar, Unsupported};
use bcs_num::Width;

/// A format, as recursive functions match on it: the scalars are grouped, and the parts of all others are borrowed.
#[derive(Clone, Copy)]
pub enum Kind<'a> {
    Scalar(Scalar),
    TypeName(&'a str),
    Opt(&'a Format),
    Seq(&'a Format),
    Map(&'a Format, &'a Format),
    Tuple(&'a [Format]),
    TupleArray(&'a Format, u64),
}

impl Format {
    /// The kind of the format. Inlined, so that a match on it is a single step.
    #[inline(always)]
    pub fn kind(&self) -> Kind<'_>
        ensures { kind_shape result ≡ shape_of self.now }
    {
        match self {
            Format::Unit => Kind::Scalar(Scalar::Unit),
            Format::Bool => Kind::Scalar(Scalar::Bool),
            Format::I8 => Kind::Scalar(Scalar::Whole(IntegerKind::Signed(Width::W1))),
            Format::I16 => Kind::Scalar(Scalar::Whole(IntegerKind::Signed(Width::W2))),
            Format::I32 => Kind::Scalar(Scalar::Whole(IntegerKind::Signed(Width::W4))),
            Format::I64 => Kind::Scalar(Scalar::Whole(IntegerKind::Signed(Width::W8))),
            Format::I128 => Kind::Scalar(Scalar::Whole(IntegerKind::Signed(Width::W16))),
            Format::U8 => Kind::Scalar(Scalar::Whole(IntegerKind::Unsigned(Width::W1))),
            Format::U16 => Kind::Scalar(Scalar::Whole(IntegerKind::Unsigned(Width::W2))),
            Format::U32 => Kind::Scalar(Scalar::Whole(IntegerKind::Unsigned(Width::W4))),
            Format::U64 => Kind::Scalar(Scalar::Whole(IntegerKind::Unsigned(Width::W8))),
            Format::U128 => Kind::Scalar(Scalar::Whole(IntegerKind::Unsigned(Width::W16))),
            Format::F32 => Kind::Scalar(Scalar::Unsupported(Unsupported::F32)),
            Format::F64 => Kind::Scalar(Scalar::Unsupported(Unsupported::F64)),
            Format::Char => Kind::Scalar(Scalar::Unsupported(Unsupported::Char)),
            Format::Str => Kind::Scalar(Scalar::Str),
            Format::Bytes => Kind::Scalar(Scalar::Bytes),
            Format::TypeName(name) => Kind::TypeName(name.as_str()),
            Format::Opt(content) => Kind::Opt(content),
            Format::Seq(element) => Kind::Seq(element),
            Format::Map(key, value) => Kind::Map(key, value),
            Format::Tuple(formats) => Kind::Tuple(formats.as_slice()),
            Format::TupleArray(element, size) => Kind::TupleArray(element, *size),
        }
    }
}
