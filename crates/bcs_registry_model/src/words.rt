//! The names of formats without parts, as registries write them.
ghost use Rattle.std.specs.Prelude.{◌≡◌, option_map};
ghost use Rattle.bcs_registry_model.specs.Kind.{scalar_shape};
ghost use Rattle.bcs_registry_model.specs.View.{shape_of};
ghost use Rattle.bcs_registry_model.specs.Words.{format_named, word_of};

use crate::format::Format;
use crate::integer_kind::IntegerKind;
use crate::scalar::{Scalar, Unsupported};
use bcs_num::Width;

impl Scalar {
    /// The name of the format.
    #[tactic(auto, unfolding(crate::specs::Words::word_of))]
    pub fn word(self) -> &'static str
        ensures { result.now ≡ word_of (scalar_shape self) }
    {
        match self {
            Scalar::Unit => "UNIT",
            Scalar::Bool => "BOOL",
            Scalar::Whole(IntegerKind::Signed(Width::W1)) => "I8",
            Scalar::Whole(IntegerKind::Signed(Width::W2)) => "I16",
            Scalar::Whole(IntegerKind::Signed(Width::W4)) => "I32",
            Scalar::Whole(IntegerKind::Signed(Width::W8)) => "I64",
            Scalar::Whole(IntegerKind::Signed(Width::W16)) => "I128",
            Scalar::Whole(IntegerKind::Unsigned(Width::W1)) => "U8",
            Scalar::Whole(IntegerKind::Unsigned(Width::W2)) => "U16",
            Scalar::Whole(IntegerKind::Unsigned(Width::W4)) => "U32",
            Scalar::Whole(IntegerKind::Unsigned(Width::W8)) => "U64",
            Scalar::Whole(IntegerKind::Unsigned(Width::W16)) => "U128",
            Scalar::Unsupported(Unsupported::F32) => "F32",
            Scalar::Unsupported(Unsupported::F64) => "F64",
            Scalar::Unsupported(Unsupported::Char) => "CHAR",
            Scalar::Str => "STR",
            Scalar::Bytes => "BYTES",
        }
    }
}

/// The format with this name.
pub fn word_format(word: &str) -> Option<Format>
    ensures { option_map shape_of result ≡ format_named word.now }
{
    match word {
        "UNIT" => Some(Format::Unit),
        "BOOL" => Some(Format::Bool),
        "I8" => Some(Format::I8),
        "I16" => Some(Format::I16),
        "I32" => Some(Format::I32),
        "I64" => Some(Format::I64),
        "I128" => Some(Format::I128),
        "U8" => Some(Format::U8),
        "U16" => Some(Format::U16),
        "U32" => Some(Format::U32),
        "U64" => Some(Format::U64),
        "U128" => Some(Format::U128),
        "F32" => Some(Format::F32),
        "F64" => Some(Format::F64),
        "CHAR" => Some(Format::Char),
        "STR" => Some(Format::Str),
        "BYTES" => Some(Format::Bytes),
        _ => None,
    }
}
