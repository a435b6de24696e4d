//! What helps to correct a name that doesn't exist.

use crate::field_list::FieldList;
use crate::variant_list::VariantList;
use bcs_display_mistakes::Suggestion;
use bcs_display_refusal::Name;
use std::fmt;

/// What a line suggests after its message.
#[derive(Clone, Copy)]
pub(crate) enum Hint<'a> {
    Nothing,
    /// The name that was probably meant.
    Nearest(Suggestion<'a>),
    /// The name that was probably written in place of the one that is missing.
    Found(Name<'a>),
    /// The variants that exist.
    Variants(VariantList<'a>),
    /// The fields that exist.
    Fields(FieldList<'a>),
    /// An absent option is `null`.
    Null,
}

impl fmt::Display for Hint<'_> {
    fn fmt<W: fmt::Write>(&self, f: &mut fmt::Formatter<W>) -> fmt::Result {
        match self {
            Hint::Nothing => Ok(()),
            Hint::Nearest(suggestion) => write!(f, "{suggestion}"),
            Hint::Found(name) => write!(f, "; found: {name}"),
            Hint::Variants(list) => write!(f, "{list}"),
            Hint::Fields(list) => write!(f, "{list}"),
            Hint::Null => f.write_str("; an absent option is null"),
        }
    }
}
