//! The parts of a registry's JSON.

use bcs_registry_model::words::word_format;
use serde_json::{Map, Number, Value};
use std::fmt;

/// What a JSON value must be, as a registry or a format, or inside of one.
#[derive(Clone, Copy, PartialEq, Eq)]
pub(crate) enum Part {
    Registry,
    Container,
    Fields,
    Field,
    Variants,
    Variant,
    /// Any value, if the name of its member is a variant number.
    VariantNumber,
    Payload,
    Format,
    Formats,
    /// The name of a container.
    Name,
    Map,
    TupleArray,
    /// The length of an array.
    Size,
}

impl Part {
    /// What each item of an array must be. `None`: an array isn't allowed.
    pub(crate) fn item(self) -> Option<Part> {
        match self {
            Part::Fields => Some(Part::Field),
            Part::Formats => Some(Part::Format),
            _ => None,
        }
    }

    /// What the member of this name must be. `None`: it isn't allowed.
    pub(crate) fn member(self, name: &str) -> Option<Part> {
        match self {
            Part::Registry => Some(Part::Container),
            Part::Container => container_member(name),
            Part::Payload => payload_member(name),
            Part::Field => Some(Part::Format),
            Part::Variants => Some(Part::Variant),
            Part::Variant => Some(Part::Payload),
            Part::Format => format_member(name),
            Part::Map => map_member(name),
            Part::TupleArray => array_member(name),
            _ => None,
        }
    }

    /// Whether an object has the right number of members, and each of their names is allowed.
    pub(crate) fn has_names(self, members: &Map<String, Value>) -> bool {
        let count = match self {
            Part::Registry | Part::Variants => return true,
            Part::Map | Part::TupleArray => 2,
            _ => 1,
        };
        members.len() == count && members.iter().all(|(name, _)| self.member(name).is_some())
    }

    /// Whether this JSON string is allowed.
    pub(crate) fn is_word(self, word: &str) -> bool {
        match self {
            Part::Container => word == "UNITSTRUCT",
            Part::Payload => word == "UNIT",
            Part::Format => word_format(word).is_some(),
            Part::Name => true,
            _ => false,
        }
    }

    /// Whether this JSON number is allowed, or if `loose`, whether any number is.
    pub(crate) fn is_number(self, loose: bool, number: &Number) -> bool {
        self == Part::Size && (loose || number.as_u64().is_some())
    }
}

fn container_member(name: &str) -> Option<Part> {
    match name {
        "NEWTYPESTRUCT" => Some(Part::Format),
        "TUPLESTRUCT" => Some(Part::Formats),
        "STRUCT" => Some(Part::Fields),
        "ENUM" => Some(Part::Variants),
        _ => None,
    }
}

fn payload_member(name: &str) -> Option<Part> {
    match name {
        "NEWTYPE" => Some(Part::Format),
        "TUPLE" => Some(Part::Formats),
        "STRUCT" => Some(Part::Fields),
        _ => None,
    }
}

fn format_member(name: &str) -> Option<Part> {
    match name {
        "TYPENAME" => Some(Part::Name),
        "OPTION" | "SEQ" => Some(Part::Format),
        "MAP" => Some(Part::Map),
        "TUPLE" => Some(Part::Formats),
        "TUPLEARRAY" => Some(Part::TupleArray),
        _ => None,
    }
}

fn map_member(name: &str) -> Option<Part> {
    match name {
        "KEY" | "VALUE" => Some(Part::Format),
        _ => None,
    }
}

fn array_member(name: &str) -> Option<Part> {
    match name {
        "CONTENT" => Some(Part::Format),
        "SIZE" => Some(Part::Size),
        _ => None,
    }
}

impl fmt::Display for Part {
    fn fmt<W: fmt::Write>(&self, f: &mut fmt::Formatter<W>) -> fmt::Result {
        f.write_str(match self {
            Part::Registry => "an object of containers",
            Part::Container => "a container",
            Part::Fields => "an array of fields",
            Part::Field => "a field, an object with one member",
            Part::Variants => "an object of variants",
            Part::Variant => "a variant, an object with one member",
            Part::VariantNumber =>
                "the number of a variant: below 4294967296, in decimal digits without leading zeros",
            Part::Payload => "a variant's payload",
            Part::Format => "a format",
            Part::Formats => "an array of formats",
            Part::Name => "a string, the name of a container",
            Part::Map => "an object with KEY and VALUE",
            Part::TupleArray => "an object with CONTENT and SIZE",
            Part::Size => "an integer below 18446744073709551616",
        })
    }
}
