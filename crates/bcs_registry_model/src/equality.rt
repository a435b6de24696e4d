//! Equality of formats, variants and structs.
ghost use Rattle.std.specs.Prelude.{◌≡◌, map, string_bytes};
ghost use Rattle.bcs_registry_model.specs.Equality.{same_shape, same_shapes, same_fields, same_payload, same_variant, same_struct};
ghost use Rattle.bcs_registry_model.specs.View.{shape_of, formats_shapes, field_of, payload_of, container_of};

use crate::container::Container;
use crate::format::Format;
use crate::kind::Kind;
use crate::named::Named;
use crate::variant_format::VariantFormat;

/// Whether both containers are structs of the same kind with the same content.
pub fn is_same_struct(one: &Container, other: &Container) -> bool
    ensures { result ≡ same_struct (container_of one.now) (container_of other.now) }
{
    match (one, other) {
        (Container::UnitStruct, Container::UnitStruct) => true,
        (Container::NewTypeStruct(one), Container::NewTypeStruct(other)) => {
            is_same_format(one, other)
        }
        (Container::TupleStruct(ones), Container::TupleStruct(others)) => {
            are_same_formats(ones.as_slice(), others.as_slice())
        }
        (Container::Struct(ones), Container::Struct(others)) => {
            are_same_fields(ones.as_slice(), others.as_slice())
        }
        _ => false,
    }
}

/// Whether two variants have the same name and payload.
pub fn is_same_variant(one: &Named<VariantFormat>, other: &Named<VariantFormat>) -> bool
    ensures { result ≡ same_variant (string_bytes one.now.name, payload_of one.now.value)
        (string_bytes other.now.name, payload_of other.now.value) }
{
    one.name == other.name && is_same_payload(&one.value, &other.value)
}

// Whether two payloads are equal.
fn is_same_payload(one: &VariantFormat, other: &VariantFormat) -> bool
    ensures { result ≡ same_payload (payload_of one.now) (payload_of other.now) }
{
    match (one, other) {
        (VariantFormat::Unit, VariantFormat::Unit) => true,
        (VariantFormat::NewType(one), VariantFormat::NewType(other)) => is_same_format(one, other),
        (VariantFormat::Tuple(ones), VariantFormat::Tuple(others)) => {
            are_same_formats(ones.as_slice(), others.as_slice())
        }
        (VariantFormat::Struct(ones), VariantFormat::Struct(others)) => {
            are_same_fields(ones.as_slice(), others.as_slice())
        }
        _ => false,
    }
}

// Whether two formats are equal.
#[cycle(equality)]
fn is_same_format(one: &Format, other: &Format) -> bool
    ensures { result ≡ same_shape (shape_of one.now) (shape_of other.now) }
{
    match (one.kind(), other.kind()) {
        (Kind::Scalar(one), Kind::Scalar(other)) => one == other,
        (Kind::TypeName(one), Kind::TypeName(other)) => one == other,
        (Kind::Opt(one), Kind::Opt(other)) | (Kind::Seq(one), Kind::Seq(other)) => {
            is_same_format(one, other)
        }
        (Kind::Map(key, value), Kind::Map(other_key, other_value)) => {
            is_same_format(key, other_key) && is_same_format(value, other_value)
        }
        (Kind::Tuple(ones), Kind::Tuple(others)) => are_same_formats(ones, others),
        (Kind::TupleArray(one, size), Kind::TupleArray(other, other_size)) => {
            size == other_size && is_same_format(one, other)
        }
        _ => false,
    }
}

// Whether two lists contain the same formats in the same order.
#[cycle(equality)]
fn are_same_formats(ones: &[Format], others: &[Format]) -> bool
    ensures { result ≡ same_shapes (formats_shapes ones.now) (formats_shapes others.now) }
{
    if ones.len() != others.len() {
        return false;
    }
    for (i, one) in ones.iter().enumerate() {
        if !is_same_format(one, &others[i]) {
            return false;
        }
    }
    true
}

// Whether two lists contain the same fields in the same order. Names and formats are compared.
fn are_same_fields(ones: &[Named<Format>], others: &[Named<Format>]) -> bool
    ensures { result ≡ same_fields (map field_of ones.now) (map field_of others.now) }
{
    if ones.len() != others.len() {
        return false;
    }
    for (i, one) in ones.iter().enumerate() {
        if !(one.name == others[i].name && is_same_format(&one.value, &others[i].value)) {
            return false;
        }
    }
    true
}
