//! Reads the contents of containers.
ghost use Rattle.std.specs.Prelude.{◌≡◌, Some, IfErr, IfOk, map, string_bytes, true};
ghost use Rattle.std.specs.List.{list_all};
ghost use Rattle.bcs_registry_model.specs.Container.{container_at, enumeration};
ghost use Rattle.bcs_registry_model.specs.Ranges.{IsOrderly};
ghost use Rattle.bcs_registry_model.specs.Shape as shape;
ghost use Rattle.bcs_registry_model.specs.View.{field_of, payload_of, choice_of};
ghost use Rattle.bcs_registry_model.specs.WellFormed.{IsWellFormed, are_distinct, payload_names};
ghost use Rattle.bcs_value_model.specs.View.{tree_of};
ghost use Rattle.bcs_json_spec.specs.JsonContent.{fields as fields_content, json_content_at, of, one_of, payload_content};
ghost use Rattle.bcs_json_spec.specs.Reading.{read_data};
ghost use Rattle.bcs_json_spec.specs.Reading as spec;
ghost use Rattle.bcs_json_passing.specs.Passing.{IfRefused};
ghost use Rattle.bcs_json_tokens.specs.Tokens.{IsRead, IsRefusedAs};

use crate::leaves::scalar_of_token;
use crate::names::{container_called, open_container, variant_called, without_payload};
use crate::parts::next_fields;
use crate::reading::{next_tuple, next_value};
use bcs_json_passing::given_up::GivenUp;
use bcs_json_passing::refusing::{refused, refused_only_member};
use bcs_json_passing::steps::{inside, next_name, pass_end_object};
use bcs_json_spec::JsonFault;
use bcs_registry::{Container, Format, Named, Registry, VariantFormat};
use bcs_registry_model::Scalar;
use bcs_value_model::Value;
use json::{Reader, Token};
use std::alloc::Global;
use std::collections::BTreeMap;

/// Reads a value of the container `name`.
#[cycle(walk)]
pub(crate) fn next_named(
    alloc: Global,
    registry: &Registry,
    name: &str,
    left: u32,
    depth: usize,
    reader: &mut Reader<'_>,
) -> Result<Value, GivenUp>
    ensures read { IfOk result (λ v. IsRead (spec.read_named registry.now left name.now) depth reader.old reader.new (tree_of v)) }
    ensures refused { IfErr result (IfRefused (IsRefusedAs registry.now left (of (shape.name name.now)) depth reader.old reader.new)) }
{
    match open_container(left) {
        Some(within) => match next_content(alloc, registry, name, within, depth, reader) {
            Ok(value) => Ok(Value::Named(Box::new(alloc, value)?)),
            Err(given_up) => Err(given_up),
        },
        None => {
            let token = reader.next().ok_or(GivenUp::Unusual)?;
            Err(refused(alloc, JsonFault::TooDeep, token, depth, reader))
        }
    }
}

/// Reads the contents of a value of the container `name`.
#[cycle(walk)]
fn next_content(
    alloc: Global,
    registry: &Registry,
    name: &str,
    left: u32,
    depth: usize,
    reader: &mut Reader<'_>,
) -> Result<Value, GivenUp>
    ensures read { IfOk result (λ v. IsRead (read_data registry.now left (json_content_at name.now registry.now)) depth reader.old reader.new (tree_of v)) }
    ensures refused { IfErr result (IfRefused (IsRefusedAs registry.now left (json_content_at name.now registry.now) depth reader.old reader.new)) }
{
    match container_called(registry, name)? {
        Container::UnitStruct => {
            let token = reader.next().ok_or(GivenUp::Unusual)?;
            scalar_of_token(alloc, Scalar::Unit, token, depth, reader)
        }
        Container::NewTypeStruct(format) => {
            next_value(alloc, registry, format, left, depth, reader)
        }
        Container::TupleStruct(formats) => {
            next_tuple(alloc, registry, formats, left, depth, reader)
        }
        Container::Struct(fields) => next_struct(alloc, registry, fields, left, depth, reader),
        Container::Enum(variants) => {
            next_enum(alloc, registry, name, variants, left, depth, reader)
        }
    }
}

/// Reads an object with exactly one member for each field, in any order.
#[cycle(walk)]
fn next_struct(
    alloc: Global,
    registry: &Registry,
    fields: &[Named<Format>],
    left: u32,
    depth: usize,
    reader: &mut Reader<'_>,
) -> Result<Value, GivenUp>
    requires { are_distinct (map (λ f. f.0) (map field_of fields.now)) ≡ true }
    ensures read { IfOk result (λ v. IsRead (spec.read_struct (spec.read_named registry.now left) (map field_of fields.now)) depth reader.old reader.new (tree_of v)) }
    ensures refused { IfErr result (IfRefused (IsRefusedAs registry.now left (fields_content (map field_of fields.now)) depth reader.old reader.new)) }
{
    let token = reader.next().ok_or(GivenUp::Unusual)?;
    match token {
        Token::BeginObject => {
            let inner = inside(depth)?;
            match next_fields(alloc, registry, fields, left, inner, reader) {
                Ok(items) => Ok(Value::Items(items)),
                Err(given_up) => Err(given_up),
            }
        }
        _ => Err(refused(alloc, JsonFault::BadShape, token, depth, reader)),
    }
}

/// Reads an enum: the name of a unit variant, or an object whose only member is the variant's name with its payload.
#[cycle(walk)]
fn next_enum(
    alloc: Global,
    registry: &Registry,
    name: &str,
    variants: &BTreeMap<u32, Named<VariantFormat>>,
    left: u32,
    depth: usize,
    reader: &mut Reader<'_>,
) -> Result<Value, GivenUp>
    requires stands { container_at name.now registry.now ≡ Some (enumeration (map choice_of variants.now.entries)) }
    requires well_formed { IsWellFormed registry.now }
    requires orderly { IsOrderly registry.now }
    ensures read { IfOk result (λ v. IsRead (spec.read_enum (spec.read_named registry.now left) (map choice_of variants.now.entries)) depth reader.old reader.new (tree_of v)) }
    ensures refused { IfErr result (IfRefused (IsRefusedAs registry.now left (one_of (map choice_of variants.now.entries)) depth reader.old reader.new)) }
{
    let token = reader.next().ok_or(GivenUp::Unusual)?;
    match token {
        Token::String(word) => {
            let (number, variant) = variant_called(registry, name, variants, word)?;
            without_payload(&variant.value)?;
            Ok(Value::Variant(number, Box::new(alloc, Value::Unit)?))
        }
        Token::BeginObject => {
            let inner = inside(depth)?;
            let word = next_name(reader)?;
            let (number, variant) = variant_called(registry, name, variants, word)?;
            match next_payload(alloc, registry, &variant.value, left, inner, reader) {
                Ok(value) => {
                    pass_end_object(reader)?;
                    Ok(Value::Variant(number, Box::new(alloc, value)?))
                }
                Err(given_up) => Err(refused_only_member(alloc, word, given_up, reader)),
            }
        }
        _ => Err(refused(alloc, JsonFault::BadShape, token, depth, reader)),
    }
}

/// Reads the payload of a variant.
#[cycle(walk)]
fn next_payload(
    alloc: Global,
    registry: &Registry,
    payload: &VariantFormat,
    left: u32,
    depth: usize,
    reader: &mut Reader<'_>,
) -> Result<Value, GivenUp>
    requires { list_all are_distinct (payload_names (payload_of payload.now)) ≡ true }
    ensures read { IfOk result (λ v. IsRead (spec.read_part (spec.read_named registry.now left) (payload_content (payload_of payload.now))) depth reader.old reader.new (tree_of v)) }
    ensures refused { IfErr result (IfRefused (IsRefusedAs registry.now left (payload_content (payload_of payload.now)) depth reader.old reader.new)) }
{
    match payload {
        VariantFormat::Unit => {
            let token = reader.next().ok_or(GivenUp::Unusual)?;
            scalar_of_token(alloc, Scalar::Unit, token, depth, reader)
        }
        VariantFormat::NewType(format) => next_value(alloc, registry, format, left, depth, reader),
        VariantFormat::Tuple(formats) => next_tuple(alloc, registry, formats, left, depth, reader),
        VariantFormat::Struct(fields) => next_struct(alloc, registry, fields, left, depth, reader),
    }
}
