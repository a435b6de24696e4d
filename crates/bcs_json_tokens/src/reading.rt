//! Reads the value that the next tokens spell.
ghost use Rattle.std.specs.Prelude.{◌≡◌, IfErr, IfOk};
ghost use Rattle.bcs_registry_model.specs.Shape as shape;
ghost use Rattle.bcs_registry_model.specs.Shape.{tuple as tuple_shape};
ghost use Rattle.bcs_registry_model.specs.View.{formats_shapes, shape_of};
ghost use Rattle.bcs_value_model.specs.View.{tree_of};
ghost use Rattle.bcs_json_spec.specs.Bytes.{is_byte};
ghost use Rattle.bcs_json_spec.specs.JsonContent.{of};
ghost use Rattle.bcs_json_spec.specs.Reading.{read_data};
ghost use Rattle.bcs_json_spec.specs.Reading as spec;
ghost use Rattle.bcs_json_passing.specs.Passing.{IfRefused};
ghost use Rattle.bcs_json_tokens.specs.Tokens.{IsRead, IsRefusedAs};

use crate::containers::next_named;
use crate::leaves::{array_of_text, list_of_text, scalar_of_token};
use crate::parts::{next_each, next_items, next_pairs};
use bcs_json_passing::given_up::GivenUp;
use bcs_json_passing::refusing::{refused, refused_only_member};
use bcs_json_passing::steps::{inside, pass_end_object, pass_name};
use bcs_json_spec::JsonFault;
use bcs_registry::{Format, Registry};
use bcs_registry_model::Kind;
use bcs_value_model::Value;
use json::{Reader, Token};
use std::alloc::Global;

/// Reads one value of `format`. At most `left` containers may open in it, and its JSON may nest at most `depth` deep.
#[cycle(walk)]
pub(crate) fn next_value(
    alloc: Global,
    registry: &Registry,
    format: &Format,
    left: u32,
    depth: usize,
    reader: &mut Reader<'_>,
) -> Result<Value, GivenUp>
    ensures read { IfOk result (λ v. IsRead (read_data registry.now left (of (shape_of format.now))) depth reader.old reader.new (tree_of v)) }
    ensures refused { IfErr result (IfRefused (IsRefusedAs registry.now left (of (shape_of format.now)) depth reader.old reader.new)) }
{
    match format.kind() {
        Kind::Scalar(scalar) => {
            let token = reader.next().ok_or(GivenUp::Unusual)?;
            scalar_of_token(alloc, scalar, token, depth, reader)
        }
        Kind::TypeName(name) => next_named(alloc, registry, name, left, depth, reader),
        Kind::Opt(content) => next_option(alloc, registry, content, left, depth, reader),
        Kind::Seq(element) => next_list(alloc, registry, element, left, depth, reader),
        Kind::Map(key, content) => next_map(alloc, registry, key, content, left, depth, reader),
        Kind::Tuple(formats) => next_tuple(alloc, registry, formats, left, depth, reader),
        Kind::TupleArray(element, size) => {
            next_array(alloc, registry, element, size, left, depth, reader)
        }
    }
}

/// Reads an option: `null`, or an object with the single member `some`.
#[cycle(walk)]
fn next_option(
    alloc: Global,
    registry: &Registry,
    content: &Format,
    left: u32,
    depth: usize,
    reader: &mut Reader<'_>,
) -> Result<Value, GivenUp>
    ensures read { IfOk result (λ v. IsRead (spec.read_option (read_data registry.now left (of (shape_of content.now)))) depth reader.old reader.new (tree_of v)) }
    ensures refused { IfErr result (IfRefused (IsRefusedAs registry.now left (of (shape.option (shape_of content.now))) depth reader.old reader.new)) }
{
    let token = reader.next().ok_or(GivenUp::Unusual)?;
    match token {
        Token::Null => Ok(Value::Absent),
        Token::BeginObject => {
            let inner = inside(depth)?;
            pass_name(reader, "some")?;
            match next_value(alloc, registry, content, left, inner, reader) {
                Ok(value) => {
                    pass_end_object(reader)?;
                    Ok(Value::Present(Box::new(alloc, value)?))
                }
                Err(given_up) => Err(refused_only_member(alloc, "some", given_up, reader)),
            }
        }
        _ => Err(refused(alloc, JsonFault::BadShape, token, depth, reader)),
    }
}

/// Reads a list: an array or, for bytes, a string of hexadecimal digits.
#[cycle(walk)]
fn next_list(
    alloc: Global,
    registry: &Registry,
    element: &Format,
    left: u32,
    depth: usize,
    reader: &mut Reader<'_>,
) -> Result<Value, GivenUp>
    ensures read { IfOk result (λ v. IsRead (spec.read_seq (is_byte (shape_of element.now)) (read_data registry.now left (of (shape_of element.now)))) depth reader.old reader.new (tree_of v)) }
    ensures refused { IfErr result (IfRefused (IsRefusedAs registry.now left (of (shape.seq (shape_of element.now))) depth reader.old reader.new)) }
{
    let token = reader.next().ok_or(GivenUp::Unusual)?;
    match token {
        Token::String(text) => list_of_text(alloc, element, text),
        Token::BeginArray => {
            let inner = inside(depth)?;
            match next_items(alloc, registry, element, None, left, inner, reader) {
                Ok(items) => Ok(Value::Items(items)),
                Err(given_up) => Err(given_up),
            }
        }
        _ => Err(refused(alloc, JsonFault::BadShape, token, depth, reader)),
    }
}

/// Reads an array of `size` elements or, for bytes, a string of `2 * size` hexadecimal digits.
#[cycle(walk)]
fn next_array(
    alloc: Global,
    registry: &Registry,
    element: &Format,
    size: u64,
    left: u32,
    depth: usize,
    reader: &mut Reader<'_>,
) -> Result<Value, GivenUp>
    ensures read { IfOk result (λ v. IsRead (spec.read_array (is_byte (shape_of element.now)) size (read_data registry.now left (of (shape_of element.now)))) depth reader.old reader.new (tree_of v)) }
    ensures refused { IfErr result (IfRefused (IsRefusedAs registry.now left (of (shape.array (shape_of element.now) size)) depth reader.old reader.new)) }
{
    let token = reader.next().ok_or(GivenUp::Unusual)?;
    match token {
        Token::String(text) => array_of_text(alloc, element, size, text),
        Token::BeginArray => {
            let inner = inside(depth)?;
            match next_items(alloc, registry, element, Some(size), left, inner, reader) {
                Ok(items) => if items.len() as u64 == size {
                    Ok(Value::Items(items))
                } else {
                    Err(GivenUp::here(alloc, JsonFault::BadShape))
                },
                Err(given_up) => Err(given_up),
            }
        }
        _ => Err(refused(alloc, JsonFault::BadShape, token, depth, reader)),
    }
}

/// Reads an array with one item of each format.
#[cycle(walk)]
pub(crate) fn next_tuple(
    alloc: Global,
    registry: &Registry,
    formats: &[Format],
    left: u32,
    depth: usize,
    reader: &mut Reader<'_>,
) -> Result<Value, GivenUp>
    ensures read { IfOk result (λ v. IsRead (read_data registry.now left (of (tuple_shape (formats_shapes formats.now)))) depth reader.old reader.new (tree_of v)) }
    ensures refused { IfErr result (IfRefused (IsRefusedAs registry.now left (of (tuple_shape (formats_shapes formats.now))) depth reader.old reader.new)) }
{
    let token = reader.next().ok_or(GivenUp::Unusual)?;
    match token {
        Token::BeginArray => {
            let inner = inside(depth)?;
            match next_each(alloc, registry, formats, left, inner, reader) {
                Ok(items) => Ok(Value::Items(items)),
                Err(given_up) => Err(given_up),
            }
        }
        _ => Err(refused(alloc, JsonFault::BadShape, token, depth, reader)),
    }
}

/// Reads a map: an array of entries, each an array of a key and its value.
#[cycle(walk)]
fn next_map(
    alloc: Global,
    registry: &Registry,
    key: &Format,
    content: &Format,
    left: u32,
    depth: usize,
    reader: &mut Reader<'_>,
) -> Result<Value, GivenUp>
    ensures read { IfOk result (λ v. IsRead (spec.read_map (read_data registry.now left (of (shape_of key.now))) (read_data registry.now left (of (shape_of content.now)))) depth reader.old reader.new (tree_of v)) }
    ensures refused { IfErr result (IfRefused (IsRefusedAs registry.now left (of (shape.map (shape_of key.now) (shape_of content.now))) depth reader.old reader.new)) }
{
    let token = reader.next().ok_or(GivenUp::Unusual)?;
    match token {
        Token::BeginArray => {
            let inner = inside(depth)?;
            match next_pairs(alloc, registry, key, content, left, inner, reader) {
                Ok(pairs) => Ok(Value::Pairs(pairs)),
                Err(given_up) => Err(given_up),
            }
        }
        _ => Err(refused(alloc, JsonFault::BadShape, token, depth, reader)),
    }
}
