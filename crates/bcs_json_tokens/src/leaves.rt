//! Reads values without parts, and bytes as hexadecimal digits.
ghost use Rattle.std.specs.Prelude.{◌≡◌, IfErr, IfOk, Err, Ok, OnOk};
ghost use Rattle.json.specs.Reads.{token_of};
ghost use Rattle.serde_json.specs.Data.{Data, string};
ghost use Rattle.bcs_registry_model.specs.Kind.{scalar_shape};
ghost use Rattle.bcs_registry_model.specs.View.{shape_of};
ghost use Rattle.bcs_value_model.specs.Tree.{Tree};
ghost use Rattle.bcs_value_model.specs.View.{tree_of, items_trees};
ghost use Rattle.bcs_json_spec.specs.Bytes.{byte_trees, is_byte};
ghost use Rattle.bcs_json_spec.specs.Reading as spec;
ghost use Rattle.bcs_json_spec.specs.Reading.{Read};
ghost use Rattle.bcs_json_reader.specs.Leaf as leaf;
ghost use Rattle.bcs_json_reader.specs.declared.refusal.JsonLocation.TheVariants.{Here};
ghost use Rattle.bcs_json_passing.specs.Passing.{IfRefused, IfUnrefused};
ghost use Rattle.bcs_json_tokens.specs.Tokens.{IsStartRefused, IsToken};

use crate::numbers::number_of_token;
use bcs_json_passing::given_up::GivenUp;
use bcs_json_passing::refusing::refused;
use bcs_json_spec::JsonFault;
use bcs_registry_model::{Format, Scalar};
use bcs_value_model::Value;
use hex::FromHexError;
use json::{Reader, Token};
use std::alloc::Global;

/// The value of a scalar format that a token represents. If the JSON that begins with it is refused, all of it is passed.
#[inline(always)]
pub fn scalar_of_token(
    alloc: Global,
    scalar: Scalar,
    token: Token<'_>,
    depth: usize,
    reader: &mut Reader<'_>,
) -> Result<Value, GivenUp>
    ensures read { IfOk result (λ v. IsToken (leaf.read_leaf (scalar_shape scalar)) (token_of token.entry) (tree_of v)) }
    ensures kept { OnOk result (reader.new ≡ reader.old) }
    ensures refused { IfErr result (IfRefused (IsStartRefused (leaf.read_leaf (scalar_shape scalar)) (token_of token.entry) depth reader.old reader.new)) }
{
    match scalar {
        Scalar::Unit => unit_of_token(alloc, token, depth, reader),
        Scalar::Bool => bool_of_token(alloc, token, depth, reader),
        Scalar::Whole(format) => number_of_token(alloc, format, token, depth, reader),
        Scalar::Str => text_of_token(alloc, token, depth, reader),
        Scalar::Bytes => bytes_of_token(alloc, token, depth, reader),
        Scalar::Unsupported(_) => {
            Err(refused(alloc, JsonFault::Unsupported, token, depth, reader))
        }
    }
}

#[inline(always)]
fn unit_of_token(
    alloc: Global,
    token: Token<'_>,
    depth: usize,
    reader: &mut Reader<'_>,
) -> Result<Value, GivenUp>
    ensures read { IfOk result (λ v. IsToken spec.read_unit (token_of token.entry) (tree_of v)) }
    ensures kept { OnOk result (reader.new ≡ reader.old) }
    ensures refused { IfErr result (IfRefused (IsStartRefused spec.read_unit (token_of token.entry) depth reader.old reader.new)) }
{
    match token {
        Token::Null => Ok(Value::Unit),
        _ => Err(refused(alloc, JsonFault::BadShape, token, depth, reader)),
    }
}

#[inline(always)]
fn bool_of_token(
    alloc: Global,
    token: Token<'_>,
    depth: usize,
    reader: &mut Reader<'_>,
) -> Result<Value, GivenUp>
    ensures read { IfOk result (λ v. IsToken spec.read_truth (token_of token.entry) (tree_of v)) }
    ensures kept { OnOk result (reader.new ≡ reader.old) }
    ensures refused { IfErr result (IfRefused (IsStartRefused spec.read_truth (token_of token.entry) depth reader.old reader.new)) }
{
    match token {
        Token::Bool(truth) => Ok(Value::Bool(truth)),
        _ => Err(refused(alloc, JsonFault::BadShape, token, depth, reader)),
    }
}

#[inline(always)]
fn text_of_token(
    alloc: Global,
    token: Token<'_>,
    depth: usize,
    reader: &mut Reader<'_>,
) -> Result<Value, GivenUp>
    ensures read { IfOk result (λ v. IsToken spec.read_text (token_of token.entry) (tree_of v)) }
    ensures kept { OnOk result (reader.new ≡ reader.old) }
    ensures refused { IfErr result (IfRefused (IsStartRefused spec.read_text (token_of token.entry) depth reader.old reader.new)) }
{
    match token {
        Token::String(text) => Ok(Value::Text(String::from_str(alloc, text)?)),
        _ => Err(refused(alloc, JsonFault::BadShape, token, depth, reader)),
    }
}

#[inline(always)]
fn bytes_of_token(
    alloc: Global,
    token: Token<'_>,
    depth: usize,
    reader: &mut Reader<'_>,
) -> Result<Value, GivenUp>
    ensures read { IfOk result (λ v. IsToken spec.read_bytes (token_of token.entry) (tree_of v)) }
    ensures kept { OnOk result (reader.new ≡ reader.old) }
    ensures refused { IfErr result (IfRefused (IsStartRefused spec.read_bytes (token_of token.entry) depth reader.old reader.new)) }
{
    match token {
        Token::String(text) => match hex_bytes(alloc, text) {
            Ok(bytes) => Ok(Value::Bytes(bytes)),
            Err(given_up) => Err(given_up),
        },
        _ => Err(refused(alloc, JsonFault::BadShape, token, depth, reader)),
    }
}

/// A list that is given as a string.
#[inline(never)]
pub fn list_of_text(alloc: Global, element: &Format, text: &str) -> Result<Value, GivenUp>
    ensures read { IfOk result (λ v. (r : Data → Read Tree) → spec.read_seq (is_byte (shape_of element.now)) r (string text.now) ≡ Ok (tree_of v)) }
    ensures refused { IfErr result (IfRefused (λ e. ((r : Data → Read Tree) → spec.read_seq (is_byte (shape_of element.now)) r (string text.now) ≡ Err e.fault) × (e.location ≡ Here))) }
{
    match byte_items(alloc, element, text) {
        Ok(items) => Ok(Value::Items(items)),
        Err(given_up) => Err(given_up),
    }
}

/// An array of `size` elements that is given as a string.
#[inline(never)]
pub fn array_of_text(
    alloc: Global,
    element: &Format,
    size: u64,
    text: &str,
) -> Result<Value, GivenUp>
    ensures read { IfOk result (λ v. (r : Data → Read Tree) → spec.read_array (is_byte (shape_of element.now)) size r (string text.now) ≡ Ok (tree_of v)) }
    ensures refused { IfErr result (IfRefused (λ e. ((r : Data → Read Tree) → spec.read_array (is_byte (shape_of element.now)) size r (string text.now) ≡ Err e.fault) × (e.location ≡ Here))) }
{
    match byte_items(alloc, element, text) {
        Ok(items) => if items.len() as u64 == size {
            Ok(Value::Items(items))
        } else {
            Err(GivenUp::here(alloc, JsonFault::BadShape))
        },
        Err(given_up) => Err(given_up),
    }
}

// The elements of a list that is given as a string: hexadecimal digits, only for lists of `U8`.
fn byte_items(alloc: Global, element: &Format, text: &str) -> Result<Vec<Value>, GivenUp>
    ensures read { IfOk result (λ v. spec.read_byte_text (is_byte (shape_of element.now)) text.now ≡ Ok (items_trees v.items)) }
    ensures refused { IfErr result (IfRefused (λ e. (spec.read_byte_text (is_byte (shape_of element.now)) text.now ≡ Err e.fault) × (e.location ≡ Here))) }
{
    if !matches!(element, Format::U8) {
        return Err(GivenUp::here(alloc, JsonFault::BadShape));
    }
    match hex_bytes(alloc, text) {
        Ok(bytes) => byte_values(alloc, bytes.as_slice()),
        Err(given_up) => Err(given_up),
    }
}

// Each byte as an integer value.
fn byte_values(alloc: Global, bytes: &[u8]) -> Result<Vec<Value>, GivenUp>
    ensures made { IfOk result (λ v. items_trees v.items ≡ byte_trees bytes.now) }
    ensures fault { IfUnrefused result }
{
    let mut found = Vec::with_capacity(alloc, bytes.len())?;
    for byte in bytes {
        found.push(Value::Unsigned(u128::from(*byte)))?;
    }
    Ok(found)
}

#[tactic(auto, unfolding(bcs_json_spec::specs::Reading::read_hex))]
fn hex_bytes(alloc: Global, text: &str) -> Result<Vec<u8>, GivenUp>
    ensures read { IfOk result (λ v. spec.read_hex text.now ≡ Ok v.items) }
    ensures refused { IfErr result (IfRefused (λ e. (spec.read_hex text.now ≡ Err e.fault) × (e.location ≡ Here))) }
{
    match hex::decode(alloc, text) {
        Ok(bytes) => Ok(bytes),
        Err(FromHexError::OutOfMemory) => Err(GivenUp::OutOfMemory),
        Err(_) => Err(GivenUp::here(alloc, JsonFault::BadHex)),
    }
}
