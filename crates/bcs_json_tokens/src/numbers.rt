//! Reads integers, and lists of them in one loop outside the recursion.
ghost use Rattle.std.specs.Prelude.{◌≡◌, ℕ, pos, IfErr, IfOk, OnOk, Some};
ghost use Rattle.json.specs.Reads.{token_of};
ghost use Rattle.json.specs.Token.{number};
ghost use Rattle.serde_json.specs.Data.{Data, unsigned, number as held};
ghost use Rattle.bcs_num.specs.Le.{width_of, IsUnsigned, IsSigned};
ghost use Rattle.bcs_registry_model.specs.Container.{Entries};
ghost use Rattle.bcs_registry_model.specs.Whole.{whole_shape};
ghost use Rattle.bcs_value_model.specs.View.{tree_of, items_trees};
ghost use Rattle.bcs_json_spec.specs.Numbers.{SpellsWhole};
ghost use Rattle.bcs_json_spec.specs.Place.{item_parts};
ghost use Rattle.bcs_json_spec.specs.Reading as spec;
ghost use Rattle.bcs_json_reader.specs.Leaf as leaf;
ghost use Rattle.bcs_json_passing.specs.Passing.{IfRefused, alone};
ghost use Rattle.bcs_json_tokens.specs.Tokens.{AreItems, CountedRefused, IsOutOfRange, IsStartRefused, IsToken, IsTokenRefused};

use bcs_json_passing::given_up::GivenUp;
use bcs_json_passing::refusing::{refused, refused_item};
use bcs_json_spec::JsonFault;
use bcs_num::{Width, parse_signed, parse_unsigned};
use bcs_registry_model::IntegerKind;
use bcs_value_model::Value;
use json::{Reader, Token};
use std::alloc::Global;

/// Reads the items of an array of integers, up to its end. If one is refused, `wanted` is how many there should be.
#[inline(never)]
pub fn next_numbers(
    alloc: Global,
    format: IntegerKind,
    wanted: Option<u64>,
    depth: usize,
    reader: &mut Reader<'_>,
) -> Result<Vec<Value>, GivenUp>
    ensures read { IfOk result (λ v. AreItems (spec.read_all (leaf.read_leaf (whole_shape format))) depth reader.old reader.new (items_trees v.items)) }
    ensures refused { IfErr result (IfRefused (λ e. (registry : Entries) (left : ℕ)
        → CountedRefused registry wanted (spec.read_all (leaf.read_leaf (whole_shape format))) (item_parts left (whole_shape format) 0) depth reader.old reader.new e)) }
{
    let mut found = Vec::new(alloc);
    'items: while !reader.take_end_array() {
        let token = reader.next().ok_or(GivenUp::Unusual)?;
        match number_of_token(alloc, format, token, depth, reader) {
            Ok(number) => found.push(number)?,
            Err(given_up) => {
                return Err(refused_item(alloc, found.len(), wanted, given_up, depth, reader));
            }
        }
    }
    Ok(found)
}

/// The integer that a token represents.
#[inline(always)]
pub fn number_of_token(
    alloc: Global,
    format: IntegerKind,
    token: Token<'_>,
    depth: usize,
    reader: &mut Reader<'_>,
) -> Result<Value, GivenUp>
    ensures read { IfOk result (λ v. IsToken (leaf.read_leaf (whole_shape format)) (token_of token.entry) (tree_of v)) }
    ensures kept { OnOk result (reader.new ≡ reader.old) }
    ensures refused { IfErr result (IfRefused (IsStartRefused (leaf.read_leaf (whole_shape format)) (token_of token.entry) depth reader.old reader.new)) }
{
    match format {
        IntegerKind::Unsigned(width) => unsigned_of_token(alloc, width, token, depth, reader),
        IntegerKind::Signed(width) => signed_of_token(alloc, width, token, depth, reader),
    }
}

#[inline(always)]
fn unsigned_of_token(
    alloc: Global,
    width: Width,
    token: Token<'_>,
    depth: usize,
    reader: &mut Reader<'_>,
) -> Result<Value, GivenUp>
    ensures read { IfOk result (λ v. IsToken (spec.read_unsigned (width_of width)) (token_of token.entry) (tree_of v)) }
    ensures kept { OnOk result (reader.new ≡ reader.old) }
    ensures refused { IfErr result (IfRefused (IsStartRefused (spec.read_unsigned (width_of width)) (token_of token.entry) depth reader.old reader.new)) }
{
    match unsigned_in(alloc, width, token, depth, reader) {
        Ok(number) => Ok(Value::Unsigned(number)),
        Err(given_up) => Err(given_up),
    }
}

#[inline(always)]
fn signed_of_token(
    alloc: Global,
    width: Width,
    token: Token<'_>,
    depth: usize,
    reader: &mut Reader<'_>,
) -> Result<Value, GivenUp>
    ensures read { IfOk result (λ v. IsToken (spec.read_signed (width_of width)) (token_of token.entry) (tree_of v)) }
    ensures kept { OnOk result (reader.new ≡ reader.old) }
    ensures refused { IfErr result (IfRefused (IsStartRefused (spec.read_signed (width_of width)) (token_of token.entry) depth reader.old reader.new)) }
{
    match signed_in(alloc, width, token, depth, reader) {
        Ok(number) => Ok(Value::Signed(number)),
        Err(given_up) => Err(given_up),
    }
}

// An unsigned integer, as a JSON number or as a string of decimal digits.
#[inline(always)]
fn unsigned_in(
    alloc: Global,
    width: Width,
    token: Token<'_>,
    depth: usize,
    reader: &mut Reader<'_>,
) -> Result<u128, GivenUp>
    ensures read { IfOk result (λ n. (d : Data) × (alone (token_of token.entry) ≡ Some d) × SpellsWhole d (pos n) × IsUnsigned (width_of width) n) }
    ensures kept { OnOk result (reader.new ≡ reader.old) }
    ensures refused { IfErr result (IfRefused (IsStartRefused (spec.read_unsigned (width_of width)) (token_of token.entry) depth reader.old reader.new)) }
{
    match token {
        Token::String(text) => match parse_unsigned(width, text) {
            Some(number) => Ok(number),
            None => Err(GivenUp::here(alloc, JsonFault::BadNumber)),
        },
        Token::Number(text) => held_unsigned(alloc, width, text),
        _ => Err(refused(alloc, JsonFault::BadShape, token, depth, reader)),
    }
}

// An unsigned integer as a JSON number. `serde_json` represents integers as such only up to 64 bits.
#[inline(always)]
fn held_unsigned(alloc: Global, width: Width, text: &str) -> Result<u128, GivenUp>
    ensures read { IfOk result (λ n. (alone (number text.now) ≡ Some (held (unsigned n))) × IsUnsigned (width_of width) n) }
    ensures refused { IfErr result (IfRefused (IsTokenRefused (spec.read_unsigned (width_of width)) (number text.now))) }
{
    match parse_unsigned(width, text) {
        Some(plain) => if plain <= u128::from(u64::MAX) {
            Ok(plain)
        } else {
            Err(GivenUp::Unusual)
        },
        None => Err(out_of_range(alloc, text)),
    }
}

// A signed integer, as a JSON number or as a string of decimal digits.
#[inline(always)]
fn signed_in(
    alloc: Global,
    width: Width,
    token: Token<'_>,
    depth: usize,
    reader: &mut Reader<'_>,
) -> Result<i128, GivenUp>
    ensures read { IfOk result (λ z. (d : Data) × (alone (token_of token.entry) ≡ Some d) × SpellsWhole d z × IsSigned (width_of width) z) }
    ensures kept { OnOk result (reader.new ≡ reader.old) }
    ensures refused { IfErr result (IfRefused (IsStartRefused (spec.read_signed (width_of width)) (token_of token.entry) depth reader.old reader.new)) }
{
    match token {
        Token::String(text) => match parse_signed(width, text) {
            Some(number) => Ok(number),
            None => Err(GivenUp::here(alloc, JsonFault::BadNumber)),
        },
        Token::Number(text) => held_signed(alloc, width, text),
        _ => Err(refused(alloc, JsonFault::BadShape, token, depth, reader)),
    }
}

// A signed integer as a JSON number, if it has at most 64 bits.
#[inline(always)]
fn held_signed(alloc: Global, width: Width, text: &str) -> Result<i128, GivenUp>
    ensures read { IfOk result (λ z. (d : Data) × (alone (number text.now) ≡ Some d) × SpellsWhole d z × IsSigned (width_of width) z) }
    ensures refused { IfErr result (IfRefused (IsTokenRefused (spec.read_signed (width_of width)) (number text.now))) }
{
    match parse_signed(width, text) {
        Some(plain) => if Width::W8.holds_signed(plain) {
            Ok(plain)
        } else {
            Err(GivenUp::Unusual)
        },
        None => Err(out_of_range(alloc, text)),
    }
}

// The refusal of a JSON number that isn't in the range of its format, if `serde_json` represents it as an integer.
#[inline(never)]
fn out_of_range(alloc: Global, text: &str) -> GivenUp
    ensures { IfRefused (IsOutOfRange text.now) result }
{
    match parse_unsigned(Width::W8, text) {
        Some(_) => GivenUp::here(alloc, JsonFault::BadNumber),
        None => match parse_signed(Width::W8, text) {
            Some(_) => GivenUp::here(alloc, JsonFault::BadNumber),
            None => GivenUp::Unusual,
        },
    }
}
