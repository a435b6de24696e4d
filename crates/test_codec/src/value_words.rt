//! Values in the notation of rows.

use bcs_value::Value;
use std::alloc::Global;
use test_rows::row_fault::RowFault;
use test_rows::words::number;

/// The values of words separated by spaces. A word with parts takes them from the last values before it.
pub(crate) fn values_of(alloc: Global, text: &str) -> Result<Vec<Value>, RowFault> {
    let mut values = Vec::new(alloc);
    for word in text.split_whitespace() {
        let value = match word.split_once(':') {
            Some((shape, rest)) => described(alloc, shape, rest, &mut values)?,
            None => plain(alloc, word, &mut values)?,
        };
        values.push(value)?;
    }
    Ok(values)
}

/// The value of words that describe exactly one.
pub(crate) fn value_of(alloc: Global, text: &str) -> Result<Value, RowFault> {
    let mut values = values_of(alloc, text)?;
    let value = last(&mut values)?;
    if values.is_empty() {
        Ok(value)
    } else {
        Err(RowFault::NotUnderstood)
    }
}

// A word without `:`.
fn plain(alloc: Global, word: &str, values: &mut Vec<Value>) -> Result<Value, RowFault> {
    match word {
        "unit" => Ok(Value::Unit),
        "false" => Ok(Value::Bool(false)),
        "true" => Ok(Value::Bool(true)),
        "none" => Ok(Value::Absent),
        "some" => Ok(Value::Present(Box::new(alloc, last(values)?)?)),
        "named" => Ok(Value::Named(Box::new(alloc, last(values)?)?)),
        _ => Err(RowFault::NotUnderstood),
    }
}

// A word's kind, and what follows its `:`.
fn described(
    alloc: Global,
    shape: &str,
    rest: &str,
    values: &mut Vec<Value>,
) -> Result<Value, RowFault> {
    match shape {
        "u" => unsigned(rest),
        "i" => signed(rest),
        "text" => Ok(Value::Text(String::from_str(alloc, rest)?)),
        "bytes" => Ok(Value::Bytes(hex::decode(alloc, rest)?)),
        "list" => list(alloc, number(rest)?, values),
        "map" => map(alloc, number(rest)?, values),
        "variant" => Ok(Value::Variant(number(rest)?, Box::new(alloc, last(values)?)?)),
        _ => Err(RowFault::NotUnderstood),
    }
}

fn unsigned(digits: &str) -> Result<Value, RowFault> {
    match digits.parse::<u128>() {
        Ok(number) => Ok(Value::Unsigned(number)),
        Err(_) => Err(RowFault::NotUnderstood),
    }
}

fn signed(digits: &str) -> Result<Value, RowFault> {
    match digits.parse::<i128>() {
        Ok(number) => Ok(Value::Signed(number)),
        Err(_) => Err(RowFault::NotUnderstood),
    }
}

// A list of the last `len` values.
fn list(alloc: Global, len: u32, values: &mut Vec<Value>) -> Result<Value, RowFault> {
    let mut items = Vec::new(alloc);
    for _ in 0..len {
        items.push(last(values)?)?;
    }
    items.reverse();
    Ok(Value::Items(items))
}

// A map of the last `len` entries, each a key followed by its value.
fn map(alloc: Global, len: u32, values: &mut Vec<Value>) -> Result<Value, RowFault> {
    let mut pairs = Vec::new(alloc);
    for _ in 0..len {
        let value = last(values)?;
        pairs.push((last(values)?, value))?;
    }
    pairs.reverse();
    Ok(Value::Pairs(pairs))
}

fn last(values: &mut Vec<Value>) -> Result<Value, RowFault> {
    match values.pop() {
        Some(value) => Ok(value),
        None => Err(RowFault::NotUnderstood),
    }
}
