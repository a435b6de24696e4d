//! Compares JSON documents pairwise.

use crate::question::Question;
use crate::texts::{bytes_of, value_of};
use bcs_json::compare;
use bcs_value::same;
use std::alloc::Global;
use test_rows::row_fault::{RowFault, agree};

/// The number of ordered pairs of texts that represent equal values, including each text with itself.
pub(crate) fn agreeing_pairs(
    alloc: Global,
    question: &Question,
    texts: &[&str],
) -> Result<u64, RowFault> {
    let mut count: u64 = 0;
    for one in texts {
        count = count.saturating_add(equals(alloc, question, one.as_bytes(), texts)?);
    }
    Ok(count)
}

// The number of texts that represent the same value as `one`.
fn equals(alloc: Global, question: &Question, one: &[u8], texts: &[&str]) -> Result<u64, RowFault> {
    let mut count: u64 = 0;
    for other in texts {
        if is_equal(alloc, question, one, other.as_bytes())? {
            count = count.saturating_add(1);
        }
    }
    Ok(count)
}

// Whether two texts represent equal values. Checks that the bytes and the values read from the texts are equal in
// exactly the same cases.
fn is_equal(
    alloc: Global,
    question: &Question,
    one: &[u8],
    other: &[u8],
) -> Result<bool, RowFault> {
    let Question {
        registry,
        format,
        limits,
    } = question;
    let Ok(is_equal) = compare(alloc, registry, format, limits, one, other) else {
        return Err(RowFault::NotUnderstood);
    };
    let bytes = bytes_of(alloc, question, one)?;
    let other_bytes = bytes_of(alloc, question, other)?;
    agree((bytes == other_bytes) == is_equal, "to_bcs")?;
    match (
        value_of(alloc, question, one)?,
        value_of(alloc, question, other)?,
    ) {
        (Ok(one), Ok(other)) => agree(same(&one, &other) == is_equal, "read_value")?,
        _ => return Err(RowFault::Disagreement("read_value")),
    }
    Ok(is_equal)
}
