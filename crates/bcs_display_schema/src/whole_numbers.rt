//! Schemas of integers.

use crate::decimals::decimal_pattern;
use crate::digits::UNPRINTABLE;
use bcs_registry_model::{IntegerKind, Scalar};
use serde_json::{Value, json};
use std::alloc::{AllocError, Global};

/// The range of an integer format.
#[derive(Clone, Copy)]
pub(crate) struct WholeNumbers {
    /// The name of the format in a registry, for instance `U64`.
    pub(crate) word: &'static str,
    pub(crate) least: i128,
    pub(crate) greatest: u128,
}

impl WholeNumbers {
    /// The range of `number`. There is one more negative number than positive ones.
    pub(crate) fn of(number: IntegerKind) -> Self {
        let (least, greatest) = match number {
            IntegerKind::Unsigned(width) => (0, width.greatest_unsigned()),
            IntegerKind::Signed(width) => {
                let greatest = width.greatest_unsigned() / 2;
                (!(greatest as i128), greatest)
            }
        };
        WholeNumbers {
            word: Scalar::Whole(number).word(),
            least,
            greatest,
        }
    }
}

/// The schema of an integer, as a JSON number or as its plain decimal digits in a string. `minimum` and `maximum` are
/// clamped to 64 bits, which is all `serde_json` can hold.
pub(crate) fn whole_number_schema(
    alloc: Global,
    numbers: WholeNumbers,
) -> Result<Value, AllocError> {
    json!(in alloc; {
        "title": (numbers.word),
        "description": (Value::String(range_words(alloc, numbers)?)),
        "type": ["integer", "string"],
        "minimum": (i64::try_from(numbers.least).unwrap_or(i64::MIN)),
        "maximum": (u64::try_from(numbers.greatest).unwrap_or(u64::MAX)),
        "pattern": (Value::String(decimal_pattern(alloc, numbers)?)),
        "not": {"type": "string", "pattern": UNPRINTABLE}
    })
}

fn range_words(alloc: Global, numbers: WholeNumbers) -> Result<String, AllocError> {
    let WholeNumbers {
        least,
        greatest,
        ..
    } = numbers;
    format!(in alloc; "a whole number from {least} to {greatest}, or its digits as a string")
}
