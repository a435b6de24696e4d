//! Regular expressions that match ranges of integers.

use crate::whole_numbers::WholeNumbers;
use itoa::Buffer;
use std::alloc::{AllocError, Global};

/// A regular expression that matches exactly the plain decimal forms of the integers in `numbers`.
pub(crate) fn decimal_pattern(alloc: Global, numbers: WholeNumbers) -> Result<String, AllocError> {
    let mut digits = Buffer::new();
    let mut pattern = String::new(alloc);
    pattern.push_str("^(?:0|")?;
    if numbers.least < 0 {
        // There is one more negative number than positive ones, so the least number is an alternative of its own.
        pattern.push_str(digits.format(numbers.least))?;
        pattern.push_str("|-?")?;
    }
    put_positive(digits.format(numbers.greatest).as_bytes(), &mut pattern)?;
    pattern.push_str(")$")?;
    Ok(pattern)
}

/// Appends a pattern for the numbers from 1 to the number with these digits. It matches numbers with fewer digits; and
/// at each position either a lower digit followed by any digits, or the same digit and the rest of the pattern.
fn put_positive(digits: &[u8], pattern: &mut String) -> Result<(), AllocError> {
    pattern.push_str("(?:[1-9]")?;
    put_any_digits("0,", digits.len().saturating_sub(2), pattern)?;
    pattern.push('|')?;
    let mut least = b'1';
    let mut open = 1_usize;
    for (place, digit) in digits.iter().enumerate() {
        match digits.len().saturating_sub(place) {
            0 | 1 => put_range(least, *digit, pattern)?,
            left if least < *digit => {
                pattern.push_str("(?:")?;
                put_range(least, digit.saturating_sub(1), pattern)?;
                put_any_digits("", left.saturating_sub(1), pattern)?;
                pattern.push('|')?;
                pattern.push(char::from(*digit))?;
                open = open.saturating_add(1);
            }
            _ => pattern.push(char::from(*digit))?,
        }
        least = b'0';
    }
    for _ in 0..open {
        pattern.push(')')?;
    }
    Ok(())
}

/// Appends a pattern for exactly `count` digits or, if `fewest` is `0,`, for at most `count`.
fn put_any_digits(fewest: &str, count: usize, pattern: &mut String) -> Result<(), AllocError> {
    pattern.push_str("[0-9]{")?;
    pattern.push_str(fewest)?;
    pattern.push_str(Buffer::new().format(count))?;
    pattern.push('}')
}

/// Appends a pattern for one digit in this range.
fn put_range(least: u8, greatest: u8, pattern: &mut String) -> Result<(), AllocError> {
    if least < greatest {
        pattern.push('[')?;
        pattern.push(char::from(least))?;
        pattern.push('-')?;
        pattern.push(char::from(greatest))?;
        return pattern.push(']');
    }
    pattern.push(char::from(greatest))
}
