//! Names and numbers in types.

/// The greatest length of a name.
const LONGEST: usize = 255;

/// Above this number, there is no type parameter.
const PARAMETERS: u32 = 10_000;

/// Whether this is a name of Move.
pub fn is_name(word: &str) -> bool {
    let bytes = word.as_bytes();
    bytes.len() <= LONGEST
        && bytes.first().is_some_and(|first| is_letter(*first))
        && bytes
            .iter()
            .all(|byte| is_letter(*byte) || byte.is_ascii_digit())
}

/// Whether this is the name of a field: on Aptos, fields without names are called 0, 1, and so on.
pub fn is_field_name(word: &str) -> bool {
    is_name(word) || number_of(word).is_some_and(|number| number < 100_000)
}

fn is_letter(byte: u8) -> bool {
    byte.is_ascii_alphabetic() || byte == b'_' || byte == b'$'
}

/// The number with these plain decimal digits.
fn number_of(digits: &str) -> Option<u32> {
    let bytes = digits.as_bytes();
    let is_plain = bytes.iter().all(|byte| byte.is_ascii_digit())
        && (bytes.len() == 1 || bytes.first() != Some(&b'0'));
    if !is_plain {
        return None;
    }
    digits.parse::<u32>().ok()
}

/// The number of the type parameter with this name: 0 for `T0`.
pub(crate) fn parameter_called(word: &str) -> Option<u32> {
    parameter_numbered(number_of(word.strip_prefix('T')?)?)
}

/// The number, if a type parameter can have it.
pub(crate) fn parameter_numbered(number: u32) -> Option<u32> {
    if number < PARAMETERS {
        Some(number)
    } else {
        None
    }
}
