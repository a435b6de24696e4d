//! Names of views, in which `[*]` stands for any index.

use crate::quotes::{Quotes, begins_at};

const ANY_ITEM: &[u8] = b"[*]";

/// The step into a byte string.
pub(crate) const INSIDE: &[u8] = b"[bcs]";

/// Whether `pattern` matches the printed name of a part. `[*]` outside quotes matches `[0]`, `[1]` and so on.
pub(crate) fn matches(pattern: &[u8], name: &[u8]) -> bool {
    match after_match(pattern, name) {
        Some(rest) => rest.is_empty(),
        None => false,
    }
}

/// What follows the part of a name that the pattern matches.
pub(crate) fn after_match<'n>(pattern: &[u8], name: &'n [u8]) -> Option<&'n [u8]> {
    let mut quotes = Quotes::closed();
    let mut rest = name;
    let mut skipped: usize = 0;
    for (place, byte) in pattern.iter().enumerate() {
        if skipped > 0 {
            skipped -= 1;
            continue;
        }
        let is_any = !quotes.is_open() && begins_at(pattern, place, ANY_ITEM);
        let behind = if is_any {
            after_item(rest)
        } else {
            after_byte(rest, *byte)
        };
        rest = behind?;
        if is_any {
            skipped = ANY_ITEM.len() - 1;
        }
        quotes = quotes.after(*byte);
    }
    Some(rest)
}

/// The name of the struct whose field this is. `None`: it is no field.
pub(crate) fn struct_of(name: &[u8]) -> Option<&[u8]> {
    let mut quotes = Quotes::closed();
    let mut end = None;
    for (place, byte) in name.iter().enumerate() {
        if !quotes.is_open() {
            match byte {
                b'.' => end = Some(place),
                b'[' | b'?' | b':' => end = None,
                _ => {}
            }
        }
        quotes = quotes.after(*byte);
    }
    if name == b".".as_slice() {
        return None;
    }
    name.get(..end?)
}

/// The number of steps into byte strings in a name.
pub(crate) fn count_inside(name: &[u8]) -> usize {
    let mut quotes = Quotes::closed();
    let mut count: usize = 0;
    for (place, byte) in name.iter().enumerate() {
        if !quotes.is_open() && begins_at(name, place, INSIDE) {
            count = count.saturating_add(1);
        }
        quotes = quotes.after(*byte);
    }
    count
}

fn after_byte(text: &[u8], byte: u8) -> Option<&[u8]> {
    match text.split_first() {
        Some((first, rest)) if *first == byte => Some(rest),
        _ => None,
    }
}

// What follows an index in brackets.
fn after_item(text: &[u8]) -> Option<&[u8]> {
    let digits = text.strip_prefix(b"[")?;
    let count = digits.iter().position(|byte| !byte.is_ascii_digit())?;
    if count == 0 {
        return None;
    }
    digits.get(count..)?.strip_prefix(b"]")
}
