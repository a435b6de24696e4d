//! Text that isn't hexadecimal digits.

use crate::wrong_text::WrongText;

/// The message about `0x`, which people write before digits.
pub const PREFIX: &str = "0x isn't part of the digits; remove it";

// Without its spaces or colons, a dump would be other bytes: the offsets are digits, too, and some dumps swap the bytes of
// each word.
const DUMP: &str =
    "a dump, with an offset before the bytes of each line; print the bytes as plain digits (xxd -p -c0)";

/// What is wrong with hexadecimal digits in a JSON string. `None`: nothing.
pub fn wrong_digits(text: &[u8]) -> Option<WrongText> {
    let wrong = wrong_place(text)?;
    let words = if has_prefix(text) {
        PREFIX
    } else if wrong.is_some() {
        "not a hexadecimal digit; bytes are written in hexadecimal, and not as text or base64"
    } else {
        "an odd number of digits; each byte has two"
    };
    Some(WrongText {
        place: wrong,
        words,
    })
}

/// The same for digits that are an input.
pub fn wrong_input_digits(text: &[u8]) -> Option<WrongText> {
    let wrong = wrong_digits(text)?;
    if has_prefix(text) {
        return Some(wrong);
    }
    let Some(byte) = byte_at(text, wrong.place) else {
        return Some(wrong);
    };
    let words = match words_for_start(text.first().copied()) {
        Some(words) => words,
        None if is_dump(text) => DUMP,
        None => words_for_byte(text, byte),
    };
    Some(WrongText {
        place: wrong.place,
        words,
    })
}

// What an input is that begins with this byte, if it shows that.
fn words_for_start(first: Option<u8>) -> Option<&'static str> {
    match first? {
        b'{' | b'[' => Some("JSON, where hexadecimal digits belong; encode reads JSON"),
        b'"' => Some("a double quote; the digits of an input have none, and encode reads JSON"),
        0xef => Some("a byte order mark; save the input without one"),
        _ => None,
    }
}

// What is wrong with a byte that isn't a digit.
fn words_for_byte(text: &[u8], byte: u8) -> &'static str {
    match byte {
        b'\n' | b'\r' => "a line feed; join the lines (xxd -p -c0), or read each with --lines",
        b' ' | b'\t' => "a space; remove the spaces between digits",
        b':' => "a colon; remove the colons between digits",
        b'\\' => "\\x isn't part of the digits; remove it",
        0..=0x1f | 0x7f..=0xff => "not a hexadecimal digit; --raw reads bytes as they are",
        _ => words_for_character(text),
    }
}

// Whether a text begins like a dump of od, hexdump or xxd: with an offset of six to eight digits, and a shorter word.
fn is_dump(text: &[u8]) -> bool {
    let offset = digits_len(text);
    let tail = match text.get(offset..).unwrap_or(b"") {
        [b':', tail @ ..] => tail,
        tail => tail,
    };
    let spaces = tail
        .iter()
        .position(|byte| !matches!(byte, b' ' | b'\t'))
        .unwrap_or(0);
    let word = digits_len(tail.get(spaces..).unwrap_or(b""));
    matches!(offset, 6..=8) && spaces > 0 && word > 0 && word < offset
}

// The number of hexadecimal digits at the start of a text.
fn digits_len(text: &[u8]) -> usize {
    let end = text.iter().position(|byte| !byte.is_ascii_hexdigit());
    end.unwrap_or(text.len())
}

fn words_for_character(text: &[u8]) -> &'static str {
    if is_base64(text) {
        "not a hexadecimal digit; --base64 reads base64"
    } else {
        "not a hexadecimal digit"
    }
}

// The first wrong byte, or `None` in place of it if a digit is missing. `None`: nothing is wrong.
fn wrong_place(text: &[u8]) -> Option<Option<usize>> {
    if has_prefix(text) {
        return Some(Some(0));
    }
    match text.iter().position(|byte| !byte.is_ascii_hexdigit()) {
        Some(place) => Some(Some(place)),
        None if text.len() % 2 == 1 => Some(None),
        None => None,
    }
}

fn byte_at(text: &[u8], place: Option<usize>) -> Option<u8> {
    text.get(place?).copied()
}

/// Whether a text begins with `0x`, in either case.
pub fn has_prefix(text: &[u8]) -> bool {
    text.starts_with(b"0x") || text.starts_with(b"0X")
}

// Whether a text has the characters of base64 alone.
fn is_base64(text: &[u8]) -> bool {
    text.iter().all(|byte| byte.is_ascii_alphanumeric() || matches!(byte, b'+' | b'/' | b'='))
}
