//! Text that may contain user input, on standard error.
ghost use Rattle.std.specs.Prelude.{◌≡◌, ◌<◌, false, map, string_bytes, OnOk, OnErr};
ghost use Rattle.bcs_io.specs.Taking.{Took};
ghost use Rattle.bcs_display_text.specs.Escaped.{last_digit, numbered};
ghost use Rattle.bcs_tool.specs.Running.{PutFront};
ghost use Rattle.bcs_tool.specs.Visible as visible;

use bcs_io::{ByteSink, put_all};

const DIGITS: &[u8; 16] = b"0123456789abcdef";

/// Writes a text with its hidden characters escaped, or as much of it as the sink accepts. It doesn't allocate.
pub(crate) fn put_visible<E: ByteSink>(
    keeps_lines: bool,
    text: &str,
    errors: &mut E,
) -> Result<(), u64>
    ensures whole { OnOk result (Took E.taken E.is_failed errors.old errors.new (visible.visible keeps_lines text.now)) }
    ensures part { OnErr result (PutFront E.taken E.is_failed errors.old errors.new (visible.visible keeps_lines text.now)) }
{
    if has_hidden(keeps_lines, text) {
        put_characters(keeps_lines, text, errors)
    } else {
        put_all(text.as_bytes(), errors)
    }
}

// Whether some characters of a text are hidden.
fn has_hidden(keeps_lines: bool, text: &str) -> bool
    ensures { result ≡ false → visible.visible keeps_lines text.now ≡ text.now }
{
    for character in text.chars() {
        if is_hidden(keeps_lines, character) {
            return true;
        }
    }
    false
}

fn put_characters<E: ByteSink>(keeps_lines: bool, text: &str, errors: &mut E) -> Result<(), u64>
    ensures whole { OnOk result (Took E.taken E.is_failed errors.old errors.new (visible.visible keeps_lines text.now)) }
    ensures part { OnErr result (PutFront E.taken E.is_failed errors.old errors.new (visible.visible keeps_lines text.now)) }
{
    for character in text.chars() {
        put_character(keeps_lines, character, errors)?;
    }
    Ok(())
}

fn put_character<E: ByteSink>(keeps_lines: bool, character: char, errors: &mut E) -> Result<(), u64>
    ensures whole { OnOk result (Took E.taken E.is_failed errors.old errors.new (visible.visible_char keeps_lines character)) }
    ensures part { OnErr result (PutFront E.taken E.is_failed errors.old errors.new (visible.visible_char keeps_lines character)) }
{
    if is_hidden(keeps_lines, character) {
        put_escape(character as u32, errors)
    } else {
        put_all(character.encode_utf8(&mut [0; 4]).as_bytes(), errors)
    }
}

// Writes the numbers of a character's UTF-16 units.
fn put_escape<E: ByteSink>(code: u32, errors: &mut E) -> Result<(), u64>
    requires { code < 0x11_0000 }
    ensures whole { OnOk result (Took E.taken E.is_failed errors.old errors.new (visible.escape code)) }
    ensures part { OnErr result (PutFront E.taken E.is_failed errors.old errors.new (visible.escape code)) }
{
    if code < 0x1_0000 {
        return put_all(&escape_of(code), errors);
    }
    let above = code - 0x1_0000;
    put_all(&escape_of(0xd800 + above / 0x400), errors)?;
    put_all(&escape_of(0xdc00 + above % 0x400), errors)
}

// `\u` and the four hexadecimal digits of a UTF-16 unit.
fn escape_of(unit: u32) -> [u8; 6]
    ensures { result ≡ numbered unit }
{
    [
        b'\\',
        b'u',
        last_digit(unit / 0x1000),
        last_digit(unit / 0x100),
        last_digit(unit / 0x10),
        last_digit(unit),
    ]
}

fn last_digit(number: u32) -> u8
    ensures { result ≡ last_digit number }
{
    DIGITS[(number % 16) as usize]
}

// Whether a character is escaped.
#[tactic(auto, unfolding(crate::specs::Visible::is_hidden))]
fn is_hidden(keeps_lines: bool, character: char) -> bool
    ensures { result ≡ visible.is_hidden keeps_lines character }
{
    if character == '\n' {
        !keeps_lines
    } else {
        character.is_control() | misleads(character as u32)
    }
}

// Whether a character changes the direction of text, has no width, or separates lines.
#[tactic(auto, unfolding(crate::specs::Visible::misleads))]
fn misleads(code: u32) -> bool
    ensures { result ≡ visible.misleads code }
{
    (code == 0xad)
        | (code == 0x61c)
        | is_within(0x200b, 0x200f, code)
        | is_within(0x2028, 0x202e, code)
        | is_within(0x2060, 0x206f, code)
        | (code == 0xfeff)
        | is_within(0xfff9, 0xfffb, code)
        | is_within(0xe_0000, 0xe_0fff, code)
}

fn is_within(first: u32, last: u32, code: u32) -> bool
    ensures { result ≡ visible.is_between first last code }
{
    first <= code && code <= last
}

/// Whether an argument contains a line feed.
pub(crate) fn breaks_lines(words: &[String]) -> bool
    ensures { result ≡ visible.breaks_lines (map string_bytes words.now) }
{
    for word in words {
        if word.as_bytes().contains(&b'\n') {
            return true;
        }
    }
    false
}
