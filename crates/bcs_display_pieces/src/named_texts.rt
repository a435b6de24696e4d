//! Texts with a name, and what they say about it.

use crate::patterns::count_inside;
use crate::quotes::unquoted;

/// The number of byte strings in byte strings that are explained.
pub(crate) const LEVELS: u32 = 16;

/// NAME, and what follows the first `=` outside quotes, if there is one. `None`: NAME is empty, or has too many steps into
/// byte strings, or nothing follows it and it doesn't begin like a name.
pub(crate) fn name_and_rest(text: &str) -> Option<(&str, Option<&str>)> {
    let (name, rest) = match unquoted(text.as_bytes(), b"=") {
        Some(end) => (text.get(..end)?, Some(text.get(end.saturating_add(1)..)?)),
        None if text.starts_with(['.', ':', '?', '[']) => (text, None),
        None => return None,
    };
    if name.is_empty() || count_inside(name.as_bytes()) >= LEVELS as usize {
        return None;
    }
    Some((name, rest))
}
