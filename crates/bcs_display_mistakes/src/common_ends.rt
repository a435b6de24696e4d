//! What two texts share at their ends.

/// The texts without the start and the end that they share. Their distance is the same, and their table is smaller.
pub(crate) fn without_common_ends<'a>(first: &'a str, second: &'a str) -> (&'a str, &'a str) {
    let start = common_start(first, second);
    let (first, second) = (
        first.get(start..).unwrap_or(first),
        second.get(start..).unwrap_or(second),
    );
    let end = common_end(first, second);
    (without_end(first, end), without_end(second, end))
}

fn without_end(text: &str, count: usize) -> &str {
    text.get(..text.len().saturating_sub(count)).unwrap_or(text)
}

// The number of bytes of the whole characters with which both texts begin.
fn common_start(first: &str, second: &str) -> usize {
    let mut len: usize = 0;
    for (a, b) in first.chars().zip(second.chars()) {
        if a != b {
            return len;
        }
        len = len.saturating_add(a.len_utf8());
    }
    len
}

// The number of bytes of the whole characters with which both texts end.
fn common_end(first: &str, second: &str) -> usize {
    let mut len: usize = 0;
    for (a, b) in first.chars().rev().zip(second.chars().rev()) {
        if a != b {
            return len;
        }
        len = len.saturating_add(a.len_utf8());
    }
    len
}
