//! Which texts are JSON Pointers.
ghost use Rattle.std.specs.Prelude.{◌≡◌, false};
ghost use Rattle.bcs_part_names.specs.Pointers.{are_marked, is_pointer};

/// Whether the text is a JSON Pointer (RFC 6901).
pub fn is_pointer(text: &str) -> bool
    ensures { result ≡ is_pointer text.now }
{
    match text.as_bytes().split_first() {
        None => true,
        Some((first, rest)) => *first == b'/' && are_marked(rest),
    }
}

// Whether a 0 or a 1 follows each tilde.
fn are_marked(text: &[u8]) -> bool
    ensures { result ≡ are_marked false text.now }
{
    let mut after_tilde = false;
    for byte in text {
        if after_tilde && !matches!(*byte, b'0' | b'1') {
            return false;
        }
        after_tilde = !after_tilde && *byte == b'~';
    }
    !after_tilde
}
