//! Labels: the text that is printed for the name of a field or a variant.
ghost use Rattle.std.specs.Prelude.{◌≡◌, ◌++◌, OnOk};
ghost use Rattle.bcs_part_labels.specs.Labels.{are_plain, is_plain, is_plain_byte, label};

use bcs_display_text::escaping::put_escaped;
use std::alloc::AllocError;

/// The number of bytes of the longest key that a name has. Every piece below an entry repeats its key, so for a longer
/// one, the name has the number of the entry.
pub const LONGEST_KEY: usize = 32;

/// Appends the label of a name: the name itself if it is plain, and otherwise a JSON string in ASCII.
pub fn put_label(name: &str, out: &mut Vec<u8>) -> Result<(), AllocError>
    ensures { OnOk result (out.new.items ≡ out.old.items ++ label name.now) }
{
    if is_plain(name.as_bytes()) {
        return out.extend_from_slice(name.as_bytes());
    }
    out.extend_from_slice(b"\"")?;
    put_escaped(name, out)?;
    out.extend_from_slice(b"\"")
}

/// Whether the name is its own label.
pub fn is_plain(name: &[u8]) -> bool
    ensures { result ≡ is_plain name.now }
{
    !name.is_empty() && are_plain(name)
}

fn are_plain(name: &[u8]) -> bool
    ensures { result ≡ are_plain name.now }
{
    for byte in name {
        if !is_plain_byte(*byte) {
            return false;
        }
    }
    true
}

fn is_plain_byte(byte: u8) -> bool
    ensures { result ≡ is_plain_byte byte }
{
    let is_mark = matches!(byte, b'.' | b':' | b'?' | b'[');
    let is_reserved = matches!(byte, b'"' | b'!' | b'*' | b'=' | b'\\' | b']');
    matches!(byte, b'!'..=b'~') && !is_mark && !is_reserved
}
