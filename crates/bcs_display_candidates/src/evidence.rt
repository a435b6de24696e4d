//! How much the pieces of a value say for its format.
ghost use Rattle.std.specs.Prelude.{⊤};

use bcs_explain::{Expected, Listener, Meaning, Trail};

/// The numbers of fewer bytes count nothing: their high ends say little.
const SHORTEST_NUMBER: usize = 4;

/// What speaks for a container.
#[derive(Clone, Copy, Debug, PartialEq, Eq, Drop)]
pub struct Evidence {
    /// The number of pieces that the value has in `explain`.
    pub pieces: u64,
    /// The number of bytes that would be refused, or would be strange, if they were others.
    pub checked: u64,
}

impl Evidence {
    pub(crate) fn none() -> Evidence {
        Evidence {
            pieces: 0,
            checked: 0,
        }
    }
}

impl Listener for Evidence {
    ghost heard = { λ _ _ _. ⊤ };

    fn hear(&mut self, _: u64, bytes: &[u8], _: &Trail<'_, '_, '_>, meaning: Meaning<'_>, _: u32) {
        self.pieces = self.pieces.saturating_add(1);
        self.checked = self
            .checked
            .saturating_add(checked_bytes(bytes, meaning) as u64);
    }

    fn halt(&mut self, _: &Trail<'_, '_, '_>, _: Expected<'_>) {}
}

fn checked_bytes(bytes: &[u8], meaning: Meaning<'_>) -> usize {
    match meaning {
        Meaning::Truth(_) | Meaning::Length(_, _) | Meaning::Option(_) | Meaning::Variant(_, _) =>
            bytes.len(),
        Meaning::Text(_) if is_printable(bytes) => bytes.len(),
        Meaning::Unsigned(_) => repeated_at_end(bytes, 0),
        Meaning::Signed(_, _) => repeated_at_end(bytes, sign_byte(bytes)),
        Meaning::Text(_) | Meaning::Bytes(_) | Meaning::Octets => 0,
    }
}

// Whether the text is printable ASCII.
fn is_printable(text: &[u8]) -> bool {
    text.iter().all(|byte| matches!(*byte, b' '..=b'~'))
}

// The byte that repeats the sign of a number at its high end, which is last.
fn sign_byte(number: &[u8]) -> u8 {
    match number.last() {
        Some(0x80..) => 0xff,
        _ => 0,
    }
}

// How often a number repeats this byte at its high end.
fn repeated_at_end(number: &[u8], sign: u8) -> usize {
    if number.len() < SHORTEST_NUMBER {
        return 0;
    }
    match number.iter().rposition(|byte| *byte != sign) {
        Some(last) => number.len().saturating_sub(last).saturating_sub(1),
        None => number.len(),
    }
}
