//! Quotes in names of parts: labels in quotes may contain any character.

/// Whether the next byte of a name is in quotes.
#[derive(Clone, Copy)]
pub(crate) struct Quotes {
    is_open: bool,
    is_escaped: bool,
}

impl Quotes {
    /// Before the first byte.
    pub(crate) fn closed() -> Quotes {
        Quotes {
            is_open: false,
            is_escaped: false,
        }
    }

    pub(crate) fn is_open(self) -> bool {
        self.is_open
    }

    /// After this byte.
    pub(crate) fn after(self, byte: u8) -> Quotes {
        let is_mark = byte == b'"' && !self.is_escaped;
        Quotes {
            is_open: if is_mark { !self.is_open } else { self.is_open },
            is_escaped: self.is_open && byte == b'\\' && !self.is_escaped,
        }
    }
}

/// The offset of the first `mark` outside quotes.
pub(crate) fn unquoted(text: &[u8], mark: &[u8]) -> Option<usize> {
    let mut quotes = Quotes::closed();
    for (place, byte) in text.iter().enumerate() {
        if !quotes.is_open() && begins_at(text, place, mark) {
            return Some(place);
        }
        quotes = quotes.after(*byte);
    }
    None
}

/// Whether `mark` is in the text at this offset.
pub(crate) fn begins_at(text: &[u8], place: usize, mark: &[u8]) -> bool {
    text.get(place..).unwrap_or(b"").starts_with(mark)
}
