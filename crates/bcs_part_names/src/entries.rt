//! The keys of a map's entries.

use bcs_decode_parts::ahead::{Ahead, bytes_before};
use bcs_decode_parts::passing::after_value;
use bcs_decode_parts::variants::after_number;
use bcs_registry::{Format, Registry};

/// A map in an encoding.
#[derive(Clone, Copy)]
pub(crate) struct Entries<'r, 'a> {
    pub(crate) registry: &'r Registry,
    pub(crate) key: &'r Format,
    pub(crate) content: &'r Format,
    pub(crate) ahead: Ahead<'a>,
}

impl<'r, 'a> Entries<'r, 'a> {
    /// The bytes of the key of entry `index`, from 0.
    pub(crate) fn key_at(&self, index: u64) -> Option<&'a [u8]> {
        let (count, mut rest) = after_number(self.ahead.bytes)?;
        for number in 0..u64::from(count) {
            let (key, behind) = self.key_before(rest)?;
            if number == index {
                return Some(key);
            }
            rest = self.after_content(behind)?;
        }
        None
    }

    // The key at the start of `rest`, and the bytes after it.
    fn key_before(&self, rest: &'a [u8]) -> Option<(&'a [u8], &'a [u8])> {
        let behind = after_value(self.registry, self.key, &self.ahead.at(rest))?;
        Some((bytes_before(rest, behind), behind))
    }

    // The bytes after the value at the start of `rest`.
    fn after_content(&self, rest: &'a [u8]) -> Option<&'a [u8]> {
        after_value(self.registry, self.content, &self.ahead.at(rest))
    }
}
