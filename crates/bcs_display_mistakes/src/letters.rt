//! A lower bound of the number of edits between a word and another text.

/// The characters of a word, in any order. Those with the same first byte count as equal.
#[derive(Clone, Copy)]
pub(crate) struct Letters {
    /// How many characters start with each byte.
    counts: [u16; 256],
    size: usize,
}

impl Letters {
    pub(crate) fn of(word: &str) -> Letters {
        let mut counts = [0u16; 256];
        let mut size: usize = 0;
        for byte in word.bytes().filter(|byte| is_start(*byte)) {
            size = size.saturating_add(1);
            count_one(&mut counts, byte);
        }
        Letters { counts, size }
    }

    /// The number of characters in the longer text, and how many of these the shorter one doesn't have. At least that many
    /// edits lead from one to the other.
    pub(crate) fn longer_and_missing(&self, other: &str) -> (usize, usize) {
        let mut counts = self.counts;
        let (mut size, mut shared): (usize, usize) = (0, 0);
        for byte in other.bytes().filter(|byte| is_start(*byte)) {
            size = size.saturating_add(1);
            if take_one(&mut counts, byte) {
                shared = shared.saturating_add(1);
            }
        }
        let longer = size.max(self.size);
        (longer, longer.saturating_sub(shared))
    }
}

// Whether a character starts with this byte.
fn is_start(byte: u8) -> bool {
    byte & 0xc0 != 0x80
}

fn count_one(counts: &mut [u16; 256], byte: u8) {
    if let Some(count) = counts.get_mut(usize::from(byte)) {
        *count = count.saturating_add(1);
    }
}

// Takes one from the count of this byte, if it isn't 0.
fn take_one(counts: &mut [u16; 256], byte: u8) -> bool {
    let Some(count) = counts.get_mut(usize::from(byte)) else {
        return false;
    };
    if *count == 0 {
        return false;
    }
    *count = count.saturating_sub(1);
    true
}
