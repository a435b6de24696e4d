//! The name that was probably meant in place of one that doesn't exist.

use crate::common_ends::without_common_ends;
use crate::letters::Letters;
use std::alloc::{AllocError, Global};
use strsim::osa_distance;

/// What a search may cost, some nanoseconds: 1 for each byte of a name, and more for each name and for comparing. So it looks
/// at more than 1,000 names of 80 bytes.
const COST: usize = 200_000;

/// The cost of a name, besides its bytes. Those of a large registry aren't in the processor's cache.
const NAME: usize = 100;

/// The cost of comparing a name with the word, besides that of the table's cells.
const TABLE: usize = 1_000;

/// The cost of a cell.
const CELL: usize = 7;

/// The length in bytes of the longest name that is compared.
const LONGEST: usize = 512;

/// A search among names for the one that differs least from a word.
#[derive(Clone, Copy)]
pub struct NearestName<'a> {
    word: &'a str,
    letters: Letters,
    /// What the rest of the search may cost.
    left: usize,
    found: Option<Near<'a>>,
}

/// A name that is near, and the number of edits that lead to it.
#[derive(Clone, Copy)]
struct Near<'a> {
    name: &'a str,
    edits: usize,
}

impl<'a> NearestName<'a> {
    /// Starts a search. Nothing is near a word that is too long.
    pub fn to(word: &'a str) -> NearestName<'a> {
        NearestName {
            word,
            letters: Letters::of(word),
            left: if word.len() > LONGEST { 0 } else { COST },
            found: None,
        }
    }

    /// Takes the name if it is near, and nearer than all names before. It is near if it differs only in case, or if at most a
    /// third of the longer one's characters differ, where two neighbours in the wrong order count once. A name that the search
    /// can't afford isn't near.
    pub fn consider(&mut self, alloc: Global, name: &'a str) -> Result<(), AllocError> {
        if !self.looks_at(name) {
            return Ok(());
        }
        if name.eq_ignore_ascii_case(self.word) {
            self.found = Some(Near { name, edits: 0 });
            return Ok(());
        }
        let (longer, missing) = self.letters.longer_and_missing(name);
        let Some(most) = self.most_edits(longer) else {
            return Ok(());
        };
        if missing > most {
            return Ok(());
        }
        let (word, other) = without_common_ends(self.word, name);
        if !self.affords_table(word, other) {
            return Ok(());
        }
        let edits = osa_distance(alloc, word, other)?;
        if edits <= most {
            self.found = Some(Near { name, edits });
        }
        Ok(())
    }

    /// Whether the search can't afford another name.
    pub fn is_over(&self) -> bool {
        self.left == 0
    }

    /// The nearest name, if one is near.
    pub fn found(&self) -> Option<&'a str> {
        Some(self.found?.name)
    }

    // Whether this name is short enough, and the search can afford it.
    fn looks_at(&mut self, name: &str) -> bool {
        if !self.spend(name.len().saturating_add(NAME)) {
            self.left = 0;
            return false;
        }
        name.len() <= LONGEST
    }

    // The greatest number of edits that still makes a name the nearest, if it or the word has this number of characters.
    fn most_edits(&self, longer: usize) -> Option<usize> {
        let third = longer / 3;
        match self.found {
            Some(found) => Some(third.min(found.edits.checked_sub(1)?)),
            None => Some(third),
        }
    }

    // Whether the search can afford to compare these texts.
    fn affords_table(&mut self, word: &str, other: &str) -> bool {
        let cells = word.len().saturating_mul(other.len());
        self.spend(cells.saturating_mul(CELL).saturating_add(TABLE))
    }

    // Spends this cost, if it is left.
    fn spend(&mut self, cost: usize) -> bool {
        match self.left.checked_sub(cost) {
            Some(left) => {
                self.left = left;
                true
            }
            None => false,
        }
    }
}
