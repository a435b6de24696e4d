//! The parts of a value that a view may name.

use bcs_display_mistakes::NearestName;
use std::alloc::{AllocError, Global};
use std::str::from_utf8;

/// The number of names that are stored.
const MOST: usize = 256;

/// The first names of parts of one kind: byte strings, or lists.
#[derive(Drop)]
pub(crate) struct Candidates {
    names: Vec<String>,
}

impl Candidates {
    pub(crate) fn new(alloc: Global) -> Candidates {
        Candidates {
            names: Vec::new(alloc),
        }
    }

    /// Adds the name of a part.
    pub(crate) fn add(&mut self, name: &[u8]) -> Result<(), AllocError> {
        if self.names.len() >= MOST {
            return Ok(());
        }
        let alloc = *self.names.allocator();
        // (a printed name is in ASCII)
        let name = from_utf8(name).unwrap_or("");
        Ok(self.names.push(String::from_str(alloc, name)?)?)
    }

    pub(crate) fn add_all(&mut self, other: &Candidates) -> Result<(), AllocError> {
        for name in &other.names {
            self.add(name.as_bytes())?;
        }
        Ok(())
    }

    /// The part that was probably meant by a name that leads to none: the first one whose name ends so, or else the one with
    /// the nearest name, if one is near.
    pub(crate) fn nearest<'a>(
        &'a self,
        alloc: Global,
        word: &'a str,
    ) -> Result<Option<&'a str>, AllocError> {
        let mut search = NearestName::to(word);
        for name in &self.names {
            if name.as_str().ends_with(word) {
                return Ok(Some(name.as_str()));
            }
            search.consider(alloc, name.as_str())?;
        }
        Ok(search.found())
    }
}
