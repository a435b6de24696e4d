//! The least examples of containers.

use crate::part::Content;
use std::alloc::{AllocError, Global};
use std::collections::BTreeMap;

/// The least example of a container.
#[derive(Clone, Copy)]
pub(crate) struct LeastExample<'r> {
    /// How many containers it opens at once inside this one.
    pub(crate) below: u32,
    /// Its number of nodes, which saturates at 18446744073709551615.
    pub(crate) nodes: u64,
    pub(crate) content: Content<'r>,
}

/// The least examples by container name.
#[derive(Drop)]
pub(crate) struct LeastExamples<'r> {
    found: BTreeMap<&'r str, LeastExample<'r>>,
}

impl<'r> LeastExamples<'r> {
    pub(crate) fn new(alloc: Global) -> LeastExamples<'r> {
        LeastExamples {
            found: BTreeMap::new(alloc),
        }
    }

    /// The least example of a container, if it opens at most `depth` containers at once, itself included.
    pub(crate) fn within(&self, name: &str, depth: u32) -> Option<LeastExample<'r>> {
        match self.found.get(name) {
            Some(least) if least.below < depth => Some(*least),
            _ => None,
        }
    }

    pub(crate) fn put(&mut self, name: &'r str, least: LeastExample<'r>) -> Result<(), AllocError> {
        self.found.insert(name, least)?;
        Ok(())
    }
}
