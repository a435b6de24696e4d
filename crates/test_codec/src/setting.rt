//! State set by earlier rows.

use std::alloc::{AllocError, Global};

/// The registry and the values of the last rows `registry` and `values`.
#[derive(Drop)]
pub(crate) struct Setting {
    pub registry: Vec<u8>,
    pub values: String,
}

impl Setting {
    /// An empty registry, and no values.
    pub(crate) fn empty(alloc: Global) -> Result<Setting, AllocError> {
        Ok(Setting {
            registry: Vec::from_slice(alloc, b"{}")?,
            values: String::new(alloc),
        })
    }
}
