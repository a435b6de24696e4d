//! The state that all readers share.

use crate::progress::Progress;
use bcs_registry::Registry;
use std::alloc::Global;

/// The registry, the source, and how far the source has been read.
#[derive(Drop)]
pub struct Reader<'a, S> {
    pub alloc: Global,
    pub registry: &'a Registry,
    pub source: &'a mut S,
    pub at: &'a mut Progress,
}
