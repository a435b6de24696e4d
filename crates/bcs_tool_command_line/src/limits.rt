//! The limit on sizes.

/// The maximal number of bytes of a registry, of a second text, and of an input.
pub const SIZE_LIMIT: u64 = 268435456;
