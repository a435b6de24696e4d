//! The state of a reading.

/// How far a source has been read.
#[derive(Drop)]
pub struct Progress {
    /// The number of bytes read so far.
    pub place: u64,
    /// At least the bytes before this place exist. 0 if nothing is known.
    pub known: u64,
    /// The number of nodes that may still begin.
    pub nodes: u32,
    /// Whether a key is being read, so that its bytes are recorded.
    pub is_in_key: bool,
    /// The bytes of the outermost open key; before them, the last key of each open map that isn't inside a key.
    pub kept: Vec<u8>,
}
