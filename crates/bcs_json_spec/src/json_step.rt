//! Steps into JSON.

/// A step into JSON, one reference token of a JSON Pointer (RFC 6901).
#[derive(Debug, Drop, PartialEq, Eq)]
pub enum JsonStep {
    /// To the item of an array with this index, from 0.
    Item(u64),
    /// To the member of an object with this name.
    Member(String),
}
