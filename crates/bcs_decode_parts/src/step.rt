//! Steps into a value.

/// A step from a value to a part of it.
#[derive(Clone, Copy)]
pub enum Step<'s> {
    /// To the element with this index, from 0, of a list, an array, a tuple or a struct.
    Item(u64),
    /// Into an option, a variant or a container.
    Inner,
    /// To the value of a map whose encoded key is these bytes.
    Key(&'s [u8]),
}
