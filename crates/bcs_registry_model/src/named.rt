//! Things with a name.

/// A field with its format, or a variant with its payload.
#[derive(Debug, Drop)]
pub struct Named<T> {
    pub name: String,
    pub value: T,
}
