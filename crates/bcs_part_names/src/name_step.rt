//! The steps of a name.

/// A step of a name. For a field or a variant, it has the label, the text that `explain` prints for its name.
#[derive(Debug, Drop)]
pub enum NameStep<'t> {
    /// To the field with this label.
    Field(&'t [u8]),
    /// Into the variant with this label.
    Variant(&'t [u8]),
    /// Into an option.
    Inside,
    /// To the element with this index, from 0.
    Item(u64),
    /// To the value of a map whose encoded key is these bytes.
    Key(Vec<u8>),
    /// To the value of the entry with this number, from 0.
    EntryValue(u64),
    /// To the key of the entry with this number. No path leads there.
    EntryKey(u64),
}
