//! The field path to a piece. It is a linked list on the stack, so it never allocates.

use bcs_registry_model::{Format, Named};

/// A step from a value to a part of it.
#[derive(Clone, Copy)]
pub enum Step<'r, 'a> {
    /// To the element with this index.
    Item(u64),
    /// To the field with this index and name.
    Field(u64, &'r str),
    /// Into an option.
    Inner,
    /// Into a container with this name.
    Container(&'r str),
    /// Into a variant, with its number and name.
    Variant(u32, &'r str),
    /// To the key of the entry with this index.
    Key(u32),
    /// To the value of the entry with this index, whose encoded key is these bytes.
    Value(u32, &'a [u8]),
}

/// The steps from the whole value to a part of it, linked from the last step up.
#[derive(Clone, Copy)]
pub enum Trail<'t, 'r, 'a> {
    Top,
    Below(&'t Trail<'t, 'r, 'a>, Step<'r, 'a>),
}

/// Appends a step.
pub fn below<'t, 'r, 'a>(trail: &'t Trail<'t, 'r, 'a>, step: Step<'r, 'a>) -> Trail<'t, 'r, 'a> {
    Trail::Below(trail, step)
}

/// The step to a field.
pub fn to_field<'r, 'a>(number: usize, field: &'r Named<Format>) -> Step<'r, 'a> {
    Step::Field(number as u64, field.name.as_str())
}
