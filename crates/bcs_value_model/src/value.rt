//! Values.

/// A value of some format.
#[derive(Debug, Drop)]
pub enum Value {
    Unit,
    Bool(bool),
    Unsigned(u128),
    Signed(i128),
    Text(String),
    Bytes(Vec<u8>),
    /// An option without a value.
    Absent,
    /// An option with a value.
    Present(Box<Value>),
    /// The elements of a list, a tuple or an array, or the fields of a struct in their order.
    Items(Vec<Value>),
    /// A variant of an enum: its number and its payload.
    Variant(u32, Box<Value>),
    /// The entries of a map, in any order.
    Pairs(Vec<(Value, Value)>),
    /// The value of a container.
    Named(Box<Value>),
}
