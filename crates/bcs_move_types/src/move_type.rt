//! Types of Move.

use crate::leaf::Leaf;

/// How deep types may nest: as deep as a registry's formats.
pub(crate) const DEEPEST: u32 = 32;

/// The greatest length of a type's text.
pub(crate) const LONGEST: usize = 4000;

/// A type of Move.
#[derive(Debug, Drop)]
pub enum MoveType {
    Leaf(Leaf),
    /// The type parameter with this number: `T0`.
    Parameter(u32),
    Vector(Box<MoveType>),
    Reference(Box<MoveType>),
    /// A struct, an enum or a function, such as `0x1::coin::Coin`, with its type arguments.
    Declared(String, Vec<MoveType>),
}
