//! Types without parts.

/// A type without parts.
#[derive(Clone, Copy, Debug, PartialEq, Eq)]
pub enum Leaf {
    Bool,
    U8,
    U16,
    U32,
    U64,
    U128,
    U256,
    I8,
    I16,
    I32,
    I64,
    I128,
    I256,
    Address,
    Signer,
}

/// All of them.
pub(crate) const LEAVES: &[Leaf] = &[
    Leaf::Bool,
    Leaf::U8,
    Leaf::U16,
    Leaf::U32,
    Leaf::U64,
    Leaf::U128,
    Leaf::U256,
    Leaf::I8,
    Leaf::I16,
    Leaf::I32,
    Leaf::I64,
    Leaf::I128,
    Leaf::I256,
    Leaf::Address,
    Leaf::Signer,
];

impl Leaf {
    /// The name that both chains print.
    pub fn word(self) -> &'static str {
        match self {
            Leaf::Bool => "bool",
            Leaf::U8 => "u8",
            Leaf::U16 => "u16",
            Leaf::U32 => "u32",
            Leaf::U64 => "u64",
            Leaf::U128 => "u128",
            Leaf::U256 => "u256",
            Leaf::I8 => "i8",
            Leaf::I16 => "i16",
            Leaf::I32 => "i32",
            Leaf::I64 => "i64",
            Leaf::I128 => "i128",
            Leaf::I256 => "i256",
            Leaf::Address => "address",
            Leaf::Signer => "signer",
        }
    }

    /// The leaf with this name.
    pub(crate) fn called(word: &str) -> Option<Leaf> {
        LEAVES.iter().copied().find(|leaf| leaf.word() == word)
    }

    /// The leaf that the JSON of Sui spells this way.
    pub(crate) fn called_on_sui(word: &str) -> Option<Leaf> {
        Some(match word {
            "Bool" => Leaf::Bool,
            "U8" => Leaf::U8,
            "U16" => Leaf::U16,
            "U32" => Leaf::U32,
            "U64" => Leaf::U64,
            "U128" => Leaf::U128,
            "U256" => Leaf::U256,
            "Address" => Leaf::Address,
            "Signer" => Leaf::Signer,
            _ => return None,
        })
    }
}
