//! Values of Move that are 32 bytes.
ghost use Rattle.std.specs.Prelude.{◌≡◌};
ghost use Rattle.bcs_view_texts.specs.Kinds.{move_word};

/// How Move writes a value of 32 bytes.
#[derive(Clone, Copy, Debug, PartialEq, Eq)]
pub enum MoveKind {
    Address,
    /// An unsigned integer, lowest byte first.
    Unsigned,
    /// A signed integer, lowest byte first.
    Signed,
}

impl MoveKind {
    /// The kind in JSON, the name of its option, and the name of the container that is shown so without an option.
    pub fn word(self) -> &'static str
        ensures { result.now ≡ move_word self }
    {
        match self {
            MoveKind::Address => "address",
            MoveKind::Unsigned => "u256",
            MoveKind::Signed => "i256",
        }
    }
}
