//! The options that ask for views.
ghost use Rattle.std.specs.Prelude.{◌≡◌};
ghost use Rattle.bcs_view_texts.specs.Kinds.{view_name};

use crate::move_kind::MoveKind;

/// An option of `bcs explain` that asks for views.
#[derive(Clone, Copy, Debug, PartialEq, Eq)]
pub enum ViewKind {
    /// `NAME=FORMAT`: the byte string at NAME has a value of FORMAT.
    Inside,
    /// `NAME=FUNCTION`: the list at NAME has the arguments of FUNCTION, each as a byte string. Without FUNCTION, it is the one
    /// that is called.
    Call,
    /// A container of 32 `U8` that is a value of Move.
    Value(MoveKind),
}

impl ViewKind {
    /// All of them, in the order in which they are read.
    pub const ALL: &'static [ViewKind] = &[
        ViewKind::Inside,
        ViewKind::Call,
        ViewKind::Value(MoveKind::Address),
        ViewKind::Value(MoveKind::Unsigned),
        ViewKind::Value(MoveKind::Signed),
    ];

    /// The option of this name.
    pub fn named(name: &str) -> Option<ViewKind> {
        ViewKind::ALL
            .iter()
            .copied()
            .find(|kind| kind.name() == name)
    }

    /// The option's name.
    pub fn name(self) -> &'static str
        ensures { result.now ≡ view_name self }
    {
        match self {
            ViewKind::Inside => "inside",
            ViewKind::Call => "call",
            ViewKind::Value(kind) => kind.word(),
        }
    }

    /// The option, as it is written.
    pub fn option(self) -> &'static str {
        match self {
            ViewKind::Inside => "--inside",
            ViewKind::Call => "--call",
            ViewKind::Value(MoveKind::Address) => "--address",
            ViewKind::Value(MoveKind::Unsigned) => "--u256",
            ViewKind::Value(MoveKind::Signed) => "--i256",
        }
    }
}
