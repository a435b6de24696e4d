//! The texts that ask for views of `bcs explain`.
#![tactic(auto)]

mod move_kind;
mod view_kind;
mod view_text;

pub use move_kind::MoveKind;
pub use view_kind::ViewKind;
pub use view_text::ViewText;
