//! A text that asks for a view.
ghost use Rattle.std.specs.Prelude.{◌≡◌, IfOk};
ghost use Rattle.bcs_view_texts.specs.Kinds.{asked_of};

use crate::view_kind::ViewKind;
use std::alloc::{AllocError, Global};

/// A text that asks for a view, and the option that has it.
#[derive(Debug, Drop)]
pub struct ViewText {
    pub kind: ViewKind,
    pub text: String,
}

impl ViewText {
    /// A copy of the text.
    pub fn new(alloc: Global, kind: ViewKind, text: &str) -> Result<ViewText, AllocError>
        ensures { IfOk result (λ view. asked_of view ≡ (kind, text.now)) }
    {
        let text = String::from_str(alloc, text)?;
        Ok(ViewText { kind, text })
    }
}
