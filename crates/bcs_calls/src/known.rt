//! A format with its JSON.
ghost use Rattle.std.specs.Prelude.{◌≡◌, true};

use bcs_registry::Format;

/// A format, and the JSON that represents it.
#[derive(Drop)]
pub struct Known {
    pub(crate) text: Vec<u8>,
    pub(crate) format: Format,
}

impl Known {
    /// Whether this is its JSON.
    pub(crate) fn is_of(&self, text: &[u8]) -> bool
        ensures { result ≡ true → self.now.text.items ≡ text.now }
    {
        self.text.as_slice() == text
    }
}
