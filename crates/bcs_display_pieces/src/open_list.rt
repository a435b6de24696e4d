//! A list whose elements are the arguments of a function.

/// Such a list, and the index of the source that asked for it.
#[derive(Drop)]
pub(crate) struct OpenList {
    pub source: usize,
    /// What the names of its elements begin with.
    pub name: Vec<u8>,
    pub function: String,
}

impl OpenList {
    /// The number of the argument that the element with this name is, in digits. `None`: it is no element.
    pub(crate) fn number_of<'n>(&self, name: &'n [u8]) -> Option<&'n str> {
        let step = name.strip_prefix(self.name.as_slice())?;
        let digits = step.strip_prefix(b"[")?.strip_suffix(b"]")?;
        if digits.iter().all(|byte| byte.is_ascii_digit()) {
            str::from_utf8(digits).ok()
        } else {
            None
        }
    }
}
