//! The options for an example.

/// What the options, lists and maps of an example contain.
#[derive(Clone, Copy, Debug, PartialEq, Eq)]
pub enum ExampleForm {
    /// Nothing: options are absent, lists and maps are empty.
    Least,
    /// One element each, if one exists.
    Full,
}

/// Which example of a format to build.
#[derive(Clone, Copy, Debug)]
pub struct ExampleOptions<'a> {
    /// The variant that the value must have, if any. The format must then be the name of an enum.
    pub variant: Option<&'a str>,
    /// What its options, lists and maps contain.
    pub form: ExampleForm,
}
