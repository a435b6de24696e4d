//! How A and B of `diff` are written.

/// What a file holds: the JSON of a value, or its bytes in one of three ways.
#[derive(Clone, Copy, Debug, PartialEq, Eq)]
pub enum ValueForm {
    Json,
    Hexadecimal,
    Base64,
    Raw,
}

impl ValueForm {
    /// What `--a` or `--b` requests. The command line accepts no other values.
    pub(crate) fn given(text: Option<&str>) -> ValueForm {
        match text {
            Some("hex") => ValueForm::Hexadecimal,
            Some("base64") => ValueForm::Base64,
            Some("raw") => ValueForm::Raw,
            _ => ValueForm::Json,
        }
    }
}
