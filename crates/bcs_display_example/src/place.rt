//! The context in which a part of an example is built.

use crate::example_options::ExampleForm;

/// The names of the open containers, innermost first: a list linked through stack frames, without allocation.
#[derive(Clone, Copy)]
pub(crate) enum Opened<'t, 'r> {
    Nothing,
    Within(&'r str, &'t Opened<'t, 'r>),
}

/// The context in which a part of an example is built.
#[derive(Clone, Copy)]
pub(crate) struct Place<'t, 'r> {
    /// What options, lists and maps contain.
    pub(crate) form: ExampleForm,
    /// The number of containers that may be open at once inside the part.
    pub(crate) depth: u32,
    /// The containers that are open around the part.
    pub(crate) opened: &'t Opened<'t, 'r>,
}

pub(crate) fn nothing_opened<'t, 'r>() -> Opened<'t, 'r> {
    Opened::Nothing
}

/// Adds an open container inside the others.
pub(crate) fn opened_within<'t, 'r>(name: &'r str, outer: &'t Opened<'t, 'r>) -> Opened<'t, 'r> {
    Opened::Within(name, outer)
}

pub(crate) fn is_opened(name: &str, opened: &Opened<'_, '_>) -> bool {
    match opened {
        Opened::Nothing => false,
        Opened::Within(inner, outer) => name == *inner || is_opened(name, outer),
    }
}
