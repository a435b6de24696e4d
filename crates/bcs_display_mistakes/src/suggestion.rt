//! The name that a message suggests.

use bcs_display_refusal::Name;
use std::fmt;

/// The end of a message about a name that doesn't exist: `; did you mean NAME?`, or nothing if no name is near.
#[derive(Clone, Copy)]
pub struct Suggestion<'a> {
    nearest: Option<Name<'a>>,
}

impl<'a> Suggestion<'a> {
    /// Suggests this name, if there is one.
    pub fn of(nearest: Option<&'a str>) -> Suggestion<'a> {
        Suggestion {
            nearest: match nearest {
                Some(name) => Some(Name::of(name)),
                None => None,
            },
        }
    }
}

impl fmt::Display for Suggestion<'_> {
    fn fmt<W: fmt::Write>(&self, f: &mut fmt::Formatter<W>) -> fmt::Result {
        match self.nearest {
            Some(name) => write!(f, "; did you mean {name}?"),
            None => Ok(()),
        }
    }
}
