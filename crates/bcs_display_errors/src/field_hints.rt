//! Hints about a struct's member that is missing, or that isn't a field.

use crate::field_list::FieldList;
use crate::hints::Hint;
use bcs_display_mistakes::{NearestName, Suggestion};
use bcs_display_refusal::Name;
use bcs_registry::{Format, Named};
use std::alloc::{AllocError, Global};
use std::collections::BTreeSet;

/// The member that was probably meant to be the missing field: the one with the nearest name, among those that aren't fields.
/// If there is none, how to leave an option out.
pub(crate) fn missing_hint<'a>(
    alloc: Global,
    fields: &BTreeSet<&'a str>,
    members: &BTreeSet<&'a str>,
    missing: &'a Named<Format>,
) -> Result<Hint<'a>, AllocError> {
    let mut search = NearestName::to(missing.name.as_str());
    for name in members {
        if search.is_over() {
            break;
        }
        if !fields.contains(name) {
            search.consider(alloc, name)?;
        }
    }
    match search.found() {
        Some(name) => Ok(Hint::Found(Name::of(name))),
        None if matches!(missing.value, Format::Opt(_)) => Ok(Hint::Null),
        None => Ok(Hint::Nothing),
    }
}

/// The field with the nearest name to that of a member that isn't a field, or if none is near, the fields that exist.
pub(crate) fn unknown_hint<'a>(
    alloc: Global,
    fields: &'a [Named<Format>],
    member: &'a str,
) -> Result<Hint<'a>, AllocError> {
    let mut search = NearestName::to(member);
    for field in fields {
        if search.is_over() {
            break;
        }
        search.consider(alloc, field.name.as_str())?;
    }
    match search.found() {
        Some(name) => Ok(Hint::Nearest(Suggestion::of(Some(name)))),
        None => Ok(Hint::Fields(FieldList(fields))),
    }
}
