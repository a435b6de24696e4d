//! The container that was probably meant by a name that the registry lacks.

use crate::function_names::compared_name;
use crate::functions::is_function;
use bcs_display_mistakes::NearestName;
use bcs_registry::Registry;
use bcs_view_texts::ViewKind;
use std::alloc::{AllocError, Global};

/// The first container with the same name but for its spelling and type arguments, or else the one with the nearest name, if
/// one is near. For `--call` only functions count.
pub(crate) fn nearest_container<'a>(
    alloc: Global,
    registry: &'a Registry,
    kind: ViewKind,
    word: &'a str,
) -> Result<Option<&'a str>, AllocError> {
    let compared = compared_name(alloc, word.as_bytes())?;
    let mut search = NearestName::to(word);
    for (name, container) in registry.containers().entries() {
        if kind == ViewKind::Call && !is_function(container) {
            continue;
        }
        if has_head(alloc, name.as_str(), &compared)? {
            return Ok(Some(name.as_str()));
        }
        search.consider(alloc, name.as_str())?;
        if search.is_over() {
            break;
        }
    }
    Ok(search.found())
}

// Whether a name is the compared one, with or without type arguments.
fn has_head(alloc: Global, name: &str, compared: &[u8]) -> Result<bool, AllocError> {
    let name = compared_name(alloc, name.as_bytes())?;
    Ok(match name.strip_prefix(compared) {
        Some(types) => types.is_empty() || types.starts_with(b"<"),
        None => false,
    })
}
