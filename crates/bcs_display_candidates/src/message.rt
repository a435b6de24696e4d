//! What a refusal says about the container that the bytes are exactly one value of.

use crate::searching::candidates;
use bcs_display_refusal::put_name;
use bcs_explain::Reason;
use bcs_registry::{Format, Registry};
use bcs_value::Limits;
use std::alloc::AllocError;

/// A candidate with fewer checked bytes is mostly chance.
const FEWEST_CHECKED: usize = 4;

/// The most containers times bytes for which a refusal looks for candidates, so that it takes at most 0.2 ms more.
const MOST_WORK: usize = 1 << 13;

/// Appends `these bytes are exactly one NAME`, after `; ` if there is a message already: if bytes that are too few or too
/// many for one container are a value of exactly one other, and at least four of them are checked. Appends nothing if
/// the registry or the input is large.
pub fn put_only_candidate(
    registry: &Registry,
    format: &Format,
    limits: &Limits,
    bytes: &[u8],
    reason: Reason,
    out: &mut Vec<u8>,
) -> Result<(), AllocError> {
    if !matches!(reason, Reason::TrailingBytes | Reason::EndOfInput)
        || registry.named_container(format).is_none()
        || !is_small(registry, bytes)
    {
        return Ok(());
    }
    let found = candidates(*out.allocator(), registry, limits, bytes)?;
    match found.as_slice() {
        [only] if only.evidence.checked >= FEWEST_CHECKED as u64 => {
            if !out.is_empty() {
                out.extend_from_slice(b"; ")?;
            }
            out.extend_from_slice(b"these bytes are exactly one ")?;
            put_name(only.name, out)
        }
        _ => Ok(()),
    }
}

fn is_small(registry: &Registry, bytes: &[u8]) -> bool {
    bytes.len() >= FEWEST_CHECKED && bytes.len().saturating_mul(registry.len()) <= MOST_WORK
}
