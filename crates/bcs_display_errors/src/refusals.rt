//! Where the JSON document of a value is refused, for the program and for the library for C.

use crate::texts::refusal_at;
use crate::wholes::whole_refusal;
use bcs_display_refusal::Refusal;
use bcs_json_spec::{JsonFault, JsonStep};
use bcs_registry::{Format, Registry};
use bcs_value::Limits;
use std::alloc::Global;

/// Where the JSON document of a value is refused with this fault, at the end of these steps, and what was expected there. `None`
/// if an allocation fails.
pub fn text_refusal(
    alloc: Global,
    registry: &Registry,
    format: &Format,
    limits: &Limits,
    text: &[u8],
    (fault, steps): (JsonFault, Option<&[JsonStep]>),
) -> Option<Refusal> {
    match steps {
        None => whole_refusal(alloc, limits, text, fault),
        Some(steps) => refusal_at(alloc, registry, format, limits, text, (fault, steps)),
    }
}
