//! The compact JSON document of a value.
ghost use Rattle.std.specs.Prelude.{◌≡◌, ◌<◌, IfOk, IfSome, None, string_bytes};
ghost use Rattle.serde_json.specs.Data.{depth};
ghost use Rattle.bcs_registry_model.specs.View.{shape_of};
ghost use Rattle.bcs_value_model.specs.Fits.{Fits};
ghost use Rattle.bcs_value_model.specs.View.{tree_of};
ghost use Rattle.bcs_json_spec.specs.JsonContent.{of};
ghost use Rattle.bcs_json_spec.specs.Shown.{shown};
ghost use Rattle.bcs_json_spec.specs.Texts.{IsReadAs, IsTextOf, nesting_limit};

use crate::nesting::shown_nests_within;
use crate::shown::{Shown, ShownWithin};
use bcs_registry::{Format, Registry};
use bcs_registry_json::NESTING_LIMIT;
use bcs_value_model::Value;
use std::alloc::{AllocError, Global};

/// The document of a value of `format`, unless its JSON nests deeper than the limit. Parsing it returns that JSON.
pub fn show(
    alloc: Global,
    registry: &Registry,
    format: &Format,
    value: &Value,
) -> Result<Option<String>, AllocError>
    requires fits { Fits registry.now (shape_of format.now) (tree_of value.now) }
    ensures text { IfOk result (λ o. IfSome o (λ s. IsTextOf registry.now (shape_of format.now) (tree_of value.now) (string_bytes s))) }
    ensures reads_back { IfOk result (λ o. IfSome o (λ s. IsReadAs (string_bytes s) (shown registry.now (tree_of value.now) (of (shape_of format.now))))) }
    ensures too_nested { IfOk result (λ o. o ≡ None → nesting_limit < depth (shown registry.now (tree_of value.now) (of (shape_of format.now)))) }
{
    registry.recall();
    let shown = ShownWithin {
        shown: Shown {
            value,
            format,
            registry,
            alloc,
        },
        limit: NESTING_LIMIT as usize,
    };
    if let Ok(text) = serde_json::to_string(alloc, &shown) {
        return Ok(Some(text));
    }
    // It fails only if the JSON nests deeper, or an allocation fails. No clause of `serde_json` says so: see the README.
    if shown_nests_within(registry, format, NESTING_LIMIT, value) {
        Err(AllocError)
    } else {
        Ok(None)
    }
}
