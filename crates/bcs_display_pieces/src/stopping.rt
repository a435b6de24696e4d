//! Finds where a whole input stops being a value.
ghost use Rattle.bcs_registry_model.specs.View.{shape_of};
ghost use Rattle.bcs_registry_model.specs.WellFormed.{Admits};
ghost use Rattle.bcs_display_pieces.specs.EndsAt.{EndsAt};

use bcs_explain::{Listener, Reason, Stop, explain};
use bcs_registry::{Format, Registry};
use bcs_value::Limits;

/// Sends the pieces to `out` and returns the stop, or `None` if the bytes encode a value. Bytes after a value are a
/// stop, with the reason `TrailingBytes`.
pub(crate) fn stop_of<T: Listener>(
    registry: &Registry,
    format: &Format,
    limits: &Limits,
    bytes: &[u8],
    out: &mut T,
) -> Option<Stop>
    requires admitted { Admits registry.now (shape_of format.now) }
    ensures { EndsAt registry.now limits.now (shape_of format.now) bytes.now result }
{
    match explain(registry, format, limits, bytes, out) {
        Ok(end) if end < bytes.len() => Some(Stop {
            reason: Reason::TrailingBytes,
            place: end as u64,
        }),
        Ok(_) => None,
        Err(stop) => Some(stop),
    }
}
