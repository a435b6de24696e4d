//! Validates and encodes a value in one pass.
ghost use Rattle.std.specs.Prelude.{◌≡◌, ◌↔◌, IsTrue, true};
ghost use Rattle.bcs_registry_model.specs.Container.{of};
ghost use Rattle.bcs_registry_model.specs.View.{shape_of};
ghost use Rattle.bcs_value_model.specs.View.{tree_of};
ghost use Rattle.bcs_encode_spec.specs.Plain.{plain};
ghost use Rattle.bcs_encode_spec.specs.Refused.{IsSoundBesidesKeys};
ghost use Rattle.bcs_encode_impl.specs.Writing.{written};
ghost use Rattle.bcs_encode_impl.specs.Appends.{Appends, Gives};

use crate::output::Output;
use crate::writing::write_value;
use bcs_registry::{Format, Registry};
use bcs_value::{Limits, Value};

/// Whether the value fits `format` and its depth, nodes and lengths are within the limits. Visits the value once, and
/// looks up a container once for each value, or for a whole list. Appends the encoding, as far as `out` accepts it.
pub fn write_if_sound(
    registry: &Registry,
    format: &Format,
    limits: &Limits,
    value: &Value,
    out: &mut Output,
) -> bool
    ensures sound { IsTrue result ↔ IsSoundBesidesKeys registry.now limits.now (shape_of format.now) (tree_of value.now) }
    ensures appended { result ≡ true → Appends out.old out.new (written registry.now (tree_of value.now) (of (shape_of format.now))) }
    ensures given { result ≡ true → Gives out.old out.new (plain registry.now (tree_of value.now) (of (shape_of format.now))) }
{
    let depth = u64::from(limits.depth());
    let nodes = u64::from(limits.nodes());
    write_value(value, registry, format, depth, nodes, out).is_some()
}
