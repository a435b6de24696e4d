//! Examples as values.
ghost use Rattle.std.specs.Prelude.{IfOk};
ghost use Rattle.bcs_registry_model.specs.Container.{of};
ghost use Rattle.bcs_registry_model.specs.View.{shape_of};
ghost use Rattle.bcs_value_model.specs.View.{tree_of};
ghost use Rattle.bcs_encode_spec.specs.Canonical.{IsCanonical};
ghost use Rattle.bcs_encode_spec.specs.Sound.{IsSound};

use crate::example_options::ExampleOptions;
use crate::fault::ExampleOptionsFault;
use crate::making::make_wished;
use bcs_decode::decode_encoded;
use bcs_encode::encode;
use bcs_registry::{Format, Registry};
use bcs_value::{Limits, Value};
use std::alloc::Global;

/// Returns the requested example of `format`, for you to fill in.
///
/// If `variant` is set, the format must be the name of an enum; the value then has this variant, with an example as
/// payload. The form `Least` is a value that opens as few containers at once as possible: options are absent; lists, maps,
/// strings and byte strings are empty; numbers are 0 and booleans are false; an enum has the variant with the least number
/// among those whose examples open the fewest containers. In the form `Full`, each option, list and map has one element if
/// one exists, and an enum has the first variant that has a value; a container inside itself is the least one, so that the
/// value is finite.
///
/// `UnknownVariant`: the format isn't the name of an enum that has this variant. `NoValue`: no value of the format
/// (with this variant) is within the depth limit. `TooManyNodes`: the example has more nodes than the limits allow.
/// `OutOfMemory`: an allocation failed.
pub fn example_with(
    alloc: Global,
    registry: &Registry,
    format: &Format,
    example_options: &ExampleOptions<'_>,
    limits: &Limits,
) -> Result<Value, ExampleOptionsFault>
    ensures sound { IfOk result (λ v. IsSound registry.now limits.now (shape_of format.now) (tree_of v)) }
    ensures canonical { IfOk result (λ v. IsCanonical registry.now (tree_of v) (of (shape_of format.now))) }
{
    let made = make_wished(alloc, registry, format, example_options, limits)?;
    // The encoder validates the value, and decoding its bytes gives a value that is sound and canonical.
    let bytes = encode(alloc, registry, format, limits, &made)?;
    drop(made);
    Ok(decode_encoded(alloc, registry, format, limits, &bytes)?)
}
