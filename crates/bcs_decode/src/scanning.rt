//! Validates a value in a slice.
ghost use Rattle.std.specs.Prelude.{◌≡◌, ℕ, Ok, Err, IfOk, IfErr};
ghost use Rattle.bcs_registry_model.specs.View.{shape_of};
ghost use Rattle.bcs_registry_model.specs.WellFormed.{Admits};
ghost use Rattle.bcs_value_model.specs.Tree.{Tree};
ghost use Rattle.bcs_decode_spec.specs.declared.reason.Reason.{Reason};
ghost use Rattle.bcs_decode_spec.specs.Accepting.{Accepts};
ghost use Rattle.bcs_decode_spec.specs.Stopping.{Stops};

use bcs_decode_slice::cursor::Cursor;
use bcs_decode_slice::scanning::value;
use bcs_decode_spec::Stop;
use bcs_registry::{Format, Registry};
use bcs_value::Limits;

/// Returns the length in bytes of the value of `format` at the start of the input. Allocates nothing, and doesn't read
/// what comes after the value.
///
/// `Stop`: the one reason and byte offset at which the input stops being a value of `format`. It is returned exactly if
/// the input doesn't begin with a value within the limits.
pub fn scan(
    registry: &Registry,
    format: &Format,
    limits: &Limits,
    bytes: &[u8],
) -> Result<usize, Stop>
    requires admitted { Admits registry.now (shape_of format.now) }
    ensures found { IfOk result (λ n. (c : Tree) × Accepts registry.now limits.now (shape_of format.now) bytes.now n c) }
    ensures only { (n : ℕ) (c : Tree) → Accepts registry.now limits.now (shape_of format.now) bytes.now n c → result ≡ Ok n }
    ensures stops { IfErr result (λ stop. Stops registry.now limits.now (shape_of format.now) bytes.now stop.reason stop.place) }
    ensures stopped { (e : Reason) (o : ℕ) → Stops registry.now limits.now (shape_of format.now) bytes.now e o → result ≡ Err (record { reason = e; place = o }) }
{
    let mut cursor = Cursor {
        rest: bytes,
        place: 0,
        nodes: limits.nodes(),
    };
    match value(registry, format, limits.depth(), &mut cursor) {
        Ok(()) => Ok(cursor.place as usize),
        Err(stop) => Err(stop),
    }
}
