//! Reports the pieces of the value at the start of a slice.
ghost use Rattle.std.specs.Prelude.{◌≡◌, ℕ, [], false, Ok, Err, IfOk, IfErr, take};
ghost use Rattle.bcs_registry_model.specs.View.{shape_of};
ghost use Rattle.bcs_registry_model.specs.WellFormed.{Admits};
ghost use Rattle.bcs_value_model.specs.Tree.{Tree};
ghost use Rattle.bcs_decode_spec.specs.declared.reason.Reason.{Reason};
ghost use Rattle.bcs_decode_spec.specs.Accepting.{Accepts};
ghost use Rattle.bcs_decode_spec.specs.Stopping.{Stops};
ghost use Rattle.bcs_explain.specs.Covering.{CoversPrefix};

use crate::listener::Listener;
use crate::trail::Trail;
use crate::walking::value;
use bcs_decode_slice::cursor::Cursor;
use bcs_decode_spec::Stop;
use bcs_registry::{Format, Registry};
use bcs_value::Limits;

/// Reports each piece of the value of `format` at the start of the input to `out`, and returns the value's length in
/// bytes.
///
/// The pieces are all of the value's bytes, in order, without gap or overlap. If the bytes are invalid, the pieces are
/// a prefix of them, `out` receives the stop once and last, and the result is the same `Stop` as that of
/// `bcs_decode::scan`.
pub fn explain<T: Listener>(
    registry: &Registry,
    format: &Format,
    limits: &Limits,
    bytes: &[u8],
    out: &mut T,
) -> Result<usize, Stop>
    requires admitted { Admits registry.now (shape_of format.now) }
    ensures found { IfOk result (λ n. (c : Tree) × Accepts registry.now limits.now (shape_of format.now) bytes.now n c) }
    ensures only { (n : ℕ) (c : Tree) → Accepts registry.now limits.now (shape_of format.now) bytes.now n c → result ≡ Ok n }
    ensures stops { IfErr result (λ stop. Stops registry.now limits.now (shape_of format.now) bytes.now stop.reason stop.place) }
    ensures stopped { (e : Reason) (o : ℕ) → Stops registry.now limits.now (shape_of format.now) bytes.now e o → result ≡ Err (record { reason = e; place = o }) }
    ensures covered { T.heard out.old [] false → IfOk result (λ n. T.heard out.new (take n bytes.now) false) }
    ensures prefix { T.heard out.old [] false → IfErr result (λ _. CoversPrefix T.heard out.new bytes.now) }
{
    let mut cursor = Cursor {
        rest: bytes,
        place: 0,
        nodes: limits.nodes(),
    };
    value(
        registry,
        format,
        limits.depth(),
        &mut cursor,
        &Trail::Top,
        out,
    )?;
    Ok(cursor.place as usize)
}
