//! Finds parts of values in slices.
ghost use Rattle.std.specs.Prelude.{◌≡◌, ℕ, Err, IfOk, IfErr, IsOk, map};
ghost use Rattle.bcs_registry_model.specs.Container.{of};
ghost use Rattle.bcs_registry_model.specs.View.{shape_of};
ghost use Rattle.bcs_registry_model.specs.WellFormed.{Admits};
ghost use Rattle.bcs_value_model.specs.Tree.{Tree};
ghost use Rattle.bcs_decode_spec.specs.declared.reason.Reason.{Reason};
ghost use Rattle.bcs_decode_spec.specs.Accepting.{Accepts};
ghost use Rattle.bcs_decode_spec.specs.Stopping.{Stops};
ghost use Rattle.bcs_decode_parts.specs.Parts.{part_at};
ghost use Rattle.bcs_decode_parts.specs.Steps.{GivesPart, step_of};

use crate::scanning::scan;
use bcs_decode_parts::ahead::Ahead;
use bcs_decode_parts::walking::walk;
use bcs_decode_parts::{Part, Step};
use bcs_decode_spec::Stop;
use bcs_registry::{Format, Registry};
use bcs_value::Limits;

/// Returns the part of a value that `path` leads to, as a slice of the input, or `None` if it leads nowhere. The value
/// is at the start of the input; what comes after it isn't read. Allocates nothing.
///
/// `Stop`: as for [`scan`](crate::scan). A part is returned only if the whole value is valid.
pub fn part<'a>(
    registry: &Registry,
    format: &Format,
    limits: &Limits,
    bytes: &'a [u8],
    path: &[Step],
) -> Result<Option<Part<'a>>, Stop>
    requires admitted { Admits registry.now (shape_of format.now) }
    ensures found { IfOk result (λ r. (n : ℕ) × (c : Tree) × Accepts registry.now limits.now (shape_of format.now) bytes.now n c
        × GivesPart registry.now bytes.now (part_at registry.now (map step_of path.now) (of (shape_of format.now)) c) r) }
    ensures only { (n : ℕ) (c : Tree) → Accepts registry.now limits.now (shape_of format.now) bytes.now n c → IsOk result }
    ensures stops { IfErr result (λ stop. Stops registry.now limits.now (shape_of format.now) bytes.now stop.reason stop.place) }
    ensures stopped { (e : Reason) (o : ℕ) → Stops registry.now limits.now (shape_of format.now) bytes.now e o → result ≡ Err (record { reason = e; place = o }) }
{
    scan(registry, format, limits, bytes)?;
    let ahead = Ahead {
        bytes,
        depth: limits.depth(),
        nodes: limits.nodes(),
    };
    Ok(walk(registry, format, &ahead, path))
}
